//! Parses the weekday part of a calendar event (systemd.time(7)).

ghost use Rattle.std.specs.Prelude.{◌≡◌};
ghost use Rattle.plan_grammar.specs.Readings.{Gives, GivesBy};
ghost use Rattle.plan_grammar.specs.Event.{names_weekday, weekday_of, weekday_reading, weekday_item, without_comma, weekday_items, weekdays_reading};

use crate::fault::{RuleCause, RuleFault};
use plan_sets::{Item, ValueSet, set_of};
use plan_texts::cut;
use std::alloc::Global;

/// The part of the text that has the weekdays.
const WEEKDAY_PART: u8 = 1;

// Returns an error of the weekday part.
fn weekday_fault(cause: RuleCause) -> RuleFault
    ensures part { result.part ≡ 1 }
    ensures cause { result.cause ≡ cause }
{
    RuleFault {
        part: WEEKDAY_PART,
        cause,
    }
}

// Returns whether a name is a weekday's full name or its first three letters. Upper and lower case are the same.
fn names_weekday(name: &[u8], full: &[u8]) -> bool
    ensures { result ≡ names_weekday name.now full.now }
{
    name.eq_ignore_ascii_case(full) || full.len() >= 3 && name.eq_ignore_ascii_case(&full[..3])
}

/// Returns the weekday of a name, from 0 for Monday, or `None` if it isn't a weekday.
#[tactic(auto, unfolding(crate::specs::Event::weekday_of))]
pub fn weekday_of(name: &[u8]) -> Option<u16>
    ensures { result ≡ weekday_of name.now }
{
    if names_weekday(name, b"monday") {
        Some(0)
    } else if names_weekday(name, b"tuesday") {
        Some(1)
    } else if names_weekday(name, b"wednesday") {
        Some(2)
    } else if names_weekday(name, b"thursday") {
        Some(3)
    } else if names_weekday(name, b"friday") {
        Some(4)
    } else if names_weekday(name, b"saturday") {
        Some(5)
    } else if names_weekday(name, b"sunday") {
        Some(6)
    } else {
        None
    }
}

// Reads a name in the weekday part.
#[tactic(auto, unfolding(crate::specs::Event::weekday_reading))]
fn weekday(name: &[u8]) -> Result<u16, RuleFault>
    ensures { result ≡ weekday_reading name.now }
{
    if name.is_empty() {
        return Err(weekday_fault(RuleCause::WrongParts));
    }
    weekday_of(name).ok_or(weekday_fault(RuleCause::BadName))
}

// Reads a name, or two names with the first `..` between them.
#[tactic(auto, unfolding(crate::specs::Event::weekday_item))]
fn weekday_item(text: &[u8]) -> Result<Item, RuleFault>
    ensures { result ≡ weekday_item text.now }
{
    let Some((first, last)) = cut(text, b"..") else {
        return Ok(Item::One(weekday(text)?));
    };
    let first = weekday(first)?;
    let last = weekday(last)?;
    Ok(Item::Range(first, last, 1))
}

// Returns the text without a comma at its end.
fn without_comma(text: &[u8]) -> &[u8]
    ensures { result.now ≡ without_comma text.now }
{
    text.strip_suffix(b",").unwrap_or(text)
}

// Reads the items of the weekday part, which commas separate.
#[tactic(auto, unfolding(crate::specs::Event::weekday_items))]
fn weekday_items(alloc: Global, text: &[u8]) -> Result<Vec<Item>, RuleFault>
    ensures { GivesBy (λ items. items.items) result (weekday_items text.now) }
{
    let mut items = Vec::new(alloc);
    for element in without_comma(text).split(|byte| *byte == b',') {
        items.push(weekday_item(element)?)?;
    }
    Ok(items)
}

/// Returns the weekdays that the weekday part stands for, from 0 for Monday to 6 for Sunday.
///
/// # Errors
///
/// Those that `calendar_event` describes for the weekdays.
#[tactic(auto, unfolding(crate::specs::Event::weekdays_reading))]
pub fn weekdays(alloc: Global, text: &[u8]) -> Result<ValueSet, RuleFault>
    ensures { Gives result (weekdays_reading text.now) }
{
    let items = weekday_items(alloc, text)?;
    match set_of(items.as_slice(), 0, 6) {
        Ok(values) => Ok(values),
        Err(fault) => Err(weekday_fault(RuleCause::Values(fault))),
    }
}
