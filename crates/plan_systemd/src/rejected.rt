//! The calendar events that systemd 252 rejects, of those that agenda accepts.

ghost use Rattle.std.specs.Prelude.{◌≡◌, IfOk};
ghost use Rattle.std.specs.Option.{option_map};
ghost use Rattle.plan_grammar.specs.declared.component.Component.{Component};
ghost use Rattle.plan_grammar.specs.EventItems.{elements_of, item_lists};
ghost use Rattle.plan_systemd.specs.declared.flaw.Flaw.TheVariants.{Star, NeverFits};
ghost use Rattle.plan_systemd.specs.Flaws.{found_hint, hint_in};
ghost use Rattle.plan_systemd.specs.Rejection.{days_hint, elements_hint, event_hint, has_many, hint_if, in_each, many_hint, reason_hint, rejection_of, values_hint};

use crate::flaw::{Flaw, Flawed};
use crate::flaw_hint::flaw_hint;
use crate::late_days::has_late_days;
use crate::spacing::has_bad_blanks;
use plan_grammar::{
    Component, ComponentElements, EventItems, RuleCause, day_component, event_items,
};
use plan_match::DayCount;
use plan_texts::Text;
use std::alloc::{AllocError, Global};

/// The maximum number of elements of a component in systemd 252.
const MOST_ELEMENTS: usize = 241;

/// Why systemd 252 rejects an event.
#[derive(Clone, Copy)]
enum Reason<'a> {
    /// It has a tab, or a second blank before its zone.
    Blanks,
    /// A component has too many elements.
    Many,
    /// Its days are too far from the end of the month.
    LateDays,
    /// An element has a flaw.
    Element(Flawed<'a>),
}

// Returns the first element that begins with `*` beside others.
#[tactic(auto, using(crate::proofs::HintLemmas::hint_of_or))]
fn star_in<'a>(items: &EventItems<'a>) -> Option<Flawed<'a>>
    ensures { option_map found_hint result
        ≡ in_each (λ component. hint_in (Star component)) (item_lists items.now) }
{
    let days = day_component(items.count);
    Flaw::Star(Component::Year)
        .find_in(&items.years)
        .or(Flaw::Star(Component::Month).find_in(&items.months))
        .or(Flaw::Star(days).find_in(&items.days))
        .or(Flaw::Star(Component::Hour).find_in(&items.hours))
        .or(Flaw::Star(Component::Minute).find_in(&items.minutes))
        .or(Flaw::Star(Component::Second).find_in(&items.seconds))
}

// Returns the first element with a step that never fits.
#[tactic(auto, using(crate::proofs::HintLemmas::hint_of_or))]
fn unfit_in<'a>(items: &EventItems<'a>) -> Option<Flawed<'a>>
    ensures { option_map found_hint result
        ≡ in_each (λ component. hint_in (NeverFits component)) (item_lists items.now) }
{
    let days = day_component(items.count);
    Flaw::NeverFits(Component::Year)
        .find_in(&items.years)
        .or(Flaw::NeverFits(Component::Month).find_in(&items.months))
        .or(Flaw::NeverFits(days).find_in(&items.days))
        .or(Flaw::NeverFits(Component::Hour).find_in(&items.hours))
        .or(Flaw::NeverFits(Component::Minute).find_in(&items.minutes))
        .or(Flaw::NeverFits(Component::Second).find_in(&items.seconds))
}

// Returns whether a component has too many elements.
fn has_many(elements: &ComponentElements<'_>) -> bool
    ensures { result ≡ has_many (elements_of elements.now) }
{
    elements.items.len() > MOST_ELEMENTS
}

// Returns whether a component of an event has too many elements.
fn is_long(items: &EventItems<'_>) -> bool
    ensures { hint_if result many_hint
        ≡ in_each (λ component elements. hint_if (has_many elements) many_hint) (item_lists items.now) }
{
    has_many(&items.years)
        || has_many(&items.months)
        || has_many(&items.days)
        || has_many(&items.hours)
        || has_many(&items.minutes)
        || has_many(&items.seconds)
}

// Returns why systemd rejects days from the end of the month.
fn days_rejection<'a>(items: &EventItems<'a>) -> Option<Reason<'a>>
    ensures { option_map reason_hint result
        ≡ days_hint (item_lists items.now).count (item_lists items.now).days }
{
    if items.count == DayCount::FromStart {
        return None;
    }
    if let Some(found) = Flaw::Backwards.find_in(&items.days) {
        return Some(Reason::Element(found));
    }
    if items.days.text != b"*".as_slice() && has_late_days(items.days.items.as_slice()) {
        return Some(Reason::LateDays);
    }
    None
}

// Returns the first step, year or second that systemd rejects.
#[tactic(auto, using(crate::proofs::HintLemmas::hint_of_or))]
fn value_in<'a>(items: &EventItems<'a>) -> Option<Flawed<'a>>
    ensures { option_map found_hint result ≡ values_hint (item_lists items.now) }
{
    unfit_in(items)
        .or(Flaw::LateYear.find_in(&items.years))
        .or(Flaw::OneSecond.find_in(&items.seconds))
        .or(Flaw::LongStep.find_in(&items.seconds))
}

// Returns why systemd rejects the elements of an event, by the first reason.
fn elements_rejection<'a>(items: &EventItems<'a>) -> Option<Reason<'a>>
    ensures { option_map reason_hint result ≡ elements_hint (item_lists items.now) }
{
    if let Some(found) = star_in(items) {
        return Some(Reason::Element(found));
    }
    if is_long(items) {
        return Some(Reason::Many);
    }
    if let Some(found) = value_in(items) {
        return Some(Reason::Element(found));
    }
    days_rejection(items)
}

// Returns why systemd rejects an event with this text and these elements.
fn first_reason<'a>(text: &str, items: &EventItems<'a>) -> Option<Reason<'a>>
    ensures { option_map reason_hint result ≡ event_hint text.now (item_lists items.now) }
{
    if has_bad_blanks(text.as_bytes()) {
        return Some(Reason::Blanks);
    }
    elements_rejection(items)
}

// Returns what to do about an event that systemd rejects.
fn reason_hint(alloc: Global, why: Reason<'_>) -> Result<Text, AllocError>
    ensures { IfOk result (λ hint. hint ≡ reason_hint why.entry) }
{
    let hint = match why {
        Reason::Blanks => "write one space between words",
        Reason::Many => "more than 241 elements",
        Reason::LateDays => "days after ~ end at 28, in a list at 25, 22, ..",
        Reason::Element(found) => return Ok(Text::new(flaw_hint(alloc, found)?)),
    };
    Ok(Text::new(String::from_str(alloc, hint)?))
}

/// Returns what to do about an event with this text and these elements, if systemd rejects it.
///
/// # Errors
///
/// `AllocError` if an allocation fails.
pub(crate) fn event_rejection(
    alloc: Global,
    text: &str,
    items: &EventItems<'_>,
) -> Result<Option<Text>, AllocError>
    ensures { IfOk result (λ hint. hint ≡ event_hint text.now (item_lists items.now)) }
{
    match first_reason(text, items) {
        Some(why) => Ok(Some(reason_hint(alloc, why)?)),
        None => Ok(None),
    }
}

/// Returns why systemd 252 rejects an event that agenda accepts, by what to do about it, such as `write 0/15 for */15`.
/// Returns `None` if systemd accepts it.
///
/// # Errors
///
/// `AllocError` if an allocation fails.
pub fn rejection(alloc: Global, text: &str) -> Result<Option<Text>, AllocError>
    ensures { IfOk result (λ hint. hint ≡ rejection_of text.now) }
{
    match event_items(alloc, text) {
        Ok(items) => event_rejection(alloc, text, &items),
        Err(fault) => match fault.cause {
            RuleCause::NoMemory => Err(AllocError),
            _ => Ok(None),
        },
    }
}
