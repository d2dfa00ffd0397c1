//! Parses calendar events (systemd.time(7)).

ghost use Rattle.std.specs.Prelude.{◌≡◌, ◌↔◌, IfErr, IfOk, IsTrue, map};
ghost use Rattle.std.specs.Char.{is_ascii, is_ascii_alphabetic};
ghost use Rattle.std.specs.List.{list_all};
ghost use Rattle.std.specs.Option.{option_map};
ghost use Rattle.plan_grammar.specs.EventZones.{name_in_database};
ghost use Rattle.plan_grammar.specs.Readings.{Gives};
ghost use Rattle.plan_grammar.specs.Shape.{shape_text};
ghost use Rattle.plan_texts.specs.Text.{words};
ghost use Rattle.plan_match.specs.WithinLimits.{EventIsWithinLimits, RuleIsWithinLimits};
ghost use Rattle.plan_grammar.specs.Event.{weekdays_if_given, day_component, event_of, spelled_out, zone_cut, zone_name, in_own_zone, expression_of, is_unknown_word, zoneless, words_reading, has_specifier, event_reading, event_rule_reading};

use crate::component::Component;
use crate::event_zones::{EventZones, is_utc};
use crate::fault::{RuleCause, RuleFault};
use crate::shape::{Shape, shape_of};
use crate::weekdays::{weekday_of, weekdays};
use plan_clock::Clock;
use plan_match::{Calendar, DayCount, Events, Rule};
use plan_sets::ValueSet;
use plan_texts::{begins_with_letter, words};
use std::alloc::{AllocError, Global};

/// Parses a calendar event (systemd.time(7)).
///
/// The text has weekdays, a date, a time of day and a time zone: `UTC`, in upper or lower case, or one of `zones`. Each
/// may be missing. Instead of weekdays, date and time, it may have one of the words `minutely`, `hourly`, `daily`,
/// `weekly`, `monthly`, `quarterly`, `semiannually`, `yearly` and `annually`.
///
/// # Errors
///
/// The first of these, with its part:
///
/// - `Specifier`, part 0: a `%` anywhere.
/// - `WrongParts`, part 0: no word.
/// - `Zone` or `UnknownZone`, part 8: there are several words, and the last begins with a letter, but isn't `UTC` nor
///   one of the zones. It is `Zone` if events may name no zone but UTC.
/// - `UnknownWord`, part 0: one word of letters only, which is neither one of those words nor a weekday.
/// - `WrongParts`, part 0: any other shape.
/// - The errors of the weekdays, part 1, and then of the year, month, day, hour, minute and second, parts 2
///   to 7.
///
/// In each part, the first element with an invalid form decides. `WrongParts` is an empty name, value or step,
/// or a step after `*` in days from the end of the month. `BadName` is an unknown weekday. `Fraction` is a
/// second, or its step, that contains a `.`. `BadNumber` is any other value or step that isn't 1 to 4 digits.
/// If all forms are valid, `Values` has the error that `plan_sets::set_of` finds in the items. But a range of
/// days from the end of the month may run in either direction.
///
/// `NoMemory`, part 0, means that an allocation failed. It can come before an error that isn't found yet.
pub fn calendar_event(alloc: Global, text: &str, zones: &EventZones) -> Result<Calendar, RuleFault>
    ensures meaning { Gives result (event_reading zones.now text.now) }
    ensures within { IfOk result EventIsWithinLimits }
    // A specifier is found before any memory is requested.
    ensures specifier { (result ≡ Err (record { part = 0; cause = RuleCause.Specifier }))
        ↔ IsTrue (has_specifier text.now) }
    ensures memory { IfErr result (λ fault. fault.cause ≡ RuleCause.NoMemory → fault.part ≡ 0) }
{
    if text.as_bytes().contains(&b'%') {
        return Err(RuleFault {
            part: 0,
            cause: RuleCause::Specifier,
        });
    }
    let words = words(alloc, text.as_bytes())?;
    event_of_words(alloc, words.as_slice(), zones)
}

/// Returns the rule of one calendar event, which may name these zones.
///
/// # Errors
///
/// Those of `calendar_event`.
pub fn calendar_rule(alloc: Global, text: &str, zones: &EventZones) -> Result<Rule, RuleFault>
    ensures meaning { Gives result (event_rule_reading zones.now text.now) }
    ensures within { IfOk result RuleIsWithinLimits }
    ensures specifier { (result ≡ Err (record { part = 0; cause = RuleCause.Specifier }))
        ↔ IsTrue (has_specifier text.now) }
    ensures memory { IfErr result (λ fault. fault.cause ≡ RuleCause.NoMemory → fault.part ≡ 0) }
{
    let event = calendar_event(alloc, text, zones)?;
    Ok(Rule::Events(Events::one(alloc, event)?))
}

/// Returns the name of the time zone that the text of a calendar event ends with, if it is to be looked up in the time
/// zone database (systemd.time(7)). Returns `None` for UTC, and for a text that ends with no zone.
///
/// The rest of the text isn't checked, nor whether the database has such a zone.
///
/// # Errors
///
/// `AllocError` if an allocation fails.
pub fn zone_name(alloc: Global, text: &str) -> Result<Option<&str>, AllocError>
    ensures { IfOk result (λ name. option_map (λ name. name.now) name ≡ zone_name text.now) }
{
    let words = words(alloc, text.as_bytes())?;
    match cut_zone(words.as_slice()) {
        (_, Some(zone)) => Ok(name_in_database(zone)),
        (_, None) => Ok(None),
    }
}

// Returns the name by which a zone is looked up in the time zone database, where names are ASCII.
fn name_in_database(zone: &[u8]) -> Option<&str>
    ensures { option_map (λ name. name.now) result ≡ name_in_database zone.now }
{
    if is_utc(zone) || !is_ascii(zone) {
        return None;
    }
    match str::from_utf8(zone) {
        Ok(name) => Some(name),
        Err(_) => None,
    }
}

// Returns whether a word has only ASCII characters.
fn is_ascii(word: &[u8]) -> bool
    ensures { result ≡ list_all is_ascii word.now }
{
    word.iter().all(|byte| byte.is_ascii())
}

// Parses the words of an event, which may name these zones.
#[tactic(auto, unfolding(crate::specs::Event::words_reading))]
fn event_of_words(alloc: Global, words: &[&[u8]], zones: &EventZones) -> Result<Calendar, RuleFault>
    ensures { Gives result (words_reading zones.now (map (λ word. word.now) words.now)) }
{
    let (left, zone) = cut_zone(words);
    let Some(zone) = zone else {
        return zoneless(alloc, left);
    };
    let clock = zones.clock(zone)?;
    let event = zoneless(alloc, left)?;
    Ok(in_own_zone(event, clock))
}

// Returns the event with the clock of the zone that it names.
fn in_own_zone(event: Calendar, clock: Clock) -> Calendar
    ensures { result ≡ in_own_zone clock event }
{
    Calendar {
        names_zone: true,
        clock,
        ..event
    }
}

// Returns the words without the zone, and the zone. The last word is a zone if it isn't the first word and begins with a
// letter.
#[tactic(auto, unfolding(crate::specs::Event::zone_cut))]
pub(crate) fn cut_zone<'w, 't>(words: &'w [&'t [u8]]) -> (&'w [&'t [u8]], Option<&'t [u8]>)
    ensures { (map (λ word. word.now) result.0.now, option_map (λ zone. zone.now) result.1)
        ≡ zone_cut (map (λ word. word.now) words.now) }
{
    let [before @ .., zone] = words else {
        return (words, None);
    };
    if before.is_empty() || !begins_with_letter(zone) {
        return (words, None);
    }
    (before, Some(*zone))
}

// Parses words without a zone. A single word may abbreviate an expression.
#[tactic(auto, unfolding(crate::specs::Event::zoneless))]
fn zoneless(alloc: Global, words: &[&[u8]]) -> Result<Calendar, RuleFault>
    ensures { Gives result (zoneless (map (λ word. word.now) words.now)) }
{
    let [word] = words else {
        return spelled_out(alloc, words);
    };
    if let Some(expression) = expression_of(word) {
        return event_of_expression(alloc, expression);
    }
    if is_unknown_word(word) {
        return Err(RuleFault {
            part: 0,
            cause: RuleCause::UnknownWord,
        });
    }
    spelled_out(alloc, words)
}

// Parses the expression that a word abbreviates.
fn event_of_expression(alloc: Global, expression: &[u8]) -> Result<Calendar, RuleFault>
    ensures { Gives result (spelled_out (words expression.now)) }
{
    let words = words(alloc, expression)?;
    spelled_out(alloc, words.as_slice())
}

/// Returns the expression that a word such as `daily` abbreviates. Upper and lower case are the same.
#[tactic(auto, unfolding(crate::specs::Event::expression_of))]
pub fn expression_of(word: &[u8]) -> Option<&'static [u8]>
    ensures { option_map (λ text. text.now) result ≡ expression_of word.now }
{
    if word.eq_ignore_ascii_case(b"minutely") {
        Some(b"*-*-* *:*:00")
    } else if word.eq_ignore_ascii_case(b"hourly") {
        Some(b"*-*-* *:00:00")
    } else if word.eq_ignore_ascii_case(b"daily") {
        Some(b"*-*-* 00:00:00")
    } else if word.eq_ignore_ascii_case(b"weekly") {
        Some(b"Mon *-*-* 00:00:00")
    } else if word.eq_ignore_ascii_case(b"monthly") {
        Some(b"*-*-01 00:00:00")
    } else if word.eq_ignore_ascii_case(b"quarterly") {
        Some(b"*-01,04,07,10-01 00:00:00")
    } else if word.eq_ignore_ascii_case(b"semiannually") {
        Some(b"*-01,07-01 00:00:00")
    } else if word.eq_ignore_ascii_case(b"yearly") || word.eq_ignore_ascii_case(b"annually") {
        Some(b"*-01-01 00:00:00")
    } else {
        None
    }
}

// Returns whether a word has only letters and isn't a weekday.
fn is_unknown_word(word: &[u8]) -> bool
    ensures { result ≡ is_unknown_word word.now }
{
    is_of_letters(word) && weekday_of(word).is_none()
}

// Returns whether a word has only ASCII letters.
fn is_of_letters(word: &[u8]) -> bool
    ensures { result ≡ list_all is_ascii_alphabetic word.now }
{
    word.iter().all(|byte| byte.is_ascii_alphabetic())
}

// Parses words that spell out an event.
#[tactic(auto, unfolding(crate::specs::Event::spelled_out))]
fn spelled_out(alloc: Global, words: &[&[u8]]) -> Result<Calendar, RuleFault>
    ensures { Gives result (spelled_out (map (λ word. word.now) words.now)) }
{
    let shape = shape_of(alloc, words)?;
    event_of(alloc, shape)
}

// Returns the event of a shape.
#[tactic(auto, unfolding(crate::specs::Event::event_of))]
fn event_of(alloc: Global, shape: Shape<'_>) -> Result<Calendar, RuleFault>
    ensures { Gives result (event_of (shape_text shape.entry)) }
{
    let weekdays = weekdays_if_given(alloc, shape.weekdays)?;
    Ok(Calendar {
        years: Component::Year.values(alloc, shape.date.year)?,
        months: Component::Month.values(alloc, shape.date.month)?,
        days: day_component(shape.date.count).values(alloc, shape.date.day)?,
        day_count: shape.date.count,
        hours: Component::Hour.values(alloc, shape.time.hour)?,
        minutes: Component::Minute.values(alloc, shape.time.minute)?,
        seconds: Component::Second.values(alloc, shape.time.second)?,
        weekdays,
        names_zone: false,
        clock: Clock::utc(),
    })
}

// Returns the weekdays, if there is a weekday part.
fn weekdays_if_given(alloc: Global, text: Option<&[u8]>) -> Result<Option<ValueSet>, RuleFault>
    ensures { Gives result (weekdays_if_given (option_map (λ text. text.now) text.entry)) }
{
    let Some(text) = text else {
        return Ok(None);
    };
    Ok(Some(weekdays(alloc, text)?))
}

/// Returns the component that reads the days: they count from the start or from the end of the month.
pub fn day_component(count: DayCount) -> Component
    ensures { result ≡ day_component count }
{
    match count {
        DayCount::FromStart => Component::Day,
        DayCount::FromEnd => Component::Place,
    }
}
