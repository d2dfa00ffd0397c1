//! How times are said.

ghost use Rattle.std.specs.Prelude.{◌≡◌, ◌++◌, OnOk};
ghost use Rattle.std.specs.List.{list_any};
ghost use Rattle.plan_words.specs.Sentence.{every, has_second, has_second_within, lead_words, of_hours, of_minutes, of_minutes_and_hours, time_words, unit_items, windows_words};
ghost use Rattle.plan_words.specs.Tree.{HourList};
ghost use Rattle.plan_words.specs.View.{hours_of, lead_of, some_values_of, time_of};

use crate::lists::{Clocks, Naming, PlainNumbers, is_one, say_list};
use crate::names::TimeUnit;
use crate::tree::{Hours, Lead, Span, Time, TimeOfDay, Values, Window};
use crate::words::{Keyword, Word};
use std::alloc::AllocError;

/// Appends the words of a time.
///
/// # Errors
///
/// `AllocError` if an allocation fails.
pub fn say_time(time: &Time, out: &mut Vec<Word>) -> Result<(), AllocError>
    ensures { OnOk result (out.new.items ≡ out.old.items ++ time_words (time_of time.now)) }
{
    match time {
        Time::Listed(times) => {
            out.push(Word::Key(Keyword::At))?;
            let seconds = have_seconds(times.as_slice());
            say_list(&Clocks { seconds }, times.as_slice(), out)
        }
        Time::WholeDay { count, unit } => say_every(*count, *unit, out),
        Time::Windows {
            count,
            unit,
            windows,
        } => {
            say_every(*count, *unit, out)?;
            say_windows(windows.as_slice(), out)
        }
        Time::Minutes { lead, hours } => {
            say_lead(TimeUnit::Minute, lead, out)?;
            say_hours(hours, out)
        }
        Time::Seconds {
            lead,
            minutes,
            hours,
        } => {
            say_lead(TimeUnit::Second, lead, out)?;
            say_minutes_and_hours(minutes, hours, out)
        }
    }
}

// Appends `every unit` or `every n units`.
fn say_every(n: u16, unit: TimeUnit, out: &mut Vec<Word>) -> Result<(), AllocError>
    ensures { OnOk result (out.new.items ≡ out.old.items ++ every n unit) }
{
    if n == 1 {
        out.extend_from_slice(&[Word::Key(Keyword::Every), Word::OneUnit(unit)])
    } else {
        out.extend_from_slice(&[
            Word::Key(Keyword::Every),
            Word::Number(n),
            Word::ManyUnits(unit),
        ])
    }
}

// Appends a unit, then its numbers.
fn say_unit_items(unit: TimeUnit, spans: &[Span], out: &mut Vec<Word>) -> Result<(), AllocError>
    ensures { OnOk result (out.new.items ≡ out.old.items ++ unit_items unit spans.now) }
{
    if is_one(spans) {
        out.push(Word::OneUnit(unit))?;
    } else {
        out.push(Word::ManyUnits(unit))?;
    }
    say_list(&Naming::Numbers, spans, out)
}

// Appends the smallest unit.
fn say_lead(unit: TimeUnit, lead: &Lead, out: &mut Vec<Word>) -> Result<(), AllocError>
    ensures { OnOk result (out.new.items ≡ out.old.items ++ lead_words unit (lead_of lead.now)) }
{
    match lead {
        Lead::Cycle(n) => say_every(*n, unit, out),
        Lead::Among(Values::Steps { first, last, step }) => {
            say_every(*step, unit, out)?;
            out.extend_from_slice(&[
                Word::Key(Keyword::From),
                Word::OneUnit(unit),
                Word::Number(*first),
                Word::Key(Keyword::To),
                Word::Number(*last),
            ])
        }
        Lead::Among(Values::Items(spans)) => {
            out.push(Word::Key(Keyword::At))?;
            say_unit_items(unit, spans.as_slice(), out)
        }
    }
}

// Appends the minutes after the seconds.
fn say_minutes(minutes: &Option<Values>, out: &mut Vec<Word>) -> Result<(), AllocError>
    ensures { OnOk result (out.new.items ≡ out.old.items ++ of_minutes (some_values_of minutes.now)) }
{
    out.push(Word::Key(Keyword::Of))?;
    match minutes {
        None => out.extend_from_slice(&[
            Word::Key(Keyword::Every),
            Word::OneUnit(TimeUnit::Minute),
        ]),
        Some(Values::Steps { first, last, step }) => out.extend_from_slice(&[
            Word::Key(Keyword::Every),
            Word::Ordinal(*step),
            Word::OneUnit(TimeUnit::Minute),
            Word::Key(Keyword::From),
            Word::Number(*first),
            Word::Key(Keyword::To),
            Word::Number(*last),
        ]),
        Some(Values::Items(spans)) => say_unit_items(TimeUnit::Minute, spans.as_slice(), out),
    }
}

// Appends the hours after the minutes.
fn say_hours(hours: &Hours, out: &mut Vec<Word>) -> Result<(), AllocError>
    ensures { OnOk result (out.new.items ≡ out.old.items ++ of_hours (hours_of hours.now)) }
{
    match hours {
        Hours::All => out.extend_from_slice(&[
            Word::Key(Keyword::Of),
            Word::Key(Keyword::Every),
            Word::OneUnit(TimeUnit::Hour),
        ]),
        Hours::Steps { first, last, step } => {
            out.extend_from_slice(&[Word::Key(Keyword::Of), Word::Key(Keyword::Every)])?;
            if *step != 1 {
                out.push(Word::Ordinal(*step))?;
            }
            out.extend_from_slice(&[
                Word::OneUnit(TimeUnit::Hour),
                Word::Key(Keyword::From),
                Word::Clock(*first, 0),
                Word::Key(Keyword::To),
                Word::Clock(*last, 59),
            ])
        }
        Hours::List(list) => say_hour_list(list.as_slice(), out),
    }
}

// Appends single hours.
fn say_hour_list(list: &[u16], out: &mut Vec<Word>) -> Result<(), AllocError>
    ensures { OnOk result (out.new.items ≡ out.old.items ++ of_hours (HourList list.now)) }
{
    match list {
        [] => Ok(()),
        [hour] => out.extend_from_slice(&[
            Word::Key(Keyword::Of),
            Word::OneUnit(TimeUnit::Hour),
            Word::Number(*hour),
        ]),
        _ => {
            out.extend_from_slice(&[Word::Key(Keyword::Of), Word::ManyUnits(TimeUnit::Hour)])?;
            say_list(&PlainNumbers, list, out)
        }
    }
}

// Appends the minutes and hours after the seconds.
fn say_minutes_and_hours(
    minutes: &Option<Values>,
    hours: &Hours,
    out: &mut Vec<Word>,
) -> Result<(), AllocError>
    ensures { OnOk result (out.new.items ≡ out.old.items ++ of_minutes_and_hours (some_values_of minutes.now) (hours_of hours.now)) }
{
    say_minutes(minutes, out)?;
    if minutes.is_none() && matches!(hours, Hours::All) {
        return Ok(());
    }
    say_hours(hours, out)
}

// Returns whether a time of day isn't at second 0.
fn have_seconds(times: &[TimeOfDay]) -> bool
    ensures { result ≡ list_any has_second times.now }
{
    times.iter().any(|time| time.second != 0)
}

// Appends windows.
fn say_windows(windows: &[Window], out: &mut Vec<Word>) -> Result<(), AllocError>
    ensures { OnOk result (out.new.items ≡ out.old.items ++ windows_words windows.now) }
{
    let seconds = windows_have_seconds(windows);
    say_list(&Clocks { seconds }, windows, out)
}

// Returns whether a window doesn't begin or end at second 0.
fn windows_have_seconds(windows: &[Window]) -> bool
    ensures { result ≡ list_any has_second_within windows.now }
{
    windows
        .iter()
        .any(|w| w.first.second != 0 || w.last.second != 0)
}
