//! The shape of a calendar event: which of its words, and which pieces of them, are its components (systemd.time(7)).

ghost use Rattle.std.specs.Prelude.{◌≡◌, map};
ghost use Rattle.std.specs.Option.{option_map};
ghost use Rattle.plan_grammar.specs.Readings.{GivesBy};
ghost use Rattle.plan_grammar.specs.Shape.{date_text, time_text, shape_text, date_from_start, date_from_end, date_reading, time_of_pieces, time_reading, every_day, midnight, is_time, one_word, two_words, dated, shape_reading};

use crate::fault::{RuleCause, RuleFault};
use plan_match::DayCount;
use plan_texts::{begins_with_letter, cut, pieces};
use std::alloc::Global;

/// The components of a date, as they are written.
#[derive(Clone, Copy)]
pub struct Date<'a> {
    pub year: &'a [u8],
    pub month: &'a [u8],
    pub day: &'a [u8],
    pub count: DayCount,
}

/// The components of a time of day, as they are written.
#[derive(Clone, Copy)]
pub struct Time<'a> {
    pub hour: &'a [u8],
    pub minute: &'a [u8],
    pub second: &'a [u8],
}

/// The parts of a calendar event, as they are written.
#[derive(Clone, Copy)]
pub struct Shape<'a> {
    /// The weekday part, if there is one.
    pub weekdays: Option<&'a [u8]>,
    pub date: Date<'a>,
    pub time: Time<'a>,
}

// Returns the error of words that don't have the shape of an event.
fn shapeless() -> RuleFault
    ensures part { result.part ≡ 0 }
    ensures cause { result.cause ≡ RuleCause.WrongParts }
{
    RuleFault {
        part: 0,
        cause: RuleCause::WrongParts,
    }
}

// Reads the pieces of a date: month and day, or year, month and day.
fn date_from_start<'a>(pieces: &[&'a [u8]]) -> Result<Date<'a>, RuleFault>
    ensures { GivesBy date_text result (date_from_start (map (λ piece. piece.now) pieces.now)) }
{
    match pieces {
        [month, day] => Ok(Date {
            year: b"*",
            month,
            day,
            count: DayCount::FromStart,
        }),
        [year, month, day] => Ok(Date {
            year,
            month,
            day,
            count: DayCount::FromStart,
        }),
        _ => Err(shapeless()),
    }
}

// Reads a date whose day is counted from the end of the month. `pieces` are a month, or a year and a month.
fn date_from_end<'a>(pieces: &[&'a [u8]], day: &'a [u8]) -> Result<Date<'a>, RuleFault>
    ensures { GivesBy date_text result
        (date_from_end (map (λ piece. piece.now) pieces.now) day.now) }
{
    match pieces {
        [month] => Ok(Date {
            year: b"*",
            month,
            day,
            count: DayCount::FromEnd,
        }),
        [year, month] => Ok(Date {
            year,
            month,
            day,
            count: DayCount::FromEnd,
        }),
        _ => Err(shapeless()),
    }
}

// Reads a date. If it has a `~`, it is cut at the first one.
#[tactic(auto, unfolding(crate::specs::Shape::date_reading))]
fn date_of(alloc: Global, text: &[u8]) -> Result<Date<'_>, RuleFault>
    ensures { GivesBy date_text result (date_reading text.now) }
{
    let Some((front, day)) = cut(text, b"~") else {
        let parts = pieces(alloc, text, b'-')?;
        return date_from_start(parts.as_slice());
    };
    let parts = pieces(alloc, front, b'-')?;
    date_from_end(parts.as_slice(), day)
}

// Reads the pieces of a time of day: hour and minute, or hour, minute and second.
fn time_of_pieces<'a>(pieces: &[&'a [u8]]) -> Result<Time<'a>, RuleFault>
    ensures { GivesBy time_text result (time_of_pieces (map (λ piece. piece.now) pieces.now)) }
{
    match pieces {
        [hour, minute] => Ok(Time {
            hour,
            minute,
            second: b"00",
        }),
        [hour, minute, second] => Ok(Time {
            hour,
            minute,
            second,
        }),
        _ => Err(shapeless()),
    }
}

// Reads a time of day.
#[tactic(auto, unfolding(crate::specs::Shape::time_reading))]
fn time_of(alloc: Global, text: &[u8]) -> Result<Time<'_>, RuleFault>
    ensures { GivesBy time_text result (time_reading text.now) }
{
    let parts = pieces(alloc, text, b':')?;
    time_of_pieces(parts.as_slice())
}

// Returns the date that a missing date stands for.
fn every_day() -> Date<'static>
    ensures { date_text result ≡ every_day }
{
    Date {
        year: b"*",
        month: b"*",
        day: b"*",
        count: DayCount::FromStart,
    }
}

// Returns the time that a missing time stands for.
fn midnight() -> Time<'static>
    ensures { time_text result ≡ midnight }
{
    Time {
        hour: b"00",
        minute: b"00",
        second: b"00",
    }
}

// Returns whether a word is a time, not a date.
fn is_time(word: &[u8]) -> bool
    ensures { result ≡ is_time word.now }
{
    word.contains(&b':')
}

// Reads the date and the time in the words after the weekday part. At most two words are allowed.
#[tactic(auto, unfolding(crate::specs::Shape::dated))]
fn dated<'a>(
    alloc: Global,
    weekdays: Option<&'a [u8]>,
    words: &[&'a [u8]],
) -> Result<Shape<'a>, RuleFault>
    ensures { GivesBy shape_text result
        (dated (option_map (λ text. text.now) weekdays.entry) (map (λ word. word.now) words.now)) }
{
    match words {
        [] => Ok(Shape {
            weekdays,
            date: every_day(),
            time: midnight(),
        }),
        [word] => one_word(alloc, weekdays, word),
        [first, second] => two_words(alloc, weekdays, first, second),
        _ => Err(shapeless()),
    }
}

// Reads the one word after the weekday part: a date or a time.
fn one_word<'a>(
    alloc: Global,
    weekdays: Option<&'a [u8]>,
    word: &'a [u8],
) -> Result<Shape<'a>, RuleFault>
    ensures { GivesBy shape_text result
        (one_word (option_map (λ text. text.now) weekdays.entry) word.now) }
{
    if is_time(word) {
        let time = time_of(alloc, word)?;
        return Ok(Shape {
            weekdays,
            date: every_day(),
            time,
        });
    }
    let date = date_of(alloc, word)?;
    Ok(Shape {
        weekdays,
        date,
        time: midnight(),
    })
}

// Reads the two words after the weekday part: a date and then a time.
fn two_words<'a>(
    alloc: Global,
    weekdays: Option<&'a [u8]>,
    first: &'a [u8],
    second: &'a [u8],
) -> Result<Shape<'a>, RuleFault>
    ensures { GivesBy shape_text result
        (two_words (option_map (λ text. text.now) weekdays.entry) first.now second.now) }
{
    if is_time(first) || !is_time(second) {
        return Err(shapeless());
    }
    let date = date_of(alloc, first)?;
    let time = time_of(alloc, second)?;
    Ok(Shape {
        weekdays,
        date,
        time,
    })
}

/// Returns the shape of an event's words, without its zone.
///
/// A first word that begins with a letter is the weekday part. After it comes a date, a time, a date and then a
/// time, or nothing. A time contains a `:`. Other missing parts have defaults.
///
/// # Errors
///
/// `WrongParts`, part 0, if the words have no such shape. `NoMemory` if an allocation fails.
#[tactic(auto, unfolding(crate::specs::Shape::shape_reading))]
pub fn shape_of<'a>(alloc: Global, words: &[&'a [u8]]) -> Result<Shape<'a>, RuleFault>
    ensures { GivesBy shape_text result (shape_reading (map (λ word. word.now) words.now)) }
{
    let [first, others @ ..] = words else {
        return Err(shapeless());
    };
    if begins_with_letter(first) {
        return dated(alloc, Some(*first), others);
    }
    dated(alloc, None, words)
}
