//! Reads what a text means before any clock is read.

ghost use Rattle.std.specs.Prelude.{◌≡◌, ◌+◌, ◌<◌, ◌≤◌, ◌≤ℤ◌, true, min, IfOk, length, pos, neg_ℤ, ok_or};
ghost use Rattle.std.specs.Char.{is_ascii_digit};
ghost use Rattle.std.specs.List.{list_all};
ghost use Rattle.std.specs.Option.{option_map};
ghost use Rattle.plan_sets.specs.Limits.{end_second};
ghost use Rattle.plan_texts.specs.Text.{digits_after};
ghost use Rattle.plan_times.specs.Forms.{whole_seconds, second_of_date, offset_second, offset_second_by, timestamp_of, since_1970, counted, plain_by, worded, marked, form_of};

use crate::day::{FIRST_DAY, date_of};
use crate::fault::TimeFault;
use crate::lengths::whole_seconds;
use crate::local_text::{Local, local_of};
use crate::parts::{cut_at_t, cut_last_word, trimmed};
use crate::time_of_day::{offset_of_text, time_of_day};
use plan_sets::{END_SECOND, SECONDS_A_DAY};

/// What the text of a time means.
#[derive(Clone, Copy)]
pub(crate) enum Form {
    Now,
    /// The second that counts from 1970.
    Second(u64),
    /// So many seconds later.
    Ahead(u64),
    /// So many seconds earlier.
    Back(u64),
    /// So many seconds before now.
    Ago(u64),
    /// A local date and time by the clock.
    OfClock(Local),
    /// A date and time in UTC.
    OfUtc(Local),
}

// Returns the second with a date, a time of day and an offset from UTC. It may be before 1970.
fn second_of_date(day: u32, time: u32, offset: i32) -> i64
    requires time { time < 86_400 }
    requires from { neg_ℤ (pos 86_400) ≤ℤ offset }
    requires to { offset ≤ℤ pos 86_400 }
    ensures { result ≡ second_of_date day time offset }
{
    let local = i64::from(day) * SECONDS_A_DAY as i64 + i64::from(time);
    local - FIRST_DAY * SECONDS_A_DAY as i64 - i64::from(offset)
}

// Returns the second of a date, and of a time of day of eight characters that an offset follows.
#[tactic(auto, unfolding(crate::specs::Forms::offset_second))]
fn offset_second(date: &[u8], text: &[u8]) -> Option<i64>
    requires { 8 ≤ length text.now }
    ensures { result ≡ offset_second date.now text.now }
{
    let day = date_of(date)?;
    let (time, offset) = text.split_at(8);
    let time = time_of_day(time)?;
    let offset = offset_of_text(offset)?;
    Some(second_of_date(day, time, offset))
}

// Reads the parts of a text as a date, and a time of day with an offset.
fn offset_second_by(cut: Option<(&[u8], &[u8])>) -> Option<i64>
    ensures { result ≡ offset_second_by (option_map (λ parts. (parts.0.now, parts.1.now)) cut.entry) }
{
    let (date, text) = cut?;
    if text.len() < 8 {
        return None;
    }
    offset_second(date, text)
}

// Returns the second of a timestamp with an offset. A blank can be in place of the T.
#[tactic(auto, unfolding(crate::specs::Forms::timestamp_of))]
fn timestamp_of(text: &[u8]) -> Option<i64>
    ensures { result ≡ timestamp_of text.now }
{
    if let Some(second) = offset_second_by(cut_at_t(text)) {
        return Some(second);
    }
    offset_second_by(cut_last_word(text))
}

// Returns the form of a second, if it is not before 1970.
fn since_1970(second: i64) -> Result<Form, TimeFault>
    ensures { result ≡ since_1970 second }
{
    if second < 0 {
        return Err(TimeFault::OutOfYears);
    }
    Ok(Form::Second(second as u64))
}

// Returns whether a text has only digits.
fn has_only_digits(text: &[u8]) -> bool
    ensures { result ≡ list_all is_ascii_digit text.now }
{
    text.iter().all(|byte| byte.is_ascii_digit())
}

// Returns the number that digits write, or the first second after the planner's years if that is less.
fn counted_seconds(digits: &[u8]) -> u64
    requires { list_all is_ascii_digit digits.now ≡ true }
    ensures { result ≡ min (digits_after 0 digits.now) (end_second + 1) }
{
    let mut number: u64 = 0;
    for digit in digits {
        number = (number * 10 + u64::from(*digit - b'0')).min(END_SECOND + 1);
    }
    number
}

// Reads digits that count seconds from 1970.
#[tactic(auto, unfolding(crate::specs::Forms::counted))]
fn counted(text: &[u8]) -> Result<Form, TimeFault>
    ensures { result ≡ counted text.now }
{
    if text.is_empty() || !has_only_digits(text) {
        return Err(TimeFault::BadTime);
    }
    let number = counted_seconds(text);
    if number > END_SECOND {
        return Err(TimeFault::OutOfYears);
    }
    Ok(Form::Second(number))
}

// Reads the seconds of a time span.
fn span_of(text: &[u8]) -> Result<u64, TimeFault>
    ensures value { result ≡ ok_or (whole_seconds text.now) TimeFault.BadTime }
    ensures small { IfOk result (λ n. n ≤ 18_446_744_073_709) }
{
    whole_seconds(text).ok_or(TimeFault::BadTime)
}

// Returns the form of a text without a word at its end that says what the rest is.
fn plain(text: &[u8]) -> Result<Form, TimeFault>
    ensures { result ≡ plain_by text.now (timestamp_of text.now) }
{
    if let Some(second) = timestamp_of(text) {
        return since_1970(second);
    }
    let Some(local) = local_of(text) else {
        return Err(TimeFault::BadTime);
    };
    Ok(Form::OfClock(local))
}

// Returns the form of a text by its last word.
#[tactic(auto, unfolding(crate::specs::Forms::worded))]
fn worded(text: &[u8]) -> Result<Form, TimeFault>
    ensures { result ≡ worded text.now }
{
    let Some((before, word)) = cut_last_word(text) else {
        return plain(text);
    };
    if word.eq_ignore_ascii_case(b"ago") {
        let span = span_of(before)?;
        return Ok(Form::Ago(span));
    }
    if word.eq_ignore_ascii_case(b"utc") {
        let Some(local) = local_of(before) else {
            return Err(TimeFault::BadTime);
        };
        return Ok(Form::OfUtc(local));
    }
    plain(text)
}

// Returns the form of a text by its first character.
#[tactic(auto, unfolding(crate::specs::Forms::marked))]
fn marked(text: &[u8]) -> Result<Form, TimeFault>
    ensures { result ≡ marked text.now }
{
    match text {
        [] => Err(TimeFault::BadTime),
        [b'@', digits @ ..] => counted(digits),
        [b'+', span @ ..] => {
            let span = span_of(span)?;
            Ok(Form::Ahead(span))
        }
        [b'-', span @ ..] => {
            let span = span_of(span)?;
            Ok(Form::Back(span))
        }
        _ => worded(text),
    }
}

/// Returns the form of a text. Blanks at its ends don't count.
///
/// # Errors
///
/// `BadTime` if the text is not a time, and `OutOfYears` if it is the text of a second that is not in the planner's years.
#[tactic(auto, unfolding(crate::specs::Forms::form_of))]
pub(crate) fn form_of(text: &str) -> Result<Form, TimeFault>
    ensures { result ≡ form_of text.now }
{
    let text = trimmed(text);
    if text.eq_ignore_ascii_case(b"now") {
        return Ok(Form::Now);
    }
    marked(text)
}
