//! Reads the day of a time: a date, a weekday, or a word such as `tomorrow`.

ghost use Rattle.std.specs.Prelude.{◌≡◌, ◌<◌, ◌≤◌, ◌+◌, ◌^◌, IfSome};
ghost use Rattle.plan_times.specs.Days.{first_day, is_in_calendar, day_of_date, date_of, names_weekday, weekday_of, weekday, next_weekday, if_on, dated_weekday, day_of_word, day_of, day_meant, days_to_next};

use crate::parts::{cut_last_word, number_of};
use jiff_core::civil::{Date, days_in_month};
use plan_texts::cut;

/// The number of the day 1970-01-01. It is a multiple of 7.
pub(crate) const FIRST_DAY: i64 = 4_371_955;

/// The day of a time, as it is written.
#[derive(Clone, Copy)]
pub(crate) enum Day {
    /// The day with this number.
    Date(u32),
    Yesterday,
    Today,
    Tomorrow,
    /// This day of the week, from 0 for Monday.
    Weekday(u8),
    /// No day is written.
    Unnamed,
}

// Returns whether the calendar has this date of a year up to 9999.
fn is_in_calendar(year: u16, month: u16, day: u16) -> bool
    requires { year < 10_000 }
    ensures { result ≡ is_in_calendar year month day }
{
    1 <= month
        && month <= 12
        && 1 <= day
        && day <= u16::from(days_in_month(year as i16, month as u8))
}

// Returns the number of a date's day, or `None` if the calendar has no such date.
fn day_of_date(year: u16, month: u16, day: u16) -> Option<u32>
    requires { year < 10_000 }
    ensures { result ≡ day_of_date year month day }
{
    if !is_in_calendar(year, month, day) {
        return None;
    }
    let date = Date {
        year: year as i16,
        month: month as u8,
        day: day as u8,
    };
    let number = i64::from(date.to_unix_epoch_day()) + FIRST_DAY;
    Some(number as u32)
}

/// Returns the number of the day of a date, written YYYY-MM-DD, or `None` if the text is no date of the calendar.
#[tactic(auto, unfolding(crate::specs::Days::date_of))]
pub(crate) fn date_of(text: &[u8]) -> Option<u32>
    ensures { result ≡ date_of text.now }
{
    let (year, rest) = cut(text, b"-")?;
    let (month, day) = cut(rest, b"-")?;
    let year = number_of(4, 10_000, year)?;
    let month = number_of(2, 100, month)?;
    let day = number_of(2, 100, day)?;
    day_of_date(year, month, day)
}

// Returns whether a name is a weekday's full name or its first three letters. Upper and lower case are the same.
fn names_weekday(name: &[u8], full: &[u8]) -> bool
    ensures { result ≡ names_weekday name.now full.now }
{
    name.eq_ignore_ascii_case(full) || full.len() >= 3 && name.eq_ignore_ascii_case(&full[..3])
}

// Returns the weekday of a name, from 0 for Monday, or `None` if it isn't a weekday.
#[tactic(auto, unfolding(crate::specs::Days::weekday_of))]
fn weekday_of(name: &[u8]) -> Option<u8>
    ensures value { result ≡ weekday_of name.now }
    ensures week { IfSome result (λ n. n < 7) }
{
    if names_weekday(name, b"monday") {
        Some(0)
    } else if names_weekday(name, b"tuesday") {
        Some(1)
    } else if names_weekday(name, b"wednesday") {
        Some(2)
    } else if names_weekday(name, b"thursday") {
        Some(3)
    } else if names_weekday(name, b"friday") {
        Some(4)
    } else if names_weekday(name, b"saturday") {
        Some(5)
    } else if names_weekday(name, b"sunday") {
        Some(6)
    } else {
        None
    }
}

// Returns the weekday of the day with this number, from 0 for Monday.
fn weekday(day: u64) -> u64
    requires { day < 2 ^ 40 }
    ensures { result ≡ weekday day }
{
    (day + 3) % 7
}

// Returns the first day at or after another that is such a weekday.
fn next_weekday(wanted: u8, day: u64) -> u64
    requires { day < 2 ^ 40 }
    ensures value { result ≡ next_weekday wanted day }
    // This is the one day of the week from `day` on that is such a weekday.
    ensures is { wanted < 7 → weekday result ≡ wanted }
    ensures from { day ≤ result }
    ensures week { result < day + 7 }
{
    day + (u64::from(wanted) + 7 - weekday(day)) % 7
}

// Returns the date, if its weekday is this one.
fn if_on(wanted: u8, day: u32) -> Option<Day>
    ensures { result ≡ if_on wanted day }
{
    if weekday(u64::from(day)) == u64::from(wanted) {
        Some(Day::Date(day))
    } else {
        None
    }
}

// Reads a weekday and a date, which have to agree.
#[tactic(auto, unfolding(crate::specs::Days::dated_weekday))]
fn dated_weekday(text: &[u8]) -> Option<Day>
    ensures { result ≡ dated_weekday text.now }
{
    let (name, date) = cut_last_word(text)?;
    let wanted = weekday_of(name)?;
    let day = date_of(date)?;
    if_on(wanted, day)
}

// Reads a day that is one word, other than a date.
fn day_of_word(text: &[u8]) -> Option<Day>
    ensures { result ≡ day_of_word text.now }
{
    if text.eq_ignore_ascii_case(b"today") {
        Some(Day::Today)
    } else if text.eq_ignore_ascii_case(b"tomorrow") {
        Some(Day::Tomorrow)
    } else if text.eq_ignore_ascii_case(b"yesterday") {
        Some(Day::Yesterday)
    } else {
        let wanted = weekday_of(text)?;
        Some(Day::Weekday(wanted))
    }
}

/// Reads a day: a word, a date, or a weekday with a date.
#[tactic(auto, unfolding(crate::specs::Days::day_of))]
pub(crate) fn day_of(text: &[u8]) -> Option<Day>
    ensures { result ≡ day_of text.now }
{
    if let Some(day) = day_of_word(text) {
        return Some(day);
    }
    if let Some(day) = date_of(text) {
        return Some(Day::Date(day));
    }
    dated_weekday(text)
}

/// Returns the number of the day that is meant, from the number of today, and from that of the day from which weekdays are
/// counted.
pub(crate) fn day_meant(today: u64, from: u64, day: Day) -> u64
    requires today { today < 2 ^ 32 }
    requires from { from < 2 ^ 32 }
    ensures value { result ≡ day_meant today from day }
    ensures small { result < 2 ^ 33 }
{
    match day {
        Day::Date(day) => u64::from(day),
        Day::Yesterday => today.saturating_sub(1),
        Day::Today => today,
        Day::Tomorrow => today + 1,
        Day::Weekday(wanted) => next_weekday(wanted, from),
        Day::Unnamed => from,
    }
}

/// Returns after how many days there is the next such day. Returns 0 if there is no other.
pub(crate) fn days_to_next(day: Day) -> u64
    ensures value { result ≡ days_to_next day }
    ensures small { result ≤ 7 }
{
    match day {
        Day::Weekday(_) => 7,
        Day::Unnamed => 1,
        Day::Date(_) | Day::Yesterday | Day::Today | Day::Tomorrow => 0,
    }
}
