//! How words are spelled.

ghost use Rattle.std.specs.Prelude.{◌≡◌, ◌++◌, codes, IfOk, OnOk};
ghost use Rattle.std.specs.String.{string_bytes};
ghost use Rattle.plan_words.specs.Words.{ending, keyword_text, month_text, numeral, text_of_words, two_digits, unit_text, units_text, weekday_text, weekdays_text, word_text};

use crate::names::{Month, TimeUnit, Weekday};
use crate::words::{Keyword, Word};
use itoa::Buffer;
use std::alloc::{AllocError, Global};

/// The number of bytes that most words don't exceed, with the blank before them.
const LENGTH_OF_WORD: usize = 6;

/// Returns the text of words, with a blank between two words, but none before a comma.
///
/// # Errors
///
/// `AllocError` if an allocation fails.
pub fn text_of_words(alloc: Global, words: &[Word]) -> Result<String, AllocError>
    ensures { IfOk result (λ text. string_bytes text ≡ text_of_words words.now) }
{
    let mut text = String::with_capacity(alloc, LENGTH_OF_WORD.saturating_mul(words.len()))?;
    if let Some((first, rest)) = words.split_first() {
        push_word(&mut text, *first)?;
        for word in rest {
            if !matches!(word, Word::Key(Keyword::Comma)) {
                text.push_str(" ")?;
            }
            push_word(&mut text, *word)?;
        }
    }
    Ok(text)
}

// Appends a word.
fn push_word(text: &mut String, word: Word) -> Result<(), AllocError>
    ensures { OnOk result (string_bytes text.new ≡ string_bytes text.old ++ word_text word) }
{
    match word {
        Word::Key(keyword) => text.push_str(keyword_text(keyword)),
        Word::Number(n) => push_number(text, n),
        Word::Ordinal(n) => {
            push_number(text, n)?;
            text.push_str(ending(n))
        }
        Word::Clock(hour, minute) => push_clock(text, hour, minute),
        Word::ClockSeconds(hour, minute, second) => {
            push_clock(text, hour, minute)?;
            text.push_str(":")?;
            push_two_digits(text, second)
        }
        Word::ADayOfWeek(weekday) => text.push_str(weekday_text(weekday)),
        Word::DaysOfWeek(weekday) => text.push_str(weekdays_text(weekday)),
        Word::NameOfMonth(month) => text.push_str(month_text(month)),
        Word::OneUnit(unit) => text.push_str(unit_text(unit)),
        Word::ManyUnits(unit) => text.push_str(units_text(unit)),
    }
}

// Appends a number in decimal.
#[tactic(auto, using(crate::proofs::WordLemmas::numeral_is_decimal))]
fn push_number(text: &mut String, n: u16) -> Result<(), AllocError>
    ensures { OnOk result (string_bytes text.new ≡ string_bytes text.old ++ numeral n) }
{
    let mut buffer = Buffer::new();
    text.push_str(buffer.format(n))
}

// Appends a number with two digits at least.
fn push_two_digits(text: &mut String, n: u8) -> Result<(), AllocError>
    ensures { OnOk result (string_bytes text.new ≡ string_bytes text.old ++ two_digits n) }
{
    if n < 10 {
        text.push_str("0")?;
    }
    push_number(text, u16::from(n))
}

// Appends an hour and a minute.
fn push_clock(text: &mut String, hour: u8, minute: u8) -> Result<(), AllocError>
    ensures { OnOk result (string_bytes text.new ≡ string_bytes text.old ++ (two_digits hour ++ (codes ":" ++ two_digits minute))) }
{
    push_two_digits(text, hour)?;
    text.push_str(":")?;
    push_two_digits(text, minute)
}

// Returns the ending of an ordinal number.
fn ending(n: u16) -> &'static str
    ensures { result.now ≡ ending n }
{
    let last_two = n % 100;
    if last_two == 11 || last_two == 12 || last_two == 13 {
        "th"
    } else if n % 10 == 1 {
        "st"
    } else if n % 10 == 2 {
        "nd"
    } else if n % 10 == 3 {
        "rd"
    } else {
        "th"
    }
}

// Returns the text of a word that doesn't vary.
fn keyword_text(keyword: Keyword) -> &'static str
    ensures { result.now ≡ keyword_text keyword }
{
    match keyword {
        Keyword::At => "at",
        Keyword::Every => "every",
        Keyword::From => "from",
        Keyword::To => "to",
        Keyword::Of => "of",
        Keyword::And => "and",
        Keyword::Comma => ",",
        Keyword::On => "on",
        Keyword::The => "the",
        Keyword::Last => "last",
        Keyword::ADay => "day",
        Keyword::Days => "days",
        Keyword::Odd => "odd",
        Keyword::Even => "even",
        Keyword::Each => "each",
        Keyword::AMonth => "month",
        Keyword::Year => "year",
        Keyword::In => "in",
        Keyword::But => "but",
        Keyword::Only => "only",
        Keyword::Also => "also",
        Keyword::Where => "where",
        Keyword::It => "it",
        Keyword::They => "they",
        Keyword::Exists => "exists",
        Keyword::Exist => "exist",
    }
}

// Returns the name of a unit.
fn unit_text(unit: TimeUnit) -> &'static str
    ensures { result.now ≡ unit_text unit }
{
    match unit {
        TimeUnit::Second => "second",
        TimeUnit::Minute => "minute",
        TimeUnit::Hour => "hour",
    }
}

// Returns the plural of a unit.
fn units_text(unit: TimeUnit) -> &'static str
    ensures { result.now ≡ units_text unit }
{
    match unit {
        TimeUnit::Second => "seconds",
        TimeUnit::Minute => "minutes",
        TimeUnit::Hour => "hours",
    }
}

// Returns the name of a weekday.
fn weekday_text(weekday: Weekday) -> &'static str
    ensures { result.now ≡ weekday_text weekday }
{
    match weekday {
        Weekday::Monday => "Monday",
        Weekday::Tuesday => "Tuesday",
        Weekday::Wednesday => "Wednesday",
        Weekday::Thursday => "Thursday",
        Weekday::Friday => "Friday",
        Weekday::Saturday => "Saturday",
        Weekday::Sunday => "Sunday",
    }
}

// Returns the plural of a weekday.
fn weekdays_text(weekday: Weekday) -> &'static str
    ensures { result.now ≡ weekdays_text weekday }
{
    match weekday {
        Weekday::Monday => "Mondays",
        Weekday::Tuesday => "Tuesdays",
        Weekday::Wednesday => "Wednesdays",
        Weekday::Thursday => "Thursdays",
        Weekday::Friday => "Fridays",
        Weekday::Saturday => "Saturdays",
        Weekday::Sunday => "Sundays",
    }
}

// Returns the name of a month.
fn month_text(month: Month) -> &'static str
    ensures { result.now ≡ month_text month }
{
    match month {
        Month::January => "January",
        Month::February => "February",
        Month::March => "March",
        Month::April => "April",
        Month::May => "May",
        Month::June => "June",
        Month::July => "July",
        Month::August => "August",
        Month::September => "September",
        Month::October => "October",
        Month::November => "November",
        Month::December => "December",
    }
}
