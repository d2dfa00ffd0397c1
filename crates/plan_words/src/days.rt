//! How days, months and years are said.

ghost use Rattle.std.specs.Prelude.{◌≡◌, ◌++◌, ◌∷◌, [], ◌==◌, ◌&&◌, ◌+◌, if◌then◌else◌, nat_lt, OnOk, Some};
ghost use Rattle.plan_sets.specs.Limits.{last_year};
ghost use Rattle.plan_words.specs.Sentence.{any_day_words, dates_words, day_steps, days_words, each_weekday_words, lack_words, start_steps, until, weekdays_words, when_words, years_after_month, years_words};
ghost use Rattle.plan_words.specs.Words.{Comma, Exist, Exists, From, It, Key, Number, They, Where};
ghost use Rattle.plan_words.specs.Tree.{FromEnd, FromStart, Items, MonthList};
ghost use Rattle.plan_words.specs.View.{dates_of, days_of, months_of, some_values_of, values_of, week_of};

use crate::lists::{Names, Naming, Plurals, is_one, say_list, say_value};
use crate::names::Month;
use crate::tree::{Dates, Days, Months, Span, Values, Week};
use crate::words::{Keyword, Word};
use plan_sets::LAST_YEAR;
use std::alloc::AllocError;

// Returns whether a step after a year leads past the last year.
fn is_past(year: u16, step: u16) -> bool
    ensures { result ≡ nat_lt last_year (year + step) }
{
    year > LAST_YEAR || LAST_YEAR - year < step
}

// Appends `on` or `to b`.
fn say_until(is_last: bool, last: u16, out: &mut Vec<Word>) -> Result<(), AllocError>
    ensures { OnOk result (out.new.items ≡ out.old.items ++ until is_last last) }
{
    if is_last {
        out.extend_from_slice(&[Word::Key(Keyword::On)])
    } else {
        out.extend_from_slice(&[Word::Key(Keyword::To), Word::Number(last)])
    }
}

// Appends the years from one to another.
fn say_year_run(span: Span, out: &mut Vec<Word>) -> Result<(), AllocError>
    ensures { OnOk result (out.new.items ≡ out.old.items ++ (Key From ∷ Number span.first ∷ until (span.last == last_year) span.last)) }
{
    out.extend_from_slice(&[Word::Key(Keyword::From), Word::Number(span.first)])?;
    say_until(span.last == LAST_YEAR, span.last, out)
}

// Appends the spans of years.
fn say_year_items(spans: &[Span], out: &mut Vec<Word>) -> Result<(), AllocError>
    ensures { OnOk result (out.new.items ≡ out.old.items ++ years_words (Some (Items spans.now))) }
{
    match spans {
        [] => Ok(()),
        [span] => {
            if span.first == span.last {
                out.extend_from_slice(&[Word::Key(Keyword::In), Word::Number(span.first)])
            } else {
                say_year_run(*span, out)
            }
        }
        _ => {
            out.push(Word::Key(Keyword::In))?;
            say_list(&Naming::Numbers, spans, out)
        }
    }
}

// Appends the years.
fn say_years(years: &Option<Values>, out: &mut Vec<Word>) -> Result<(), AllocError>
    ensures { OnOk result (out.new.items ≡ out.old.items ++ years_words (some_values_of years.now)) }
{
    match years {
        None => Ok(()),
        Some(Values::Steps { first, last, step }) => {
            out.extend_from_slice(&[
                Word::Key(Keyword::In),
                Word::Key(Keyword::Every),
                Word::Ordinal(*step),
                Word::Key(Keyword::Year),
                Word::Key(Keyword::From),
                Word::Number(*first),
            ])?;
            say_until(is_past(*last, *step), *last, out)
        }
        Some(Values::Items(spans)) => say_year_items(spans.as_slice(), out),
    }
}

// Appends the years after a single month.
fn say_years_after_month(years: &Option<Values>, out: &mut Vec<Word>) -> Result<(), AllocError>
    ensures { OnOk result (out.new.items ≡ out.old.items ++ years_after_month (some_values_of years.now)) }
{
    if let Some(Values::Items(spans)) = years
        && let [span] = spans.as_slice()
        && span.first == span.last
    {
        out.push(Word::Number(span.first))?;
        return Ok(());
    }
    say_years(years, out)
}

// Appends a list of months, and the years.
fn say_month_list(
    after_dates: bool,
    list: &[Month],
    years: &Option<Values>,
    out: &mut Vec<Word>,
) -> Result<(), AllocError>
    ensures { OnOk result (out.new.items ≡ out.old.items ++ when_words after_dates (MonthList list.now) (some_values_of years.now)) }
{
    if list.is_empty() {
        return say_years(years, out);
    }
    if after_dates {
        out.push(Word::Key(Keyword::Of))?;
    } else {
        out.push(Word::Key(Keyword::In))?;
    }
    if let [month] = list {
        out.push(Word::NameOfMonth(*month))?;
        return say_years_after_month(years, out);
    }
    say_list(&Names, list, out)?;
    say_years(years, out)
}

// Appends months and years.
fn say_when(
    after_dates: bool,
    months: &Months,
    years: &Option<Values>,
    out: &mut Vec<Word>,
) -> Result<(), AllocError>
    ensures { OnOk result (out.new.items ≡ out.old.items ++ when_words after_dates (months_of months.now) (some_values_of years.now)) }
{
    match months {
        Months::All => {
            if after_dates {
                out.extend_from_slice(&[
                    Word::Key(Keyword::Of),
                    Word::Key(Keyword::Each),
                    Word::Key(Keyword::AMonth),
                ])?;
            }
            say_years(years, out)
        }
        Months::Run { first, last } => {
            if after_dates {
                out.extend_from_slice(&[
                    Word::Key(Keyword::Of),
                    Word::Key(Keyword::Each),
                    Word::Key(Keyword::AMonth),
                ])?;
            }
            out.extend_from_slice(&[
                Word::Key(Keyword::From),
                Word::NameOfMonth(*first),
                Word::Key(Keyword::To),
                Word::NameOfMonth(*last),
            ])?;
            say_years(years, out)
        }
        Months::List(list) => say_month_list(after_dates, list.as_slice(), years, out),
    }
}

// Returns whether steps are every second day from one to another.
fn are(first: u16, last: u16, step: u16, from: u16, to: u16) -> bool
    ensures { result ≡ ((first == from) && ((last == to) && (step == 2))) }
{
    first == from && last == to && step == 2
}

// Appends evenly spaced days.
fn say_day_steps(first: u16, last: u16, step: u16, out: &mut Vec<Word>) -> Result<(), AllocError>
    ensures { OnOk result (out.new.items ≡ out.old.items ++ day_steps first last step) }
{
    out.extend_from_slice(&[
        Word::Key(Keyword::On),
        Word::Key(Keyword::Every),
        Word::Ordinal(step),
        Word::Key(Keyword::ADay),
        Word::Key(Keyword::From),
        Word::Key(Keyword::The),
        Word::Ordinal(first),
        Word::Key(Keyword::To),
        Word::Key(Keyword::The),
        Word::Ordinal(last),
    ])
}

// Appends evenly spaced days, or `odd days` or `even days`.
fn say_start_steps(
    odd: bool,
    even: bool,
    first: u16,
    last: u16,
    step: u16,
    out: &mut Vec<Word>,
) -> Result<(), AllocError>
    ensures { OnOk result (out.new.items ≡ out.old.items ++ start_steps odd even first last step) }
{
    if odd {
        out.extend_from_slice(&[
            Word::Key(Keyword::On),
            Word::Key(Keyword::Odd),
            Word::Key(Keyword::Days),
        ])
    } else if even {
        out.extend_from_slice(&[
            Word::Key(Keyword::On),
            Word::Key(Keyword::Even),
            Word::Key(Keyword::Days),
        ])
    } else {
        say_day_steps(first, last, step, out)
    }
}

// Appends days of the month, from its start.
fn say_from_start(values: &Values, out: &mut Vec<Word>) -> Result<(), AllocError>
    ensures { OnOk result (out.new.items ≡ out.old.items ++ dates_words (FromStart (values_of values.now))) }
{
    match values {
        Values::Steps { first, last, step } => {
            let odd = are(*first, *last, *step, 1, 31);
            let even = are(*first, *last, *step, 2, 30);
            say_start_steps(odd, even, *first, *last, *step, out)
        }
        Values::Items(spans) => {
            out.extend_from_slice(&[Word::Key(Keyword::On), Word::Key(Keyword::The)])?;
            say_list(&Naming::Ordinals, spans.as_slice(), out)
        }
    }
}

// Appends days of the month, by their place from its end.
fn say_from_end(values: &Values, out: &mut Vec<Word>) -> Result<(), AllocError>
    ensures { OnOk result (out.new.items ≡ out.old.items ++ dates_words (FromEnd (values_of values.now))) }
{
    match values {
        Values::Steps { first, last, step } => {
            out.extend_from_slice(&[
                Word::Key(Keyword::On),
                Word::Key(Keyword::Every),
                Word::Ordinal(*step),
                Word::Key(Keyword::ADay),
                Word::Key(Keyword::From),
                Word::Key(Keyword::The),
            ])?;
            say_value(Naming::Places, *first, out)?;
            out.extend_from_slice(&[Word::Key(Keyword::To), Word::Key(Keyword::The)])?;
            say_value(Naming::Places, *last, out)?;
            out.push(Word::Key(Keyword::ADay))?;
            Ok(())
        }
        Values::Items(spans) => {
            out.extend_from_slice(&[Word::Key(Keyword::On), Word::Key(Keyword::The)])?;
            say_list(&Naming::Places, spans.as_slice(), out)?;
            if is_one(spans.as_slice()) {
                out.push(Word::Key(Keyword::ADay))?;
            } else {
                out.push(Word::Key(Keyword::Days))?;
            }
            Ok(())
        }
    }
}

// Appends days of the month.
fn say_dates(dates: &Dates, out: &mut Vec<Word>) -> Result<(), AllocError>
    ensures { OnOk result (out.new.items ≡ out.old.items ++ dates_words (dates_of dates.now)) }
{
    match dates {
        Dates::FromStart(values) => say_from_start(values, out),
        Dates::FromEnd(values) => say_from_end(values, out),
        Dates::LastDays(n) => out.extend_from_slice(&[
            Word::Key(Keyword::On),
            Word::Key(Keyword::The),
            Word::Key(Keyword::Last),
            Word::Number(*n),
            Word::Key(Keyword::Days),
        ]),
    }
}

// Appends weekdays.
fn say_week(week: &Week, out: &mut Vec<Word>) -> Result<(), AllocError>
    ensures { OnOk result (out.new.items ≡ out.old.items ++ weekdays_words (week_of week.now)) }
{
    match week {
        Week::Run { first, last } => out.extend_from_slice(&[
            Word::Key(Keyword::From),
            Word::ADayOfWeek(*first),
            Word::Key(Keyword::To),
            Word::ADayOfWeek(*last),
        ]),
        Week::List(list) => {
            out.push(Word::Key(Keyword::On))?;
            say_list(&Plurals, list.as_slice(), out)
        }
    }
}

// Appends each of the weekdays.
fn say_each_weekday(week: &Week, out: &mut Vec<Word>) -> Result<(), AllocError>
    ensures { OnOk result (out.new.items ≡ out.old.items ++ each_weekday_words (week_of week.now)) }
{
    match week {
        Week::Run { first, last } => out.extend_from_slice(&[
            Word::Key(Keyword::On),
            Word::Key(Keyword::Every),
            Word::Key(Keyword::ADay),
            Word::Key(Keyword::From),
            Word::ADayOfWeek(*first),
            Word::Key(Keyword::To),
            Word::ADayOfWeek(*last),
        ]),
        Week::List(list) => {
            out.extend_from_slice(&[Word::Key(Keyword::On), Word::Key(Keyword::Every)])?;
            say_list(&Names, list.as_slice(), out)
        }
    }
}

// Appends that a day doesn't exist in each month.
fn say_lack(lacks: bool, dates: &Dates, out: &mut Vec<Word>) -> Result<(), AllocError>
    ensures { OnOk result (out.new.items ≡ out.old.items ++ lack_words lacks (dates_of dates.now)) }
{
    if !lacks {
        return Ok(());
    }
    match dates {
        Dates::FromStart(Values::Items(spans)) => say_lack_of(is_one(spans.as_slice()), out),
        Dates::FromEnd(Values::Items(spans)) => say_lack_of(is_one(spans.as_slice()), out),
        _ => Ok(()),
    }
}

// Appends that a day, or some days, don't exist in each month.
fn say_lack_of(one: bool, out: &mut Vec<Word>) -> Result<(), AllocError>
    ensures { OnOk result (out.new.items ≡ out.old.items ++ (Key Comma ∷ Key Where ∷ (if one then Key It ∷ Key Exists ∷ [] else Key They ∷ Key Exist ∷ []))) }
{
    if one {
        out.extend_from_slice(&[
            Word::Key(Keyword::Comma),
            Word::Key(Keyword::Where),
            Word::Key(Keyword::It),
            Word::Key(Keyword::Exists),
        ])
    } else {
        out.extend_from_slice(&[
            Word::Key(Keyword::Comma),
            Word::Key(Keyword::Where),
            Word::Key(Keyword::They),
            Word::Key(Keyword::Exist),
        ])
    }
}

/// Appends the days, months and years. If `lacks`, some month lacks a date.
///
/// # Errors
///
/// `AllocError` if an allocation fails.
pub fn say_days(
    lacks: bool,
    days: &Days,
    months: &Months,
    years: &Option<Values>,
    out: &mut Vec<Word>,
) -> Result<(), AllocError>
    ensures { OnOk result (out.new.items ≡ out.old.items ++ days_words lacks (days_of days.now) (months_of months.now) (some_values_of years.now)) }
{
    match days {
        Days::Any => say_any_day(months, years, out),
        Days::Weekdays(week) => {
            say_week(week, out)?;
            say_when(false, months, years, out)
        }
        Days::Dates(dates) => {
            say_dates(dates, out)?;
            say_when(true, months, years, out)?;
            say_lack(lacks, dates, out)
        }
        Days::Nth {
            place,
            from_end,
            weekday,
        } => {
            out.extend_from_slice(&[Word::Key(Keyword::On), Word::Key(Keyword::The)])?;
            if *from_end {
                say_value(Naming::Places, *place, out)?;
            } else {
                out.push(Word::Ordinal(*place))?;
            }
            out.push(Word::ADayOfWeek(*weekday))?;
            say_when(true, months, years, out)
        }
        Days::Both { dates, week } => {
            say_dates(dates, out)?;
            say_when(true, months, years, out)?;
            say_lack(lacks, dates, out)?;
            out.extend_from_slice(&[
                Word::Key(Keyword::Comma),
                Word::Key(Keyword::But),
                Word::Key(Keyword::Only),
            ])?;
            say_week(week, out)
        }
        Days::Either { dates, week } => {
            say_dates(dates, out)?;
            say_when(true, months, years, out)?;
            say_lack(lacks, dates, out)?;
            out.extend_from_slice(&[
                Word::Key(Keyword::Comma),
                Word::Key(Keyword::And),
                Word::Key(Keyword::Also),
            ])?;
            say_each_weekday(week, out)?;
            say_when(false, months, years, out)
        }
    }
}

// Appends months and years where each day counts.
fn say_any_day(
    months: &Months,
    years: &Option<Values>,
    out: &mut Vec<Word>,
) -> Result<(), AllocError>
    ensures { OnOk result (out.new.items ≡ out.old.items ++ any_day_words (months_of months.now) (some_values_of years.now)) }
{
    if matches!(months, Months::All) && years.is_none() {
        return Ok(());
    }
    out.extend_from_slice(&[
        Word::Key(Keyword::On),
        Word::Key(Keyword::Every),
        Word::Key(Keyword::ADay),
    ])?;
    say_when(false, months, years, out)
}
