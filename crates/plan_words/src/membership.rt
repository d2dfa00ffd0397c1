//! Which days, months and years a schedule has.

ghost use Rattle.std.specs.Prelude.{◌≡◌, ◌+◌, ◌-◌, ◌/◌, ◌%◌, ◌<◌, ◌&&◌, ◌==◌, nat_le};
ghost use Rattle.std.specs.List.{list_any};
ghost use Rattle.plan_words.specs.Meaning.{dates_have, days_have, month_number, months_have, places_have, some_have, span_has, steps_have, values_have, week_has, weekday_number};
ghost use Rattle.plan_words.specs.View.{dates_of, days_of, months_of, some_values_of, values_of, week_of};

use crate::names::{Month, Weekday};
use crate::tree::{Dates, Days, Months, Span, Values, Week};

// Returns whether a number is one of those from one to another by a step.
fn steps_have(first: u16, last: u16, step: u16, n: u16) -> bool
    ensures { result ≡ steps_have first last step n }
{
    first <= n && n <= last && (n - first).is_multiple_of(step)
}

// Returns whether a span has a number.
fn span_has(n: u16, span: Span) -> bool
    ensures { result ≡ span_has n span }
{
    span.first <= n && n <= span.last
}

// Returns whether one of the spans has a number.
fn spans_have(spans: &[Span], n: u16) -> bool
    ensures { result ≡ list_any (span_has n) spans.now }
{
    spans.iter().any(|span| span_has(n, *span))
}

// Returns whether values have a number.
fn values_have(values: &Values, n: u16) -> bool
    ensures { result ≡ values_have (values_of values.now) n }
{
    match values {
        Values::Steps { first, last, step } => steps_have(*first, *last, *step, n),
        Values::Items(spans) => spans_have(spans.as_slice(), n),
    }
}

/// Returns whether a schedule has a year.
pub fn years_have(years: &Option<Values>, year: u16) -> bool
    ensures { result ≡ some_have (some_values_of years.now) year }
{
    match years {
        None => true,
        Some(values) => values_have(values, year),
    }
}

// Returns the number of a month, from 1.
fn month_number(month: Month) -> u8
    ensures { result ≡ month_number month }
{
    match month {
        Month::January => 1,
        Month::February => 2,
        Month::March => 3,
        Month::April => 4,
        Month::May => 5,
        Month::June => 6,
        Month::July => 7,
        Month::August => 8,
        Month::September => 9,
        Month::October => 10,
        Month::November => 11,
        Month::December => 12,
    }
}

// Returns whether a month, from 1 to 12, is in a list.
fn month_list_has(list: &[Month], month: u8) -> bool
    ensures { result ≡ list_any (λ x. month_number x == month) list.now }
{
    list.iter().any(|one| month_number(*one) == month)
}

/// Returns whether a schedule has a month, from 1 to 12.
pub fn months_have(months: &Months, month: u8) -> bool
    ensures { result ≡ months_have (months_of months.now) month }
{
    match months {
        Months::All => true,
        Months::Run { first, last } => month_number(*first) <= month
            && month <= month_number(*last),
        Months::List(list) => month_list_has(list.as_slice(), month),
    }
}

// Returns the number of a weekday, from 0 for Monday.
fn weekday_number(weekday: Weekday) -> u8
    ensures value { result ≡ weekday_number weekday }
    ensures range { result < 7 }
{
    match weekday {
        Weekday::Monday => 0,
        Weekday::Tuesday => 1,
        Weekday::Wednesday => 2,
        Weekday::Thursday => 3,
        Weekday::Friday => 4,
        Weekday::Saturday => 5,
        Weekday::Sunday => 6,
    }
}

// Returns how many days after one weekday another comes, from 0 to 6.
fn days_after(first: Weekday, weekday: u8) -> u16
    ensures { result ≡ (weekday + 7 - weekday_number first) % 7 }
{
    (u16::from(weekday) + 7 - u16::from(weekday_number(first))) % 7
}

// Returns whether a weekday, from 0 for Monday, is in a list.
fn week_list_has(list: &[Weekday], weekday: u8) -> bool
    ensures { result ≡ list_any (λ d. weekday_number d == weekday) list.now }
{
    list.iter().any(|one| weekday_number(*one) == weekday)
}

// Returns whether weekdays have one, from 0 for Monday.
fn week_has(week: &Week, weekday: u8) -> bool
    ensures { result ≡ week_has (week_of week.now) weekday }
{
    match week {
        Week::Run { first, last } => {
            days_after(*first, weekday) <= days_after(*first, weekday_number(*last))
        }
        Week::List(list) => week_list_has(list.as_slice(), weekday),
    }
}

// Returns whether one of the spans of places, the greatest first, has a place.
fn place_spans_have(spans: &[Span], place: u16) -> bool
    ensures { result ≡ list_any (λ s. nat_le s.last place && nat_le place s.first) spans.now }
{
    spans
        .iter()
        .any(|span| span.last <= place && place <= span.first)
}

// Returns whether places from the month's end have one.
fn places_have(places: &Values, place: u16) -> bool
    ensures { result ≡ places_have (values_of places.now) place }
{
    match places {
        Values::Steps { first, last, step } => steps_have(*last, *first, *step, place),
        Values::Items(spans) => place_spans_have(spans.as_slice(), place),
    }
}

// Returns whether dates have a day, by its number in the month or its place from the month's end.
fn dates_have(dates: &Dates, day: u8, place: u8) -> bool
    ensures { result ≡ dates_have (dates_of dates.now) day place }
{
    match dates {
        Dates::FromStart(days) => values_have(days, u16::from(day)),
        Dates::FromEnd(places) => places_have(places, u16::from(place)),
        Dates::LastDays(n) => u16::from(place) <= *n,
    }
}

// Returns whether a day or place is in the k-th seven days.
fn is_in_week(k: u16, day: u8) -> bool
    ensures { result ≡ ((day + 6) / 7 == k) }
{
    (u16::from(day) + 6) / 7 == k
}

/// Returns whether a schedule has a day, by its number in the month, its place from the month's end and its weekday.
pub fn days_have(days: &Days, day: u8, place: u8, weekday: u8) -> bool
    ensures { result ≡ days_have (days_of days.now) day place weekday }
{
    match days {
        Days::Any => true,
        Days::Weekdays(week) => week_has(week, weekday),
        Days::Dates(dates) => dates_have(dates, day, place),
        Days::Nth {
            place: k,
            from_end,
            weekday: one,
        } => {
            let counted = if *from_end { place } else { day };
            is_in_week(*k, counted) && weekday_number(*one) == weekday
        }
        Days::Both { dates, week } => dates_have(dates, day, place) && week_has(week, weekday),
        Days::Either { dates, week } => dates_have(dates, day, place) || week_has(week, weekday),
    }
}
