//! Which days of a schedule exist in the calendar, in the years that the planner supports.

ghost use Rattle.std.specs.Prelude.{◌≡◌, ◌+◌, ◌%◌, ◌<◌, ◌≤◌, ◌&&◌, not, pos, Some};
ghost use Rattle.jiff_core.specs.Calendar.{days_in_year, is_leap_year};
ghost use Rattle.plan_words.specs.Existing.{first_last, greatest_date, greatest_item, is_short, is_void, last_first};
ghost use Rattle.plan_words.specs.Meaning.{some_have};
ghost use Rattle.plan_words.specs.View.{dates_of, days_of, months_of, schedule_of, some_values_of};
ghost use Rattle.plan_words.specs.YearKinds.{counts, has_short_month, has_some_day, has_year_of, is_month_with_day, is_short_month, is_year_with_day, month_has_day, month_length, year_has_day, AreTried};

use crate::membership::{days_have, months_have, years_have};
use crate::tree::{Dates, Days, Months, Schedule, Span, Values};
use plan_sets::{FIRST_YEAR, LAST_YEAR};

/// The weekday of 1 January of the first year, from 0 for Monday.
const FIRST_WEEKDAY: u8 = 3;

/// The number of kinds of years: leap years and others, by the weekday on which they begin.
const YEAR_KINDS: usize = 14;

// Returns whether a year has a 29 February.
fn is_leap(year: u16) -> bool
    ensures { result ≡ is_leap_year (pos year) }
{
    year % 4 == 0 && (year % 100 != 0 || year % 400 == 0)
}

// Returns the number of days in a month, from 1 to 12.
fn month_length(leap: bool, month: u8) -> u8
    ensures value { result ≡ month_length leap month }
    ensures low { 28 ≤ result }
    ensures high { result ≤ 31 }
{
    match month {
        2 => { if leap { 29 } else { 28 } }
        4 | 6 | 9 | 11 => 30,
        _ => 31,
    }
}

// Returns whether a month of a length has one of the days. It begins on a weekday, from 0 for Monday.
#[tactic(auto, using(crate::proofs::ExistingLemmas::some_day_step, crate::proofs::ExistingLemmas::some_day_end))]
fn month_has_day(days: &Days, length: u8, first: u8) -> bool
    requires length { length ≤ 31 }
    requires weekday { first < 7 }
    ensures { result ≡ month_has_day (days_of days.now) length first }
{
    let mut weekday = first;
    for day in 1..=length {
        if days_have(days, day, length - day + 1, weekday) {
            return true;
        }
        weekday = (weekday + 1) % 7;
    }
    false
}

// Returns whether a month is one of a schedule and has a day of it. It begins on a weekday, from 0 for Monday.
fn is_month_with_day(schedule: &Schedule, leap: bool, month: u8, first: u8) -> bool
    requires { first < 7 }
    ensures { result ≡ is_month_with_day (schedule_of schedule.now) leap month first }
{
    months_have(&schedule.months, month)
        && month_has_day(&schedule.days, month_length(leap, month), first)
}

// Returns whether a year that begins on a weekday has a day of a schedule.
#[tactic(auto, using(crate::proofs::ExistingLemmas::some_month_step, crate::proofs::ExistingLemmas::some_month_end))]
fn year_has_day(schedule: &Schedule, leap: bool, first: u8) -> bool
    requires { first < 7 }
    ensures { result ≡ year_has_day (schedule_of schedule.now) leap first }
{
    let mut weekday = first;
    for month in 1..=12 {
        if is_month_with_day(schedule, leap, month, weekday) {
            return true;
        }
        weekday = (weekday + month_length(leap, month)) % 7;
    }
    false
}

// Returns whether a year of a kind has a day of a schedule. The kinds that have none are marked in `tried`.
fn kind_has_day(schedule: &Schedule, leap: bool, first: u8, tried: &mut [bool; YEAR_KINDS]) -> bool
    requires weekday { first < 7 }
    requires tried { AreTried (schedule_of schedule.now) tried.old }
    ensures value { result ≡ year_has_day (schedule_of schedule.now) leap first }
    ensures tried { AreTried (schedule_of schedule.now) tried.new }
{
    let kind = usize::from(if leap { 7 + first } else { first });
    if tried[kind] {
        return false;
    }
    let has = year_has_day(schedule, leap, first);
    if !has {
        tried[kind] = true;
    }
    has
}

// Returns whether a year is one of a schedule and has a day of it.
fn is_year_with_day(
    schedule: &Schedule,
    year: u16,
    first: u8,
    tried: &mut [bool; YEAR_KINDS],
) -> bool
    requires weekday { first < 7 }
    requires tried { AreTried (schedule_of schedule.now) tried.old }
    ensures value { result ≡ is_year_with_day (schedule_of schedule.now) year first }
    ensures tried { AreTried (schedule_of schedule.now) tried.new }
{
    years_have(&schedule.years, year) && kind_has_day(schedule, is_leap(year), first, tried)
}

// Returns the weekday on which the next year begins.
fn next_weekday(year: u16, first: u8) -> u8
    requires { first < 7 }
    ensures value { result ≡ (first + days_in_year (pos year)) % 7 }
    ensures range { result < 7 }
{
    (first + if is_leap(year) { 2 } else { 1 }) % 7
}

// Returns whether a day of the supported years is one of a schedule.
#[tactic(auto, using(crate::proofs::ExistingLemmas::some_year_step, crate::proofs::ExistingLemmas::some_year_end))]
fn has_some_day(schedule: &Schedule) -> bool
    ensures { result ≡ has_some_day (schedule_of schedule.now) }
{
    let mut weekday = FIRST_WEEKDAY;
    let mut tried = [false; YEAR_KINDS];
    for year in FIRST_YEAR..=LAST_YEAR {
        if is_year_with_day(schedule, year, weekday, &mut tried) {
            return true;
        }
        weekday = next_weekday(year, weekday);
    }
    false
}

/// Returns whether no day of the supported years is one of a schedule.
#[tactic(auto, using(crate::proofs::ExistingLemmas::void_is))]
pub fn is_void(schedule: &Schedule) -> bool
    ensures { result ≡ is_void (schedule_of schedule.now) }
{
    !has_some_day(schedule)
}

// Returns the first number of the last span.
fn last_first(spans: &[Span]) -> Option<u16>
    ensures { result ≡ last_first spans.now }
{
    spans.last().map(|span| span.first)
}

// Returns the last number of the first span.
fn first_last(spans: &[Span]) -> Option<u16>
    ensures { result ≡ first_last spans.now }
{
    spans.first().map(|span| span.last)
}

// Returns the least number of the item with the greatest numbers.
fn greatest_item(dates: &Dates) -> Option<u16>
    ensures { result ≡ greatest_item (dates_of dates.now) }
{
    match dates {
        Dates::FromStart(Values::Items(spans)) => last_first(spans.as_slice()),
        Dates::FromEnd(Values::Items(spans)) => first_last(spans.as_slice()),
        _ => None,
    }
}

// Returns the least number of the item with the greatest numbers, if there are dates.
fn greatest_date(days: &Days) -> Option<u16>
    ensures { result ≡ greatest_date (days_of days.now) }
{
    match days {
        Days::Dates(dates) => greatest_item(dates),
        Days::Both { dates, week: _ } => greatest_item(dates),
        Days::Either { dates, week: _ } => greatest_item(dates),
        _ => None,
    }
}

// Returns whether a month is one of these and has fewer days, in a leap year or another.
fn is_short_month(months: &Months, leap: bool, date: u16, month: u8) -> bool
    ensures { result ≡ is_short_month (months_of months.now) leap date month }
{
    months_have(months, month) && u16::from(month_length(leap, month)) < date
}

// Returns whether one of the months has fewer days, in a leap year or another.
#[tactic(auto, using(crate::proofs::ExistingLemmas::any_step))]
fn has_short_month(months: &Months, leap: bool, date: u16) -> bool
    ensures { result ≡ has_short_month (months_of months.now) leap date }
{
    for month in 1..=12 {
        if is_short_month(months, leap, date, month) {
            return true;
        }
    }
    false
}

// Returns whether some month of a schedule has fewer days.
#[tactic(auto, using(crate::proofs::ExistingLemmas::short_is))]
fn is_short(schedule: &Schedule, date: u16) -> bool
    ensures { result ≡ is_short (schedule_of schedule.now) (Some date) }
{
    let common = has_short_month(&schedule.months, false, date);
    let leap = has_short_month(&schedule.months, true, date);
    has_year_of(&schedule.years, common, leap)
}

// Returns whether a year counts and is one of these years.
fn counts(years: &Option<Values>, common: bool, leap: bool, year: u16) -> bool
    ensures { result ≡ (counts common leap year && some_have (some_values_of years.now) year) }
{
    (if is_leap(year) { leap } else { common }) && years_have(years, year)
}

// Returns whether a schedule has a year that counts: common years, leap years or both do.
#[tactic(auto, using(crate::proofs::ExistingLemmas::has_year_step, crate::proofs::ExistingLemmas::has_year_end, crate::proofs::ExistingLemmas::none_counts))]
fn has_year_of(years: &Option<Values>, common: bool, leap: bool) -> bool
    ensures { result ≡ has_year_of (some_values_of years.now) common leap }
{
    if !(common | leap) {
        return false;
    }
    for year in FIRST_YEAR..=LAST_YEAR {
        if counts(years, common, leap, year) {
            return true;
        }
    }
    false
}

// Returns whether some month of a schedule lacks its greatest date.
fn lacks_date(schedule: &Schedule) -> bool
    ensures { result ≡ is_short (schedule_of schedule.now) (greatest_date (days_of schedule.now.days)) }
{
    match greatest_date(&schedule.days) {
        None => false,
        Some(date) => is_short(schedule, date),
    }
}

/// Returns whether some month of a schedule lacks its greatest date, but some day exists.
pub fn lacks(schedule: &Schedule, is_void: bool) -> bool
    ensures { result ≡ (not is_void && is_short (schedule_of schedule.now) (greatest_date (days_of schedule.now.days))) }
{
    !is_void && lacks_date(schedule)
}
