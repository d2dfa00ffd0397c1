//! How months and years are said.

ghost use Rattle.std.specs.Prelude.{◌≡◌, IfOk, map};
ghost use Rattle.std.specs.List.{list_all, range_with_len};
ghost use Rattle.plan_sets.specs.Limits.{first_year};
ghost use Rattle.plan_sets.specs.Values.{has_value};
ghost use Rattle.plan_words.specs.View.{months_of, some_values_of};
ghost use Rattle.plan_describe.specs.DaysSaid.{month_of, months_said, year_count, years_said};
ghost use Rattle.plan_describe.specs.Said.{set_members};

use crate::numbers::{has_all, is_run, last_of, members, values_said};
use plan_sets::{FIRST_YEAR, LAST_YEAR, ValueSet};
use plan_words::{Month, Months, Values};
use std::alloc::{AllocError, Global};

/// Returns how months are said.
///
/// # Errors
///
/// `AllocError` if an allocation fails.
#[tactic(auto, using(crate::proofs::DaysLemmas::months_whole))]
pub(crate) fn months_said(alloc: Global, months: &ValueSet) -> Result<Months, AllocError>
    ensures { IfOk result (λ said. months_of said ≡ months_said (set_members months.now 1 12)) }
{
    if has_all(months, 1, 13) {
        return Ok(Months::All);
    }
    let months = members(alloc, months, 1, 13)?;
    if let [first, more @ ..] = months.as_slice()
        && is_run(&months)
    {
        return Ok(Months::Run {
            first: month_of(*first),
            last: month_of(last_of(*first, more)),
        });
    }
    Ok(Months::List(month_list(alloc, &months)?))
}

// Returns the months with these numbers.
fn month_list(alloc: Global, months: &[u16]) -> Result<Vec<Month>, AllocError>
    ensures { IfOk result (λ found. found.items ≡ map month_of months.now) }
{
    months.iter().map(|month| month_of(*month)).collect(alloc)
}

// Returns the month with a number from 1.
fn month_of(number: u16) -> Month
    ensures { result ≡ month_of number }
{
    match number {
        1 => Month::January,
        2 => Month::February,
        3 => Month::March,
        4 => Month::April,
        5 => Month::May,
        6 => Month::June,
        7 => Month::July,
        8 => Month::August,
        9 => Month::September,
        10 => Month::October,
        11 => Month::November,
        _ => Month::December,
    }
}

/// Returns how the years of a set are said.
///
/// # Errors
///
/// `AllocError` if an allocation fails.
pub(crate) fn years_said(alloc: Global, years: &ValueSet) -> Result<Option<Values>, AllocError>
    ensures { IfOk result (λ said. some_values_of said ≡ years_said (has_value years.now)) }
{
    if are_all_years(years) {
        return Ok(None);
    }
    let years = members(alloc, years, FIRST_YEAR, LAST_YEAR + 1)?;
    Ok(Some(values_said(alloc, &years)?))
}

// Returns whether a set has all years.
fn are_all_years(years: &ValueSet) -> bool
    ensures { result ≡ list_all (has_value years.now) (range_with_len first_year year_count) }
{
    (FIRST_YEAR..LAST_YEAR + 1).all(|year| years.contains(year))
}
