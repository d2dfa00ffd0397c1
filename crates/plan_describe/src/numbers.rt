//! How numbers are said: as steps, or as spans. A list of numbers is ascending.

ghost use Rattle.std.specs.Prelude.{◌≡◌, ◌+◌, ◌-◌, ◌<◌, ◌++◌, ◌==◌, IfOk, OnOk};
ghost use Rattle.plan_describe.specs.Numbers.{IsFirstMember, is_run, is_spaced, is_steps, is_whole, items, last_of, members, runs, said_run, values_said, with_number};
ghost use Rattle.plan_sets.specs.Values.{has_value};
ghost use Rattle.plan_words.specs.View.{values_of};

use plan_sets::ValueSet;
use plan_words::{Span, Values};
use std::alloc::{AllocError, Global};

/// The least number of evenly spaced values that are said as steps.
const LEAST_STEPS: usize = 8;

/// Returns how numbers are said.
///
/// # Errors
///
/// `AllocError` if an allocation fails.
pub(crate) fn values_said(alloc: Global, values: &[u16]) -> Result<Values, AllocError>
    ensures { IfOk result (λ found. values_of found ≡ values_said values.now) }
{
    if let [first, second, more @ ..] = values
        && is_steps(values)
    {
        return Ok(Values::Steps {
            first: *first,
            last: last_of(*second, more),
            step: *second - *first,
        });
    }
    Ok(Values::Items(items(alloc, values)?))
}

/// Returns those of the numbers from `first` up to `end`, without `end`, that are in a set.
///
/// # Errors
///
/// `AllocError` if an allocation fails.
pub(crate) fn members(
    alloc: Global,
    values: &ValueSet,
    first: u16,
    end: u16,
) -> Result<Vec<u16>, AllocError>
    ensures { IfOk result (λ found. found.items ≡ members (has_value values.now) first (end - first)) }
{
    let mut found = Vec::with_capacity(alloc, usize::from(end.saturating_sub(first)))?;
    let mut from = first;
    while let Some(value) = next_member(values, from, end) {
        found.push(value)?;
        from = value + 1;
    }
    Ok(found)
}

/// Returns whether a set has all numbers from `first` up to `end`, without `end`.
pub(crate) fn has_all(values: &ValueSet, first: u16, end: u16) -> bool
    requires { first < end }
    ensures { result ≡ is_whole first (end - 1) (members (has_value values.now) first (end - first)) }
{
    for value in first..end {
        if !values.contains(value) {
            return false;
        }
    }
    true
}

// Returns the first number from `from` up to `end`, without `end`, that is in a set.
fn next_member(values: &ValueSet, from: u16, end: u16) -> Option<u16>
    ensures { IsFirstMember (has_value values.now) from end result }
{
    // In a set of neighbours this is quicker than a search.
    if from < end && values.contains(from) {
        return Some(from);
    }
    match values.first_from(from) {
        Some(value) if value < end => Some(value),
        _ => None,
    }
}

/// Returns whether a list has all numbers from `first` to `last`.
pub(crate) fn is_whole(first: u16, last: u16, values: &[u16]) -> bool
    ensures { result ≡ is_whole first last values.now }
{
    match values {
        [] => false,
        [value, more @ ..] => {
            *value == first && is_spaced(1, *value, more) && last_of(*value, more) == last
        }
    }
}

/// Returns whether a list is one run of three or more numbers.
pub(crate) fn is_run(values: &[u16]) -> bool
    ensures { result ≡ is_run values.now }
{
    match values {
        [] => false,
        [value, more @ ..] => more.len() >= 2 && is_spaced(1, *value, more),
    }
}

/// Returns whether numbers are said as steps.
pub(crate) fn is_steps(values: &[u16]) -> bool
    ensures { result ≡ is_steps values.now }
{
    match values {
        [first, second, more @ ..] => {
            values.len() >= LEAST_STEPS
                && *second >= 2
                && *first <= *second - 2
                && is_spaced(*second - *first, *second, more)
        }
        _ => false,
    }
}

/// Returns whether each number is so far after the one before.
pub(crate) fn is_spaced(step: u16, first: u16, values: &[u16]) -> bool
    ensures { result ≡ is_spaced step first values.now }
{
    let mut before = first;
    for value in values {
        if *value < before || *value - before != step {
            return false;
        }
        before = *value;
    }
    true
}

/// Returns the last of the numbers after one.
pub(crate) fn last_of(first: u16, values: &[u16]) -> u16
    ensures { result ≡ last_of first values.now }
{
    let mut last = first;
    for value in values {
        last = *value;
    }
    last
}

// Returns the items of a sentence: a run of three or more is one.
fn items(alloc: Global, values: &[u16]) -> Result<Vec<Span>, AllocError>
    ensures { IfOk result (λ spans. spans.items ≡ items values.now) }
{
    let runs = runs(alloc, values)?;
    let mut spans = Vec::with_capacity(alloc, runs.len())?;
    for run in &runs {
        add_run(&mut spans, *run)?;
    }
    Ok(spans)
}

/// Returns the runs of neighbours, as many in each as there are.
///
/// # Errors
///
/// `AllocError` if an allocation fails.
pub(crate) fn runs(alloc: Global, values: &[u16]) -> Result<Vec<Span>, AllocError>
    ensures { IfOk result (λ spans. spans.items ≡ runs values.now) }
{
    let mut runs = Vec::with_capacity(alloc, values.len())?;
    for value in values {
        add_number(&mut runs, *value)?;
    }
    Ok(runs)
}

// Adds a number to spans of smaller numbers.
#[tactic(auto, using(crate::proofs::NumbersLemmas::with_number_near, crate::proofs::NumbersLemmas::with_number_far))]
fn add_number(spans: &mut Vec<Span>, value: u16) -> Result<(), AllocError>
    ensures { OnOk result (spans.new.items ≡ with_number spans.old.items value) }
{
    let Some(last) = spans.pop() else {
        spans.push(Span {
            first: value,
            last: value,
        })?;
        return Ok(());
    };
    if are_neighbours(last.last, value) {
        spans.push(Span {
            first: last.first,
            last: value,
        })?;
    } else {
        spans.push(last)?;
        spans.push(Span {
            first: value,
            last: value,
        })?;
    }
    Ok(())
}

// Adds a run, of which two numbers are said as two.
fn add_run(spans: &mut Vec<Span>, run: Span) -> Result<(), AllocError>
    ensures { OnOk result (spans.new.items ≡ spans.old.items ++ said_run run) }
{
    if are_neighbours(run.first, run.last) {
        spans.push(Span {
            first: run.first,
            last: run.first,
        })?;
        spans.push(Span {
            first: run.last,
            last: run.last,
        })?;
    } else {
        spans.push(run)?;
    }
    Ok(())
}

// Returns whether a number is the next after another.
fn are_neighbours(first: u16, next: u16) -> bool
    ensures { result ≡ (first + 1 == next) }
{
    first < next && next - first == 1
}
