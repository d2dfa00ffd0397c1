//! How the days of a month are said.

ghost use Rattle.std.specs.Prelude.{◌≡◌, IfOk, map, reverse};
ghost use Rattle.plan_words.specs.View.{dates_of, values_of};
ghost use Rattle.plan_describe.specs.DaysSaid.{dates_said, is_from_one, nth_week, places_said, turned, turned_span};

use crate::numbers::{is_spaced, last_of, values_said};
use plan_words::{Dates, Span, Values};
use std::alloc::{AllocError, Global};

/// Returns how days of the month are said, or their places from its end.
///
/// # Errors
///
/// `AllocError` if an allocation fails.
pub(crate) fn dates_said(alloc: Global, from_end: bool, days: &[u16]) -> Result<Dates, AllocError>
    ensures { IfOk result (λ dates. dates_of dates ≡ dates_said from_end days.now) }
{
    if from_end {
        places_said(alloc, days)
    } else {
        Ok(Dates::FromStart(values_said(alloc, days)?))
    }
}

// Returns how places from the month's end are said.
fn places_said(alloc: Global, places: &[u16]) -> Result<Dates, AllocError>
    ensures { IfOk result (λ dates. dates_of dates ≡ places_said places.now) }
{
    if let [first, more @ ..] = places
        && is_from_one(places)
    {
        return Ok(Dates::LastDays(last_of(*first, more)));
    }
    let values = values_said(alloc, places)?;
    Ok(Dates::FromEnd(turned(alloc, values)?))
}

// Returns whether the numbers are 1 to another.
fn is_from_one(values: &[u16]) -> bool
    ensures { result ≡ is_from_one values.now }
{
    match values {
        [] | [_] => false,
        [first, more @ ..] => *first == 1 && is_spaced(1, *first, more),
    }
}

// Returns the same values with the greatest number first.
fn turned(alloc: Global, values: Values) -> Result<Values, AllocError>
    ensures { IfOk result (λ said. values_of said ≡ turned (values_of values)) }
{
    match values {
        Values::Steps { first, last, step } => Ok(Values::Steps {
            first: last,
            last: first,
            step,
        }),
        Values::Items(spans) => Ok(Values::Items(turned_spans(alloc, &spans)?)),
    }
}

// Returns the same spans with the greatest number first.
fn turned_spans(alloc: Global, spans: &[Span]) -> Result<Vec<Span>, AllocError>
    ensures { IfOk result (λ found. found.items ≡ map turned_span (reverse spans.now)) }
{
    spans
        .iter()
        .rev()
        .map(|span| turned_span(span))
        .collect(alloc)
}

// Returns a span with the greatest number first.
fn turned_span(span: &Span) -> Span
    ensures { result ≡ turned_span span.now }
{
    Span {
        first: span.last,
        last: span.first,
    }
}

/// Returns which week of the month the days are, from 1 to 4, if they are one.
pub(crate) fn nth_week(days: &[u16]) -> Option<u16>
    ensures { result ≡ nth_week days.now }
{
    let [first, more @ ..] = days else {
        return None;
    };
    if is_spaced(1, *first, more)
        && *first % 7 == 1
        && *first < 28
        && last_of(*first, more) == *first + 6
    {
        return Some(last_of(*first, more) / 7);
    }
    None
}
