//! Series of seconds of the day: numbers that are evenly spaced.

ghost use Rattle.std.specs.Prelude.{◌≡◌, ◌*◌, true};
ghost use Rattle.plan_describe.specs.Series.{is_below, scaled, series_of, series_of_span, sums, sums_of};

use crate::numbers::{is_spaced, last_of};
use plan_words::Span;

/// The number of seconds in a day.
pub(crate) const DAY: u32 = 86_400;

/// A list of numbers in ascending order, if they are evenly spaced.
#[derive(Clone, Copy)]
pub(crate) enum Series {
    /// A single number.
    One(u32),
    /// At least two numbers, each `step` after the one before.
    Even { first: u32, last: u32, step: u32 },
    /// No number, or numbers that aren't evenly spaced.
    Uneven,
}

/// Returns the series of a list of numbers, each so many units.
pub(crate) fn series_of(unit: u16, values: &[u16]) -> Series
    ensures { result ≡ scaled unit (series_of values.now) }
{
    match values {
        [] => Series::Uneven,
        [value] => Series::One(units(unit, *value)),
        [first, second, more @ ..] => {
            if *first < *second && is_spaced(*second - *first, *second, more) {
                Series::Even {
                    first: units(unit, *first),
                    last: units(unit, last_of(*second, more)),
                    step: units(unit, *second - *first),
                }
            } else {
                Series::Uneven
            }
        }
    }
}

/// Returns the series of the numbers of a span, each so many units.
pub(crate) fn series_of_span(unit: u16, span: Span) -> Series
    ensures { result ≡ scaled unit (series_of_span span) }
{
    if span.first == span.last {
        Series::One(units(unit, span.first))
    } else {
        Series::Even {
            first: units(unit, span.first),
            last: units(unit, span.last),
            step: u32::from(unit),
        }
    }
}

// Returns so many units.
fn units(unit: u16, count: u16) -> u32
    ensures { result ≡ unit * count }
{
    u32::from(unit) * u32::from(count)
}

/// Returns the series of all sums of a number of an outer series, whose numbers are multiples of a unit, and one
/// of an inner series below the unit.
pub(crate) fn sums(outer: Series, unit: u16, inner: Series) -> Series
    ensures { result ≡ sums outer unit inner }
{
    if is_below(DAY, outer) && is_below(u32::from(unit), inner) {
        sums_of(outer, unit, inner)
    } else {
        Series::Uneven
    }
}

// Returns whether all numbers of a series are below a limit.
fn is_below(limit: u32, series: Series) -> bool
    ensures { result ≡ is_below limit series }
{
    match series {
        Series::One(value) => value < limit,
        Series::Even { first, last, step } => first < limit && last < limit && step < limit,
        Series::Uneven => false,
    }
}

// Returns the series of the sums of two series of small numbers.
fn sums_of(outer: Series, unit: u16, inner: Series) -> Series
    requires outer { is_below DAY outer ≡ true }
    requires inner { is_below unit inner ≡ true }
    ensures { result ≡ sums_of outer unit inner }
{
    match (outer, inner) {
        (Series::One(a), Series::One(b)) => Series::One(a + b),
        (Series::One(a), Series::Even { first, last, step }) => Series::Even {
            first: a + first,
            last: a + last,
            step,
        },
        (Series::Even { first, last, step }, Series::One(b)) => Series::Even {
            first: first + b,
            last: last + b,
            step,
        },
        (
            Series::Even { first, last, step },
            Series::Even {
                first: inner_first,
                last: inner_last,
                step: inner_step,
            },
        ) => {
            if step == u32::from(unit) && inner_first + step == inner_last + inner_step {
                Series::Even {
                    first: first + inner_first,
                    last: last + inner_last,
                    step: inner_step,
                }
            } else {
                Series::Uneven
            }
        }
        _ => Series::Uneven,
    }
}
