//! The pairs of a number and a unit.

ghost use Rattle.std.specs.Prelude.{◌≡◌, ◌+◌, ◌<◌, IfSome, length};
ghost use Rattle.std.specs.Option.{option_map};
ghost use Rattle.plan_spans.specs.Spans.{pair_in_front};

use crate::number::{cut_number, fraction_micros, whole_micros};
use crate::space::after_whitespace;
use crate::unit::cut_unit;

// A number and its unit at the start of a text, in microseconds.
#[derive(Clone, Copy)]
pub(crate) struct Pair<'a> {
    // What the digits before the point mean.
    pub whole: u64,
    // What the digits after the point mean.
    pub fraction: u64,
    // What follows the pair and white space.
    pub rest: &'a [u8],
}

// Returns the pair at the start of a text, or `None` if there is none or its number is too large.
#[tactic(auto, unfolding(crate::specs::Spans::pair_in_front))]
pub(crate) fn cut_pair(text: &[u8]) -> Option<Pair<'_>>
    ensures value { option_map (λ pair. (pair.whole + pair.fraction, pair.rest.now)) result ≡ pair_in_front text.now }
    ensures shorter { IfSome result (λ pair. length pair.rest.now < length text.now) }
{
    let number = cut_number(text)?;
    let (unit, rest) = cut_unit(number.rest)?;
    let whole = whole_micros(unit, number.whole)?;
    Some(Pair {
        whole,
        fraction: fraction_micros(unit, number.fraction),
        rest: after_whitespace(rest),
    })
}
