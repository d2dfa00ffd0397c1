//! Time spans as a whole.

ghost use Rattle.std.specs.Prelude.{◌≡◌};
ghost use Rattle.plan_spans.specs.Spans.{finite_sum, time_span};

use crate::pair::cut_pair;
use crate::space::{after_whitespace, before_whitespace};

/// Returns the microseconds of a time span, or `None` if the text isn't a time span (systemd.time(7), parsing time
/// spans).
///
/// The time span `infinity` is `u64::MAX`, which is more than any other. White space at both ends is ignored. The
/// limits of numbers, and how fractions are rounded, are those of systemd 252.
#[tactic(auto, unfolding(crate::specs::Spans::time_span))]
pub fn time_span(text: &[u8]) -> Option<u64>
    ensures { result ≡ time_span text.now }
{
    let text = before_whitespace(after_whitespace(text));
    if text == b"infinity".as_slice() {
        return Some(u64::MAX);
    }
    if text.is_empty() {
        return None;
    }
    sum_of_pairs(text)
}

// Returns the sum of the pairs that a text consists of, or `None` if it has anything else or the sum is too large.
fn sum_of_pairs(text: &[u8]) -> Option<u64>
    ensures { result ≡ finite_sum text.now }
{
    let mut sum: u64 = 0;
    let mut rest = text;
    while !rest.is_empty() {
        let pair = cut_pair(rest)?;
        sum = sum.checked_add(pair.whole)?.checked_add(pair.fraction)?;
        rest = pair.rest;
    }
    if sum == u64::MAX {
        return None;
    }
    Some(sum)
}
