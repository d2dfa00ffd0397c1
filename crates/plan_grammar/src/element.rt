//! The elements of a list: what comes before the step, and the numbers in them.

ghost use Rattle.std.specs.Prelude.{◌≡◌, ◌<◌, ◌^◌, IfOk};
ghost use Rattle.plan_texts.specs.Limits.{most_digits};
ghost use Rattle.plan_grammar.specs.Elements.{number_reading};

use crate::fault::{RuleCause, RuleFault};
use plan_texts::number;

/// What comes before the step of an element.
#[derive(Clone, Copy)]
pub(crate) enum Side {
    /// `*`.
    Star,
    /// One value.
    Value(u16),
    /// The first and the last value of a range.
    Between(u16, u16),
}

/// Returns the number that a part of a rule's text writes.
///
/// # Errors
///
/// `WrongParts` if the text is empty, `BadNumber` if it isn't a number.
pub(crate) fn number_in(part: u8, text: &[u8]) -> Result<u16, RuleFault>
    ensures value { result ≡ number_reading part text.now }
    ensures small { IfOk result (λ n. n < 10 ^ most_digits) }
{
    if text.is_empty() {
        return Err(RuleFault {
            part,
            cause: RuleCause::WrongParts,
        });
    }
    number(text).ok_or(RuleFault {
        part,
        cause: RuleCause::BadNumber,
    })
}
