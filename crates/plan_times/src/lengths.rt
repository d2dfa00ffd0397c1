//! Reads lengths, such as `90min`.

ghost use Rattle.std.specs.Prelude.{◌≡◌, ◌≤◌, IfSome};
ghost use Rattle.plan_times.specs.Forms.{whole_seconds, length_of};

use plan_spans::time_span;

/// The microseconds of a second.
const MICROS: u64 = 1_000_000;

/// Returns the seconds of a time span that is a whole number of seconds, and not `infinity`. Returns `None` for any
/// other text.
#[tactic(auto, unfolding(crate::specs::Forms::whole_seconds))]
pub(crate) fn whole_seconds(text: &[u8]) -> Option<u64>
    ensures value { result ≡ whole_seconds text.now }
    ensures small { IfSome result (λ n. n ≤ 18_446_744_073_709) }
{
    let micros = time_span(text)?;
    if micros % MICROS == 0 && micros < u64::MAX {
        Some(micros / MICROS)
    } else {
        None
    }
}

/// Returns the seconds of a length: a time span of a whole number of seconds, from 1 to 4,294,967,295. A number alone
/// is seconds. Returns `None` for any other text.
#[tactic(auto, unfolding(crate::specs::Forms::length_of))]
pub fn length(text: &str) -> Option<u32>
    ensures value { result ≡ length_of text.now }
    ensures some { IfSome result (λ n. 1 ≤ n) }
{
    let seconds = whole_seconds(text.as_bytes())?;
    if 1 <= seconds && seconds <= u64::from(u32::MAX) {
        Some(seconds as u32)
    } else {
        None
    }
}
