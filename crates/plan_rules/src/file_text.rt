//! The text of a file: its bytes, once their number and their encoding are checked.

ghost use Rattle.std.specs.Prelude.{◌≡◌, ◌≤◌, IfOk, length};
ghost use Rattle.std.specs.Result.{result_map_both};
ghost use Rattle.plan_texts.specs.Limits.{most_bytes};
ghost use Rattle.plan_rules.specs.FileText.{text_reading};

use crate::line_fault::{LineCause, LineFault};
use plan_texts::lines::is_too_large;

/// Returns the bytes of a file as text.
///
/// # Errors
///
/// The first of these that applies, with line 0: `TooLarge` for more than 1,048,576 bytes, `NotUtf8` if the
/// bytes are not valid UTF-8.
#[tactic(auto, using(crate::proofs::FileFaults::text_of_large, crate::proofs::FileFaults::text_of_utf8, crate::proofs::FileFaults::text_of_other))]
pub fn text_of(bytes: &[u8]) -> Result<&str, LineFault>
    ensures value { result_map_both (λ text. text.now) (λ fault. fault) result ≡ text_reading bytes.now }
    ensures few { IfOk result (λ text. length text.now ≤ most_bytes) }
{
    if is_too_large(bytes) {
        return Err(LineCause::TooLarge.on_line(0));
    }
    str::from_utf8(bytes).map_err(|_| LineCause::NotUtf8.on_line(0))
}
