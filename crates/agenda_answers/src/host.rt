//! The machine that the program runs on.

ghost use Rattle.std.specs.Prelude.{IfNone, IfSome, ℕ};
ghost use Rattle.agenda_answers.specs.Host.{IsColumns};

use agenda_table::Frame;
use itoa::Buffer as Digits;

/// What questions about a machine are answered by.
#[derive(Clone, Copy)]
pub struct Host<'a, T> {
    /// The files and directories.
    pub tree: &'a T,
    /// The time, in seconds since 1970-01-01T00:00:00Z.
    pub time: u64,
    /// Where answers are shown.
    pub frame: Frame,
}

/// Returns the number of columns that a text gives, which is the value of `COLUMNS`: a number from 20 to 999,999 in decimal,
/// without a sign and without a 0 in front. Any other text gives none.
pub fn columns_of(text: &str) -> Option<u32>
    ensures some { IfSome result (IsColumns text.now) }
    ensures none { IfNone result ((columns : ℕ) → IsColumns text.now columns → ⊥) }
{
    match text.parse::<u32>() {
        Ok(columns) if columns >= 20 && columns <= 999_999 => {
            if Digits::new().format(columns) == text {
                Some(columns)
            } else {
                None
            }
        }
        _ => None,
    }
}
