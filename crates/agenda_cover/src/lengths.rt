//! Lengths as people read them.

ghost use Rattle.std.specs.Prelude.{◌≡◌, ◌++◌, OnOk, decimal, string_bytes};
ghost use Rattle.agenda_table.specs.Times.{two_units};
ghost use Rattle.agenda_cover.specs.Lengths.{length_text};

use itoa::Buffer as Digits;
use std::alloc::AllocError;

/// Appends a length in seconds, in at most two units of hours, minutes and seconds.
///
/// # Errors
///
/// `AllocError` if an allocation fails.
#[tactic(auto, unfolding(crate::specs::Lengths::length_text))]
pub(crate) fn push_length(text: &mut String, seconds: u64) -> Result<(), AllocError>
    ensures { OnOk result (string_bytes text.new ≡ string_bytes text.old ++ length_text seconds) }
{
    if seconds < 60 {
        push_number(text, seconds, " s")
    } else if seconds < 3_600 {
        push_units(text, seconds / 60, " min", seconds % 60, " s")
    } else {
        push_units(text, seconds / 3_600, " h", seconds % 3_600 / 60, " min")
    }
}

// Appends a number of some unit, and a number of a smaller unit unless it is 0.
fn push_units(
    text: &mut String,
    first: u64,
    unit: &str,
    second: u64,
    smaller: &str,
) -> Result<(), AllocError>
    ensures { OnOk result (string_bytes text.new ≡ string_bytes text.old ++ two_units first unit.now second smaller.now) }
{
    push_number(text, first, unit)?;
    if second == 0 {
        return Ok(());
    }
    text.push_str(" ")?;
    push_number(text, second, smaller)
}

// Appends a number, and a unit.
fn push_number(text: &mut String, number: u64, unit: &str) -> Result<(), AllocError>
    ensures { OnOk result (string_bytes text.new ≡ string_bytes text.old ++ (decimal number ++ unit.now)) }
{
    text.push_str(Digits::new().format(number))?;
    text.push_str(unit)
}
