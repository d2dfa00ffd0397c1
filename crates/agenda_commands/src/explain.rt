//! Explains the codes of errors and warnings.

ghost use Rattle.std.specs.Prelude.{◌≡◌, IsTrue, OnOk};
ghost use Rattle.agenda_commands.specs.Command.{Outputs};
ghost use Rattle.agenda_commands.specs.Explain.{explain_output, explain_text};
ghost use Rattle.plan_streams.specs.Stream.{Puts};

use agenda_codes::{Code, write_codes, write_explanation};
use agenda_faults::RunFault;
use plan_streams::{Stream, WriteFault};

/// Writes what a code means and what to do about it. Without a code, writes all codes, one per line.
///
/// # Errors
///
/// `Device` if the stream failed, which then accepted the first bytes of the text.
pub fn run_explain<S: Stream>(code: Option<Code>, out: &mut S) -> Result<(), RunFault>
    ensures output { Outputs S.takes_all (explain_output code) result (S.holds out.old) (S.holds out.new) }
    ensures flushed { OnOk result (IsTrue (S.is_flushed out.new)) }
{
    explain(code, out)?;
    Ok(())
}

// Writes the explanation of a code, or the list of all codes.
fn explain<S: Stream>(code: Option<Code>, out: &mut S) -> Result<(), WriteFault>
    ensures text { Puts S.takes_all result (S.holds out.old) (S.holds out.new) (explain_text code) }
    ensures flushed { OnOk result (IsTrue (S.is_flushed out.new)) }
{
    match code {
        Some(code) => write_explanation(code, out),
        None => write_codes(out),
    }
}
