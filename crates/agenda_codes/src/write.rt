//! Writes what `agenda explain` prints.

ghost use Rattle.std.specs.Prelude.{◌≡◌, IsTrue, OnOk};
ghost use Rattle.std.specs.List.{flat_map};
ghost use Rattle.plan_streams.specs.Stream.{Puts};
ghost use Rattle.plan_streams.specs.Writer.{Takes};
ghost use Rattle.agenda_codes.specs.Codes.{text_of};
ghost use Rattle.agenda_codes.specs.Texts.{code_line, codes_text};

use crate::code::Code;
use plan_streams::{Stream, TextWriter, WriteFault};

/// Writes what a code means and what to do about it.
///
/// # Errors
///
/// `Device` or `Closed` if the stream fails. Then only the first bytes of the text were written.
pub fn write_explanation<S: Stream>(code: Code, out: &mut S) -> Result<(), WriteFault>
    ensures text { Puts S.takes_all result (S.holds out.old) (S.holds out.new) (text_of code) }
    ensures flushed { OnOk result (IsTrue (S.is_flushed out.new)) }
{
    out.put(code.text().as_bytes())
}

/// Writes all codes, one per line, in the order of their names: the name, a tab, and what the code means in
/// one sentence. The stream is flushed once, at the end.
///
/// # Errors
///
/// `Device` or `Closed` if the stream fails. Then only the first bytes of the text were written.
pub fn write_codes<S: Stream>(out: &mut S) -> Result<(), WriteFault>
    ensures text { Puts S.takes_all result (S.holds out.old) (S.holds out.new) codes_text }
    ensures flushed { OnOk result (IsTrue (S.is_flushed out.new)) }
{
    write_lines(&Code::all(), out)
}

// Writes the lines of codes, in order.
// Not inlined: its buffer of 64 KiB takes stack only while it runs.
#[inline(never)]
fn write_lines<S: Stream>(codes: &[Code], out: &mut S) -> Result<(), WriteFault>
    ensures text { Puts S.takes_all result (S.holds out.old) (S.holds out.new) (flat_map code_line codes.now) }
    ensures flushed { OnOk result (IsTrue (S.is_flushed out.new)) }
{
    let mut lines = TextWriter::new(out);
    for code in codes {
        put_line(*code, &mut lines);
    }
    lines.finish()
}

// Puts the line of a code.
fn put_line<S: Stream>(code: Code, lines: &mut TextWriter<'_, S>)
    ensures { Takes S.holds S.takes_all lines.old lines.new (code_line code) }
{
    lines.put_both(code.name().as_bytes(), b"\t");
    lines.put_both(code.sentence().as_bytes(), b"\n");
}
