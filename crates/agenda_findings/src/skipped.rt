//! The text of what a plan that keeps going skips.

ghost use Rattle.std.specs.Prelude.{◌≡◌, [], IsTrue, Ok, OnOk};
ghost use Rattle.std.specs.List.{flat_map};
ghost use Rattle.plan_streams.specs.Stream.{Puts};
ghost use Rattle.plan_streams.specs.Writer.{Takes};
ghost use Rattle.agenda_findings.specs.Skipped.{skipped_text, unread_line};

use crate::findings::put_all_found;
use agenda_sources::{Found, SourcePath};
use plan_streams::{Stream, TextWriter, WriteFault};

/// Writes what a plan that keeps going skips: first a line `agenda: PATH: Device` for each file that can't be
/// read, then a line for each error, as `write_findings` writes it.
///
/// If there is neither, nothing is written, and the stream isn't used. This requests no memory. The stream is
/// flushed once, at the end.
///
/// # Errors
///
/// `Device` or `Closed` if the stream fails. Then only the first bytes of the text were written.
// Not inlined: its buffer of 64 KiB takes stack only while it runs.
#[inline(never)]
pub fn write_skipped<S: Stream>(
    unread: &[SourcePath],
    paths: &[SourcePath],
    errors: &[Found],
    err: &mut S,
) -> Result<(), WriteFault>
    ensures text { Puts S.takes_all result (S.holds err.old) (S.holds err.new) (skipped_text unread.now paths.now errors.now) }
    ensures spared { unread.now ≡ [] → errors.now ≡ [] → result ≡ Ok tt }
    ensures flushed { OnOk result (IsTrue (S.is_flushed err.old) → IsTrue (S.is_flushed err.new)) }
    ensures unused { unread.now ≡ [] → errors.now ≡ [] → err.new ≡ err.old }
{
    if unread.is_empty() && errors.is_empty() {
        return Ok(());
    }
    let mut lines = TextWriter::new(err);
    put_all_unread(unread, &mut lines);
    put_all_found(paths, errors, false, &mut lines);
    lines.finish()
}

// Puts the lines of files that can't be read, in order.
fn put_all_unread<S: Stream>(unread: &[SourcePath], lines: &mut TextWriter<'_, S>)
    ensures { Takes S.holds S.takes_all lines.old lines.new (flat_map unread_line unread.now) }
{
    for source in unread {
        put_unread(source, lines);
    }
}

// Puts the line of a file that can't be read.
fn put_unread<S: Stream>(source: &SourcePath, lines: &mut TextWriter<'_, S>)
    ensures { Takes S.holds S.takes_all lines.old lines.new (unread_line source.now) }
{
    lines.put_both(b"agenda: ", source.path.as_str().as_bytes());
    lines.put(b": Device\n");
}
