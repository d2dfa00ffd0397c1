//! The text of the next starts of jobs.

ghost use Rattle.std.specs.Prelude.{◌≡◌, IsTrue, OnOk};
ghost use Rattle.plan_write.specs.Upcoming.{upcoming_text};
ghost use Rattle.plan_streams.specs.Stream.{Puts};

use crate::formats::Format;
use crate::job_lines::put_lines;
use crate::line_ends::LineEnds;
use plan_collect::Upcoming;
use plan_streams::{Stream, TextWriter, WriteFault};

/// Writes the next start of each job, with the ends of the lines of these jobs, which are of the same format: one
/// line for each.
///
/// A line is that of an entry of an agenda: the time, the time of the latest start if delays count, the job's name,
/// and what it runs. If the job has no further start, both times are `none`, or `null` in JSON. This requests no
/// memory. The stream is flushed once, at the end.
///
/// # Errors
///
/// `Device` or `Closed` if the stream fails. Then only the first bytes of the text were written.
// Not inlined: its buffer of 64 KiB takes stack only while it runs.
#[inline(never)]
pub fn write_upcoming<S: Stream>(
    upcoming: &Upcoming,
    ends: &LineEnds,
    format: &Format,
    delays: bool,
    out: &mut S,
) -> Result<(), WriteFault>
    ensures text { Puts S.takes_all result (S.holds out.old) (S.holds out.new) (upcoming_text format.now delays upcoming.now ends.now) }
    ensures flushed { OnOk result (IsTrue (S.is_flushed out.new)) }
{
    let mut lines = TextWriter::new(out);
    put_lines(upcoming.nexts(), ends, format, delays, &mut lines);
    lines.finish()
}
