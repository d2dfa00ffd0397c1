//! The lines of what jobs miss while the machine is down.

ghost use Rattle.std.specs.Prelude.{IsTrue, OnOk, slice_get};
ghost use Rattle.plan_streams.specs.Stream.{Puts};
ghost use Rattle.plan_streams.specs.Writer.{Takes};
ghost use Rattle.plan_downtime.specs.Lines.{downtime_text, line_of, missed_line, outcome_text};

use crate::missed::Missed;
use itoa::Buffer as Digits;
use plan_streams::{Stream, TextWriter, WriteFault};
use plan_write::{Format, LineEnd, LineEnds, LineStamps, TimeField, put_field};

/// Writes what jobs miss while the machine is down, with the ends of the lines of these jobs, which are of the same format. There is
/// a line for each job that misses something, in order.
///
/// In text a line has the times of the first and the last start, the number of starts, what becomes of them, the job's name,
/// and what it runs, with tabs between them. In JSON it is an object: its members are `first` and `last`, each with its local
/// time if the format requests that, `starts` and `then`, and those of the job.
///
/// This requests no memory. The stream is flushed once, at the end.
///
/// # Errors
///
/// `Device` or `Closed` if the stream fails. Then only the first bytes of the text were written.
// Not inlined: its buffer of 64 KiB takes stack only while it runs.
#[inline(never)]
pub fn write_downtime<S: Stream>(
    missed: &[Missed],
    ends: &LineEnds,
    format: &Format,
    out: &mut S,
) -> Result<(), WriteFault>
    ensures text { Puts S.takes_all result (S.holds out.old) (S.holds out.new) (downtime_text format.now ends.now missed.now) }
    ensures flushed { OnOk result (IsTrue (S.is_flushed out.new)) }
{
    let mut lines = TextWriter::new(out);
    put_lines(missed, ends, format, &mut lines);
    lines.finish()
}

// Puts the lines of what jobs miss, in order.
fn put_lines<S: Stream>(
    missed: &[Missed],
    ends: &LineEnds,
    format: &Format,
    lines: &mut TextWriter<'_, S>,
)
    ensures { Takes S.holds S.takes_all lines.old lines.new (downtime_text format.now ends.now missed.now) }
{
    let mut stamps = LineStamps::new();
    for one in missed {
        put_line_of(one, ends, format, &mut stamps, lines);
    }
}

// Puts the line of what a job misses, if there is such a job.
fn put_line_of<S: Stream>(
    missed: &Missed,
    ends: &LineEnds,
    format: &Format,
    stamps: &mut LineStamps,
    lines: &mut TextWriter<'_, S>,
)
    ensures { Takes S.holds S.takes_all lines.old lines.new (line_of format.now (slice_get ends.now missed.now.job) missed.now) }
{
    if let Some(end) = ends.get(missed.job()) {
        put_line(missed, end, format, stamps, lines);
    }
}

// Puts the line of what a job misses.
fn put_line<S: Stream>(
    missed: &Missed,
    end: &LineEnd,
    format: &Format,
    stamps: &mut LineStamps,
    lines: &mut TextWriter<'_, S>,
)
    ensures { Takes S.holds S.takes_all lines.old lines.new (missed_line format.now end.now missed.now) }
{
    let (first, last) = (TimeField::First, TimeField::Last);
    put_field(format, first, missed.first(), b"", &mut stamps.first, lines);
    put_field(format, last, missed.last(), b"", &mut stamps.last, lines);
    put_outcome(missed, format.json, lines);
    lines.put(end.text());
}

// Puts how many starts a job misses, and what becomes of them.
fn put_outcome<S: Stream>(missed: &Missed, json: bool, lines: &mut TextWriter<'_, S>)
    ensures { Takes S.holds S.takes_all lines.old lines.new (outcome_text json missed.now) }
{
    let mut digits = Digits::new();
    let count = digits.format(missed.count()).as_bytes();
    let outcome = missed.outcome().name().as_bytes();
    if json {
        lines.put_both(b",\"starts\":", count);
        lines.put_both(b",\"then\":\"", outcome);
        lines.put(b"\"");
    } else {
        lines.put_both(count, b"\t");
        lines.put_both(outcome, b"\t");
    }
}
