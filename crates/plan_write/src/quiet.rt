//! The text of the gaps of an agenda, in which nothing may start.

ghost use Rattle.std.specs.Prelude.{◌≡◌, ◌≤◌, IsTrue, OnOk, slice_get};
ghost use Rattle.plan_sets.specs.Limits.{end_second};
ghost use Rattle.plan_collect.specs.Windows.{latest_start};
ghost use Rattle.plan_write.specs.Quiet.{NominalGapsAreOfMarks, NothingStartsInGaps, delay_of, gap_line, line_of_gap, quiet_text, seconds_member, seconds_text};
ghost use Rattle.plan_streams.specs.Stream.{Puts};
ghost use Rattle.plan_streams.specs.Writer.{Takes};

use crate::formats::Format;
use crate::latest::latest_start;
use crate::time_fields::{LineStamps, TimeField, put_field};
use itoa::Buffer as Digits;
use plan_collect::{Agenda, Start};
use plan_rules::Jobs;
use plan_streams::{Stream, TextWriter, WriteFault};

/// Writes the gaps of an agenda of these jobs that last at least `least` seconds: one line for each, in order.
///
/// A gap is a part of the span in which nothing may start: from the last second at which an earlier entry may
/// start to the time of the next entry. The first gap may start with the span, and the last one may end with it.
/// A line has the start of the gap, its end, and the seconds between them, in decimal, with tabs between the
/// three, or as the members `from`, `until` and `seconds` in JSON. A gap has at least 1 second, also if `least` is 0.
/// This requests no memory. The stream is flushed once, at the end.
///
/// # Errors
///
/// `Device` or `Closed` if the stream fails. Then only the first bytes of the text were written.
// Not inlined: its buffer of 64 KiB takes stack only while it runs.
#[inline(never)]
pub fn write_quiet<S: Stream>(
    agenda: &Agenda,
    jobs: &Jobs,
    least: u64,
    format: &Format,
    out: &mut S,
) -> Result<(), WriteFault>
    ensures text { Puts S.takes_all result (S.holds out.old) (S.holds out.new) (quiet_text format.now least agenda.now jobs.now) }
    ensures flushed { OnOk result (IsTrue (S.is_flushed out.new)) }
{
    let mut lines = TextWriter::new(out);
    let mut stamps = LineStamps::new();
    let mut reach = agenda.since();
    let upto = agenda.upto();
    let entries = agenda.entries();
    for entry in entries {
        put_gap(
            reach,
            entry.second(),
            least,
            format,
            &mut stamps,
            &mut lines,
        );
        reach = reach.max(latest_start_of(*entry, jobs));
    }
    put_gap(reach, upto, least, format, &mut stamps, &mut lines);
    lines.finish()
}

// Returns the latest start for an entry of these jobs.
#[inline(always)]
fn latest_start_of(entry: Start, jobs: &Jobs) -> u64
    ensures value { result ≡ latest_start (delay_of (slice_get jobs.now entry.1)) entry.0 }
    ensures years { result ≤ end_second }
{
    match jobs.get(entry.job() as usize) {
        Some(job) => latest_start(job.delay(), entry.second()),
        None => latest_start(0, entry.second()),
    }
}

// Puts the line of the gap between two times, if it is a gap and long enough.
#[inline(always)]
fn put_gap<S: Stream>(
    from: u64,
    to: u64,
    least: u64,
    format: &Format,
    stamps: &mut LineStamps,
    lines: &mut TextWriter<'_, S>,
)
    requires from { from ≤ end_second }
    requires to { to ≤ end_second }
    ensures { Takes S.holds S.takes_all lines.old lines.new (line_of_gap format.now least (from, to)) }
{
    let seconds = to.saturating_sub(from);
    if seconds == 0 || seconds < least {
        return;
    }
    put_gap_line(from, to, format, stamps, lines);
}

// Puts the line of a gap.
#[inline(never)]
fn put_gap_line<S: Stream>(
    from: u64,
    to: u64,
    format: &Format,
    stamps: &mut LineStamps,
    lines: &mut TextWriter<'_, S>,
)
    requires from { from ≤ end_second }
    requires to { to ≤ end_second }
    ensures { Takes S.holds S.takes_all lines.old lines.new (gap_line format.now (from, to)) }
{
    let (start, end) = (TimeField::From, TimeField::Until);
    put_field(format, start, from, b"", &mut stamps.first, lines);
    put_field(format, end, to, b"", &mut stamps.last, lines);
    put_seconds(to.saturating_sub(from), format.json, lines);
}

// Puts the number of seconds of a gap, and the end of its line.
fn put_seconds<S: Stream>(seconds: u64, json: bool, lines: &mut TextWriter<'_, S>)
    ensures { Takes S.holds S.takes_all lines.old lines.new (seconds_text json seconds) }
{
    if json {
        put_seconds_member(seconds, lines);
    } else {
        lines.put_both(Digits::new().format(seconds).as_bytes(), b"\n");
    }
}

// Puts the member of the seconds of a gap, and the end of its object.
fn put_seconds_member<S: Stream>(seconds: u64, lines: &mut TextWriter<'_, S>)
    ensures { Takes S.holds S.takes_all lines.old lines.new (seconds_member seconds) }
{
    lines.put_both(b",\"seconds\":", Digits::new().format(seconds).as_bytes());
    lines.put(b"}\n");
}

/// States the law of gaps: no job may start within a gap of an agenda, as `write_quiet` writes them. A job may
/// start at each second from a time of its rule to that time and its delay. The start and the end of a gap don't
/// belong to it.
///
/// The function does nothing: its contract is the law.
pub fn nothing_starts_in_gaps()
    ensures { NothingStartsInGaps }
{}

/// States the law of gaps without delays: if no job has a delay, the gaps of an agenda that last at least
/// `least` seconds, 1 or more, are between its neighbouring marks that are so far apart. The marks are the start
/// of the span, the times of the entries, and the end of the span.
///
/// The function does nothing: its contract is the law.
pub fn nominal_gaps_are_of_marks()
    ensures { NominalGapsAreOfMarks }
{}
