//! The lines of jobs, each with the time of a start: for agendas and for next starts.

ghost use Rattle.std.specs.Prelude.{◌≡◌, ◌≤◌, ◌++◌, IsTrue, None, Some, slice_get};
ghost use Rattle.plan_sets.specs.Limits.{end_second};
ghost use Rattle.plan_collect.specs.Windows.{latest_start};
ghost use Rattle.plan_streams.specs.Writer.{Takes};
ghost use Rattle.plan_write.specs.Formats.{utc_text};
ghost use Rattle.plan_write.specs.Stamp.{stamp_text};
ghost use Rattle.plan_write.specs.Texts.{job_line, line_of};
ghost use Rattle.plan_write.specs.Upcoming.{start_or_none, upcoming_text};

use crate::formats::Format;
use crate::latest::latest_start;
use crate::line_ends::{LineEnd, LineEnds};
use crate::stamp::Stamp;
use crate::time_fields::{LineStamps, TimeField, put_field, put_no_field};
use plan_collect::Start;
use plan_sets::END_SECOND;
use plan_streams::{Stream, TextWriter};

/// Puts a line for each start, by the ends of the lines of the jobs.
pub(crate) fn put_lines<S: Stream>(
    starts: &[Start],
    ends: &LineEnds,
    format: &Format,
    delays: bool,
    lines: &mut TextWriter<'_, S>,
)
    ensures { Takes S.holds S.takes_all lines.old lines.new (upcoming_text format.now delays starts.now ends.now) }
{
    let in_utc = format.is_utc_text();
    let mut stamps = LineStamps::new();
    for start in starts {
        put_line_of(*start, ends, format, in_utc, delays, &mut stamps, lines);
    }
}

// Puts the line of a start. Whether that is text in UTC is found once for all lines.
#[inline(always)]
fn put_line_of<S: Stream>(
    start: Start,
    ends: &LineEnds,
    format: &Format,
    in_utc: bool,
    delays: bool,
    stamps: &mut LineStamps,
    lines: &mut TextWriter<'_, S>,
)
    requires { IsTrue in_utc → format.now ≡ utc_text }
    ensures { Takes S.holds S.takes_all lines.old lines.new (line_of format.now delays (start_or_none start.0) (slice_get ends.now start.1)) }
{
    if let Some(end) = ends.get(start.job() as usize) {
        put_line(start.second(), end, format, in_utc, delays, stamps, lines);
    }
}

// Puts the line of a job that starts at a second, which is `END_SECOND` or later if it has no further start.
#[inline(always)]
fn put_line<S: Stream>(
    second: u64,
    end: &LineEnd,
    format: &Format,
    in_utc: bool,
    delays: bool,
    stamps: &mut LineStamps,
    lines: &mut TextWriter<'_, S>,
)
    requires { IsTrue in_utc → format.now ≡ utc_text }
    ensures { Takes S.holds S.takes_all lines.old lines.new (job_line format.now delays (start_or_none second) end.now) }
{
    if second >= END_SECOND {
        put_line_without_start(end, format, delays, lines);
    } else if in_utc {
        put_utc_line(second, end, delays, stamps, lines);
    } else {
        put_line_at(second, end, format, delays, stamps, lines);
    }
}

// Puts the line of a job that starts at a second.
#[inline(always)]
fn put_line_at<S: Stream>(
    second: u64,
    end: &LineEnd,
    format: &Format,
    delays: bool,
    stamps: &mut LineStamps,
    lines: &mut TextWriter<'_, S>,
)
    requires { second ≤ end_second }
    ensures { Takes S.holds S.takes_all lines.old lines.new (job_line format.now delays (Some second) end.now) }
{
    let start = TimeField::Start;
    if !delays {
        put_field(format, start, second, end.text(), &mut stamps.first, lines);
        return;
    }
    put_field(format, start, second, b"", &mut stamps.first, lines);
    let latest = latest_start(end.delay(), second);
    put_field(
        format,
        TimeField::Latest,
        latest,
        end.text(),
        &mut stamps.last,
        lines,
    );
}

// Puts the line of a job that starts at a second, in text and in UTC. `put_line_at` does the same, but for a line
// with a latest start it takes some 30 instructions more.
#[inline(always)]
fn put_utc_line<S: Stream>(
    second: u64,
    end: &LineEnd,
    delays: bool,
    stamps: &mut LineStamps,
    lines: &mut TextWriter<'_, S>,
)
    requires { second ≤ end_second }
    ensures { Takes S.holds S.takes_all lines.old lines.new (job_line utc_text delays (Some second) end.now) }
{
    let (start, latest) = (&mut stamps.first.utc, &mut stamps.last.utc);
    start.show(second);
    if delays {
        put_times(second, end.delay(), start, latest, lines);
        lines.put_both(end.text(), b"");
    } else {
        lines.put_both(start.text(), end.text());
    }
}

// Puts the time of a stamp and that of the latest start for it, each with a tab.
#[inline(always)]
fn put_times<S: Stream>(
    second: u64,
    delay: u64,
    start: &Stamp,
    latest: &mut Stamp,
    lines: &mut TextWriter<'_, S>,
)
    requires years { second ≤ end_second }
    requires shown { start.now ≡ second }
    ensures { Takes S.holds S.takes_all lines.old lines.new (stamp_text second ++ stamp_text (latest_start delay second)) }
{
    if delay == 0 {
        lines.put_both(start.text(), start.text());
    } else {
        latest.show(latest_start(delay, second));
        lines.put_both(start.text(), latest.text());
    }
}

// Puts the line of a job that has no further start.
fn put_line_without_start<S: Stream>(
    end: &LineEnd,
    format: &Format,
    delays: bool,
    lines: &mut TextWriter<'_, S>,
)
    ensures { Takes S.holds S.takes_all lines.old lines.new (job_line format.now delays None end.now) }
{
    if !delays {
        put_no_field(format, TimeField::Start, end.text(), lines);
        return;
    }
    put_no_field(format, TimeField::Start, b"", lines);
    put_no_field(format, TimeField::Latest, end.text(), lines);
}
