//! The text of an agenda: its header, and a line for each entry.

ghost use Rattle.std.specs.Prelude.{◌≡◌, [], IsTrue, OnOk, length};
ghost use Rattle.std.specs.List.{cons_option};
ghost use Rattle.plan_collect.specs.Agenda.{IsInYears, IsOfJobs};
ghost use Rattle.plan_streams.specs.Stream.{Puts};
ghost use Rattle.plan_write.specs.Texts.{header_in, header_of, lines_of, span_columns, text_by_ends, version, zone_mark};
ghost use Rattle.plan_streams.specs.Writer.{Takes};

use crate::formats::Format;
use crate::job_lines::put_lines;
use crate::line_ends::LineEnds;
use crate::time_fields::{Stamps, put_column};
use itoa::Buffer as Digits;
use plan_collect::{Agenda, Start};
use plan_rules::NamedZone;
use plan_streams::{Stream, TextWriter, WriteFault};

/// Writes the text of an agenda, with the ends of the lines of its jobs, which are of the same format.
///
/// Text has a header: `agenda 2`, or `agenda 3` if delays count, and the name of the zone by whose clock times are
/// shown, if there is one; then the start of the span, its end, and the number of entries. Then comes one line for
/// each entry: the time, the time of the latest start if delays count, the job's name, and what it runs. The parts
/// of a line have tabs between them. The latest start is at most `END_SECOND`.
///
/// In JSON there is no header, and an object for each entry: its members are `start`, `local`, `latest` and
/// `latest_local`, as far as the format and the delays request them, and then `job`, `user`, if the job has one, and
/// `run`.
///
/// This requests no memory. The stream is flushed once, at the end.
///
/// # Errors
///
/// `Device` or `Closed` if the stream fails. Then only the first bytes of the text were written.
// Not inlined: its buffer of 64 KiB takes stack only while it runs.
#[inline(never)]
pub fn write_agenda<S: Stream>(
    agenda: &Agenda,
    ends: &LineEnds,
    format: &Format,
    delays: bool,
    out: &mut S,
) -> Result<(), WriteFault>
    requires { IsOfJobs (length ends.now) agenda.now.entries }
    ensures text { Puts S.takes_all result (S.holds out.old) (S.holds out.new) (text_by_ends format.now delays agenda.now ends.now) }
    ensures flushed { OnOk result (IsTrue (S.is_flushed out.new)) }
{
    let mut lines = TextWriter::new(out);
    put_header(agenda, format, delays, &mut lines);
    put_entries(agenda, ends, format, delays, &mut lines);
    lines.finish()
}

/// Writes the line of an entry as `write_agenda` does, by the ends of the lines of its jobs, if there is one.
///
/// This requests no memory. The stream is flushed once, at the end.
///
/// # Errors
///
/// `Device` or `Closed` if the stream fails. Then only the first bytes of the text were written.
// Not inlined: its buffer of 64 KiB takes stack only while it runs.
#[inline(never)]
pub fn write_entry<S: Stream>(
    entry: Option<Start>,
    ends: &LineEnds,
    format: &Format,
    delays: bool,
    out: &mut S,
) -> Result<(), WriteFault>
    requires { IsInYears (cons_option entry []) }
    ensures text { Puts S.takes_all result (S.holds out.old) (S.holds out.new) (lines_of format.now delays (cons_option entry []) ends.now) }
    ensures flushed { OnOk result (IsTrue (S.is_flushed out.new)) }
{
    let mut lines = TextWriter::new(out);
    if let Some(entry) = entry {
        put_lines(&[entry], ends, format, delays, &mut lines);
    }
    lines.finish()
}

// Puts the header of an agenda, which JSON doesn't have.
fn put_header<S: Stream>(
    agenda: &Agenda,
    format: &Format,
    delays: bool,
    lines: &mut TextWriter<'_, S>,
)
    ensures { Takes S.holds S.takes_all lines.old lines.new (header_in format.now delays agenda.now) }
{
    if !format.json {
        put_text_header(agenda, &format.local, delays, lines);
    }
}

// Puts the header of an agenda in text.
fn put_text_header<S: Stream>(
    agenda: &Agenda,
    local: &Option<NamedZone>,
    delays: bool,
    lines: &mut TextWriter<'_, S>,
)
    ensures { Takes S.holds S.takes_all lines.old lines.new (header_of local.now delays agenda.now) }
{
    lines.put(version(delays));
    put_zone(local, lines);
    put_span(agenda, local, lines);
    lines.put_both(Digits::new().format(agenda.len()).as_bytes(), b"\n");
}

// Puts the start of the span of an agenda and its end, after a tab.
fn put_span<S: Stream>(agenda: &Agenda, local: &Option<NamedZone>, lines: &mut TextWriter<'_, S>)
    ensures { Takes S.holds S.takes_all lines.old lines.new (span_columns local.now agenda.now) }
{
    let upto = agenda.upto();
    let mut stamps = Stamps::new();
    lines.put(b"\t");
    put_column(local, agenda.since(), b"", &mut stamps, lines);
    put_column(local, upto, b"", &mut stamps, lines);
}

// Returns the version of the text.
fn version(delays: bool) -> &'static [u8]
    ensures { result.now ≡ version delays }
{
    if delays { b"agenda 3" } else { b"agenda 2" }
}

// Puts the name of the zone by whose clock times are shown, if there is one.
fn put_zone<S: Stream>(local: &Option<NamedZone>, lines: &mut TextWriter<'_, S>)
    ensures { Takes S.holds S.takes_all lines.old lines.new (zone_mark local.now) }
{
    if let Some(zone) = local {
        lines.put_both(b" ", zone.name.as_str().as_bytes());
    }
}

// Puts the lines of entries.
fn put_entries<S: Stream>(
    agenda: &Agenda,
    ends: &LineEnds,
    format: &Format,
    delays: bool,
    lines: &mut TextWriter<'_, S>,
)
    ensures { Takes S.holds S.takes_all lines.old lines.new (lines_of format.now delays agenda.now.entries ends.now) }
{
    put_lines(agenda.entries(), ends, format, delays, lines);
}
