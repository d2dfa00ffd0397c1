//! The lines of changes.

ghost use Rattle.std.specs.Prelude.{◌≡◌, ◌≤◌, ◌++◌, IfSome, IsTrue, OnOk, Some, option_map};
ghost use Rattle.plan_sets.specs.Limits.{end_second};
ghost use Rattle.plan_baseline.specs.Line.{line_of};
ghost use Rattle.plan_streams.specs.Stream.{Puts};
ghost use Rattle.plan_streams.specs.Writer.{Takes};
ghost use Rattle.plan_write.specs.declared.time_fields.TimeField.TheVariants.{Start};
ghost use Rattle.plan_write.specs.Json.{json_string};
ghost use Rattle.plan_write.specs.TimeFields.{local_member};
ghost use Rattle.plan_changes.specs.Lines.{lines_of};
ghost use Rattle.plan_changes.specs.Texts.{change_line, changes_text, columns, object, sign, start_in, start_members, text_members};

use crate::change::{Change, ChangeKind};
use crate::job_lines::JobLines;
use crate::new_lines::NewLines;
use plan_baseline::{Baseline, Listed};
use plan_collect::Agenda;
use plan_rules::NamedZone;
use plan_streams::{Stream, TextWriter, WriteFault};
use plan_write::{Format, Stamps, put_text, put_time};

/// Writes a line for each change, in order: the changes are those from an earlier agenda to a new one, whose jobs have these
/// lines.
///
/// In text a line has a sign, which is `-` if the start is removed and `+` if it is added, the time of the start, the name of
/// its job, and what that runs, with tabs between them. In JSON it is an object: its members are `change`, with the sign,
/// `start`, its local time `local` if the format requests that, `job` and `run`.
///
/// This requests no memory. The stream is flushed once, at the end.
///
/// # Errors
///
/// `Device` or `Closed` if the stream fails. Then only the first bytes of the text were written.
// Not inlined: its buffer of 64 KiB takes stack only while it runs.
#[inline(never)]
pub fn write_changes<S: Stream>(
    changes: &[Change],
    before: &Baseline,
    now: &Agenda,
    jobs: &JobLines,
    format: &Format,
    out: &mut S,
) -> Result<(), WriteFault>
    ensures text { Puts S.takes_all result (S.holds out.old) (S.holds out.new)
        (changes_text format.now before.now.lines (lines_of jobs.now now.now.entries) changes.now) }
    ensures flushed { OnOk result (IsTrue (S.is_flushed out.new)) }
{
    let now = NewLines::new(now, jobs);
    let mut lines = TextWriter::new(out);
    put_lines(changes, before, &now, format, &mut lines);
    lines.finish()
}

// Puts the lines of changes, in order.
fn put_lines<S: Stream>(
    changes: &[Change],
    before: &Baseline,
    now: &NewLines<'_>,
    format: &Format,
    lines: &mut TextWriter<'_, S>,
)
    ensures { Takes S.holds S.takes_all lines.old lines.new (changes_text format.now before.now.lines now.now changes.now) }
{
    let mut stamps = Stamps::new();
    for change in changes {
        put_change(*change, before, now, format, &mut stamps, lines);
    }
}

// Puts the line of a change, with its start in the agenda that has it.
fn put_change<S: Stream>(
    change: Change,
    before: &Baseline,
    now: &NewLines<'_>,
    format: &Format,
    stamps: &mut Stamps,
    lines: &mut TextWriter<'_, S>,
)
    ensures { Takes S.holds S.takes_all lines.old lines.new
        (change_line format.now change.kind (start_in before.now.lines now.now change.kind change.place)) }
{
    match change.kind {
        ChangeKind::Removed => put_line(
            change.kind,
            before.get(change.place),
            format,
            stamps,
            lines,
        ),
        ChangeKind::Added => put_line(change.kind, now.get(change.place), format, stamps, lines),
    }
}

// Puts the line of a change, if its start is there.
fn put_line<S: Stream>(
    kind: ChangeKind,
    line: Option<Listed<'_>>,
    format: &Format,
    stamps: &mut Stamps,
    lines: &mut TextWriter<'_, S>,
)
    requires { IfSome line (λ listed. listed.second ≤ end_second) }
    ensures { Takes S.holds S.takes_all lines.old lines.new (change_line format.now kind (option_map line_of line.entry)) }
{
    if let Some(line) = line {
        if format.json {
            put_object(kind, &line, &format.local, stamps, lines);
        } else {
            put_columns(kind, &line, &format.local, stamps, lines);
        }
    }
}

// Puts the line of a change in text.
fn put_columns<S: Stream>(
    kind: ChangeKind,
    line: &Listed<'_>,
    local: &Option<NamedZone>,
    stamps: &mut Stamps,
    lines: &mut TextWriter<'_, S>,
)
    requires { line.now.second ≤ end_second }
    ensures { Takes S.holds S.takes_all lines.old lines.new (columns local.now kind (line_of line.now)) }
{
    lines.put_both(sign(kind), b"\t");
    put_time(local, line.second, stamps, lines);
    lines.put_both(b"\t", line.job);
    lines.put_both(b"\t", line.runs);
    lines.put(b"\n");
}

// Puts the object of a change.
fn put_object<S: Stream>(
    kind: ChangeKind,
    line: &Listed<'_>,
    local: &Option<NamedZone>,
    stamps: &mut Stamps,
    lines: &mut TextWriter<'_, S>,
)
    requires { line.now.second ≤ end_second }
    ensures { Takes S.holds S.takes_all lines.old lines.new (object local.now kind (line_of line.now)) }
{
    lines.put(b"{\"change\":\"");
    lines.put_both(sign(kind), b"\"");
    put_start(local, line.second, stamps, lines);
    put_texts(line.job, line.runs, lines);
}

// Puts the members of the time of a start.
#[tactic(auto, unfolding(crate::specs::Texts::start_members))]
fn put_start<S: Stream>(
    local: &Option<NamedZone>,
    second: u64,
    stamps: &mut Stamps,
    lines: &mut TextWriter<'_, S>,
)
    requires { second ≤ end_second }
    ensures { Takes S.holds S.takes_all lines.old lines.new (start_members local.now second) }
{
    lines.put(b",\"start\":\"");
    put_time(&None, second, stamps, lines);
    lines.put(b"\"");
    put_local(local, second, stamps, lines);
}

// Puts the member of the time by the clock of a zone, if one is given.
fn put_local<S: Stream>(
    local: &Option<NamedZone>,
    second: u64,
    stamps: &mut Stamps,
    lines: &mut TextWriter<'_, S>,
)
    requires { second ≤ end_second }
    ensures { Takes S.holds S.takes_all lines.old lines.new (local_member local.now Start (Some second)) }
{
    if local.is_some() {
        lines.put(b",\"local\":\"");
        put_time(local, second, stamps, lines);
        lines.put(b"\"");
    }
}

// Puts the members of the name of a job and of what it runs, and the end of the object.
#[tactic(auto, unfolding(crate::specs::Texts::text_members))]
fn put_texts<S: Stream>(job: &[u8], runs: &[u8], lines: &mut TextWriter<'_, S>)
    ensures { Takes S.holds S.takes_all lines.old lines.new (text_members job.now runs.now) }
{
    put_member(b",\"job\":", job, lines);
    put_member(b",\"run\":", runs, lines);
    lines.put(b"}\n");
}

// Puts what opens a member, and its string.
fn put_member<S: Stream>(opening: &[u8], text: &[u8], lines: &mut TextWriter<'_, S>)
    ensures { Takes S.holds S.takes_all lines.old lines.new (opening.now ++ json_string text.now) }
{
    lines.put_both(opening, b"\"");
    put_text(true, text, lines);
    lines.put(b"\"");
}

// Returns the sign of a change.
fn sign(kind: ChangeKind) -> &'static [u8]
    ensures { result.now ≡ sign kind }
{
    match kind {
        ChangeKind::Removed => b"-",
        ChangeKind::Added => b"+",
    }
}
