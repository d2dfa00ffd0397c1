//! The text of what is skipped and what isn't planned on a machine.

ghost use Rattle.std.specs.Prelude.{◌≡◌, ◌++◌, false, IsTrue, Ok, OnOk};
ghost use Rattle.std.specs.List.{flat_map, list_any};
ghost use Rattle.plan_streams.specs.Stream.{Puts};
ghost use Rattle.plan_streams.specs.Writer.{Takes};
ghost use Rattle.agenda_machine.specs.Reports.{has_line, heading, is_incomplete, is_unreadable, line_mark, no_daemon, no_zone, place_of, reports_text, skipped_heading, skipped_line, unplanned_line};
ghost use Rattle.plan_timers.specs.Reports.{unplanned_text, why_text};
ghost use Rattle.plan_write.specs.Shown.{shown};
ghost use Rattle.agenda_machine.specs.Paths.{below};

use crate::paths::put_path;
use itoa::Buffer as Digits;
use plan_machine::{NotPlanned, Skipped, Unplanned, Why};
use plan_streams::{Stream, TextWriter, WriteFault};
use plan_texts::Text;
use plan_write::put_shown;

/// What is reported of a machine.
#[derive(Drop)]
pub struct Reports<'a> {
    /// What is before each path: the directory without a `/` at its end.
    pub root: &'a str,
    /// The directory that is the machine's root, as it was given.
    pub dir: &'a str,
    /// What is skipped.
    pub skipped: &'a [Skipped],
    /// What isn't planned.
    pub unplanned: &'a [NotPlanned],
    /// Whether there are crontabs, but no cron daemon.
    pub lacks_cron_daemon: bool,
    /// Whether the machine's zone is unknown.
    pub is_zone_unknown: bool,
}

/// Writes what is reported of a machine: a line for each thing that is skipped, then one for each that isn't planned,
/// then that there is no cron daemon, and then that the zone is unknown.
///
/// The lines are `agenda: skipped PATH: WHY`, `agenda: not planned: PATH: WHY` or `agenda: not planned: PATH:LINE: WHY`,
/// `agenda: unknown: ..` likewise for what may start at times that files don't tell, `agenda: idle: PATH:LINE: WHY` for a job
/// whose command runs nothing that has an effect,
/// `agenda: no cron daemon below DIR: crontabs start nothing` and
/// `agenda: the zone of DIR is unknown: rules are read as UTC`. Control characters in a path, a directory or the name of
/// a unit are written as `\xNN` for each of their bytes, and a backslash as `\\`.
///
/// If there is no line, nothing is written, and the stream isn't used. This requests no memory. The stream is flushed
/// once, at the end.
///
/// # Errors
///
/// `Device` or `Closed` if the stream fails. Then only the first bytes of the text were written.
// Not inlined: its buffer of 64 KiB takes stack only while it runs.
#[inline(never)]
pub fn write_reports<S: Stream>(reports: &Reports<'_>, err: &mut S) -> Result<(), WriteFault>
    ensures text { Puts S.takes_all result (S.holds err.old) (S.holds err.new) (reports_text reports.now) }
    ensures spared { has_line reports.now ≡ false → result ≡ Ok tt }
    ensures flushed { OnOk result (IsTrue (S.is_flushed err.old) → IsTrue (S.is_flushed err.new)) }
    ensures unused { has_line reports.now ≡ false → err.new ≡ err.old }
{
    if !has_line(reports) {
        return Ok(());
    }
    let mut lines = TextWriter::new(err);
    put_reports(reports, &mut lines);
    lines.finish()
}

// Returns whether there is a line.
fn has_line(reports: &Reports<'_>) -> bool
    ensures { result ≡ has_line reports.now }
{
    !reports.skipped.is_empty()
        || !reports.unplanned.is_empty()
        || reports.lacks_cron_daemon
        || reports.is_zone_unknown
}

// Puts all lines.
fn put_reports<S: Stream>(reports: &Reports<'_>, lines: &mut TextWriter<'_, S>)
    ensures { Takes S.holds S.takes_all lines.old lines.new (reports_text reports.now) }
{
    put_all_skipped(reports.root, reports.skipped, lines);
    put_all_unplanned(reports.root, reports.unplanned, lines);
    put_no_daemon(reports.lacks_cron_daemon, reports.dir, lines);
    put_no_zone(reports.is_zone_unknown, reports.dir, lines);
}

// Puts the lines of what is skipped, in order.
fn put_all_skipped<S: Stream>(root: &str, skipped: &[Skipped], lines: &mut TextWriter<'_, S>)
    ensures { Takes S.holds S.takes_all lines.old lines.new (flat_map (skipped_line root.now) skipped.now) }
{
    for one in skipped {
        put_skipped(root, one, lines);
    }
}

// Puts the line of something that is skipped.
fn put_skipped<S: Stream>(root: &str, one: &Skipped, lines: &mut TextWriter<'_, S>)
    ensures { Takes S.holds S.takes_all lines.old lines.new (skipped_line root.now one.now) }
{
    lines.put(skipped_heading(&one.why));
    put_path_of(root, &one.path, lines);
    lines.put(b": ");
    put_why(&one.why, lines);
    lines.put(b"\n");
}

// Returns what the line of something that is skipped begins with.
fn skipped_heading(why: &Why) -> &[u8]
    ensures { result.now ≡ skipped_heading why.now }
{
    match why {
        Why::WantedBy(_) => b"agenda: unknown: ",
        _ => b"agenda: skipped ",
    }
}

// Puts why something is skipped.
fn put_why<S: Stream>(why: &Why, lines: &mut TextWriter<'_, S>)
    ensures { Takes S.holds S.takes_all lines.old lines.new (shown (why_text why.now)) }
{
    match why {
        Why::NoLink => put_shown("no link", lines),
        Why::BadName => put_shown("bad name", lines),
        Why::Escape => put_shown("escape", lines),
        Why::NoSuchTimer => put_shown("no such timer", lines),
        Why::Masked => put_shown("masked", lines),
        Why::NotReadable => put_shown("not readable", lines),
        Why::NameTaken => put_shown("name taken", lines),
        Why::NotUtf8 => put_shown("a name that isn't UTF-8", lines),
        Why::WantedBy(unit) => put_around("may be started by ", unit.as_str(), "", lines),
    }
}

// Puts the name of a unit, with what comes before and after it.
fn put_around<S: Stream>(before: &str, unit: &str, after: &str, lines: &mut TextWriter<'_, S>)
    ensures { Takes S.holds S.takes_all lines.old lines.new (shown (before.now ++ unit.now ++ after.now)) }
{
    put_shown(before, lines);
    put_shown(unit, lines);
    put_shown(after, lines);
}

// Puts the path of something below a root.
fn put_path_of<S: Stream>(root: &str, path: &Text, lines: &mut TextWriter<'_, S>)
    ensures { Takes S.holds S.takes_all lines.old lines.new (shown (below root.now path.now)) }
{
    put_path(root, path.as_str(), lines);
}

// Puts the lines of what isn't planned, in order.
fn put_all_unplanned<S: Stream>(root: &str, unplanned: &[NotPlanned], lines: &mut TextWriter<'_, S>)
    ensures { Takes S.holds S.takes_all lines.old lines.new (flat_map (unplanned_line root.now) unplanned.now) }
{
    for one in unplanned {
        put_unplanned(root, one, lines);
    }
}

// Puts the line of something that isn't planned.
fn put_unplanned<S: Stream>(root: &str, one: &NotPlanned, lines: &mut TextWriter<'_, S>)
    ensures { Takes S.holds S.takes_all lines.old lines.new (unplanned_line root.now one.now) }
{
    lines.put(heading(&one.why));
    put_place_of(root, one, lines);
    lines.put(b": ");
    put_why_unplanned(&one.why, lines);
    lines.put(b"\n");
}

// Returns what the line of something that isn't planned begins with.
fn heading(why: &Unplanned) -> &[u8]
    ensures { result.now ≡ heading why.now }
{
    match why {
        Unplanned::Idle(..) => b"agenda: idle: ",
        why if why.is_unknown() => b"agenda: unknown: ",
        _ => b"agenda: not planned: ",
    }
}

// Puts the path of something that isn't planned, and its line if it is one line.
fn put_place_of<S: Stream>(root: &str, one: &NotPlanned, lines: &mut TextWriter<'_, S>)
    ensures { Takes S.holds S.takes_all lines.old lines.new (place_of root.now one.now) }
{
    put_path_of(root, &one.path, lines);
    put_line_mark(&one.why, lines);
}

// Puts the number of the line that isn't planned, if it is one line: line 0 is none.
fn put_line_mark<S: Stream>(why: &Unplanned, lines: &mut TextWriter<'_, S>)
    ensures { Takes S.holds S.takes_all lines.old lines.new (line_mark why.now) }
{
    match why {
        Unplanned::LineUnknown(0, _) => {}
        Unplanned::LineNotLoaded(line, _)
        | Unplanned::LineUnknown(line, _)
        | Unplanned::Idle(line, _) => lines.put_both(b":", Digits::new().format(*line).as_bytes()),
        _ => {}
    }
}

// Puts why something isn't planned.
fn put_why_unplanned<S: Stream>(why: &Unplanned, lines: &mut TextWriter<'_, S>)
    ensures { Takes S.holds S.takes_all lines.old lines.new (shown (unplanned_text why.now)) }
{
    match why {
        Unplanned::Anacron => put_shown("anacron starts jobs by days since they ran", lines),
        Unplanned::StartsBy(key) => put_around("starts by ", key.as_str(), "=", lines),
        Unplanned::AlsoStartsBy(key) => put_around("also starts by ", key.as_str(), "=", lines),
        Unplanned::AtJobs => put_shown("jobs of at", lines),
        Unplanned::UserTimers => put_shown("user timers", lines),
        Unplanned::NotLingering(user) => {
            put_around("user ", user.as_str(), " does not linger", lines)
        }
        Unplanned::UnitMissing(unit) => put_around(
            "its unit ",
            unit.as_str(),
            " is missing",
            lines,
        ),
        Unplanned::UnitMasked(unit) => put_around("its unit ", unit.as_str(), " is masked", lines),
        Unplanned::UnitIdle(unit) => put_around(
            "its unit ",
            unit.as_str(),
            " has no ExecStart=",
            lines,
        ),
        Unplanned::NotLoaded(why) => put_text(why, lines),
        Unplanned::LineNotLoaded(_, why) => put_text(why, lines),
        Unplanned::LineUnknown(_, why) => put_text(why, lines),
        Unplanned::Idle(_, why) => put_text(why, lines),
    }
}

// Puts a text as people are shown it.
fn put_text<S: Stream>(text: &Text, lines: &mut TextWriter<'_, S>)
    ensures { Takes S.holds S.takes_all lines.old lines.new (shown text.now) }
{
    put_shown(text.as_str(), lines);
}

// Puts that there is no cron daemon, if that is so.
fn put_no_daemon<S: Stream>(is_lacking: bool, dir: &str, lines: &mut TextWriter<'_, S>)
    ensures { Takes S.holds S.takes_all lines.old lines.new (no_daemon is_lacking dir.now) }
{
    if is_lacking {
        lines.put(b"agenda: no cron daemon below ");
        put_shown(dir, lines);
        lines.put(b": crontabs start nothing\n");
    }
}

// Puts that the zone is unknown, if that is so.
fn put_no_zone<S: Stream>(is_unknown: bool, dir: &str, lines: &mut TextWriter<'_, S>)
    ensures { Takes S.holds S.takes_all lines.old lines.new (no_zone is_unknown dir.now) }
{
    if is_unknown {
        lines.put(b"agenda: the zone of ");
        put_shown(dir, lines);
        lines.put(b" is unknown: rules are read as UTC\n");
    }
}

/// Returns whether something is skipped since it can't be read: a file, a directory, or a name that isn't UTF-8.
///
/// The status of the program is then 1.
pub fn is_incomplete(skipped: &[Skipped]) -> bool
    ensures { result ≡ is_incomplete skipped.now }
{
    skipped.iter().any(|one| is_unreadable(&one.why))
}

// Returns whether something is skipped since it can't be read.
fn is_unreadable(why: &Why) -> bool
    ensures { result ≡ is_unreadable why.now }
{
    matches!(why, Why::NotReadable | Why::NotUtf8)
}
