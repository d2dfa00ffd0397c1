//! The lines of errors on standard error.

ghost use Rattle.std.specs.Prelude.{◌≡◌, ◌++◌, IsTrue, OnOk, codes, true};
ghost use Rattle.agenda_faults.specs.Faults.{status_of};
ghost use Rattle.agenda_faults.specs.FaultLines.{about_option, baseline_line, caused_line, collect_line, device_line, fault_text, name_of, numbered_line, plan_line, rule_line, run_line};
ghost use Rattle.agenda_faults.specs.FaultLines.{script_line, source_line, source_name, source_rule_line, text_of_line, text_of_part, zone_line};
ghost use Rattle.plan_streams.specs.Stream.{Puts, PutsOrBreaksOff};
ghost use Rattle.plan_streams.specs.Writer.{Takes};

use crate::faults::{Failure, RunFault};
use crate::machine_faults::TimeOption;
use crate::machine_lines::{put_machine_fault, put_too_many};
use agenda_script::{ScriptCause, ScriptFault};
use agenda_sources::{SourcePath, file_name};
use itoa::Buffer as Digits;
use plan_collect::{CollectFault, PlanFault};
use plan_rules::{LineCause, LineFault, RuleCause, RuleFault};
use plan_streams::{Stream, TextWriter, WriteFault};
use plan_zones::ZoneFault;

/// The line if an allocation failed.
pub(crate) const MEMORY_LINE: &[u8] = b"agenda: NoMemory\n";

/// Writes the line of a failure, or the text of usage, and returns the exit status.
///
/// The status is that of `Failure::status`. `sources` are the paths of a plan's sources; an error in a source
/// has its place in this list. An error of this stream is ignored. This requests no memory. A line of up to 65,536
/// bytes is one write, so that the lines of programs that run at the same time don't mix.
pub fn fault_line<S: Stream>(failure: &Failure, sources: &[SourcePath], stream: &mut S) -> u8
    ensures status { result ≡ status_of failure.now }
    ensures line { PutsOrBreaksOff S.takes_all (S.holds stream.old) (S.holds stream.new)
        (fault_text sources.now failure.now) }
    ensures flushed { S.takes_all ≡ true → IsTrue (S.is_flushed stream.new) }
{
    match write_failure(failure, sources, stream) {
        Ok(()) | Err(_) => failure.status(),
    }
}

// Writes the line of a failure, or the text of usage.
// Not inlined: its buffer of 64 KiB takes stack only while it runs.
#[inline(never)]
fn write_failure<S: Stream>(
    failure: &Failure,
    sources: &[SourcePath],
    stream: &mut S,
) -> Result<(), WriteFault>
    ensures text { Puts S.takes_all result (S.holds stream.old) (S.holds stream.new)
        (fault_text sources.now failure.now) }
    ensures flushed { OnOk result (IsTrue (S.is_flushed stream.new)) }
{
    let mut line = TextWriter::new(stream);
    put_failure(failure, sources, &mut line);
    line.finish()
}

// Puts the line of a failure, or the text of usage.
fn put_failure<S: Stream>(failure: &Failure, sources: &[SourcePath], line: &mut TextWriter<'_, S>)
    ensures { Takes S.holds S.takes_all line.old line.new (fault_text sources.now failure.now) }
{
    match failure {
        Failure::Usage(text) => line.put(text.as_str().as_bytes()),
        Failure::Moment(option, cause) => put_caused(about_option(*option), cause.name(), line),
        Failure::Span(cause) => put_caused(b"agenda: span: ", cause.name(), line),
        Failure::Zone(fault) => put_zone_fault(*fault, line),
        Failure::Run(fault) => put_run_fault(fault, sources, line),
        Failure::File(path) => put_between(b"agenda: ", path.as_str(), b": Device\n", line),
        Failure::BadBaseline(path, number) => put_baseline_line(path.as_str(), *number, line),
        Failure::NotDirectory(root) => {
            put_between(b"agenda: ", root.as_str(), b": not a directory\n", line);
        }
        Failure::NoSystem(root) => {
            put_between(
                b"agenda: ",
                root.as_str(),
                b": neither etc nor usr is there\n",
                line,
            );
        }
        Failure::TooManyUnits(root) => {
            put_between(
                b"agenda: ",
                root.as_str(),
                b": more than 10000 units\n",
                line,
            );
        }
        Failure::Machine(fault) => put_machine_fault(fault, line),
    }
}

// Puts the line of an agenda that isn't one that `plan` prints.
fn put_baseline_line<S: Stream>(path: &str, number: u32, line: &mut TextWriter<'_, S>)
    ensures { Takes S.holds S.takes_all line.old line.new (baseline_line path.now number) }
{
    line.put_both(b"agenda: ", path.as_bytes());
    put_numbered(
        b":",
        number,
        "not a line of agenda plan [BadBaseline]",
        line,
    );
}

// Returns the text that says which option a timestamp is about.
fn about_option(option: TimeOption) -> &'static [u8]
    ensures { result.now ≡ about_option option }
{
    match option {
        TimeOption::After => b"agenda: after: ",
        TimeOption::Since => b"agenda: since: ",
        TimeOption::Until => b"agenda: upto: ",
    }
}

// Puts the line of a cause, after the text that says what it is about.
fn put_caused<S: Stream>(about: &[u8], cause: &str, line: &mut TextWriter<'_, S>)
    ensures { Takes S.holds S.takes_all line.old line.new (caused_line about.now cause.now) }
{
    put_between(about, cause, b"\n", line);
}

/// Puts a text between two others.
pub(crate) fn put_between<S: Stream>(
    before: &[u8],
    text: &str,
    after: &[u8],
    line: &mut TextWriter<'_, S>,
)
    ensures { Takes S.holds S.takes_all line.old line.new (before.now ++ (text.now ++ after.now)) }
{
    line.put_both(before, text.as_bytes());
    line.put(after);
}

// Puts a number and a cause, after the text that says what they are about.
fn put_numbered<S: Stream>(about: &[u8], number: u32, cause: &str, line: &mut TextWriter<'_, S>)
    ensures { Takes S.holds S.takes_all line.old line.new (numbered_line about.now number cause.now) }
{
    line.put_both(about, Digits::new().format(number).as_bytes());
    put_caused(b": ", cause, line);
}

// Puts the line of a command that was not done.
fn put_run_fault<S: Stream>(fault: &RunFault, sources: &[SourcePath], line: &mut TextWriter<'_, S>)
    ensures { Takes S.holds S.takes_all line.old line.new (run_line sources.now fault.now) }
{
    match fault {
        RunFault::NoMemory => line.put(MEMORY_LINE),
        RunFault::BadCount => line.put(b"agenda: count: BadCount\n"),
        RunFault::Rule(fault) => put_rule_fault(*fault, line),
        RunFault::InSource(place, fault) => put_source_fault(
            source_name(sources, *place),
            *fault,
            line,
        ),
        RunFault::SameName(name) => put_between(
            b"agenda: job ",
            name.as_str(),
            b": SameName\n",
            line,
        ),
        RunFault::Full => line.put(b"agenda: jobs: Full\n"),
        RunFault::Plan(fault) => put_plan_fault(*fault, line),
        RunFault::Script(fault) => put_script_fault(*fault, line),
        RunFault::Device(fault) => line.put(device_line(*fault)),
        RunFault::BadLeast => line.put(b"agenda: quiet: BadLeast\n"),
        RunFault::TooManyStarts(limit) => put_too_many(*limit, line),
    }
}

// Returns the line of a stream that failed. There is none if the reader of a pipe closed it.
fn device_line(fault: WriteFault) -> &'static [u8]
    ensures { result.now ≡ device_line fault }
{
    match fault {
        WriteFault::Device => b"agenda: Device\n",
        WriteFault::Closed => b"",
    }
}

// Returns the name of the source at a place in error lines, or an empty name if there is no such source.
fn source_name(sources: &[SourcePath], place: usize) -> &str
    ensures { result.now ≡ source_name sources.now place }
{
    match sources.get(place) {
        Some(source) => name_of(source),
        None => "",
    }
}

// Returns the name of a source in error lines: the label of its kind, or its file's name.
fn name_of(source: &SourcePath) -> &str
    ensures { result.now ≡ name_of source.now }
{
    match source.kind.label() {
        Some(label) => label,
        None => file_name(source.path.as_str()),
    }
}

// Puts the line of a plan that was not made.
fn put_plan_fault<S: Stream>(fault: PlanFault, line: &mut TextWriter<'_, S>)
    ensures { Takes S.holds S.takes_all line.old line.new (plan_line fault) }
{
    match fault {
        PlanFault::NoMemory => line.put(MEMORY_LINE),
        PlanFault::BadSize => line.put(b"agenda: plan: BadSize\n"),
        PlanFault::Collect(fault) => put_collect_fault(fault, line),
        PlanFault::NotSettled(_) => line.put(b"agenda: NotSettled\n"),
        PlanFault::BadLimit => line.put(b"agenda: plan: BadLimit\n"),
    }
}

// Puts the line of a zone that can't be used.
fn put_zone_fault<S: Stream>(fault: ZoneFault, line: &mut TextWriter<'_, S>)
    ensures { Takes S.holds S.takes_all line.old line.new (zone_line fault) }
{
    match fault {
        ZoneFault::NoMemory => line.put(MEMORY_LINE),
        fault => put_caused(b"agenda: zone: ", fault.name(), line),
    }
}

// Puts the line of an error of a collector.
fn put_collect_fault<S: Stream>(fault: CollectFault, line: &mut TextWriter<'_, S>)
    ensures { Takes S.holds S.takes_all line.old line.new (collect_line fault) }
{
    match fault {
        CollectFault::NoMemory => line.put(MEMORY_LINE),
        fault => put_caused(b"agenda: plan: ", fault.name(), line),
    }
}

// Puts the line of a crontab or a timer file that is rejected, with its name.
fn put_source_fault<S: Stream>(source: &str, fault: LineFault, line: &mut TextWriter<'_, S>)
    ensures { Takes S.holds S.takes_all line.old line.new (source_line source.now fault.line fault.cause) }
{
    match fault.cause {
        LineCause::NoMemory => line.put(MEMORY_LINE),
        LineCause::Rule(rule) => put_source_rule_fault(source, fault.line, rule, line),
        cause => put_source_line(source, fault.line, cause.name(), line),
    }
}

// Puts the line of an error on a line of a source.
fn put_source_line<S: Stream>(source: &str, number: u32, cause: &str, line: &mut TextWriter<'_, S>)
    ensures { Takes S.holds S.takes_all line.old line.new (text_of_line source.now number cause.now) }
{
    line.put_both(b"agenda: ", source.as_bytes());
    put_numbered(b": line ", number, cause, line);
}

// Puts the line of a rule that is rejected, on a line of a crontab or a timer file.
fn put_source_rule_fault<S: Stream>(
    source: &str,
    number: u32,
    fault: RuleFault,
    line: &mut TextWriter<'_, S>,
)
    ensures { Takes S.holds S.takes_all line.old line.new (source_rule_line source.now number fault.part fault.cause) }
{
    match fault.cause {
        RuleCause::NoMemory => line.put(MEMORY_LINE),
        cause => put_source_part(source, number, u32::from(fault.part), cause.name(), line),
    }
}

// Puts the line of an error in a part of a rule on a line of a source.
fn put_source_part<S: Stream>(
    source: &str,
    number: u32,
    part: u32,
    cause: &str,
    line: &mut TextWriter<'_, S>,
)
    ensures { Takes S.holds S.takes_all line.old line.new (text_of_part source.now number part cause.now) }
{
    line.put_both(b"agenda: ", source.as_bytes());
    line.put_both(b": line ", Digits::new().format(number).as_bytes());
    put_numbered(b": part ", part, cause, line);
}

// Puts the line of a rule that is rejected.
fn put_rule_fault<S: Stream>(fault: RuleFault, line: &mut TextWriter<'_, S>)
    ensures { Takes S.holds S.takes_all line.old line.new (rule_line fault.part fault.cause) }
{
    match fault.cause {
        RuleCause::NoMemory => line.put(MEMORY_LINE),
        cause => put_numbered(
            b"agenda: rule: part ",
            u32::from(fault.part),
            cause.name(),
            line,
        ),
    }
}

// Puts the line of a script that is rejected.
fn put_script_fault<S: Stream>(fault: ScriptFault, line: &mut TextWriter<'_, S>)
    ensures { Takes S.holds S.takes_all line.old line.new (script_line fault.line fault.cause) }
{
    match fault.cause {
        ScriptCause::NoMemory => line.put(MEMORY_LINE),
        cause => put_numbered(b"agenda: script: line ", fault.line, cause.name(), line),
    }
}
