//! The findings of a crontab's text (crontab(5)).

ghost use Rattle.std.specs.Prelude.{◌≡◌, ◌<◌, ◌≤◌, ◌++◌, IfOk, IfSome, IsOk, None, length, map, OnOk, vec_capacity, vec_len};
ghost use Rattle.std.specs.List.{enumerate_from};
ghost use Rattle.plan_texts.specs.Limits.{most_bytes};
ghost use Rattle.plan_rules.specs.Crontab.{line_reading};
ghost use Rattle.plan_rules.specs.FileText.{text_reading};
ghost use Rattle.plan_check.specs.Crontabs.{after_crontab, after_entry, after_line, after_lines, crontab_findings, entry_findings, field_quote, line_findings, lines_findings, reading_findings};
ghost use Rattle.plan_check.specs.Known.{after_job, job_findings, name_fault};
ghost use Rattle.plan_check.specs.Warnings.{warnings_by};

use crate::cron_warnings::{add_end_warnings, add_place_warnings, is_first};
use crate::finding::Finding;
use crate::known::Known;
use crate::report::{add_all, add_error, add_job, kept, kept_hint};
use crate::warnings::{add_setting_warnings, add_warnings};
use plan_cron::{first_beyond, hint, word_at};
use plan_rules::lines::lines;
use plan_rules::{Entry, Job, Kind, LineCause, LineFault, crontab_entry, text_of};
use plan_texts::Text;
use std::alloc::{AllocError, Global};

// A line of a crontab.
#[derive(Clone, Copy)]
struct Line<'a> {
    // Its number, from 1.
    number: u32,
    text: &'a str,
    // Whether it is the first one below the last line that cron accepts.
    is_beyond: bool,
}

// Adds the findings of a crontab whose jobs have a label, and its jobs.
pub(crate) fn add_crontab(
    alloc: Global,
    known: &mut Known,
    found: &mut Vec<Finding>,
    label: &str,
    kind: Kind,
    bytes: &[u8],
) -> Result<(), AllocError>
    ensures found { OnOk result (found.new.items ≡ found.old.items
        ++ crontab_findings known.old label.now kind (text_reading bytes.now)) }
    ensures known { OnOk result (known.new ≡ after_crontab known.old label.now kind (text_reading bytes.now)) }
{
    match text_of(bytes) {
        Ok(text) => {
            let lines = lines(alloc, text)?;
            let mut last = Vec::new(alloc);
            add_end_warnings(alloc, &mut last, known.clock(), text, lines.len() as u32)?;
            let beyond = first_beyond(lines.as_slice());
            add_lines(alloc, known, found, label, kind, beyond, lines.as_slice())?;
            add_all(found, last)
        }
        Err(LineFault { line, cause }) => add_error(found, line, cause, None, None),
    }
}

// Adds the findings of lines, and their jobs, in order. The first line beyond those that cron accepts is given.
fn add_lines(
    alloc: Global,
    known: &mut Known,
    found: &mut Vec<Finding>,
    label: &str,
    kind: Kind,
    beyond: Option<u32>,
    lines: &[&str],
) -> Result<(), AllocError>
    requires { length lines.now ≤ most_bytes }
    ensures found { OnOk result (found.new.items ≡ found.old.items
        ++ lines_findings known.old label.now kind beyond (enumerate_from 0 (map (λ line. line.now) lines.now))) }
    ensures known { OnOk result (known.new
        ≡ after_lines known.old label.now kind (enumerate_from 0 (map (λ line. line.now) lines.now))) }
{
    for (place, line) in lines.iter().enumerate() {
        let number = place as u32 + 1;
        let line = Line {
            number,
            text: line,
            is_beyond: is_first(beyond, number),
        };
        add_line(alloc, known, found, label, kind, line)?;
    }
    Ok(())
}

// Adds the findings of a line, and its job.
fn add_line(
    alloc: Global,
    known: &mut Known,
    found: &mut Vec<Finding>,
    label: &str,
    kind: Kind,
    line: Line<'_>,
) -> Result<(), AllocError>
    ensures found { OnOk result (found.new.items ≡ found.old.items
        ++ line_findings known.old kind line.entry.is_beyond line.entry.number line.entry.text.now
        (line_reading label.now kind line.entry.number line.entry.text.now)) }
    ensures known { OnOk result (known.new
        ≡ after_line known.old (line_reading label.now kind line.entry.number line.entry.text.now)) }
{
    let Line {
        number,
        text,
        is_beyond,
    } = line;
    add_place_warnings(alloc, found, known.clock(), is_beyond, number, text)?;
    add_reading(alloc, known, found, label, kind, number, text)
}

// Adds the findings of the line with a number, by what it is, and its job.
fn add_reading(
    alloc: Global,
    known: &mut Known,
    found: &mut Vec<Finding>,
    label: &str,
    kind: Kind,
    number: u32,
    line: &str,
) -> Result<(), AllocError>
    ensures found { OnOk result (found.new.items ≡ found.old.items
        ++ reading_findings known.old kind number line.now (line_reading label.now kind number line.now)) }
    ensures known { OnOk result (known.new ≡ after_line known.old (line_reading label.now kind number line.now)) }
{
    match crontab_entry(alloc, label, kind, number, line)? {
        Some(entry) => add_entry(alloc, known, found, kind, line, entry),
        None => add_setting_warnings(alloc, found, known.clock(), number, line),
    }
}

// Adds the findings of a line that makes a job or is rejected, and the job. The line has this text.
fn add_entry(
    alloc: Global,
    known: &mut Known,
    found: &mut Vec<Finding>,
    kind: Kind,
    text: &str,
    entry: Entry<Job>,
) -> Result<(), AllocError>
    ensures found { OnOk result (found.new.items ≡ found.old.items
        ++ entry_findings known.old kind entry.line text.now entry.read) }
    ensures known { OnOk result (known.new ≡ after_entry known.old entry.read) }
{
    let Entry { line, read } = entry;
    match read {
        Ok(job) => add_line_job(alloc, known, found, kind, line, text, job),
        Err(cause) => {
            let quote = field_quote(alloc, text, cause)?;
            let detail = kept_hint(alloc, hint(line, text))?;
            add_error(found, line, cause, quote, detail)
        }
    }
}

// Adds a job of a line, or what is wrong with its name, and then the warnings on it.
fn add_line_job(
    alloc: Global,
    known: &mut Known,
    found: &mut Vec<Finding>,
    kind: Kind,
    line: u32,
    text: &str,
    job: Job,
) -> Result<(), AllocError>
    ensures found { OnOk result (found.new.items ≡ found.old.items
        ++ (job_findings known.old line job.name ++ warnings_by known.old.clock kind line text.now job)) }
    ensures known { OnOk result (known.new ≡ after_job known.old job) }
    // If something is wrong with its name, there is room for one finding and no warning, no memory is requested.
    ensures at_once { known.old.clock ≡ None → vec_len found.old < vec_capacity found.old
        → IfSome (name_fault known.old job.name) (λ _. IsOk result) }
{
    let mut warnings = Vec::new(alloc);
    add_warnings(alloc, &mut warnings, known.clock(), kind, line, text, &job)?;
    add_job(known, found, line, job)?;
    add_all(found, warnings)
}

// Returns the text that an error of a line quotes.
fn field_quote(alloc: Global, text: &str, cause: LineCause) -> Result<Option<Text>, AllocError>
    ensures { IfOk result (λ quote. quote ≡ field_quote text.now cause) }
{
    match cause {
        LineCause::Rule(fault) => Ok(Some(kept(alloc, word_at(text, fault.part))?)),
        _ => Ok(None),
    }
}
