//! The text of the scripts that jobs start by run-parts.

ghost use Rattle.std.specs.Prelude.{◌≡◌, [], IfOk, IsOk, IsTrue, OnOk, option_copied, slice_get};
ghost use Rattle.std.specs.List.{flat_map};
ghost use Rattle.plan_streams.specs.Stream.{Puts};
ghost use Rattle.plan_streams.specs.Writer.{Takes};
ghost use Rattle.plan_write.specs.Scripts.{paths_of, script_line, script_lines, scripts_of, scripts_of_jobs, scripts_text};
ghost use Rattle.plan_write.specs.TimeFields.{time_column};
ghost use Rattle.plan_write.specs.Upcoming.{start_or_none};

use crate::line_ends::JobFile;
use crate::shown::put_shown;
use crate::time_fields::{Stamps, put_column};
use plan_collect::{Start, Upcoming};
use plan_rules::{Job, Jobs, NamedZone, Text};
use plan_sets::END_SECOND;
use plan_streams::{Stream, TextWriter, WriteFault};
use std::alloc::{AllocError, Global};
use std::marker::Model;

/// For each job of a plan, by its number, its name and the paths of the scripts that it starts by run-parts.
#[derive(Drop)]
pub struct JobScripts {
    jobs: Vec<NamedScripts>,
}

impl Model for JobScripts {
    ghost use Rattle.std.specs.Prelude.{List};
    ghost use Rattle.plan_write.specs.Scripts.{ScriptParts};

    ghost Value = { List ScriptParts };

    ghost view = { λ scripts. scripts.jobs.items };
}

impl JobScripts {
    /// Collects the scripts of jobs from their files. The file of a job is the one at the job's place. A job without a
    /// file has no scripts.
    ///
    /// # Errors
    ///
    /// `AllocError` if an allocation fails.
    pub fn new(alloc: Global, jobs: &Jobs, files: &[JobFile]) -> Result<JobScripts, AllocError>
        ensures scripts { IfOk result (λ scripts. scripts ≡ scripts_of_jobs files.now jobs.now) }

        // Without jobs it requests no memory.
        ensures spared { jobs.now ≡ [] → IsOk result }
    {
        let mut scripts = Vec::with_capacity(alloc, jobs.len())?;
        for number in 0..jobs.len() {
            if let Some(job) = jobs.get(number) {
                scripts.push(NamedScripts::new(alloc, job, files.get(number))?)?;
            }
        }
        Ok(JobScripts { jobs: scripts })
    }

    // Returns the scripts of the job with a number.
    fn get(&self, number: usize) -> Option<&NamedScripts>
        ensures { option_copied result ≡ slice_get self.now number }
    {
        self.jobs.get(number)
    }
}

// The name of a job and the paths of its scripts.
#[derive(Drop)]
struct NamedScripts {
    name: Text,
    paths: Vec<Text>,
}

impl Model for NamedScripts {
    ghost use Rattle.plan_write.specs.Scripts.{ScriptParts, script_code};

    ghost Value = { ScriptParts };

    ghost coded = { script_code };

    ghost view = { λ job. record { name = job.name; paths = job.paths.items } };
}

impl NamedScripts {
    // Returns the name of a job and the scripts of its file, if that is given.
    fn new(alloc: Global, job: &Job, file: Option<&JobFile>) -> Result<NamedScripts, AllocError>
        ensures { IfOk result (λ scripts. scripts ≡ scripts_of (option_copied file.entry) job.now) }
    {
        let name = String::from_str(alloc, job.name())?;
        let paths = paths_of(alloc, file)?;
        Ok(NamedScripts {
            name: Text::new(name),
            paths,
        })
    }
}

// Returns copies of the paths of a file's scripts, if the file is given.
fn paths_of(alloc: Global, file: Option<&JobFile>) -> Result<Vec<Text>, AllocError>
    ensures { IfOk result (λ paths. paths.items ≡ paths_of (option_copied file.entry)) }
{
    match file {
        None => Ok(Vec::new(alloc)),
        Some(file) => copies_of(alloc, file.scripts.as_slice()),
    }
}

// Returns copies of texts.
fn copies_of(alloc: Global, texts: &[Text]) -> Result<Vec<Text>, AllocError>
    ensures { IfOk result (λ copies. copies.items ≡ texts.now) }
{
    let mut copies = Vec::with_capacity(alloc, texts.len())?;
    for text in texts {
        copies.push(Text::new(String::from_str(alloc, text.as_str())?))?;
    }
    Ok(copies)
}

/// Writes the scripts of jobs by the next starts of the jobs: one line for each script.
///
/// A line is the name of the job, the time at which it starts next, and the path of the script, with tabs between them.
/// The time is shown in UTC, or by the clock of a zone if one is given. It is `none` if the job has no further start.
/// In the path, control characters are shown by their bytes. The scripts of one job stay in their order. This requests
/// no memory. The stream is flushed once, at the end.
///
/// # Errors
///
/// `Device` or `Closed` if the stream fails. Then only the first bytes of the text were written.
// Not inlined: its buffer of 64 KiB takes stack only while it runs.
#[inline(never)]
pub fn write_scripts<S: Stream>(
    upcoming: &Upcoming,
    scripts: &JobScripts,
    local: &Option<NamedZone>,
    out: &mut S,
) -> Result<(), WriteFault>
    ensures text { Puts S.takes_all result (S.holds out.old) (S.holds out.new) (scripts_text local.now upcoming.now scripts.now) }
    ensures flushed { OnOk result (IsTrue (S.is_flushed out.new)) }
{
    let mut lines = TextWriter::new(out);
    put_scripts(upcoming.nexts(), scripts, local, &mut lines);
    lines.finish()
}

// Puts the lines of the scripts of jobs that start at these times.
fn put_scripts<S: Stream>(
    starts: &[Start],
    scripts: &JobScripts,
    local: &Option<NamedZone>,
    lines: &mut TextWriter<'_, S>,
)
    ensures { Takes S.holds S.takes_all lines.old lines.new (scripts_text local.now starts.now scripts.now) }
{
    let mut stamps = Stamps::new();
    for start in starts {
        put_start(*start, scripts, local, &mut stamps, lines);
    }
}

// Puts the lines of the scripts of the job of a start.
fn put_start<S: Stream>(
    start: Start,
    scripts: &JobScripts,
    local: &Option<NamedZone>,
    stamps: &mut Stamps,
    lines: &mut TextWriter<'_, S>,
)
    ensures { Takes S.holds S.takes_all lines.old lines.new (script_lines local.now (start_or_none start.0) (slice_get scripts.now start.1)) }
{
    if let Some(job) = scripts.get(start.job() as usize) {
        put_job(start.second(), job, local, stamps, lines);
    }
}

// Puts the lines of the scripts of a job that starts at a second, which is `END_SECOND` or later if it has no further start.
fn put_job<S: Stream>(
    second: u64,
    job: &NamedScripts,
    local: &Option<NamedZone>,
    stamps: &mut Stamps,
    lines: &mut TextWriter<'_, S>,
)
    ensures { Takes S.holds S.takes_all lines.old lines.new (flat_map (script_line local.now job.now.name (start_or_none second)) job.now.paths) }
{
    put_paths(
        second,
        job.name.as_str(),
        job.paths.as_slice(),
        local,
        stamps,
        lines,
    );
}

// Puts the lines of scripts of the job with a name.
fn put_paths<S: Stream>(
    second: u64,
    name: &str,
    paths: &[Text],
    local: &Option<NamedZone>,
    stamps: &mut Stamps,
    lines: &mut TextWriter<'_, S>,
)
    ensures { Takes S.holds S.takes_all lines.old lines.new (flat_map (script_line local.now name.now (start_or_none second)) paths.now) }
{
    for path in paths {
        put_line(second, name, path.as_str(), local, stamps, lines);
    }
}

// Puts the line of a script of the job with a name.
fn put_line<S: Stream>(
    second: u64,
    name: &str,
    path: &str,
    local: &Option<NamedZone>,
    stamps: &mut Stamps,
    lines: &mut TextWriter<'_, S>,
)
    ensures { Takes S.holds S.takes_all lines.old lines.new (script_line local.now name.now (start_or_none second) path.now) }
{
    lines.put_both(name.as_bytes(), b"\t");
    put_next(second, local, stamps, lines);
    put_shown(path, lines);
    lines.put(b"\n");
}

// Puts the column of a next start, which is `END_SECOND` or later if there is none.
fn put_next<S: Stream>(
    second: u64,
    local: &Option<NamedZone>,
    stamps: &mut Stamps,
    lines: &mut TextWriter<'_, S>,
)
    ensures { Takes S.holds S.takes_all lines.old lines.new (time_column local.now (start_or_none second)) }
{
    if second < END_SECOND {
        put_column(local, second, b"", stamps, lines);
    } else {
        lines.put(b"none\t");
    }
}
