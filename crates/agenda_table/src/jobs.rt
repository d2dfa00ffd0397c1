//! The table of starts of jobs: those of an agenda, or the next ones.

ghost use Rattle.std.specs.Prelude.{◌≡◌, ◌≤◌, ◌∷◌, ◌++◌, [], IfOk, IfSome, IsOk, IsTrue, OnOk, None, Some, chars, map, option_copied, option_map, slice_get};
ghost use Rattle.plan_collect.specs.Windows.{latest_start};
ghost use Rattle.plan_sets.specs.Limits.{end_second};
ghost use Rattle.plan_streams.specs.Stream.{Puts};
ghost use Rattle.plan_write.specs.Texts.{run_text};
ghost use Rattle.plan_write.specs.Upcoming.{start_or_none};
ghost use Rattle.agenda_table.specs.Layout.{table_text};
ghost use Rattle.agenda_table.specs.Rows.{JobTexts, job_cells, job_head, job_row, job_rows, job_texts, latest_or_word, rows_of_job, start_or_word, text_if, text_of};
ghost use Rattle.agenda_table.specs.Scripts.{job_texts_with, scripts_note, texts_of_jobs};

use crate::cell::{Cell, cell_if};
use crate::line::Frame;
use crate::look::Look;
use crate::scripts::push_scripts;
use crate::short::{Short, word};
use crate::table::{RowSink, Rows, write_table};
use plan_collect::Start;
use plan_rules::{Job, Jobs, Text};
use plan_sets::END_SECOND;
use plan_streams::{Stream, WriteFault};
use plan_write::JobFile;
use std::alloc::{AllocError, Global};
use std::marker::Model;

/// For each job, by its number, what the rows of a table have of it: its name, what it runs, and its delay. What a job
/// runs is its user, if it has one, a space, and its command. The names of the scripts that it starts by run-parts may
/// follow.
#[derive(Drop)]
pub struct JobCells {
    jobs: Vec<JobCell>,
}

impl Model for JobCells {
    ghost use Rattle.std.specs.Prelude.{List};
    ghost use Rattle.agenda_table.specs.Rows.{JobTexts};

    ghost Value = { List JobTexts };

    ghost view = { λ cells. cells.jobs.items };
}

// What the rows of a table have of a job.
#[derive(Drop)]
struct JobCell {
    name: Text,
    runs: Text,
    delay: u64,
}

impl Model for JobCell {
    ghost use Rattle.agenda_table.specs.Rows.{JobTexts, job_texts_code};

    ghost Value = { JobTexts };

    ghost coded = { job_texts_code };

    ghost view = { λ job. record { name = job.name; runs = job.runs; delay = job.delay } };
}

impl JobCell {
    // Makes what the rows of a table have of a job.
    fn new(alloc: Global, job: &Job) -> Result<JobCell, AllocError>
        ensures { IfOk result (λ cell. cell ≡ job_texts job.now) }
    {
        let name = String::from_str(alloc, job.name())?;
        let runs = runs_of(alloc, job)?;
        Ok(JobCell {
            name: Text::new(name),
            runs,
            delay: job.delay(),
        })
    }

    // Makes the same, with the scripts of the job's file, if that is given.
    fn with_file(alloc: Global, job: &Job, file: Option<&JobFile>) -> Result<JobCell, AllocError>
        ensures { IfOk result (λ cell. cell ≡ job_texts_with (option_copied file.entry) job.now) }
    {
        let name = String::from_str(alloc, job.name())?;
        let runs = runs_with(alloc, job, file)?;
        Ok(JobCell {
            name: Text::new(name),
            runs,
            delay: job.delay(),
        })
    }
}

// Returns what a job runs, and the names of the scripts of its file, if that is given.
fn runs_with(alloc: Global, job: &Job, file: Option<&JobFile>) -> Result<Text, AllocError>
    ensures { IfOk result (λ text. text ≡ run_text job.now.user job.now.command ++ scripts_note (option_copied file.entry)) }
{
    let runs = runs_of(alloc, job)?;
    let mut text = String::from_str(alloc, runs.as_str())?;
    push_scripts(&mut text, file)?;
    Ok(Text::new(text))
}

/// Returns what a job runs: its user, if it has one, a space, and its command.
///
/// # Errors
///
/// `AllocError` if an allocation fails.
pub fn runs_of(alloc: Global, job: &Job) -> Result<Text, AllocError>
    ensures { IfOk result (λ text. text ≡ run_text job.now.user job.now.command) }
{
    let command = job.command();
    let text = match job.user() {
        Some(user) => format!(in alloc; "{user} {command}")?,
        None => String::from_str(alloc, command)?,
    };
    Ok(Text::new(text))
}

impl JobCells {
    /// Makes what the rows of a table have of jobs.
    ///
    /// # Errors
    ///
    /// `AllocError` if an allocation fails.
    pub fn new(alloc: Global, jobs: &Jobs) -> Result<JobCells, AllocError>
        ensures cells { IfOk result (λ cells. cells ≡ map job_texts jobs.now) }

        // Without jobs it requests no memory.
        ensures spared { jobs.now ≡ [] → IsOk result }
    {
        let mut cells = Vec::with_capacity(alloc, jobs.len())?;
        for number in 0..jobs.len() {
            if let Some(job) = jobs.get(number) {
                cells.push(JobCell::new(alloc, job)?)?;
            }
        }
        Ok(JobCells { jobs: cells })
    }

    /// Makes what the rows of a table have of jobs, each with the names of the scripts of its file: that at the job's
    /// place. A job without such a file has no scripts.
    ///
    /// # Errors
    ///
    /// `AllocError` if an allocation fails.
    pub fn with_files(alloc: Global, jobs: &Jobs, files: &[JobFile]) -> Result<JobCells, AllocError>
        ensures cells { IfOk result (λ cells. cells ≡ texts_of_jobs files.now jobs.now) }

        // Without jobs it requests no memory.
        ensures spared { jobs.now ≡ [] → IsOk result }
    {
        let mut cells = Vec::with_capacity(alloc, jobs.len())?;
        for number in 0..jobs.len() {
            if let Some(job) = jobs.get(number) {
                cells.push(JobCell::with_file(alloc, job, files.get(number))?)?;
            }
        }
        Ok(JobCells { jobs: cells })
    }

    /// Returns the delay of the job with a number, in seconds.
    pub(crate) fn delay(&self, number: usize) -> Option<u64>
        ensures { result ≡ option_map (λ (job : JobTexts). job.delay) (slice_get self.now number) }
    {
        match self.jobs.get(number) {
            Some(job) => Some(job.delay),
            None => None,
        }
    }

    // Returns what the rows of the job with a number have of it.
    fn get(&self, number: usize) -> Option<&JobCell>
        ensures { option_copied result ≡ slice_get self.now number }
    {
        self.jobs.get(number)
    }
}

/// The table of starts of jobs.
#[derive(Drop)]
pub struct JobRows<'a> {
    /// How times are shown.
    pub look: &'a Look<'a>,
    /// The starts, each a second and the number of a job. A job that starts at `END_SECOND` has no start.
    pub starts: &'a [Start],
    /// What the rows have of each job.
    pub jobs: &'a JobCells,
    /// Whether there is a column of the latest starts.
    pub delays: bool,
}

// Returns the text of a start, or `none`.
fn start_or_word(look: &Look<'_>, at: Option<u64>, passed: &mut usize) -> Short
    requires { IfSome at (λ n. n ≤ end_second) }
    ensures { result.bytes ≡ start_or_word look.now at }
{
    match at {
        Some(second) => look.start_text(second, passed),
        None => word("none"),
    }
}

// Returns the text of the latest start of a job with this delay, or `none`.
fn latest_or_word(look: &Look<'_>, delay: u64, at: Option<u64>, passed: &mut usize) -> Short
    requires { IfSome at (λ n. n ≤ end_second) }
    ensures { result.bytes ≡ latest_or_word look.now delay at }
{
    match at {
        Some(second) => { look.later_text(second, latest_start(delay, second), passed) }
        None => word("none"),
    }
}

/// Returns the latest start for a time of a job with this delay, both in seconds.
pub(crate) fn latest_start(delay: u64, second: u64) -> u64
    ensures value { result ≡ latest_start delay second }
    ensures years { result ≤ end_second }
{
    second.saturating_add(delay).min(END_SECOND)
}

// Returns a second as a start, or `None` for `END_SECOND`.
fn start_or_none(second: u64) -> Option<u64>
    ensures value { result ≡ start_or_none second }
    ensures years { IfSome result (λ n. n ≤ end_second) }
{
    if second < END_SECOND {
        Some(second)
    } else {
        None
    }
}

// Puts the cells of these texts, in the columns of starts of jobs.
fn put_cells<K: RowSink>(
    start: &str,
    latest: &Option<Short>,
    distance: &Option<Short>,
    name: &str,
    runs: &str,
    sink: &mut K,
)
    ensures { K.takes sink.old sink.new (job_cells start.now (text_of latest.now) (text_of distance.now) name.now runs.now ∷ []) }
{
    let (start, name, runs) = (Cell::new(start), Cell::new(name), Cell::new(runs));
    match (cell_if(latest), cell_if(distance)) {
        (None, None) => sink.row(&[start, name, runs]),
        (Some(latest), None) => sink.row(&[start, latest, name, runs]),
        (None, Some(distance)) => sink.row(&[start, distance, name, runs]),
        (Some(latest), Some(distance)) => sink.row(&[start, latest, distance, name, runs]),
    }
}

impl<'a> JobRows<'a> {
    // Puts the head.
    fn put_head<K: RowSink>(&self, sink: &mut K)
        ensures { K.takes sink.old sink.new (job_head self.now.look.now.origin self.now.delays ∷ []) }
    {
        let latest = if self.delays {
            Some(word("LATEST"))
        } else {
            None
        };
        put_cells(
            "START",
            &latest,
            &self.look.distance_head(),
            "JOB",
            "RUNS",
            sink,
        );
    }

    // Puts the row of a job that starts at a time, if it starts.
    fn put_job<K: RowSink>(&self, at: Option<u64>, job: &JobCell, passed: &mut usize, sink: &mut K)
        requires { IfSome at (λ n. n ≤ end_second) }
        ensures { K.takes sink.old sink.new (job_row self.now.look.now self.now.delays at job.now ∷ []) }
    {
        let start = start_or_word(self.look, at, passed);
        let latest = self.latest(job.delay, at, passed);
        let distance = self.look.distance(at);
        put_cells(
            start.as_str(),
            &latest,
            &distance,
            job.name.as_str(),
            job.runs.as_str(),
            sink,
        );
    }

    // Returns the text of the latest start of a job with this delay, or `none`, if delays count.
    fn latest(&self, delay: u64, at: Option<u64>, passed: &mut usize) -> Option<Short>
        requires { IfSome at (λ n. n ≤ end_second) }
        ensures { text_of result ≡ text_if self.now.delays (latest_or_word self.now.look.now delay at) }
    {
        if self.delays {
            Some(latest_or_word(self.look, delay, at, passed))
        } else {
            None
        }
    }

    // Puts the row of a start.
    fn put_start<K: RowSink>(&self, start: Start, passed: &mut usize, sink: &mut K)
        ensures { K.takes sink.old sink.new (rows_of_job self.now.look.now self.now.delays (start_or_none start.0) (slice_get self.now.jobs.now start.1)) }
    {
        if let Some(job) = self.jobs.get(start.job() as usize) {
            self.put_job(start_or_none(start.second()), job, passed, sink);
        }
    }
}

impl<'a> Rows for JobRows<'a> {
    ghost use Rattle.agenda_table.specs.Rows.{job_rows};

    ghost rows = { λ table. job_rows table.look.now table.delays table.starts.now table.jobs.now };

    fn put_rows<K: RowSink>(&self, sink: &mut K) {
        let mut passed = 0;
        self.put_head(sink);
        for start in self.starts {
            self.put_start(*start, &mut passed, sink);
        }
    }
}

/// Writes the table of starts of jobs, and a last line, which isn't cut. This requests no memory. The stream is flushed
/// once, at the end.
///
/// # Errors
///
/// `Device` or `Closed` if the stream fails. Then only the first bytes of the text were written.
pub fn write_job_table<S: Stream>(
    table: &JobRows<'_>,
    last: &str,
    frame: Frame,
    out: &mut S,
) -> Result<(), WriteFault>
    ensures text { Puts S.takes_all result (S.holds out.old) (S.holds out.new) (table_text frame.columns frame.terminal
        (job_rows table.now.look.now table.now.delays table.now.starts.now table.now.jobs.now) (chars last.now)) }
    ensures flushed { OnOk result (IsTrue (S.is_flushed out.new)) }
{
    write_table(table, last, frame, out)
}
