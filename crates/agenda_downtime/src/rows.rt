//! What the rows of the table have: what a job misses, its name, and what it runs.

ghost use Rattle.std.specs.Prelude.{◌≡◌, ◌≤◌, ◌++◌, [], IfOk, OnOk, slice_get};
ghost use Rattle.std.specs.List.{cons_option};
ghost use Rattle.plan_sets.specs.Limits.{end_second};
ghost use Rattle.agenda_downtime.specs.Rows.{missed_texts, texts_if, texts_of};

use agenda_table::runs_of;
use plan_downtime::{Missed, Outcome};
use plan_rules::{Job, Jobs, Text};
use std::alloc::{AllocError, Global};
use std::marker::Model;

/// The rows of the table, in order. Contracts see this value as a list: for each row what a job misses, the job's name, and
/// what it runs. That is its user, if it has one, a space, and its command.
#[derive(Drop)]
pub struct MissedRows {
    rows: Vec<MissedRow>,
}

impl Model for MissedRows {
    ghost use Rattle.std.specs.Prelude.{List};
    ghost use Rattle.agenda_downtime.specs.Rows.{MissedTexts};

    ghost Value = { List MissedTexts };

    ghost view = { λ rows. rows.rows.items };
}

impl MissedRows {
    /// Makes the rows of what jobs miss, in the same order. If there is no job with the number, there is no row.
    ///
    /// # Errors
    ///
    /// `AllocError` if an allocation fails.
    pub fn new(alloc: Global, missed: &[Missed], jobs: &Jobs) -> Result<MissedRows, AllocError>
        ensures { IfOk result (λ rows. rows ≡ missed_texts jobs.now missed.now) }
    {
        let mut rows = Vec::with_capacity(alloc, missed.len())?;
        for one in missed {
            push_row(alloc, one, jobs, &mut rows)?;
        }
        Ok(MissedRows { rows })
    }

    /// Returns the rows, in order.
    pub(crate) fn as_slice(&self) -> &[MissedRow]
        ensures { result.now ≡ self.now }
    {
        &self.rows
    }
}

// Appends the row of what a job misses, if there is such a job.
fn push_row(
    alloc: Global,
    missed: &Missed,
    jobs: &Jobs,
    rows: &mut Vec<MissedRow>,
) -> Result<(), AllocError>
    ensures { OnOk result (rows.new.items
        ≡ rows.old.items ++ cons_option (texts_if missed.now (slice_get jobs.now missed.now.job)) []) }
{
    if let Some(job) = jobs.get(missed.job()) {
        rows.push(MissedRow::new(alloc, missed, job)?)?;
    }
    Ok(())
}

/// What a row of the table has: what a job misses, the job's name, and what it runs.
#[derive(Drop)]
pub(crate) struct MissedRow {
    first: u64,
    last: u64,
    count: usize,
    outcome: Outcome,
    job: usize,
    name: Text,
    runs: Text,
}

impl Model for MissedRow {
    ghost use Rattle.std.specs.Prelude.{◌≤◌};
    ghost use Rattle.plan_sets.specs.Limits.{end_second};
    ghost use Rattle.agenda_downtime.specs.Rows.{MissedTexts};

    ghost Value = { MissedTexts };

    ghost view = { λ row. record {
      missed = record { first = row.first; last = row.last; count = row.count; outcome = row.outcome; job = row.job };
      name = row.name;
      runs = row.runs;
    } };

    ghost invariant = { λ row. (row.first ≤ end_second) × (row.last ≤ end_second) };
}

impl MissedRow {
    // Makes the row of what a job misses.
    fn new(alloc: Global, missed: &Missed, job: &Job) -> Result<MissedRow, AllocError>
        ensures { IfOk result (λ row. row ≡ texts_of missed.now job.now) }
    {
        let name = String::from_str(alloc, job.name())?;
        let runs = runs_of(alloc, job)?;
        Ok(MissedRow {
            first: missed.first(),
            last: missed.last(),
            count: missed.count(),
            outcome: missed.outcome(),
            job: missed.job(),
            name: Text::new(name),
            runs,
        })
    }

    /// Returns the second of the first start, counted from 1970-01-01T00:00:00Z.
    pub(crate) fn first(&self) -> u64
        ensures value { result ≡ self.now.missed.first }
        ensures years { result ≤ end_second }
    {
        self.first
    }

    /// Returns the second of the last start, counted from 1970-01-01T00:00:00Z.
    pub(crate) fn last(&self) -> u64
        ensures value { result ≡ self.now.missed.last }
        ensures years { result ≤ end_second }
    {
        self.last
    }

    /// Returns the number of starts.
    pub(crate) fn count(&self) -> usize
        ensures { result ≡ self.now.missed.count }
    {
        self.count
    }

    /// Returns what becomes of the starts.
    pub(crate) fn outcome(&self) -> Outcome
        ensures { result ≡ self.now.missed.outcome }
    {
        self.outcome
    }

    /// Returns the name of the job.
    pub(crate) fn name(&self) -> &str
        ensures { result.now ≡ self.now.name }
    {
        self.name.as_str()
    }

    /// Returns what the job runs.
    pub(crate) fn runs(&self) -> &str
        ensures { result.now ≡ self.now.runs }
    {
        self.runs.as_str()
    }
}
