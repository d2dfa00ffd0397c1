//! What the rows of the table have: what starts run, how many starts of each agenda run it, and when it changed first.

ghost use Rattle.std.specs.Prelude.{◌≡◌, ◌≤◌, IfOk, List, length, map};
ghost use Rattle.std.specs.Str.Lossy.{utf8_lossy};
ghost use Rattle.plan_baseline.specs.Line.{Line};
ghost use Rattle.plan_changes.specs.Lines.{lines_of};
ghost use Rattle.plan_sets.specs.Limits.{end_second};
ghost use Rattle.agenda_changes.specs.Counts.{counts_of};
ghost use Rattle.agenda_changes.specs.Rows.{change_of, runs_changes};

use crate::counts::{counts_before, counts_now};
use crate::firsts::Firsts;
use plan_baseline::Baseline;
use plan_changes::{Change, JobLines, NewLines};
use plan_collect::Agenda;
use plan_rules::Text;
use std::alloc::{AllocError, Global};
use std::marker::Model;

/// The rows of the table, in order. Contracts see this value as a list: for each row what is run, how many starts of the
/// earlier and of the new agenda run it, and the second of its first change.
#[derive(Drop)]
pub struct ChangeRows {
    rows: Vec<ChangeRow>,
}

impl Model for ChangeRows {
    ghost use Rattle.std.specs.Prelude.{List};
    ghost use Rattle.agenda_changes.specs.Rows.{RunsChange};

    ghost Value = { List RunsChange };

    ghost view = { λ rows. rows.rows.items };
}

impl ChangeRows {
    /// Makes the rows of changes, which are those from an earlier agenda to a new one, whose jobs have these lines. There is a
    /// row for each text that a changed start runs, in the order of first changes.
    ///
    /// # Errors
    ///
    /// `AllocError` if an allocation fails.
    pub fn new(
        alloc: Global,
        changes: &[Change],
        before: &Baseline,
        now: &Agenda,
        jobs: &JobLines,
    ) -> Result<ChangeRows, AllocError>
        ensures { IfOk result (λ rows. rows ≡ runs_changes before.now.lines (lines_of jobs.now now.now.entries) changes.now) }
    {
        let lines = NewLines::new(now, jobs);
        let firsts = Firsts::new(alloc, changes, before, &lines)?;
        let before = counts_before(alloc, before, &firsts)?;
        let after = counts_now(alloc, now.entries(), jobs, &firsts)?;
        let rows = rows_of(alloc, &firsts, &before, &after)?;
        Ok(ChangeRows { rows })
    }

    /// Returns the rows, in order.
    pub(crate) fn as_slice(&self) -> &[ChangeRow]
        ensures { result.now ≡ self.now }
    {
        &self.rows
    }
}

// Makes the rows of what changed starts run, with these numbers of starts.
fn rows_of(
    alloc: Global,
    firsts: &Firsts,
    before: &[usize],
    after: &[usize],
) -> Result<Vec<ChangeRow>, AllocError>
    requires before { length before.now ≡ length firsts.now }
    requires after { length after.now ≡ length firsts.now }
    ensures { (earlier later : List Line) → before.now ≡ counts_of earlier firsts.now → after.now ≡ counts_of later firsts.now →
        IfOk result (λ rows. rows.items ≡ map (change_of earlier later) firsts.now) }
{
    let mut rows = Vec::with_capacity(alloc, firsts.len())?;
    for row in 0..firsts.len() {
        if let Some(first) = firsts.get(row) {
            let (runs, second) = first;
            rows.push(ChangeRow::new(alloc, runs, before[row], after[row], second)?)?;
        }
    }
    Ok(rows)
}

/// What a row of the table has: what is run, how many starts of the earlier and of the new agenda run it, and the second of its
/// first change.
#[derive(Drop)]
pub(crate) struct ChangeRow {
    runs: Text,
    before: usize,
    after: usize,
    first: u64,
}

impl Model for ChangeRow {
    ghost use Rattle.std.specs.Prelude.{◌≤◌};
    ghost use Rattle.plan_sets.specs.Limits.{end_second};
    ghost use Rattle.agenda_changes.specs.Rows.{RunsChange};

    ghost Value = { RunsChange };

    ghost view = { λ row. record { runs = row.runs; before = row.before; after = row.after; first = row.first } };

    ghost invariant = { λ row. row.first ≤ end_second };
}

impl ChangeRow {
    // Makes a row.
    fn new(
        alloc: Global,
        runs: &[u8],
        before: usize,
        after: usize,
        first: u64,
    ) -> Result<ChangeRow, AllocError>
        requires { first ≤ end_second }
        ensures { IfOk result (λ row. row ≡ record { runs = utf8_lossy runs.now; before = before; after = after; first = first }) }
    {
        let runs = String::from_utf8_lossy(alloc, runs)?;
        Ok(ChangeRow {
            runs: Text::new(runs),
            before,
            after,
            first,
        })
    }

    /// Returns what is run, as text.
    pub(crate) fn runs(&self) -> &str
        ensures { result.now ≡ self.now.runs }
    {
        self.runs.as_str()
    }

    /// Returns how many starts of the earlier agenda run it.
    pub(crate) fn before(&self) -> usize
        ensures { result ≡ self.now.before }
    {
        self.before
    }

    /// Returns how many starts of the new agenda run it.
    pub(crate) fn after(&self) -> usize
        ensures { result ≡ self.now.after }
    {
        self.after
    }

    /// Returns the second of its first change, counted from 1970-01-01T00:00:00Z.
    pub(crate) fn first(&self) -> u64
        ensures value { result ≡ self.now.first }
        ensures years { result ≤ end_second }
    {
        self.first
    }
}
