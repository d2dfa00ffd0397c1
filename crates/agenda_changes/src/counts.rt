//! How many starts of an agenda run each of the texts that changed starts run.

ghost use Rattle.std.specs.Prelude.{◌≡◌, ◌<◌, IfOk, IfSome, length, map, replicate, slice_get, slice_index, unwrap_or};
ghost use Rattle.plan_changes.specs.Lines.{lines_of};
ghost use Rattle.agenda_changes.specs.Counts.{counted, counts_of, row_of};

use crate::firsts::Firsts;
use plan_baseline::Baseline;
use plan_changes::JobLines;
use plan_collect::Start;
use std::alloc::{AllocError, Global};

/// Counts the starts of an earlier agenda.
///
/// # Errors
///
/// `AllocError` if an allocation fails.
pub(crate) fn counts_before(
    alloc: Global,
    before: &Baseline,
    firsts: &Firsts,
) -> Result<Vec<usize>, AllocError>
    ensures { IfOk result (λ counts. counts.items ≡ counts_of before.now.lines firsts.now) }
{
    let mut counts = zeros(alloc, firsts.len())?;
    for place in 0..before.len() {
        if let Some(line) = before.get(place) {
            count(&mut counts, firsts.row(line.runs));
        }
    }
    Ok(counts)
}

/// Counts the starts of a new agenda, whose jobs have these lines.
///
/// # Errors
///
/// `AllocError` if an allocation fails.
pub(crate) fn counts_now(
    alloc: Global,
    starts: &[Start],
    jobs: &JobLines,
    firsts: &Firsts,
) -> Result<Vec<usize>, AllocError>
    ensures { IfOk result (λ counts. counts.items ≡ counts_of (lines_of jobs.now starts.now) firsts.now) }
{
    let rows = rows_of(alloc, jobs, firsts)?;
    let no_job = firsts.row(b"");
    let mut counts = zeros(alloc, firsts.len())?;
    for start in starts {
        count(&mut counts, row_at(&rows, start.job() as usize, no_job));
    }
    Ok(counts)
}

// Returns that no starts were counted in so many rows.
fn zeros(alloc: Global, rows: usize) -> Result<Vec<usize>, AllocError>
    ensures { IfOk result (λ counts. counts.items ≡ replicate rows 0) }
{
    vec![in alloc; 0; rows]
}

// Returns the row of each job, if it has one.
fn rows_of(
    alloc: Global,
    jobs: &JobLines,
    firsts: &Firsts,
) -> Result<Vec<Option<usize>>, AllocError>
    ensures { IfOk result (λ rows. rows.items ≡ map (λ texts. row_of texts.1 firsts.now) jobs.now) }
{
    let mut rows = Vec::with_capacity(alloc, jobs.len())?;
    for number in 0..jobs.len() {
        let (_, runs) = jobs.get(number);
        rows.push(firsts.row(runs))?;
    }
    Ok(rows)
}

// Returns the row of the job with a number, or another one if there is no such job.
fn row_at(rows: &[Option<usize>], number: usize, other: Option<usize>) -> Option<usize>
    ensures { result ≡ unwrap_or (slice_get rows.now number) other }
{
    match rows.get(number) {
        Some(row) => *row,
        None => other,
    }
}

// Counts one more start in a row, if it has one.
fn count(counts: &mut Vec<usize>, row: Option<usize>)
    requires within { IfSome row (λ row. row < length counts.old.items) }
    requires few { IfSome row (λ row. slice_index counts.old.items row < usize.MAX) }
    ensures { counts.new.items ≡ counted counts.old.items row }
{
    if let Some(row) = row {
        counts[row] += 1;
    }
}
