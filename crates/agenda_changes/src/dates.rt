//! The dates on which the times of the table have their offset.

ghost use Rattle.std.specs.Prelude.{◌≡◌, ◌≤◌, ◌∷◌, IfOk};
ghost use Rattle.plan_sets.specs.Limits.{end_second};
ghost use Rattle.agenda_table.specs.Dates.{AreDatesOf, AreInYears};
ghost use Rattle.agenda_changes.specs.Rows.{change_times};

use crate::rows::{ChangeRow, ChangeRows};
use agenda_table::dates_of_starts;
use plan_clock::Clock;
use std::alloc::{AllocError, Global};

/// Returns the numbers of the dates, from 0 for 1970-01-01, on which the times of the table have their offset. The times are
/// those of the last line, the start and the end of the span, and those of the rows.
///
/// # Errors
///
/// `AllocError` if an allocation fails.
pub fn dates_of_changes(
    alloc: Global,
    clock: &Clock,
    since: u64,
    upto: u64,
    rows: &ChangeRows,
) -> Result<Vec<u64>, AllocError>
    requires since { since ≤ end_second }
    requires upto { upto ≤ end_second }
    ensures { IfOk result (λ dates. AreDatesOf clock.now (since ∷ upto ∷ change_times rows.now) dates.items) }
{
    let times = times_of(alloc, upto, rows.as_slice())?;
    let dates = dates_of_starts(alloc, clock, since, &times)?;
    Ok(dates)
}

// Returns the end of the span, and the times of the rows.
fn times_of(alloc: Global, upto: u64, rows: &[ChangeRow]) -> Result<Vec<u64>, AllocError>
    requires { upto ≤ end_second }
    ensures times { IfOk result (λ times. times.items ≡ upto ∷ change_times rows.now) }
    ensures years { IfOk result (λ times. AreInYears times.items) }
{
    let mut times = Vec::new(alloc);
    times.push(upto)?;
    for row in rows {
        times.push(row.first())?;
    }
    Ok(times)
}
