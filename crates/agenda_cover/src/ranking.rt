//! Which jobs cover most of a span.

ghost use Rattle.std.specs.Prelude.{◌≡◌, IfOk, OnOk, nat_lt, not};
ghost use Rattle.std.specs.List.{prefix_len};
ghost use Rattle.agenda_cover.specs.Counting.{seconds_counted};
ghost use Rattle.agenda_cover.specs.Ranking.{most_covering, with_job};

use crate::cover::Cover;
use std::alloc::{AllocError, Global};

/// How many jobs are named at most.
const MOST_NAMED: usize = 3;

/// Returns the jobs that cover most, at most three: for each its number, and the number of seconds that it covers. The job
/// that covers most is first, and of jobs that cover as much the one with the lowest number. Jobs that cover nothing are
/// left out.
///
/// # Errors
///
/// `AllocError` if an allocation fails.
pub fn most_covering(alloc: Global, covers: &[Cover]) -> Result<Vec<(usize, u64)>, AllocError>
    ensures { IfOk result (λ most. most.items ≡ most_covering (seconds_counted covers.now)) }
{
    let mut most = Vec::new(alloc);
    for (number, cover) in covers.iter().enumerate() {
        consider(&mut most, (number, cover.seconds()))?;
    }
    Ok(most)
}

// Puts a job at its place among those that cover most so far, and keeps three of them. A job that covers nothing is left out.
fn consider(most: &mut Vec<(usize, u64)>, job: (usize, u64)) -> Result<(), AllocError>
    ensures { OnOk result (most.new.items ≡ with_job job most.old.items) }
{
    if job.1 == 0 {
        return Ok(());
    }
    let place = count_before(most, job.1);
    most.insert(place, job)?;
    most.truncate(MOST_NAMED);
    Ok(())
}

// Returns how many jobs of a list come before one that covers so many seconds.
fn count_before(most: &[(usize, u64)], seconds: u64) -> usize
    ensures { result ≡ prefix_len (λ other. not (nat_lt other.1 seconds)) most.now }
{
    most.iter().take_while(|other| other.1 >= seconds).count()
}
