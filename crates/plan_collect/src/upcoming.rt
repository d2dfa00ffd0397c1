//! The next start of each job.

ghost use Rattle.std.specs.Prelude.{◌≡◌, ◌≤◌, [], IfOk, IsOk};
ghost use Rattle.plan_sets.specs.Limits.{end_second};
ghost use Rattle.plan_collect.specs.Upcoming.{AreUpcoming, next_or_end, nexts_from};

use crate::start::Start;
use plan_next::next_start;
use plan_rules::{Jobs, Rule};
use plan_sets::END_SECOND;
use std::alloc::{AllocError, Global};
use std::marker::Model;

/// The next start of each job, by time and then by job: a second and the job's number. Jobs without a further
/// start come last, with `END_SECOND`.
#[derive(Debug, Drop)]
pub struct Upcoming {
    nexts: Vec<Start>,
}

impl Model for Upcoming {
    ghost use Rattle.std.specs.Prelude.{ℕ, List};

    ghost Value = { List (ℕ × ℕ) };

    ghost view = { λ upcoming. upcoming.nexts.items };
}

impl Upcoming {
    /// Returns the first start of each job later than `after`, in seconds since 1970-01-01T00:00:00Z.
    ///
    /// # Errors
    ///
    /// `AllocError` if an allocation fails.
    pub fn new(alloc: Global, jobs: &Jobs, after: u64) -> Result<Upcoming, AllocError>
        ensures nexts { IfOk result (λ nexts. AreUpcoming jobs.now after nexts) }

        // Without jobs it requests no memory.
        ensures spared { jobs.now ≡ [] → IsOk result }
    {
        let mut nexts = nexts_of(alloc, jobs, after)?;
        nexts.sort_unstable();
        Ok(Upcoming { nexts })
    }

    /// Returns the next starts, in order.
    pub fn nexts(&self) -> &[Start]
        ensures { result.now ≡ self.now }
    {
        &self.nexts
    }
}

// Returns the next start of each job, in the order of the jobs.
fn nexts_of(alloc: Global, jobs: &Jobs, after: u64) -> Result<Vec<Start>, AllocError>
    ensures nexts { IfOk result (λ nexts. nexts.items ≡ nexts_from 0 after jobs.now) }
    ensures spared { jobs.now ≡ [] → IsOk result }
{
    let mut nexts = Vec::with_capacity(alloc, jobs.len())?;
    for number in 0..jobs.len() {
        if let Some(job) = jobs.get(number) {
            nexts.push(Start::new(next_or_end(job.rule(), after), number as u32))?;
        }
    }
    Ok(nexts)
}

// Returns the first start of a rule later than a second, or `END_SECOND` if it has none.
fn next_or_end(rule: &Rule, after: u64) -> u64
    ensures next { result ≡ next_or_end rule.now after }
    ensures years { result ≤ end_second }
{
    match next_start(rule, after) {
        Some(second) => second,
        None => END_SECOND,
    }
}
