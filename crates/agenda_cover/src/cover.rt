//! How much of a span the jobs of an agenda cover.

ghost use Rattle.std.specs.Prelude.{◌≡◌, ◌≤◌, IfOk, replicate, slice_get};
ghost use Rattle.plan_collect.specs.Windows.{latest_start};
ghost use Rattle.plan_sets.specs.Limits.{end_second};
ghost use Rattle.plan_write.specs.Quiet.{delay_of};
ghost use Rattle.agenda_cover.specs.Counting.{changed_at, seconds_counted, with_window};
ghost use Rattle.agenda_cover.specs.Cover.{AreInOrder, covers};

use plan_collect::{Agenda, Start};
use plan_rules::Jobs;
use plan_sets::END_SECOND;
use std::alloc::{AllocError, Global};
use std::marker::Model;

/// How much of a span a job covers. Contracts see this as a pair: the second before which the job's windows are counted,
/// and the number of seconds that they cover.
#[derive(Drop)]
pub struct Cover {
    reach: u64,
    seconds: u64,
}

impl Model for Cover {
    ghost use Rattle.std.specs.Prelude.{ℕ, ◌≤◌};

    ghost Value = { ℕ × ℕ };

    ghost view = { λ cover. (cover.reach, cover.seconds) };

    ghost invariant = { λ cover. cover.seconds ≤ cover.reach };
}

impl Cover {
    // Returns what is counted before the first window: nothing, before the start of the span.
    fn new(since: u64) -> Cover
        ensures { result ≡ (since, 0) }
    {
        Cover {
            reach: since,
            seconds: 0,
        }
    }

    /// Returns the number of seconds that the job covers.
    pub fn seconds(&self) -> u64
        ensures { result ≡ self.now.1 }
    {
        self.seconds
    }

    // Counts what a window has of the span that ends at `upto`, but for what is counted already.
    fn count(&mut self, second: u64, latest: u64, upto: u64)
        requires { latest ≤ end_second }
        ensures { self.new ≡ with_window second latest upto self.old }
    {
        let end = (latest + 1).min(upto);
        let start = second.max(self.reach);
        if start < end {
            self.seconds += end - start;
        }
        self.reach = self.reach.max(end);
    }
}

/// Returns how much of the span of an agenda each of its jobs covers, in the order of their numbers. A job covers the
/// seconds of the span at which it may start: from the time of one of its entries to the latest start.
///
/// # Errors
///
/// `AllocError` if an allocation fails.
pub fn covers_of(alloc: Global, agenda: &Agenda, jobs: &Jobs) -> Result<Vec<Cover>, AllocError>
    requires { AreInOrder agenda.now.entries }
    ensures { IfOk result (λ counted. seconds_counted counted.items ≡ covers agenda.now jobs.now) }
{
    let (since, upto) = (agenda.since(), agenda.upto());
    let mut covers = new_covers(alloc, jobs.len(), since)?;
    let entries = agenda.entries();
    for entry in entries {
        count_entry(*entry, jobs, upto, &mut covers);
    }
    Ok(covers)
}

// Returns what is counted of so many jobs before the first window.
fn new_covers(alloc: Global, count: usize, since: u64) -> Result<Vec<Cover>, AllocError>
    ensures { IfOk result (λ covers. covers.items ≡ replicate count (since, 0)) }
{
    let mut covers = Vec::with_capacity(alloc, count)?;
    for _pushed in 0..count {
        covers.push(Cover::new(since))?;
    }
    Ok(covers)
}

// Counts the window of an entry for its job.
fn count_entry(entry: Start, jobs: &Jobs, upto: u64, covers: &mut [Cover])
    ensures { covers.new ≡ changed_at
        (with_window entry.0 (latest_start (delay_of (slice_get jobs.now entry.1)) entry.0) upto) entry.1 covers.old }
{
    let latest = latest_start_of(entry, jobs);
    let number = entry.job() as usize;
    if number >= covers.len() {
        return;
    }
    let cover = &mut covers[number];
    cover.count(entry.second(), latest, upto);
}

// Returns the latest start for an entry of these jobs.
fn latest_start_of(entry: Start, jobs: &Jobs) -> u64
    ensures value { result ≡ latest_start (delay_of (slice_get jobs.now entry.1)) entry.0 }
    ensures years { result ≤ end_second }
{
    let delay = match jobs.get(entry.job() as usize) {
        Some(job) => job.delay(),
        None => 0,
    };
    entry.second().saturating_add(delay).min(END_SECOND)
}
