//! The dates on which the times of a table have their offset, since the clock is put back between two of them.
//!
//! The local times of a table are sorted by their date, and then by the second. So two times between which the clock is
//! put back have neighbours between which it is.

ghost use Rattle.std.specs.Prelude.{◌≡◌, ◌≤◌, ◌∷◌, ◌++◌, ◌||◌, ◌&&◌, ◌==◌, ◌+◌, ◌/◌, ℕ, List, IfOk, OnOk, map, nat_lt, slice_get};
ghost use Rattle.std.specs.List.{flat_map};
ghost use Rattle.plan_sets.specs.Limits.{end_second};
ghost use Rattle.plan_write.specs.Upcoming.{start_or_none};
ghost use Rattle.agenda_table.specs.Dates.{AreDatesOf, AreInYears, gap_times, is_put_back_between, job_times, shown_by, times_of_job};
ghost use Rattle.agenda_table.specs.Keys.{falls_among, keys_in, second_of};
ghost use Rattle.agenda_table.specs.Rows.{has_date};

use crate::face::Face;
use crate::gaps::Gaps;
use crate::jobs::{JobCells, latest_start};
use plan_clock::Clock;
use plan_collect::Start;
use plan_sets::{END_SECOND, SECONDS_A_DAY};
use std::alloc::{AllocError, Global};

// Seconds are below this number.
const SECONDS: u64 = 34_359_738_368;

/// Returns the numbers of the dates, from 0 for 1970-01-01, on which the times of starts of jobs have their offset, and
/// those of the last line. The times are those of the rows: the starts, and the latest ones if delays count.
///
/// # Errors
///
/// `AllocError` if an allocation fails.
pub fn dates_of_jobs(
    alloc: Global,
    clock: &Clock,
    bounds: &[u64],
    starts: &[Start],
    jobs: &JobCells,
    delays: bool,
) -> Result<Vec<u64>, AllocError>
    requires { AreInYears bounds.now }
    ensures { IfOk result (λ dates. AreDatesOf clock.now (bounds.now ++ job_times delays starts.now jobs.now) dates.items) }
{
    let mut keys = Vec::new(alloc);
    let mut passed = 0;
    push_times(&mut keys, clock, bounds, &mut passed)?;
    for start in starts {
        push_job(&mut keys, clock, *start, jobs, delays, &mut passed)?;
    }
    let dates = dates_of(alloc, clock, keys)?;
    Ok(dates)
}

/// Returns the numbers of the dates, from 0 for 1970-01-01, on which the times of gaps have their offset, and those of the
/// last line.
///
/// # Errors
///
/// `AllocError` if an allocation fails.
pub fn dates_of_gaps(
    alloc: Global,
    clock: &Clock,
    bounds: &[u64],
    gaps: &Gaps,
) -> Result<Vec<u64>, AllocError>
    requires { AreInYears bounds.now }
    ensures { IfOk result (λ dates. AreDatesOf clock.now (bounds.now ++ gap_times gaps.now) dates.items) }
{
    let mut keys = Vec::new(alloc);
    let mut passed = 0;
    push_times(&mut keys, clock, bounds, &mut passed)?;
    for (from, to) in gaps.as_slice() {
        push_time(&mut keys, clock, *from, &mut passed)?;
        push_time(&mut keys, clock, *to, &mut passed)?;
    }
    let dates = dates_of(alloc, clock, keys)?;
    Ok(dates)
}

/// Returns the numbers of the dates, from 0 for 1970-01-01, on which the times of starts of a rule have their offset, and
/// that of the last line, after which they are.
///
/// # Errors
///
/// `AllocError` if an allocation fails.
pub fn dates_of_starts(
    alloc: Global,
    clock: &Clock,
    after: u64,
    starts: &[u64],
) -> Result<Vec<u64>, AllocError>
    requires after { after ≤ end_second }
    requires starts { AreInYears starts.now }
    ensures { IfOk result (λ dates. AreDatesOf clock.now (after ∷ starts.now) dates.items) }
{
    let mut keys = Vec::new(alloc);
    let mut passed = 0;
    push_time(&mut keys, clock, after, &mut passed)?;
    push_times(&mut keys, clock, starts, &mut passed)?;
    let dates = dates_of(alloc, clock, keys)?;
    Ok(dates)
}

// Appends the place of a time in the order, if it is a local time.
fn push_time(
    keys: &mut Vec<u64>,
    clock: &Clock,
    second: u64,
    passed: &mut usize,
) -> Result<(), AllocError>
    requires { second ≤ end_second }
    ensures { OnOk result (keys.new.items ≡ keys.old.items ++ keys_in clock.now second) }
{
    let face = Face::of(clock, second, passed);
    if face.offset.is_some() {
        keys.push(face.date() * SECONDS + second)?;
    }
    Ok(())
}

// Appends the places of those times that are local times.
fn push_times(
    keys: &mut Vec<u64>,
    clock: &Clock,
    times: &[u64],
    passed: &mut usize,
) -> Result<(), AllocError>
    requires { AreInYears times.now }
    ensures { OnOk result (keys.new.items ≡ keys.old.items ++ flat_map (keys_in clock.now) times.now) }
{
    for time in times {
        push_time(keys, clock, (*time).min(END_SECOND), passed)?;
    }
    Ok(())
}

// Appends the places of the times in the row of a start.
fn push_job(
    keys: &mut Vec<u64>,
    clock: &Clock,
    start: Start,
    jobs: &JobCells,
    delays: bool,
    passed: &mut usize,
) -> Result<(), AllocError>
    ensures { OnOk result (keys.new.items ≡ keys.old.items
        ++ flat_map (keys_in clock.now) (times_of_job delays (start_or_none start.0) (slice_get jobs.now start.1))) }
{
    let second = start.second();
    if second >= END_SECOND {
        return Ok(());
    }
    let Some(delay) = jobs.delay(start.job() as usize) else {
        return Ok(());
    };
    push_time(keys, clock, second, passed)?;
    if delays {
        push_time(keys, clock, latest_start(delay, second), passed)?;
    }
    Ok(())
}

// Returns the dates on which the times at these places have their offset.
fn dates_of(alloc: Global, clock: &Clock, keys: Vec<u64>) -> Result<Vec<u64>, AllocError>
    ensures { IfOk result (λ dates. (times : List ℕ) → AreInYears times → keys.items ≡ flat_map (keys_in clock.now) times
        → AreDatesOf clock.now times dates.items) }
{
    let mut keys = keys;
    keys.sort_unstable();
    let dates = dates_among(alloc, clock, &keys)?;
    Ok(dates)
}

// Returns the dates on which the clock is put back between two neighbours, which are given by their places.
fn dates_among(alloc: Global, clock: &Clock, keys: &[u64]) -> Result<Vec<u64>, AllocError>
    ensures { IfOk result (λ dates. (date : ℕ) → has_date dates.items date ≡ falls_among (shown_by clock.now) date (map second_of keys.now)) }
{
    let mut dates = Vec::new(alloc);
    let mut passed = 0;
    let Some(first) = keys.first() else {
        return Ok(dates);
    };
    let mut before = Shown::at(clock, *first, &mut passed);
    for key in keys {
        let next = Shown::at(clock, *key, &mut passed);
        push_date(&mut dates, before, next)?;
        before = next;
    }
    Ok(dates)
}

// A time, and the second of UTC that has the date and time that a clock shows then.
#[derive(Clone, Copy)]
struct Shown {
    second: u64,
    shown: u64,
}

impl Shown {
    // Returns the time at a place, and what a clock shows then.
    fn at(clock: &Clock, key: u64, passed: &mut usize) -> Shown
        ensures second { result.second ≡ second_of key }
        ensures shown { result.shown ≡ shown_by clock.now (second_of key) }
        ensures second_years { result.second ≤ end_second }
        ensures shown_years { result.shown ≤ end_second }
    {
        let second = (key % SECONDS).min(END_SECOND);
        let shown = Face::of(clock, second, passed).shown;
        Shown { second, shown }
    }

    // Returns the number of the date.
    fn date(self) -> u64
        ensures { result ≡ self.shown / 86400 }
    {
        self.shown / SECONDS_A_DAY
    }
}

// Returns whether the clock is put back between two times, which have the same date.
fn is_put_back(before: Shown, next: Shown) -> bool
    requires before { before.second ≤ end_second }
    requires before_shown { before.shown ≤ end_second }
    requires next { next.second ≤ end_second }
    requires next_shown { next.shown ≤ end_second }
    ensures { result ≡ ((before.shown / 86400 == next.shown / 86400) && (nat_lt before.second next.second
        && nat_lt (next.shown + before.second) (before.shown + next.second))) }
{
    before.date() == next.date()
        && before.second < next.second
        && next.shown + before.second < before.shown + next.second
}

// Appends the date of two times if the clock is put back between them.
fn push_date(dates: &mut Vec<u64>, before: Shown, next: Shown) -> Result<(), AllocError>
    requires before { before.second ≤ end_second }
    requires before_shown { before.shown ≤ end_second }
    requires next { next.second ≤ end_second }
    requires next_shown { next.shown ≤ end_second }
    ensures { OnOk result ((date : ℕ) → has_date dates.new.items date
        ≡ (has_date dates.old.items date || is_put_back_between date before.second before.shown next.second next.shown)) }
{
    if is_put_back(before, next) {
        dates.push(next.date())?;
    }
    Ok(())
}
