//! Finds the second at which a clock shows a local time.

ghost use Rattle.std.specs.Prelude.{◌≡◌, ◌≢◌, ℕ, ◌+◌, ◌<◌, ◌≤◌, ◌^◌, true, IfOk, IfSome, IfNone, pos, ◌+ℤ◌};
ghost use Rattle.plan_sets.specs.Limits.{end_second};
ghost use Rattle.plan_clock.specs.Rows.{is_near};
ghost use Rattle.plan_times.specs.LocalTimes.{first_local, local_at, day_at, picked, second_or_fault, IsPicked, IsSecondOf};

use crate::day::FIRST_DAY;
use crate::fault::TimeFault;
use plan_clock::{Clock, Row};
use plan_sets::{END_SECOND, SECONDS_A_DAY};

/// The local time 1970-01-01T00:00:00.
const FIRST_LOCAL: i64 = FIRST_DAY * SECONDS_A_DAY as i64;

// Returns the local time at second 0 of a clock with the offset of this row.
fn start(row: Row) -> u64
    requires { is_near row.offset ≡ true }
    ensures exact { pos result ≡ pos first_local +ℤ row.offset }
    ensures small { result < 2 ^ 40 }
{
    (FIRST_LOCAL + i64::from(row.offset)) as u64
}

/// Returns the number of the local date that a clock shows at a second.
pub(crate) fn day_at(clock: &Clock, second: u64) -> u64
    requires { second ≤ end_second }
    ensures value { result ≡ day_at clock.now second }
    ensures small { result < 2 ^ 32 }
{
    let stretch = clock.stretch(second, second + 1);
    (second + start(stretch.row)) / SECONDS_A_DAY
}

// Returns the second of a part of time at which a local time is shown, if there is one. At second 0 the clock of that part
// would show `start`.
fn shown_in(local: u64, start: u64, from: u64, upto: u64) -> Option<u64>
    ensures some { IfSome result (λ n. (from ≤ n) × (n < upto) × (n + start ≡ local)) }
    ensures none { IfNone result ((n : ℕ) → from ≤ n → n < upto → n + start ≢ local) }
{
    let second = local.checked_sub(start)?;
    if from <= second && second < upto {
        Some(second)
    } else {
        None
    }
}

// Returns the first of two seconds that may be missing, or the last.
fn picked(latest: bool, held: Option<u64>, found: Option<u64>) -> Option<u64>
    ensures { result ≡ picked latest held found }
{
    if latest {
        found.or(held)
    } else {
        held.or(found)
    }
}

// Returns the first second of a part of time, if the clock skips a local time there. The clock showed `before` one second
// earlier, and shows `now` at that second.
fn skipped_at(local: u64, before: u64, now: u64, from: u64) -> Option<u64>
    ensures some { IfSome result (λ n. (n ≡ from) × (before < local) × (local < now)) }
    ensures none { IfNone result (before < local → ¬ (local < now)) }
{
    if before < local && local < now {
        Some(from)
    } else {
        None
    }
}

/// Returns the second of a local time by a clock: the first second that shows it, or the last. Of a local time that the clock
/// skips, it is the second at which the clock is put forward.
///
/// # Errors
///
/// `OutOfYears` if no second of the planner's years shows or skips it.
pub(crate) fn second_of(clock: &Clock, local: u64, latest: bool) -> Result<u64, TimeFault>
    ensures meaning { IsSecondOf latest clock.now local result }
    ensures years { IfOk result (λ n. n ≤ end_second) }
{
    let mut shown = None;
    let mut skipped = None;
    let mut before = local;
    let mut from = 0;
    while from <= END_SECOND {
        let stretch = clock.stretch(from, END_SECOND + 1);
        let start = start(stretch.row);
        let upto = stretch.upto;
        shown = picked(latest, shown, shown_in(local, start, from, upto));
        skipped = picked(
            latest,
            skipped,
            skipped_at(local, before, from + start, from),
        );
        before = upto - 1 + start;
        from = upto;
    }
    shown.or(skipped).ok_or(TimeFault::OutOfYears)
}
