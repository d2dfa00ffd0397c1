//! The hours that a clock shows.

ghost use Rattle.std.specs.Prelude.{◌≡◌, ℕ, ◌<◌, ◌≤◌, ◌/◌, true};
ghost use Rattle.plan_clock.specs.Rows.{is_bounded, row_at};
ghost use Rattle.plan_sets.specs.Limits.{end_second};
ghost use Rattle.plan_week.specs.Hours.{hour_at, local_by_row};

use plan_clock::{Clock, Row};
use plan_sets::END_SECOND;

/// The number of seconds in an hour.
const SECONDS_AN_HOUR: u64 = 3_600;

/// A part of time in which a clock shows the same hour.
#[derive(Clone, Copy)]
pub(crate) struct Part {
    /// The hour, from 0 for the first hour of 1970-01-01.
    pub(crate) hour: u64,
    /// The first second of the part.
    pub(crate) from: u64,
    /// The end of the part: the first second after it.
    pub(crate) upto: u64,
}

impl Part {
    /// Returns a part that has no second.
    pub(crate) fn none() -> Part
        ensures { (result.from ≡ 0) × (result.upto ≡ 0) }
    {
        Part {
            hour: 0,
            from: 0,
            upto: 0,
        }
    }

    /// Returns the part that starts at a second, and ends before `end`. `passed` is a guess of how many changes of the
    /// clock are before it, and is set to that number.
    #[tactic(auto, unfolding(crate::specs::Hours::local_second))]
    pub(crate) fn at(clock: &Clock, second: u64, end: u64, passed: &mut usize) -> Part
        requires before { second < end }
        requires years { end ≤ end_second }
        ensures hour { result.hour ≡ hour_at clock.now second }
        ensures start { result.from ≡ second }
        ensures from { second < result.upto }
        ensures to { result.upto ≤ end }
        ensures same { (n : ℕ) → second ≤ n → n < result.upto → hour_at clock.now n ≡ hour_at clock.now second }
        ensures bounded { (n : ℕ) → is_bounded (row_at clock.now n) ≡ true }
    {
        let stretch = clock.stretch_near(second, end, passed);
        let upto = hour_end(stretch.row, second);
        Part {
            hour: local_second(stretch.row, second) / SECONDS_AN_HOUR,
            from: second,
            upto: upto.min(stretch.upto),
        }
    }
}

// Returns what the clock of a row shows at a second, as a second of UTC. A time outside the planner's years stays in UTC.
fn local_second(row: Row, second: u64) -> u64
    requires bounded { is_bounded row ≡ true }
    requires years { second < end_second }
    ensures value { result ≡ local_by_row row second }
    ensures years { result < end_second }
{
    let shown = second as i64 + i64::from(row.offset);
    if shown < 0 || shown >= END_SECOND as i64 {
        return second;
    }
    shown as u64
}

// Returns the end of the hour that the clock of a row shows at a second, if the row lasts so long. A time before the
// planner's years stays in UTC, so such an hour ends where the clock shows their start.
fn hour_end(row: Row, second: u64) -> u64
    requires bounded { is_bounded row ≡ true }
    requires years { second < end_second }
    ensures after { second < result }
    ensures same { (n : ℕ) → second ≤ n → n < result → local_by_row row n / 3600 ≡ local_by_row row second / 3600 }
{
    let end = second + (SECONDS_AN_HOUR - local_second(row, second) % SECONDS_AN_HOUR);
    let years = row.unshown(0);
    if second < years { end.min(years) } else { end }
}
