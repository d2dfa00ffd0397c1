//! What a clock shows at a time.

ghost use Rattle.std.specs.Prelude.{◌≡◌, ◌≤◌, IfSome, true};
ghost use Rattle.plan_clock.specs.Rows.{is_bounded, is_near};
ghost use Rattle.plan_sets.specs.Limits.{end_second};
ghost use Rattle.agenda_table.specs.Times.{date_of, face, face_by_row};

use plan_clock::{Clock, Row};
use plan_sets::{END_SECOND, SECONDS_A_DAY};

/// What a clock shows at a time.
#[derive(Clone, Copy, Debug)]
pub(crate) struct Face {
    /// The second of UTC that has the shown date and time of day.
    pub(crate) shown: u64,
    /// The offset from UTC, in seconds. `None` for a time that stays in UTC, since the local time is outside the
    /// planner's years.
    pub(crate) offset: Option<i32>,
}

impl Face {
    /// Returns what a clock shows at a second. `passed` is a guess of how many changes of the clock are before it,
    /// and is set to that number.
    #[tactic(auto, unfolding(crate::specs::Times::face))]
    pub(crate) fn of(clock: &Clock, second: u64, passed: &mut usize) -> Face
        requires { second ≤ end_second }
        ensures value { result ≡ face clock.now second }
        ensures years { result.shown ≤ end_second }
        ensures near { IfSome result.offset (λ offset. is_near offset ≡ true) }
    {
        let row = clock
            .stretch_near(second.min(END_SECOND - 1), END_SECOND, passed)
            .row;
        Face::by_row(row, second)
    }

    // Returns what the clock of a row shows at a second.
    fn by_row(row: Row, second: u64) -> Face
        requires bounded { is_bounded row ≡ true }
        requires years { second ≤ end_second }
        ensures value { result ≡ face_by_row row second }
        ensures years { result.shown ≤ end_second }
        ensures near { IfSome result.offset (λ offset. is_near offset ≡ true) }
    {
        let shown = second as i64 + i64::from(row.offset);
        if shown < 0 || shown > END_SECOND as i64 {
            return Face {
                shown: second,
                offset: None,
            };
        }
        Face {
            shown: shown as u64,
            offset: Some(row.offset),
        }
    }

    /// Returns the number of the date that is shown, from 0 for 1970-01-01.
    pub(crate) fn date(self) -> u64
        ensures { result ≡ date_of self }
    {
        self.shown / SECONDS_A_DAY
    }
}
