//! The changes of a clock, and the rows between them.

ghost use Rattle.std.specs.Prelude.{◌≡◌, ◌<◌, ◌^◌, true, pos, neg_ℤ, ◌+ℤ◌, ◌≤ℤ◌};
ghost use Rattle.plan_clock.specs.Rows.{natural};

/// A change of a clock's offset. The first change of a clock gives its offset from second 0 on.
#[derive(Clone, Copy, Debug, PartialEq, Eq)]
pub struct Change {
    /// The second from which the new offset applies.
    pub second: u64,
    /// The offset from UTC from that second on, in seconds, positive in the east.
    pub offset: i32,
}

/// What a clock shows from one change to the next.
#[derive(Clone, Copy, Debug, PartialEq, Eq)]
pub struct Row {
    /// The second at which the row starts.
    pub second: u64,
    /// The offset from UTC before that second, in seconds. In the first row of a clock it is the same as `offset`.
    pub before: i32,
    /// The offset from UTC from that second on, in seconds.
    pub offset: i32,
}

/// The maximum distance of a clock from UTC, in seconds: 26 hours (RFC 9636, utoff).
pub const MOST_OFFSET: u64 = 93_600;

impl Row {
    ghost use Rattle.plan_clock.specs.Rows.{utc, shown, due, unshown, size, is_bounded};

    /// Returns the row of UTC.
    pub fn utc() -> Row
        ensures { result ≡ utc }
    {
        Row {
            second: 0,
            before: 0,
            offset: 0,
        }
    }

    /// Returns the size of the change at the start of the row, in seconds: positive for a gap, negative for a fold.
    pub fn size(self) -> i32
        requires { is_bounded self ≡ true }
        ensures { result ≡ size self }
    {
        self.offset - self.before
    }

    /// Returns what the clock shows at a second, as a second of UTC. Returns 0 if that is before 1970.
    pub fn shown(self, second: u64) -> u64
        requires { second < 2 ^ 62 }
        ensures { result ≡ natural (shown self second) }
    {
        moved(second, i64::from(self.offset))
    }

    /// Returns what the clock would show at the row's second without the change. Returns 0 if that is before 1970.
    pub fn due(self) -> u64
        requires { self.second < 2 ^ 62 }
        ensures { result ≡ natural (due self) }
    {
        moved(self.second, i64::from(self.before))
    }

    /// Returns the second at which the clock shows this time. Returns 0 if that is before 1970.
    pub fn unshown(self, shown: u64) -> u64
        requires { shown < 2 ^ 62 }
        ensures { result ≡ natural (unshown self shown) }
    {
        moved(shown, -i64::from(self.offset))
    }
}

// Moves a second by some seconds. Returns 0 if the result is before 1970.
fn moved(second: u64, by: i64) -> u64
    requires second { second < 2 ^ 62 }
    requires from { neg_ℤ (pos (2 ^ 32)) ≤ℤ by }
    requires to { by ≤ℤ pos (2 ^ 32) }
    ensures { result ≡ natural (pos second +ℤ by) }
{
    let moved = second as i64 + by;
    if moved < 0 { 0 } else { moved as u64 }
}
