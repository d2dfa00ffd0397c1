//! Finds the starts of a pattern by its clock. The search goes from one stretch of time to the next. In a
//! stretch the clock has one row, and what the clock shows is searched for a match.

ghost use Rattle.std.specs.Prelude.{◌≡◌, ℕ, ◌+◌, ◌<◌, ◌≤◌, true, None, []};
ghost use Rattle.plan_clock.specs.Rows.{is_bounded, row_at};
ghost use Rattle.plan_sets.specs.Limits.{end_second};
ghost use Rattle.plan_next.specs.Starts.{first_counted, starts_in, IsFirstIn};

use crate::search::Pattern;
use plan_clock::{Clock, MOST_OFFSET, Row, Stretch};
use plan_sets::END_SECOND;

/// A part of time that begins with a start. In it a pattern starts exactly when what its clock shows matches.
#[derive(Clone, Copy)]
pub(crate) struct Plain {
    /// What the clock shows at the first second of the part, as a second of UTC.
    pub(crate) shown: u64,
    /// The end of the part: the second after its last.
    pub(crate) upto: u64,
}

impl Pattern<'_> {
    ghost use Rattle.plan_next.specs.Search.{clock_of, heeds, matches_shown, starts_by, IsHope, IsPlainPart};

    /// Returns the first start at or after `since` and before `end`.
    #[inline(always)]
    pub(crate) fn first_start(self, since: u64, end: u64) -> Option<u64>
        requires part { since ≤ end }
        requires years { end ≤ end_second }
        ensures { IsFirstIn (starts_by self.entry) since end result }
    {
        if self.clock().is_utc() {
            return self.first_moment(since, end);
        }
        self.first_by_clock(since, end)
    }

    /// Returns the first start after `start`, which is a start itself, and before `end`.
    ///
    /// `guess` is a guess of how many changes of the clock are at or before `start`. It is `None` if the clock
    /// has no change.
    #[inline(always)]
    pub(crate) fn next_start(self, start: u64, end: u64, guess: Option<usize>) -> Option<u64>
        requires part { start < end }
        requires years { end ≤ end_second }
        requires start { starts_by self start ≡ true }
        requires utc { guess ≡ None → clock_of self ≡ [] }
        ensures { IsFirstIn (starts_by self.entry) (start + 1) end result }
    {
        match guess {
            None => self.next_moment(start, end),
            Some(passed) => self.next_by_clock(start, end, passed),
        }
    }

    // Does the same by the rows of the clock. The next start is usually the next match of what is shown, in the
    // same row.
    #[inline(never)]
    fn next_by_clock(self, start: u64, end: u64, guess: usize) -> Option<u64>
        requires part { start < end }
        requires years { end ≤ end_second }
        requires start { starts_by self start ≡ true }
        ensures { IsFirstIn (starts_by self.entry) (start + 1) end result }
    {
        let Some(part) = self.part_by_clock(start, end, guess) else {
            return self.first_by_clock(start + 1, end);
        };
        if let Some(next) = self.next_moment(part.shown, part.shown + (part.upto - start)) {
            return Some(start + (next - part.shown));
        }
        self.first_by_clock(part.upto, end)
    }

    /// Returns a part of time that begins with the start `start` and ends at or before `end`, in which the
    /// pattern starts exactly when what its clock shows matches.
    ///
    /// Returns `None` if a row of the clock begins at `start`: the start may make up for a gap. `guess` is as
    /// for `next_start`.
    #[inline(always)]
    pub(crate) fn plain_part(self, start: u64, end: u64, guess: Option<usize>) -> Option<Plain>
        requires part { start < end }
        requires years { end ≤ end_second }
        requires start { starts_by self start ≡ true }
        requires utc { guess ≡ None → clock_of self ≡ [] }
        ensures { IsPlainPart self.entry start end result }
    {
        match guess {
            None => Some(Plain {
                shown: start,
                upto: end,
            }),
            Some(passed) => self.part_by_clock(start, end, passed),
        }
    }

    // Does the same by the rows of the clock.
    #[inline(never)]
    fn part_by_clock(self, start: u64, end: u64, guess: usize) -> Option<Plain>
        requires part { start < end }
        requires years { end ≤ end_second }
        requires start { starts_by self start ≡ true }
        ensures { IsPlainPart self.entry start end result }
    {
        let mut passed = guess;
        let stretch = self.clock().stretch_near(start, end, &mut passed);
        if stretch.row.second == start {
            return None;
        }
        let shown = stretch.row.shown(start);
        let years = start + END_SECOND.saturating_sub(shown);
        Some(Plain {
            shown,
            upto: stretch.upto.min(years),
        })
    }

    // Returns the clock of the pattern.
    fn clock(&self) -> &Clock
        ensures { result.now ≡ clock_of self.now }
    {
        match self {
            Pattern::Cron(rule) => &rule.clock,
            Pattern::Event(event) => &event.clock,
        }
    }

    // Returns whether the pattern handles the change at the start of this row specially.
    fn heeds(self, row: Row) -> bool
        requires { is_bounded row ≡ true }
        ensures { result ≡ heeds self.entry row }
    {
        match self {
            Pattern::Cron(rule) => rule.heeds(row),
            Pattern::Event(_) => row.size() < 0,
        }
    }

    // Returns the first start at or after `since` and before `end`, by the rows of the clock.
    #[inline(never)]
    fn first_by_clock(self, since: u64, end: u64) -> Option<u64>
        requires years { end ≤ end_second }
        ensures { IsFirstIn (starts_by self.entry) since end result }
    {
        let mut from = since;
        while from < end {
            let stretch = self.clock().stretch(from, end);
            if let Some(start) = self.first_in_stretch(stretch, from) {
                return Some(start);
            }
            from = self.first_hope(stretch.upto, end);
        }
        None
    }

    // Returns the first start at or after `from` in a stretch of time. In a stretch the clock has one row.
    fn first_in_stretch(self, stretch: Stretch, from: u64) -> Option<u64>
        requires row { is_bounded stretch.row ≡ true }
        requires begun { stretch.row.second ≤ from }
        requires part { from < stretch.upto }
        requires years { stretch.upto ≤ end_second }
        ensures { IsFirstIn (starts_in stretch.row (heeds self.entry stretch.row) (matches_shown self.entry)) from stretch.upto result }
    {
        let row = stretch.row;
        let low = self.first_counted(row, from);
        let high = row.shown(stretch.upto).min(END_SECOND);
        if low >= high {
            return None;
        }
        let Some(shown) = self.first_moment(low, high) else {
            return None;
        };
        Some(row.unshown(shown).max(from))
    }

    // Returns the first second, as the clock shows it, that counts for a start at or after `from` in a row.
    fn first_counted(self, row: Row, from: u64) -> u64
        requires row { is_bounded row ≡ true }
        requires begun { row.second ≤ from }
        requires years { from ≤ end_second }
        ensures { result ≡ first_counted row (heeds self.entry row) from }
    {
        let shown = row.shown(from);
        if !self.heeds(row) {
            return shown;
        }
        if from == row.second {
            return row.due();
        }
        row.due().max(shown)
    }

    // Returns a second, at most `end`, before which the pattern has no start at or after `from`: nothing that the
    // clock can show until then matches.
    fn first_hope(self, from: u64, end: u64) -> u64
        requires part { from ≤ end }
        requires years { end ≤ end_second }
        requires bounded { (n : ℕ) → is_bounded (row_at (clock_of self) n) ≡ true }
        ensures { IsHope self.entry from end result }
    {
        let earliest = from.saturating_sub(MOST_OFFSET);
        let latest = END_SECOND.min(end + MOST_OFFSET);
        match self.first_moment(earliest, latest) {
            Some(shown) => from.max(end.min(shown.saturating_sub(MOST_OFFSET))),
            None => end,
        }
    }
}
