//! Clocks, which are tables of changes.

ghost use Rattle.std.specs.Prelude.{◌≡◌, ℕ, ◌<◌, ◌≤◌, ◌↔◌, [], true, IsTrue, IfOk, length, min, nat_le, slice_index_or};
ghost use Rattle.plan_clock.specs.Rows.{no_change, row_at, row_after, is_bounded, AreChanges, HavePassed};

use crate::row::{Change, Row};
use std::alloc::{AllocError, Global};
use std::marker::Model;
use std::sync::Arc;

/// A clock, seen as the list of its changes.
///
/// The list of UTC is empty. Otherwise the first change is at second 0 and gives the offset at the start. A
/// clock is a handle: a copy shares the list.
#[derive(Debug, Drop)]
pub struct Clock {
    changes: Option<Arc<Vec<Change>>>,
}

impl Model for Clock {
    ghost use Rattle.std.specs.Prelude.{List};
    ghost use Rattle.std.specs.Coded.{coded_list};
    ghost use Rattle.plan_clock.specs.declared.row.Change.{Change};
    ghost use Rattle.plan_clock.specs.Rows.{change_code, AreChanges};
    ghost use Rattle.plan_clock.specs.Handle.{list_of};

    ghost Value = { List Change };

    ghost coded = { coded_list change_code };

    ghost view = { λ c. list_of c.changes };

    ghost invariant = { λ c. AreChanges (list_of c.changes) };
}

// Two clocks are equal if they have the same changes.
impl PartialEq for Clock {
    ghost use Rattle.plan_clock.specs.Equal.{same_changes, same_changes_laws};

    ghost eq = { same_changes };

    ghost laws = { same_changes_laws };

    fn eq(&self, other: &Clock) -> bool {
        self.changes() == other.changes()
    }
}

impl Eq for Clock {
    ghost use Rattle.plan_clock.specs.Equal.{same_changes_equivalence};

    ghost laws = { same_changes_equivalence };
}

/// A part of time in which a clock has the same row.
#[derive(Clone, Copy, Debug)]
pub struct Stretch {
    /// The row.
    pub row: Row,
    /// The end of the part: the first second after it.
    pub upto: u64,
}

impl Clock {
    /// Returns the clock of UTC. This allocates nothing.
    pub fn utc() -> Clock
        ensures { result ≡ [] }
    {
        Clock { changes: None }
    }

    /// Makes the clock with these changes.
    ///
    /// The first change must be at second 0. Each later one must be after the one before it and have another
    /// offset. No offset may be more than 26 hours from UTC (RFC 9636).
    ///
    /// # Errors
    ///
    /// Fails if the allocation of the handle fails.
    pub fn new(alloc: Global, changes: Vec<Change>) -> Result<Clock, AllocError>
        requires { AreChanges changes.items }
        ensures { IfOk result (λ clock. clock ≡ changes.items) }
    {
        let changes = Arc::new(alloc, changes)?;
        Ok(Clock {
            changes: Some(changes),
        })
    }

    /// Returns whether the clock has no changes, and so is that of UTC.
    pub fn is_utc(&self) -> bool
        ensures { IsTrue result ↔ (self.now ≡ []) }
    {
        match &self.changes {
            Some(changes) => changes.is_empty(),
            None => true,
        }
    }

    /// Returns the changes.
    pub fn changes(&self) -> &[Change]
        ensures value { result.now ≡ self.now }
        ensures good { AreChanges self.now }
    {
        match &self.changes {
            Some(changes) => changes,
            None => &[],
        }
    }

    /// Returns the same clock, which shares the list. This allocates nothing.
    ///
    /// # Errors
    ///
    /// Fails only if there are too many handles.
    pub fn try_clone(&self) -> Result<Clock, AllocError>
        ensures { IfOk result (λ clock. clock ≡ self.now) }
    {
        let changes = match &self.changes {
            Some(changes) => Some(Arc::try_clone(changes)?),
            None => None,
        };
        Ok(Clock { changes })
    }

    /// Returns the part of time from `second` on, up to `end`, in which the clock has the same row.
    pub fn stretch(&self, second: u64, end: u64) -> Stretch
        requires { second < end }
        ensures row { result.row ≡ row_at self.now second }
        ensures begun { result.row.second ≤ second }
        ensures from { second < result.upto }
        ensures to { result.upto ≤ end }
        ensures same { (n : ℕ) → second ≤ n → n < result.upto → row_at self.now n ≡ row_at self.now second }
        ensures whole { result.upto < end → (row_at self.now result.upto).second ≡ result.upto }
        ensures bounded { (n : ℕ) → is_bounded (row_at self.now n) ≡ true }
    {
        let mut guess = 0;
        self.stretch_near(second, end, &mut guess)
    }

    /// Does the same as `stretch`, with a guess that can save the search.
    ///
    /// `guess` is how many changes are probably at or before the second. The call sets it to the right
    /// number. If it already is right, nothing is searched.
    pub fn stretch_near(&self, second: u64, end: u64, guess: &mut usize) -> Stretch
        requires { second < end }
        ensures row { result.row ≡ row_at self.now second }
        ensures begun { result.row.second ≤ second }
        ensures from { second < result.upto }
        ensures to { result.upto ≤ end }
        ensures same { (n : ℕ) → second ≤ n → n < result.upto → row_at self.now n ≡ row_at self.now second }
        ensures whole { result.upto < end → (row_at self.now result.upto).second ≡ result.upto }
        ensures bounded { (n : ℕ) → is_bounded (row_at self.now n) ≡ true }
        ensures guess { HavePassed self.now second guess.new }
    {
        let changes = self.changes();
        let passed = passed_near(changes, second, *guess);
        *guess = passed;
        Stretch {
            row: row_after(changes, passed),
            upto: end_after(changes, passed, end),
        }
    }
}

// Returns how many changes are at or before a second. The guess is checked first.
fn passed_near(changes: &[Change], second: u64, guess: usize) -> usize
    requires { AreChanges changes.now }
    ensures { HavePassed changes.now second result }
{
    if have_passed(changes, second, guess) {
        return guess;
    }
    passed(changes, second)
}

// Returns whether exactly `count` changes are at or before a second, if `count` is at least 1. Returns
// `false` for 0.
#[inline(always)]
fn have_passed(changes: &[Change], second: u64, count: usize) -> bool
    requires { AreChanges changes.now }
    ensures { IsTrue result ↔ ((0 < count) × HavePassed changes.now second count) }
{
    if count == 0 || count > changes.len() || second < changes[count - 1].second {
        return false;
    }
    match changes.get(count) {
        Some(next) => second < next.second,
        None => true,
    }
}

// Returns how many changes are at or before a second.
fn passed(changes: &[Change], second: u64) -> usize
    requires { AreChanges changes.now }
    ensures { HavePassed changes.now second result }
{
    changes.partition_point(
        |change: &Change| -> bool
            ensures { result ≡ nat_le change.now.second second }
        { change.second <= second },
    )
}

// Returns the row after the first `passed` changes.
fn row_after(changes: &[Change], passed: usize) -> Row
    requires { passed ≤ length changes.now }
    ensures { result ≡ row_after changes.now passed }
{
    if passed == 0 {
        return Row::utc();
    }
    let last = changes[passed - 1];
    let before = changes[(passed - 1).saturating_sub(1)];
    Row {
        second: last.second,
        before: before.offset,
        offset: last.offset,
    }
}

// Returns the second of the next change, or `end` if that is earlier.
fn end_after(changes: &[Change], passed: usize, end: u64) -> u64
    ensures to { result ≤ end }
    ensures next { passed < length changes.now → result ≡ min (slice_index_or changes.now passed no_change).second end }
    ensures last { length changes.now ≤ passed → result ≡ end }
{
    match changes.get(passed) {
        Some(next) => next.second.min(end),
        None => end,
    }
}
