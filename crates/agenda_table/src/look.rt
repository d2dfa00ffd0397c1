//! How the times of a table are shown.

ghost use Rattle.std.specs.Prelude.{◌≡◌, ◌≤◌, IfSome, true};
ghost use Rattle.plan_clock.specs.Rows.{is_near};
ghost use Rattle.plan_sets.specs.Limits.{end_second};
ghost use Rattle.agenda_table.specs.Rows.{distance_head, distance_if, has_date, later_text, start_text, text_of};
ghost use Rattle.agenda_table.specs.Times.{date_of, face};

use crate::face::Face;
use crate::short::{Short, from_now, word};
use crate::time::time_of;
use plan_clock::Clock;
use std::marker::Model;

/// How the times of a table are shown: by which clock, on which dates with their offset, and from which time they are
/// counted in the column `FROM NOW`, if the table has it.
#[derive(Drop)]
pub struct Look<'a> {
    clock: &'a Clock,
    dates: &'a [u64],
    origin: Option<u64>,
}

impl<'a> Model for Look<'a> {
    ghost use Rattle.agenda_table.specs.Rows.{LookParts, look_code};

    ghost Value = { LookParts };

    ghost coded = { look_code };

    ghost view = { λ look. record { clock = look.clock.now; dates = look.dates.now; origin = look.origin } };
}

impl<'a> Look<'a> {
    /// Makes the look of a table. The dates are those on which times have their offset, by their numbers, from 0 for
    /// 1970-01-01.
    pub fn new(clock: &'a Clock, dates: &'a [u64], origin: Option<u64>) -> Look<'a>
        ensures { result ≡ record { clock = clock.entry.now; dates = dates.entry.now; origin = origin } }
    {
        Look {
            clock,
            dates,
            origin,
        }
    }

    /// Returns how far away a time is, if the table counts from a time. It is empty if there is no time.
    pub(crate) fn distance(&self, at: Option<u64>) -> Option<Short>
        ensures { text_of result ≡ distance_if self.now.origin at }
    {
        let origin = self.origin?;
        match at {
            Some(second) => Some(from_now(origin, second)),
            None => Some(Short::new()),
        }
    }

    /// Returns the head of the column that says how far away times are, if the table has it.
    pub(crate) fn distance_head(&self) -> Option<Short>
        ensures { text_of result ≡ distance_head self.now.origin }
    {
        match self.origin {
            Some(_) => Some(word("FROM NOW")),
            None => None,
        }
    }

    // Returns whether times of a date have their offset.
    fn has_date(&self, date: u64) -> bool
        ensures { result ≡ has_date self.now.dates date }
    {
        self.dates.contains(&date)
    }

    // Returns what the clock shows at a second.
    fn face(&self, second: u64, passed: &mut usize) -> Face
        requires { second ≤ end_second }
        ensures value { result ≡ face self.now.clock second }
        ensures years { result.shown ≤ end_second }
        ensures near { IfSome result.offset (λ offset. is_near offset ≡ true) }
    {
        Face::of(self.clock, second, passed)
    }

    /// Returns the text of a time with its date. `passed` is a guess of how many changes of the clock are before it, and
    /// is set to that number.
    pub fn start_text(&self, second: u64, passed: &mut usize) -> Short
        requires { second ≤ end_second }
        ensures { result.bytes ≡ start_text self.now second }
    {
        let face = self.face(second, passed);
        time_of(face, true, self.has_date(face.date()))
    }

    /// Returns the text of a time that is in a row after another one: without its date if that is the date of the first.
    pub fn later_text(&self, first: u64, second: u64, passed: &mut usize) -> Short
        requires first { first ≤ end_second }
        requires second { second ≤ end_second }
        ensures { result.bytes ≡ later_text self.now first second }
    {
        let date = self.face(first, passed).date();
        let face = self.face(second, passed);
        let has_date = face.date() != date;
        time_of(face, has_date, self.has_date(face.date()))
    }
}
