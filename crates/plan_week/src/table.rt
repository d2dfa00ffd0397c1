//! The table in which the starts of the hours are counted.

ghost use Rattle.std.specs.Prelude.{◌≡◌, ◌+◌, ◌-◌, ◌/◌, ◌<◌, ◌≤◌, ◌^◌, ℕ, IfOk, None, length, true, vec_len};
ghost use Rattle.plan_clock.specs.Rows.{is_bounded, row_at};
ghost use Rattle.plan_sets.specs.Limits.{end_second};
ghost use Rattle.plan_week.specs.Table.{days_after, days_by, days_with, first_day, found_at, shown_in, table_by};
ghost use Rattle.plan_week.specs.Week.{AreInYears, count_of, starts_in, week_of, week_sum};

use crate::day::Day;
use crate::hours::Part;
use plan_clock::Clock;
use plan_collect::Agenda;
use plan_sets::SECONDS_A_DAY;
use std::alloc::{AllocError, Global};

/// The number of days in the planner's years.
const DAY_COUNT: u64 = 376_200;

/// The number of hours in a day.
const HOURS_A_DAY: u64 = 24;

/// The days that a clock may show in a span, while the starts of their hours are counted.
#[derive(Drop)]
struct Table {
    /// The number of the first day.
    first: u64,
    /// The days, in order.
    days: Vec<Day>,
}

impl Table {
    // Makes the table for the span of an agenda. None of its hours is in the span yet.
    fn new(alloc: Global, agenda: &Agenda) -> Result<Table, AllocError>
        ensures first { IfOk result (λ table. table.first ≡ first_day agenda.now.span) }
        ensures days { IfOk result (λ table. table.days.items ≡ table_by (λ _. None) agenda.now.span) }
    {
        let first = (agenda.since() / SECONDS_A_DAY).saturating_sub(2);
        let end = (agenda.upto() / SECONDS_A_DAY + 3).min(DAY_COUNT);
        let days = days_between(alloc, first, end)?;
        Ok(Table { first, days })
    }

    // Adds starts to an hour, which counts from the first hour of 1970-01-01. It is then in the span.
    fn add(&mut self, hour: u64, starts: u64)
        requires from { self.old.first ≤ hour / 24 }
        requires to { hour / 24 < self.old.first + vec_len self.old.days }
        requires room { count_of (found_at self.old.first hour self.old.days.items) + starts < 2 ^ 64 }
        ensures first { self.new.first ≡ self.old.first }
        ensures days { self.new.days.items ≡ days_with self.old.first hour starts self.old.days.items }
    {
        let day = &mut self.days[(hour / HOURS_A_DAY - self.first) as usize];
        day.add((hour % HOURS_A_DAY) as usize, starts);
    }

    // Adds no starts to each hour that a clock shows in the span of an agenda. So these are the hours in the span.
    fn add_hours(&mut self, clock: &Clock, agenda: &Agenda)
        requires first { self.old.first ≡ first_day agenda.now.span }
        requires days { self.old.days.items ≡ table_by (λ _. None) agenda.now.span }
        ensures first { self.new.first ≡ first_day agenda.now.span }
        ensures days { self.new.days.items ≡ table_by (shown_in clock.now agenda.now.span) agenda.now.span }
        ensures bounded { (n : ℕ) → agenda.now.span.since ≤ n → n < agenda.now.span.upto → is_bounded (row_at clock.now n) ≡ true }
        ensures ordered { agenda.now.span.since ≤ agenda.now.span.upto }
        ensures years { agenda.now.span.upto ≤ end_second }
    {
        let (mut second, upto) = (agenda.since(), agenda.upto());
        let mut passed = 0;
        while second < upto {
            let part = Part::at(clock, second, upto, &mut passed);
            self.add(part.hour, 0);
            second = part.upto;
        }
    }

    // Adds a start to the hour that a clock shows at each entry of an agenda in its span. Entries that follow each other in one
    // part of time are added at once.
    fn add_entries(&mut self, clock: &Clock, agenda: &Agenda)
        requires first { self.old.first ≡ first_day agenda.now.span }
        requires days { self.old.days.items ≡ table_by (shown_in clock.now agenda.now.span) agenda.now.span }
        ensures days { self.new.days.items ≡ table_by (starts_in clock.now agenda.now) agenda.now.span }
        ensures few { length agenda.now.entries < 2 ^ 64 }
    {
        let (since, upto) = (agenda.since(), agenda.upto());
        let entries = agenda.entries();
        let mut passed = 0;
        let mut part = Part::none();
        let mut starts = 0;
        for entry in entries {
            let second = entry.second();
            if part.from <= second && second < part.upto {
                starts += 1;
            } else if since <= second && second < upto {
                self.add_starts(part.hour, starts);
                part = Part::at(clock, second, upto, &mut passed);
                starts = 1;
            }
        }
        self.add_starts(part.hour, starts);
    }

    // Adds starts to an hour, if there are any.
    fn add_starts(&mut self, hour: u64, starts: u64)
        requires from { 0 < starts → self.old.first ≤ hour / 24 }
        requires to { 0 < starts → hour / 24 < self.old.first + vec_len self.old.days }
        requires room { 0 < starts → count_of (found_at self.old.first hour self.old.days.items) + starts < 2 ^ 64 }
        ensures first { self.new.first ≡ self.old.first }
        ensures days { self.new.days.items ≡ days_after self.old.first hour starts self.old.days.items }
    {
        if starts > 0 {
            self.add(hour, starts);
        }
    }
}

/// Returns the days that a clock shows in the span of an agenda, in order, with the starts of their hours.
///
/// # Errors
///
/// `AllocError` if an allocation fails.
pub(crate) fn days_of(alloc: Global, agenda: &Agenda, clock: &Clock) -> Result<Vec<Day>, AllocError>
    ensures days { IfOk result (λ days. days.items ≡ week_of clock.now agenda.now) }
    ensures years { IfOk result (λ days. AreInYears days.items) }
    ensures sum { IfOk result (λ days. week_sum days.items < 2 ^ 64) }
{
    let mut table = Table::new(alloc, agenda)?;
    table.add_hours(clock, agenda);
    table.add_entries(clock, agenda);
    let Table { first: _, mut days } = table;
    days.retain(|day| day.is_met());
    Ok(days)
}

// Returns the days from the one with a number until before another one. None of their hours is in the span.
#[tactic(auto, unfolding(crate::specs::Table::days_by))]
fn days_between(alloc: Global, first: u64, end: u64) -> Result<Vec<Day>, AllocError>
    ensures { IfOk result (λ days. days.items ≡ days_by (λ _. None) first (end - first)) }
{
    (first..end).map(Day::new).collect(alloc)
}
