//! A week: the days of a span, with the starts of their hours.

ghost use Rattle.std.specs.Prelude.{◌≡◌, IfOk};
ghost use Rattle.plan_week.specs.Laws.{StartsAreInTheirHours, SumIsOfAllWithoutDelays, SumIsOfEntries};
ghost use Rattle.plan_week.specs.Week.{week_of};

use crate::day::Day;
use crate::table::days_of;
use plan_clock::Clock;
use plan_collect::Agenda;
use std::alloc::{AllocError, Global};
use std::marker::Model;

/// The days of a span, or of what a clock shows in it, with the number of starts in each hour. Contracts see it as the list
/// of the days.
#[derive(Drop)]
pub struct Week {
    days: Vec<Day>,
}

impl Model for Week {
    ghost use Rattle.std.specs.Prelude.{List, ◌<◌, ◌^◌};
    ghost use Rattle.plan_week.specs.Week.{AreInYears, week_sum};
    ghost use Rattle.plan_week.specs.declared.day.Day.{Day};

    ghost Value = { List Day };

    ghost view = { λ week. week.days.items };

    ghost invariant = { λ week. AreInYears week.days.items × (week_sum week.days.items < 2 ^ 64) };
}

impl Week {
    ghost use Rattle.std.specs.Prelude.{◌<◌, ◌^◌};
    ghost use Rattle.plan_week.specs.Week.{AreInYears, week_sum};

    /// Counts the starts of an agenda in each hour that a clock shows in its span. The days are those that the clock shows at
    /// some second of the span, in order. An hour that is repeated has the starts of both times, and one that is skipped isn't
    /// in the span. Entries outside the span are not counted. A time outside the planner's years stays in UTC.
    ///
    /// # Errors
    ///
    /// `AllocError` if an allocation fails.
    pub fn new(alloc: Global, agenda: &Agenda, clock: &Clock) -> Result<Week, AllocError>
        ensures { IfOk result (λ week. week ≡ week_of clock.now agenda.now) }
    {
        let days = days_of(alloc, agenda, clock)?;
        Ok(Week { days })
    }

    /// Returns the days, in order.
    pub fn days(&self) -> &[Day]
        ensures days { result.now ≡ self.now }
        ensures years { AreInYears self.now }
        ensures sum { week_sum self.now < 2 ^ 64 }
    {
        &self.days
    }
}

/// States the law of sums: the starts of all hours of a week are as many as the agenda has entries in its span. So none is lost,
/// and none is counted twice.
///
/// The function does nothing: its contract is the law.
pub fn sum_is_of_entries()
    ensures { SumIsOfEntries }
{}

/// States the law of sums without delays: then all entries of an agenda are in its span, and the starts of all hours are as many.
///
/// The function does nothing: its contract is the law.
pub fn sum_is_of_all_without_delays()
    ensures { SumIsOfAllWithoutDelays }
{}

/// States the law of hours: each start of a job in the span is counted on the day and in the hour that the clock shows at it.
///
/// The function does nothing: its contract is the law.
pub fn starts_are_in_their_hours()
    ensures { StartsAreInTheirHours }
{}
