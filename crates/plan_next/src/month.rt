//! Months, and the dates of their days.

ghost use Rattle.std.specs.Prelude.{◌≡◌, ◌*◌, ◌%◌, ◌+◌, ◌<◌, ◌≤◌};
ghost use Rattle.plan_sets.specs.Limits.{first_year, seconds_a_day};
ghost use Rattle.plan_sets.specs.Civil.{civil_fields};
ghost use Rattle.plan_sets.specs.Months.{IsFirstDay};
ghost use Rattle.plan_next.specs.Search.{end_day, end_month};

use plan_sets::{Civil, SECONDS_A_DAY, month_length, second_of};

pub(crate) const MONTHS_A_YEAR: u16 = 12;

/// A month of the planner's years.
#[derive(Clone, Copy)]
pub(crate) struct Month {
    /// The number of the month. January of the year 0 is month 0.
    pub(crate) number: u16,
    /// The day number of its first day.
    pub(crate) first: u64,
    /// The day number of the day after its last day.
    pub(crate) end: u64,
}

impl Month {
    ghost use Rattle.plan_next.specs.Search.{IsMonth};

    /// Returns the month of a day. `civil` has the civil fields of the day.
    pub(crate) fn of_day(day: u64, civil: &Civil) -> Month
        requires years { day < end_day }
        requires fields { civil.now ≡ civil_fields (day * seconds_a_day) }
        ensures month { IsMonth result }
        ensures from { result.first ≤ day }
        ensures to { day < result.end }
    {
        let first = day + 1 - u64::from(civil.day);
        Month {
            number: civil.year * MONTHS_A_YEAR + (u16::from(civil.month) - 1),
            first,
            end: first + u64::from(month_length(civil.year, civil.month)),
        }
    }

    /// Returns a later month, given its number.
    pub(crate) fn later(self, number: u16) -> Month
        requires month { IsMonth self }
        requires from { self.number < number }
        requires to { number < end_month }
        ensures month { IsMonth result }
        ensures number { result.number ≡ number }
    {
        let first = if number == self.number + 1 {
            self.end
        } else {
            first_day(number)
        };
        let length = month_length(number / MONTHS_A_YEAR, (number % MONTHS_A_YEAR + 1) as u8);
        Month {
            number,
            first,
            end: first + u64::from(length),
        }
    }

    /// Returns the civil fields of a day of the month at midnight. `weekday` is the day's weekday, from 0 for Monday.
    pub(crate) fn date(self, day: u64, weekday: u8) -> Civil
        requires month { IsMonth self }
        requires from { self.first ≤ day }
        requires to { day < self.end }
        requires weekday { weekday ≡ (day + 3) % 7 }
        ensures { result ≡ civil_fields (day * seconds_a_day) }
    {
        Civil {
            year: self.number / MONTHS_A_YEAR,
            month: (self.number % MONTHS_A_YEAR + 1) as u8,
            day: (day - self.first) as u8 + 1,
            weekday,
            hour: 0,
            minute: 0,
            second: 0,
        }
    }
}

// Returns the day number of the first day of a month.
fn first_day(month: u16) -> u64
    requires from { first_year * 12 ≤ month }
    requires to { month < end_month }
    ensures { IsFirstDay month result }
{
    let year = month / MONTHS_A_YEAR;
    let place = (month % MONTHS_A_YEAR + 1) as u8;
    match second_of(year, place, 1, 0, 0, 0) {
        Some(second) => second / SECONDS_A_DAY,
        None => unreachable!(),
    }
}
