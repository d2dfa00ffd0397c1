//! Cron rules as values (crontab(5)).

ghost use Rattle.std.specs.Prelude.{◌≡◌, ◌↔◌, IfOk};

use plan_clock::{Clock, Row};
use plan_sets::{Civil, ValueSet};
use std::alloc::AllocError;

/// A cron rule: the values of its five fields, and which of its day fields are restricted (crontab(5)).
#[derive(Debug, Drop, PartialEq, Eq)]
pub struct CronRule {
    /// The minutes of an hour, 0 to 59.
    pub minutes: ValueSet,
    /// The hours of a day, 0 to 23.
    pub hours: ValueSet,
    /// The days of a month, 1 to 31.
    pub month_days: ValueSet,
    /// The months, 1 to 12.
    pub months: ValueSet,
    /// The days of a week, 0 to 6, from Sunday.
    pub week_days: ValueSet,
    /// Whether the day of month was written without a leading `*`.
    pub month_days_restricted: bool,
    /// Whether the day of week was written without a leading `*`.
    pub week_days_restricted: bool,
    /// Whether the minutes or the hours were written with a leading `*`. Such a rule always starts by what the
    /// clock shows, also around clock changes (cron(8)).
    pub is_wildcard: bool,
    /// The clock whose civil fields must match. A clock without changes is that of UTC.
    pub clock: Clock,
}

/// The size of a clock change, in seconds, up to which cron(8) handles it specially: three hours.
const SMALL_CHANGE: i32 = 10_800;

impl CronRule {
    ghost use Rattle.std.specs.Prelude.{IsTrue, true};
    ghost use Rattle.plan_sets.specs.Values.{has_value};
    ghost use Rattle.plan_clock.specs.Rows.{is_bounded};
    ghost use Rattle.plan_match.specs.Match.{cron_matches, day_matches, days_admit, HasTimeOfDay};
    ghost use Rattle.plan_match.specs.Heeds.{cron_heeds};
    ghost use Rattle.plan_match.specs.Zone.{cron_in};

    /// Returns the same rule in the zone of a clock (cron(8)).
    ///
    /// # Errors
    ///
    /// `AllocError`, but only if the clock has too many handles.
    pub fn in_zone(&self, clock: &Clock) -> Result<CronRule, AllocError>
        ensures { IfOk result (λ rule. rule ≡ cron_in clock.now self.now) }
    {
        Ok(CronRule {
            minutes: self.minutes.copy(),
            hours: self.hours.copy(),
            month_days: self.month_days.copy(),
            months: self.months.copy(),
            week_days: self.week_days.copy(),
            month_days_restricted: self.month_days_restricted,
            week_days_restricted: self.week_days_restricted,
            is_wildcard: self.is_wildcard,
            clock: clock.try_clone()?,
        })
    }

    /// Returns the minutes of an hour, 0 to 59.
    pub fn minutes(&self) -> &ValueSet
        ensures { result.now ≡ self.now.minutes }
    {
        &self.minutes
    }

    /// Returns the hours of a day, 0 to 23.
    pub fn hours(&self) -> &ValueSet
        ensures { result.now ≡ self.now.hours }
    {
        &self.hours
    }

    /// Returns the months, 1 to 12.
    pub fn months(&self) -> &ValueSet
        ensures { result.now ≡ self.now.months }
    {
        &self.months
    }

    /// Returns whether the rule handles the clock change at the start of this row specially (cron(8)).
    pub fn heeds(&self, row: Row) -> bool
        requires { is_bounded row ≡ true }
        ensures { result ≡ cron_heeds self.now row }
    {
        let size = row.size();
        !self.is_wildcard && (-SMALL_CHANGE <= size && size < 0 || 0 < size && size < SMALL_CHANGE)
    }

    /// Returns whether the rule matches the day of these civil fields. Only the date and the weekday are read.
    pub fn day_matches(&self, civil: &Civil) -> bool
        ensures value { result ≡ day_matches self.now civil.now }
        // The rule matches if and only if the day matches, hour and minute are among its values, and the second is 0.
        ensures rule { IsTrue (cron_matches self.now civil.now)
            ↔ (IsTrue result × HasTimeOfDay self.now civil.now) }
        ensures month { IsTrue result → IsTrue (has_value self.now.months civil.now.month) }
    {
        self.months.contains(u16::from(civil.month)) && self.days_admit(civil)
    }

    // Returns whether the day fields match the day. If both are restricted, one match is enough; else both must match.
    fn days_admit(&self, civil: &Civil) -> bool
        ensures { result ≡ days_admit self.now civil.now }
    {
        let month_day = self.month_days.contains(u16::from(civil.day));
        let week_day = self.week_days.contains((u16::from(civil.weekday) + 1) % 7);
        if self.month_days_restricted && self.week_days_restricted {
            month_day || week_day
        } else {
            month_day && week_day
        }
    }

    // Returns whether the rule matches the second that has these civil fields.
    pub(crate) fn matches(&self, civil: &Civil) -> bool
        ensures { result ≡ cron_matches self.now civil.now }
    {
        civil.second == 0
            && self.minutes.contains(u16::from(civil.minute))
            && self.hours.contains(u16::from(civil.hour))
            && self.day_matches(civil)
    }
}
