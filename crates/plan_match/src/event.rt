//! Calendar events as values (systemd.time(7)).

ghost use Rattle.std.specs.Prelude.{◌≡◌, if◌then◌else◌, Some, None};
ghost use Rattle.plan_match.specs.EventMatch.{is_day, place_from_end};

use plan_clock::Clock;
use plan_sets::{Civil, FIRST_YEAR, LAST_YEAR, ValueSet, month_length};
use std::alloc::AllocError;

/// The direction in which the days of an event are counted.
#[derive(Clone, Copy, Debug, PartialEq, Eq)]
pub enum DayCount {
    /// From the start of the month: 1 is the first day.
    FromStart,
    /// From the end of the month, after a `~`: 1 is the last day.
    FromEnd,
}

/// A calendar event: the values of its components (systemd.time(7)).
#[derive(Debug, Drop, PartialEq, Eq)]
pub struct Calendar {
    /// The years, `FIRST_YEAR` to `LAST_YEAR`.
    pub years: ValueSet,
    /// The months, 1 to 12.
    pub months: ValueSet,
    /// The days of a month, 1 to 31, counted as `day_count` says.
    pub days: ValueSet,
    /// Whether the days are counted from the start or from the end of the month.
    pub day_count: DayCount,
    /// The hours of a day, 0 to 23.
    pub hours: ValueSet,
    /// The minutes of an hour, 0 to 59.
    pub minutes: ValueSet,
    /// The seconds of a minute, 0 to 59.
    pub seconds: ValueSet,
    /// The weekdays, 0 to 6 from Monday, if there is a weekday part.
    pub weekdays: Option<ValueSet>,
    /// Whether the event was written with a time zone.
    pub names_zone: bool,
    /// The clock whose civil fields must match. A clock without changes is that of UTC.
    pub clock: Clock,
}

impl Calendar {
    ghost use Rattle.std.specs.Prelude.{◌≡◌, ◌↔◌, IsTrue, IfOk};
    ghost use Rattle.plan_sets.specs.Values.{has_value};
    ghost use Rattle.plan_match.specs.EventMatch.{month_day_matches, weekday_matches, event_day_matches, event_matches, HasEventTime};
    ghost use Rattle.plan_match.specs.Zone.{event_in};

    /// Returns the same event in the zone of a clock, or in its own zone if it names one (systemd.time(7)).
    ///
    /// # Errors
    ///
    /// `AllocError`, but only if the clock has too many handles.
    pub fn in_zone(&self, clock: &Clock) -> Result<Calendar, AllocError>
        ensures { IfOk result (λ event. event ≡ event_in clock.now self.now) }
    {
        let clock = if self.names_zone { &self.clock } else { clock };
        Ok(Calendar {
            years: self.years.copy(),
            months: self.months.copy(),
            days: self.days.copy(),
            day_count: self.day_count,
            hours: self.hours.copy(),
            minutes: self.minutes.copy(),
            seconds: self.seconds.copy(),
            weekdays: self.weekdays.as_ref().map(ValueSet::copy),
            names_zone: self.names_zone,
            clock: clock.try_clone()?,
        })
    }

    /// Returns the years, `FIRST_YEAR` to `LAST_YEAR`.
    pub fn years(&self) -> &ValueSet
        ensures { result.now ≡ self.now.years }
    {
        &self.years
    }

    /// Returns the months, 1 to 12.
    pub fn months(&self) -> &ValueSet
        ensures { result.now ≡ self.now.months }
    {
        &self.months
    }

    /// Returns the hours of a day, 0 to 23.
    pub fn hours(&self) -> &ValueSet
        ensures { result.now ≡ self.now.hours }
    {
        &self.hours
    }

    /// Returns the minutes of an hour, 0 to 59.
    pub fn minutes(&self) -> &ValueSet
        ensures { result.now ≡ self.now.minutes }
    {
        &self.minutes
    }

    /// Returns the seconds of a minute, 0 to 59.
    pub fn seconds(&self) -> &ValueSet
        ensures { result.now ≡ self.now.seconds }
    {
        &self.seconds
    }

    /// Returns whether the event matches the day of these civil fields. Only the date and the weekday are read.
    pub fn day_matches(&self, civil: &Civil) -> bool
        ensures value { result ≡ event_day_matches self.now civil.now }
        // The event matches if and only if the day matches, and hour, minute and second are among its values.
        ensures rule { IsTrue (event_matches self.now civil.now)
            ↔ (IsTrue result × HasEventTime self.now civil.now) }
        ensures month { IsTrue result → IsTrue (has_value self.now.months civil.now.month) }
        ensures year { IsTrue result → IsTrue (has_value self.now.years civil.now.year) }
    {
        self.years.contains(civil.year)
            && self.months.contains(u16::from(civil.month))
            && self.month_day_matches(civil)
            && self.weekday_matches(civil)
    }

    /// Returns whether the event matches the second that has these civil fields: its day, hour, minute and second.
    pub fn matches(&self, civil: &Civil) -> bool
        ensures value { result ≡ event_matches self.now civil.now }
    {
        self.day_matches(civil)
            && self.hours.contains(u16::from(civil.hour))
            && self.minutes.contains(u16::from(civil.minute))
            && self.seconds.contains(u16::from(civil.second))
    }

    // Returns whether the list of days contains the day.
    fn month_day_matches(&self, civil: &Civil) -> bool
        ensures { result ≡ month_day_matches self.now.day_count self.now.days civil.now }
    {
        match self.day_count {
            DayCount::FromStart => self.days.contains(u16::from(civil.day)),
            DayCount::FromEnd => match place_from_end(civil) {
                Some(place) => self.days.contains(place),
                None => false,
            },
        }
    }

    // Returns whether the weekday matches. It does if there is no weekday part.
    fn weekday_matches(&self, civil: &Civil) -> bool
        ensures { result ≡ weekday_matches self.now.weekdays civil.now }
    {
        match &self.weekdays {
            Some(weekdays) => weekdays.contains(u16::from(civil.weekday)),
            None => true,
        }
    }
}

// Returns the place of a day from the end of its month, where the last day is 1, or `None` if the calendar has
// no such day.
fn place_from_end(civil: &Civil) -> Option<u16>
    ensures { result ≡ (if is_day civil.now then Some (place_from_end civil.now) else None) }
{
    if civil.year < FIRST_YEAR || civil.year > LAST_YEAR || civil.month < 1 || civil.month > 12 {
        return None;
    }
    let length = month_length(civil.year, civil.month);
    if civil.day < 1 || civil.day > length {
        return None;
    }
    Some(u16::from(length - civil.day + 1))
}
