//! Searches for the first second that a pattern matches: the first year, month, day, hour, minute and second in
//! turn. If a field has no value left, the search goes back to the field before it.
//!
//! Each unit has up to three functions, which use those of the smaller units. `first_UNIT` finds the first
//! match at or after a number. `next_UNIT` finds the first match after another match, so it needn't check the
//! larger fields. `first_of_later_UNITS` continues if a unit has no value left. In these names a moment is a
//! day and a time, and a time is an hour, a minute and a second.

ghost use Rattle.std.specs.Prelude.{◌≡◌, ◌+◌, ◌*◌, ◌/◌, ◌<◌, ◌≤◌, false, true, min};
ghost use Rattle.plan_sets.specs.Limits.{end_second, last_year, seconds_a_day};
ghost use Rattle.plan_sets.specs.Civil.{civil_fields};
ghost use Rattle.plan_sets.specs.Values.{has_value};
ghost use Rattle.plan_next.specs.Starts.{IsFirstIn};
ghost use Rattle.plan_next.specs.Next.{IsFirstOrEnd};
ghost use Rattle.plan_next.specs.Search.{cron_admits_day, end_day, has_month_day, has_week_day, IsMonth};

use crate::month::{MONTHS_A_YEAR, Month};
use plan_match::{Calendar, CronRule, DayCount};
use plan_sets::{Civil, LAST_YEAR, SECONDS_A_DAY, ValueSet, civil_of};

pub(crate) const HOURS_A_DAY: u16 = 24;

pub(crate) const MINUTES_AN_HOUR: u16 = 60;

pub(crate) const SECONDS_A_MINUTE: u16 = 60;

const SECONDS_AN_HOUR: u32 = 3_600;

/// What a rule matches, field by field: the date as a whole, and each field of the time of day by itself.
#[derive(Clone, Copy)]
pub(crate) enum Pattern<'a> {
    /// The fields of a cron rule.
    Cron(&'a CronRule),
    /// The components of a calendar event.
    Event(&'a Calendar),
}

impl Pattern<'_> {
    ghost use Rattle.plan_next.specs.Search.{admits_year, admits_month, admits_date, admits_hour, admits_minute, admits_second, admits_month_number, admits_day, admits_in_hour, admits_time, admits_moment, end_day, end_month, takes_either, IsFirstOpen, IsMonth};

    /// Returns the first matching second at or after `from` and before `end`.
    pub(crate) fn first_moment(self, from: u64, end: u64) -> Option<u64>
        requires part { from ≤ end }
        requires years { end ≤ end_second }
        ensures { IsFirstIn (admits_moment self.entry) from end result }
    {
        if from == end {
            return None;
        }
        self.first_before_day(from, end.div_ceil(SECONDS_A_DAY))
            .filter(|moment| *moment < end)
    }

    /// Returns the first matching second after `moment`, which matches, and before `end`.
    #[inline(always)]
    pub(crate) fn next_moment(self, moment: u64, end: u64) -> Option<u64>
        requires part { moment < end }
        requires years { end ≤ end_second }
        requires admitted { admits_moment self moment ≡ true }
        ensures { IsFirstIn (admits_moment self.entry) (moment + 1) end result }
    {
        self.next_before_day(moment, end.div_ceil(SECONDS_A_DAY))
            .filter(|moment| *moment < end)
    }

    // Returns the first matching second at or after `from`, before the day `end`.
    fn first_before_day(self, from: u64, end: u64) -> Option<u64>
        requires part { from < end * seconds_a_day }
        requires years { end ≤ end_day }
        ensures { IsFirstIn (admits_moment self.entry) from (end * seconds_a_day) result }
    {
        let today = from / SECONDS_A_DAY;
        let civil = civil_of(today * SECONDS_A_DAY);
        if self.admits_date(&civil)
            && let Some(time) = self.first_time((from % SECONDS_A_DAY) as u32)
        {
            return Some(today * SECONDS_A_DAY + u64::from(time));
        }
        self.first_of_later_days(today, &civil, end)
    }

    // Returns the first matching second after `moment`, which matches, before the day `end`. It is usually in
    // the same hour.
    #[inline(always)]
    fn next_before_day(self, moment: u64, end: u64) -> Option<u64>
        requires part { moment < end * seconds_a_day }
        requires years { end ≤ end_day }
        requires admitted { admits_moment self moment ≡ true }
        ensures { IsFirstIn (admits_moment self.entry) (moment + 1) (end * seconds_a_day) result }
    {
        let second = (moment % u64::from(SECONDS_AN_HOUR)) as u16;
        if let Some(next) = self.next_in_hour(second) {
            return Some(moment - u64::from(second) + u64::from(next));
        }
        self.first_after_hour(moment, end)
    }

    // Returns the first matching second after the hour of `moment`, which matches, before the day `end`.
    #[inline(never)]
    fn first_after_hour(self, moment: u64, end: u64) -> Option<u64>
        requires part { moment < end * seconds_a_day }
        requires years { end ≤ end_day }
        requires admitted { admits_moment self moment ≡ true }
        ensures { IsFirstIn (admits_moment self.entry)
            ((moment / SECONDS_AN_HOUR + 1) * SECONDS_AN_HOUR)
            (end * seconds_a_day)
            result }
    {
        let today = moment / SECONDS_A_DAY;
        let hour = (moment % SECONDS_A_DAY) as u32 / SECONDS_AN_HOUR;
        if let Some(time) = self.first_of_later_hours(hour as u16) {
            return Some(today * SECONDS_A_DAY + u64::from(time));
        }
        self.first_of_later_days(today, &civil_of(today * SECONDS_A_DAY), end)
    }

    // Returns the first matching second after a day, before the day `end`. `civil` has the civil fields of the day.
    fn first_of_later_days(self, day: u64, civil: &Civil, end: u64) -> Option<u64>
        requires part { day < end }
        requires years { end ≤ end_day }
        requires fields { civil.now ≡ civil_fields (day * seconds_a_day) }
        ensures { IsFirstIn (admits_moment self.entry)
            ((day + 1) * seconds_a_day)
            (end * seconds_a_day)
            result }
    {
        let time = self.first_time(0)?;
        let day = self.first_later_day(day, civil, end)?;
        Some(day * SECONDS_A_DAY + u64::from(time))
    }

    // Returns the first matching day after a day and before `end`, by day numbers. `civil` has the civil fields
    // of the day.
    fn first_later_day(self, day: u64, civil: &Civil, end: u64) -> Option<u64>
        requires part { day < end }
        requires years { end ≤ end_day }
        requires fields { civil.now ≡ civil_fields (day * seconds_a_day) }
        ensures { IsFirstIn (admits_day self.entry) (day + 1) end result }
    {
        let mut month = Month::of_day(day, civil);
        let mut from = day + 1;
        loop {
            if let Some(found) = self.first_day_in(month, from, end) {
                return Some(found);
            }
            if month.end >= end {
                return None;
            }
            let next = self.first_month(month.number + 1)?;
            month = month.later(next);
            from = month.first;
        }
    }

    // Returns the first matching day of a month at or after `from` and before `end`, by day numbers.
    fn first_day_in(self, month: Month, from: u64, end: u64) -> Option<u64>
        requires month { IsMonth month }
        requires from { month.first ≤ from }
        requires to { from ≤ month.end }
        ensures { IsFirstIn (admits_day self.entry) from (min end month.end) result }
    {
        if !self.takes_either() {
            return self.first_open_day(month, from, end);
        }
        match self {
            Pattern::Cron(rule) => first_of_either(rule, month, from, end),
            Pattern::Event(_) => unreachable!(),
        }
    }

    // Returns whether one of two day fields is enough to match a day: those of a cron rule that are both restricted.
    fn takes_either(self) -> bool
        ensures { result ≡ takes_either self.entry }
    {
        match self {
            Pattern::Cron(rule) => rule.month_days_restricted && rule.week_days_restricted,
            Pattern::Event(_) => false,
        }
    }

    // Does the same if one day field isn't enough: tries each place in the month where a day may match.
    fn first_open_day(self, month: Month, from: u64, end: u64) -> Option<u64>
        requires fields { takes_either self ≡ false }
        requires month { IsMonth month }
        requires from { month.first ≤ from }
        requires to { from ≤ month.end }
        ensures { IsFirstIn (admits_day self.entry) from (min end month.end) result }
    {
        let until = end.min(month.end);
        let mut day = from;
        while day < until {
            let place = self.first_open_place((day - month.first) as u16 + 1)?;
            let passed = u64::from(place - 1);
            if passed >= until - month.first {
                return None;
            }
            day = month.first + passed;
            if self.admits_date(&month.date(day, ((day + 3) % 7) as u8)) {
                return Some(day);
            }
            day += 1;
        }
        None
    }

    // Returns the first place in a month, at or after `from`, where a day may match: between `from` and it no day
    // of any month matches. Returns `None` if no day at or after `from` matches.
    fn first_open_place(self, from: u16) -> Option<u16>
        requires fields { takes_either self ≡ false }
        ensures { IsFirstOpen self.entry from result }
    {
        match self {
            Pattern::Cron(rule) => rule.month_days.first_from(from),
            Pattern::Event(event) => match event.day_count {
                DayCount::FromStart => event.days.first_from(from),
                DayCount::FromEnd => Some(from),
            },
        }
    }

    // Returns the first month at or after `from` whose year and month match.
    fn first_month(self, from: u16) -> Option<u16>
        requires { from ≤ end_month }
        ensures { IsFirstIn (admits_month_number self.entry) from end_month result }
    {
        let here = from / MONTHS_A_YEAR;
        let year = self.first_year(here)?;
        let start = if year == here {
            from % MONTHS_A_YEAR + 1
        } else {
            1
        };
        if let Some(month) = self.first_month_of_year(start) {
            return Some(year * MONTHS_A_YEAR + (month - 1));
        }
        let year = self.first_year(year + 1)?;
        let month = self.first_month_of_year(1)?;
        Some(year * MONTHS_A_YEAR + (month - 1))
    }

    // Returns the first matching time of day at or after `from`, in seconds.
    #[inline(always)]
    fn first_time(self, from: u32) -> Option<u32>
        requires { from < seconds_a_day }
        ensures { IsFirstIn (admits_time self.entry) from seconds_a_day result }
    {
        let hour = (from / SECONDS_AN_HOUR) as u16;
        if self.has_hour(hour)
            && let Some(rest) = self.first_in_hour((from % SECONDS_AN_HOUR) as u16)
        {
            return Some(u32::from(hour) * SECONDS_AN_HOUR + u32::from(rest));
        }
        self.first_of_later_hours(hour)
    }

    // Returns the first matching time of day after an hour, in seconds.
    #[inline(never)]
    fn first_of_later_hours(self, hour: u16) -> Option<u32>
        requires { hour < HOURS_A_DAY }
        ensures { IsFirstIn (admits_time self.entry) ((hour + 1) * SECONDS_AN_HOUR) seconds_a_day result }
    {
        let hour = self.first_hour(hour + 1)?;
        let rest = self.first_in_hour(0)?;
        Some(u32::from(hour) * SECONDS_AN_HOUR + u32::from(rest))
    }

    // Returns the first matching second of an hour at or after `from`.
    #[inline(always)]
    fn first_in_hour(self, from: u16) -> Option<u16>
        requires { from < SECONDS_AN_HOUR }
        ensures { IsFirstIn (admits_in_hour self.entry) from SECONDS_AN_HOUR result }
    {
        let minute = from / SECONDS_A_MINUTE;
        if let Some(second) = self.first_second(from % SECONDS_A_MINUTE)
            && self.has_minute(minute)
        {
            return Some(minute * SECONDS_A_MINUTE + second);
        }
        self.first_of_later_minutes(minute)
    }

    // Returns the first matching second of an hour after `second`, which matches.
    #[inline(always)]
    fn next_in_hour(self, second: u16) -> Option<u16>
        requires hour { second < SECONDS_AN_HOUR }
        requires admitted { admits_in_hour self second ≡ true }
        ensures { IsFirstIn (admits_in_hour self.entry) (second + 1) SECONDS_AN_HOUR result }
    {
        let minute = second / SECONDS_A_MINUTE;
        if let Some(second) = self.first_second(second % SECONDS_A_MINUTE + 1) {
            return Some(minute * SECONDS_A_MINUTE + second);
        }
        self.first_of_later_minutes(minute)
    }

    // Returns the first matching second of an hour after a minute.
    #[inline(always)]
    fn first_of_later_minutes(self, minute: u16) -> Option<u16>
        requires { minute < MINUTES_AN_HOUR }
        ensures { IsFirstIn (admits_in_hour self.entry)
            ((minute + 1) * SECONDS_A_MINUTE)
            SECONDS_AN_HOUR
            result }
    {
        let minute = self.first_minute(minute + 1)?;
        let second = self.first_second(0)?;
        Some(minute * SECONDS_A_MINUTE + second)
    }

    // Returns the first matching year at or after `from`.
    fn first_year(self, from: u16) -> Option<u16>
        ensures { IsFirstIn (admits_year self.entry) from (last_year + 1) result }
    {
        match self {
            Pattern::Cron(_) => (from <= LAST_YEAR).then_some(from),
            Pattern::Event(event) => first_in(event.years(), from, LAST_YEAR + 1),
        }
    }

    // Returns the first matching month of a year at or after `from`.
    fn first_month_of_year(self, from: u16) -> Option<u16>
        ensures { IsFirstIn (admits_month self.entry) from (MONTHS_A_YEAR + 1) result }
    {
        match self {
            Pattern::Cron(rule) => first_in(rule.months(), from, MONTHS_A_YEAR + 1),
            Pattern::Event(event) => first_in(event.months(), from, MONTHS_A_YEAR + 1),
        }
    }

    // Returns whether the date of civil fields matches.
    #[inline(always)]
    fn admits_date(self, civil: &Civil) -> bool
        ensures { result ≡ admits_date self.entry civil.now }
    {
        match self {
            Pattern::Cron(rule) => rule.day_matches(civil),
            Pattern::Event(event) => event.day_matches(civil),
        }
    }

    // Returns whether the hour matches.
    fn has_hour(self, hour: u16) -> bool
        ensures { result ≡ admits_hour self.entry hour }
    {
        match self {
            Pattern::Cron(rule) => rule.hours().contains(hour),
            Pattern::Event(event) => event.hours().contains(hour),
        }
    }

    // Returns the first matching hour at or after `from`.
    fn first_hour(self, from: u16) -> Option<u16>
        ensures { IsFirstIn (admits_hour self.entry) from HOURS_A_DAY result }
    {
        match self {
            Pattern::Cron(rule) => first_in(rule.hours(), from, HOURS_A_DAY),
            Pattern::Event(event) => first_in(event.hours(), from, HOURS_A_DAY),
        }
    }

    // Returns whether the minute matches.
    fn has_minute(self, minute: u16) -> bool
        ensures { result ≡ admits_minute self.entry minute }
    {
        match self {
            Pattern::Cron(rule) => rule.minutes().contains(minute),
            Pattern::Event(event) => event.minutes().contains(minute),
        }
    }

    // Returns the first matching minute at or after `from`.
    #[inline(always)]
    fn first_minute(self, from: u16) -> Option<u16>
        ensures { IsFirstIn (admits_minute self.entry) from MINUTES_AN_HOUR result }
    {
        match self {
            Pattern::Cron(rule) => first_in(rule.minutes(), from, MINUTES_AN_HOUR),
            Pattern::Event(event) => first_in(event.minutes(), from, MINUTES_AN_HOUR),
        }
    }

    // Returns the first matching second of a minute at or after `from`.
    fn first_second(self, from: u16) -> Option<u16>
        ensures { IsFirstIn (admits_second self.entry) from SECONDS_A_MINUTE result }
    {
        match self {
            Pattern::Cron(_) => (from == 0).then_some(0),
            Pattern::Event(event) => first_in(event.seconds(), from, SECONDS_A_MINUTE),
        }
    }
}

// Returns the first member of a set at or after `from` and before `end`.
fn first_in(set: &ValueSet, from: u16, end: u16) -> Option<u16>
    ensures { IsFirstIn (has_value set.now) from end result }
{
    set.first_from(from).filter(|value| *value < end)
}

// Returns the first day of a month at or after `from` and before `end`, by day numbers, that a cron rule with
// two restricted day fields matches: by its day of the month or by its day of the week.
fn first_of_either(rule: &CronRule, month: Month, from: u64, end: u64) -> Option<u64>
    requires month { IsMonth month }
    requires from { month.first ≤ from }
    requires to { from ≤ month.end }
    requires month_days { rule.now.month_days_restricted ≡ true }
    requires week_days { rule.now.week_days_restricted ≡ true }
    ensures { IsFirstIn (cron_admits_day rule.now) from (min end month.end) result }
{
    let until = end.min(month.end);
    if from >= until {
        return None;
    }
    if !rule.months().contains(month.number % MONTHS_A_YEAR + 1) {
        return None;
    }
    let by_month = first_by_month(&rule.month_days, month.first, from, until);
    let day = first_by_week(&rule.week_days, from, by_month);
    (day < until).then_some(day)
}

// Returns the first day at or after `from` whose place in its month is in a set, or `until` if there is none
// before that. The month begins with the day `first`.
fn first_by_month(places: &ValueSet, first: u64, from: u64, until: u64) -> u64
    requires from { first ≤ from }
    requires to { from ≤ until }
    requires month { until ≤ first + 31 }
    requires years { until ≤ end_day }
    ensures { IsFirstOrEnd (has_month_day places.now first) from until result }
{
    match places.first_from((from - first) as u16 + 1) {
        Some(place) => until.min(first + u64::from(place) - 1),
        None => until,
    }
}

// Returns the first day at or after `from` whose place in the week, from 0 for Sunday, is in a set, or `until`
// if there is none before that.
fn first_by_week(places: &ValueSet, from: u64, until: u64) -> u64
    requires to { from ≤ until }
    requires years { until ≤ end_day }
    ensures { IsFirstOrEnd (has_week_day places.now) from until result }
{
    let here = ((from + 4) % 7) as u16;
    if let Some(place) = first_in(places, here, 7) {
        return until.min(from + u64::from(place - here));
    }
    match first_in(places, 0, here) {
        Some(place) => until.min(from + u64::from(7 - here + place)),
        None => until,
    }
}
