//! A description of a rule: a tree that says what the rule means in the order of its sentence.
//!
//! Each variant's documentation shows how it is said. Lists are in the order of the sentence, and not empty.

use crate::names::{Month, TimeUnit, Weekday};
use plan_texts::Text;

/// The numbers from one to another, both included. A single number has equal ends.
#[derive(Clone, Copy)]
pub struct Span {
    pub first: u16,
    pub last: u16,
}

/// A time of day.
#[derive(Clone, Copy)]
pub struct TimeOfDay {
    /// From 0 to 23.
    pub hour: u8,
    /// From 0 to 59.
    pub minute: u8,
    /// From 0 to 59.
    pub second: u8,
}

/// The times of day from one to another, both included.
#[derive(Clone, Copy)]
pub struct Window {
    pub first: TimeOfDay,
    pub last: TimeOfDay,
}

/// Numbers of a field: seconds, minutes, days of the month, places from the month's end, or years.
#[derive(Drop)]
pub enum Values {
    /// Every `step` numbers from `first` to `last`.
    Steps { first: u16, last: u16, step: u16 },
    /// `1 to 3, 5 and 8`.
    Items(Vec<Span>),
}

/// The values of the smallest unit that varies: seconds or minutes.
#[derive(Drop)]
pub enum Lead {
    /// All multiples of a number: `every 15 minutes`.
    Cycle(u16),
    /// `every 7 minutes from minute 0 to 56`, or `at minutes 0, 25 and 50`.
    Among(Values),
}

/// The hours of the day.
#[derive(Drop)]
pub enum Hours {
    /// `of every hour`.
    All,
    /// `of every 2nd hour from 00:00 to 22:59`. With a step of 1: `of every hour from 09:00 to 17:59`.
    Steps { first: u8, last: u8, step: u16 },
    /// `of hours 0, 4 and 8`.
    List(Vec<u16>),
}

/// The times of the day.
#[derive(Drop)]
pub enum Time {
    /// `at 09:00 and 17:00`.
    Listed(Vec<TimeOfDay>),
    /// All multiples of `count` units from midnight: `every 15 minutes`.
    WholeDay {
        count: u16,
        unit: TimeUnit,
    },
    /// Every `count` units from the start of each window: `every 5 minutes from 09:00 to 17:55`.
    Windows {
        count: u16,
        unit: TimeUnit,
        windows: Vec<Window>,
    },
    /// Minutes of hours, at second 0: `every 15 minutes of hours 0, 4 and 8`.
    Minutes {
        lead: Lead,
        hours: Hours,
    },
    /// Seconds of minutes of hours: `at second 15 of minutes 0 and 30 of every hour`.
    Seconds {
        lead: Lead,
        /// `None` for all minutes.
        minutes: Option<Values>,
        hours: Hours,
    },
}

/// Days of the month.
#[derive(Drop)]
pub enum Dates {
    /// Days by their number: `on the 1st and 15th`.
    FromStart(Values),
    /// Days by their place from the month's end, of which the last day is 1 (systemd.time(7), `~`). The greatest place
    /// is the first: `on the 2nd last and last days`.
    FromEnd(Values),
    /// `on the last 3 days`.
    LastDays(u16),
}

/// Days of the week.
#[derive(Drop)]
pub enum Week {
    /// `from Monday to Friday`. Monday follows Sunday.
    Run { first: Weekday, last: Weekday },
    /// `on Saturdays and Sundays`.
    List(Vec<Weekday>),
}

/// The days of a schedule, before its months and years.
#[derive(Drop)]
pub enum Days {
    /// All days.
    Any,
    /// Weekdays alone.
    Weekdays(Week),
    /// Dates alone.
    Dates(Dates),
    /// A weekday in the first, the second and so on seven days of the month, or of those before its end:
    /// `on the 2nd Monday`, `on the last Monday`.
    Nth {
        place: u16,
        from_end: bool,
        weekday: Weekday,
    },
    /// The dates that are such weekdays: `on the 13th of each month, but only on Fridays`.
    Both {
        dates: Dates,
        week: Week,
    },
    /// The dates, and such weekdays: `on the 1st of each month, and also on every Friday`.
    Either {
        dates: Dates,
        week: Week,
    },
}

/// The months of a schedule.
#[derive(Drop)]
pub enum Months {
    /// All months.
    All,
    /// `from June to August`.
    Run { first: Month, last: Month },
    /// `in June and August`.
    List(Vec<Month>),
}

/// When a rule starts its job by the clock.
#[derive(Drop)]
pub struct Schedule {
    pub time: Time,
    pub days: Days,
    pub months: Months,
    /// `None` for all years. If steps go up to the last supported year, `last` is the last year that they reach.
    pub years: Option<Values>,
    /// The time zone that the rule names, without blanks. UTC is `UTC`, in capitals.
    pub zone: Option<Text>,
}

/// A description of a rule.
#[derive(Drop)]
pub enum Description {
    /// The rule `@reboot`, which never starts a job by the clock.
    Reboot,
    /// Any other rule.
    Scheduled(Schedule),
}
