//! The names of units, weekdays and months.

/// A unit of the time of day.
#[derive(Clone, Copy)]
pub enum TimeUnit {
    Second,
    Minute,
    Hour,
}

/// A day of the week.
#[derive(Clone, Copy)]
pub enum Weekday {
    Monday,
    Tuesday,
    Wednesday,
    Thursday,
    Friday,
    Saturday,
    Sunday,
}

/// A month of the year.
#[derive(Clone, Copy)]
pub enum Month {
    January,
    February,
    March,
    April,
    May,
    June,
    July,
    August,
    September,
    October,
    November,
    December,
}
