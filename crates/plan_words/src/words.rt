//! The words of a sentence.

use crate::names::{Month, TimeUnit, Weekday};

/// A word that doesn't vary.
#[derive(Clone, Copy)]
pub enum Keyword {
    At,
    Every,
    From,
    To,
    Of,
    And,
    Comma,
    On,
    The,
    Last,
    ADay,
    Days,
    Odd,
    Even,
    Each,
    AMonth,
    Year,
    In,
    But,
    Only,
    Also,
    Where,
    It,
    They,
    Exists,
    Exist,
}

/// A word of a sentence. A comma is a word.
#[derive(Clone, Copy)]
pub enum Word {
    Key(Keyword),
    /// `2`.
    Number(u16),
    /// `2nd`.
    Ordinal(u16),
    /// An hour and a minute: `04:30`.
    Clock(u8, u8),
    /// An hour, a minute and a second: `04:30:00`.
    ClockSeconds(u8, u8, u8),
    /// `Monday`.
    ADayOfWeek(Weekday),
    /// `Mondays`.
    DaysOfWeek(Weekday),
    /// `May`.
    NameOfMonth(Month),
    /// `minute`.
    OneUnit(TimeUnit),
    /// `minutes`.
    ManyUnits(TimeUnit),
}
