//! Civil fields: the date, the weekday and the time of day of a second.
ghost use Rattle.std.specs.Prelude.{◌≡◌, ◌+◌, ◌/◌, ◌%◌, ◌<◌, ◌≤◌, ◌↔◌, pos, IsSome, IfSome};
ghost use Rattle.std.specs.Int.{IsInRange};
ghost use Rattle.jiff_core.specs.Calendar.{IsCivilDate, IsEpochDay, days_from_civil};
ghost use Rattle.jiff_core.specs.Date.{epoch_day};
ghost use Rattle.plan_sets.specs.Limits.{first_year, last_year, end_second, seconds_a_day};
ghost use Rattle.plan_sets.specs.Civil.{civil_fields, second_number, seconds_of_day, length_of_month, IsCivilOf, IsDateTime, IsDateTimeInYears, IsTimeOfDay, Shows};

use jiff::civil;
use jiff_core::civil::{Date, days_in_month};

/// The first supported year. Its first second is second 0.
pub const FIRST_YEAR: u16 = 1970;

/// The last supported year.
pub const LAST_YEAR: u16 = 2999;

/// The first second after `LAST_YEAR`, at midnight.
pub const END_SECOND: u64 = 32_503_680_000;

/// The number of seconds in a day. Leap seconds are not counted.
pub const SECONDS_A_DAY: u64 = 86_400;

/// The date, the weekday and the time of day of a second, in UTC.
#[derive(Clone, Copy, Debug, PartialEq, Eq)]
pub struct Civil {
    /// The year, from `FIRST_YEAR` to `LAST_YEAR`.
    pub year: u16,
    /// The month, from 1 to 12.
    pub month: u8,
    /// The day of the month, from 1.
    pub day: u8,
    /// The day of the week, from 0 for Monday to 6 for Sunday.
    pub weekday: u8,
    /// The hour, from 0 to 23.
    pub hour: u8,
    /// The minute, from 0 to 59.
    pub minute: u8,
    /// The second, from 0 to 59.
    pub second: u8,
}

/// Returns the civil fields of a second before `END_SECOND`. Seconds count from 1970-01-01T00:00:00Z.
pub fn civil_of(second: u64) -> Civil
    requires { second < end_second }
    // The fields as one value, computed.
    ensures fields { result ≡ civil_fields second }

    // What the fields mean: the date with the second's day number, its weekday, and the time of day.
    ensures date { IsCivilDate (pos result.year) result.month result.day }
    ensures day_number { days_from_civil (pos result.year) result.month result.day
        ≡ pos (second / seconds_a_day) }
    ensures weekday { result.weekday ≡ (second / seconds_a_day + 3) % 7 }
    ensures time_of_day { seconds_of_day result.hour result.minute result.second
        ≡ second % seconds_a_day }

    // The ranges that `date` leaves open.
    ensures years { IsInRange first_year last_year result.year }
    ensures week { result.weekday < 7 }
    ensures time { IsTimeOfDay result.hour result.minute result.second }
{
    fields_of(second)
}

/// Returns the civil fields of a second up to `END_SECOND`. That second itself is in the year after `LAST_YEAR`.
pub(crate) fn fields_of(second: u64) -> Civil
    requires { second ≤ end_second }
    ensures fields { result ≡ civil_fields second }
    ensures civil { IsCivilOf second result }
    ensures years { IsInRange first_year (last_year + 1) result.year }
{
    let days = second / SECONDS_A_DAY;
    let time = second % SECONDS_A_DAY;
    let date = date_of_day(days);
    Civil {
        year: date.year as u16,
        month: date.month,
        day: date.day,
        weekday: ((days + 3) % 7) as u8,
        hour: (time / 3_600) as u8,
        minute: (time / 60 % 60) as u8,
        second: (time % 60) as u8,
    }
}

/// Returns the date with a day number, which counts from 0 for 1970-01-01.
fn date_of_day(day: u64) -> Date
    requires { day ≤ end_second / seconds_a_day }
    ensures { epoch_day result ≡ pos day }
{
    let epoch = civil::date(1970, 1, 1).to_plain();
    epoch.checked_add(day as i64).unwrap()
}

/// Returns the second of a date and a time of day, or `None` if there is no such date or time, or if the year
/// is not from `FIRST_YEAR` to `LAST_YEAR`.
pub fn second_of(year: u16, month: u8, day: u8, hour: u8, minute: u8, second: u8) -> Option<u64>
    ensures some { IsSome result ↔ IsDateTimeInYears year month day hour minute second }
    ensures range { IfSome result (λ n. n < end_second) }
    ensures fields { IfSome result
        (λ n. Shows (civil_fields n) year month day hour minute second) }
    ensures number { IfSome result (λ n. pos n ≡ second_number year month day hour minute second) }
{
    if year < FIRST_YEAR || year > LAST_YEAR {
        return None;
    }
    let number = second_from_epoch(year, month, day, hour, minute, second)?;
    Some(number as u64)
}

/// Returns the seconds from 1970-01-01T00:00:00Z to a date and time of any year up to 9999, negative for
/// earlier dates. Returns `None` if there is no such date or time.
pub(crate) fn second_from_epoch(
    year: u16,
    month: u8,
    day: u8,
    hour: u8,
    minute: u8,
    second: u8,
) -> Option<i64>
    ensures some { IsSome result ↔ IsDateTime year month day hour minute second }
    ensures number { IfSome result (λ n. n ≡ second_number year month day hour minute second) }
{
    if hour >= 24 || minute >= 60 || second >= 60 {
        return None;
    }
    let days = day_number(year, month, day)?;
    let time = (u32::from(hour) * 60 + u32::from(minute)) * 60 + u32::from(second);
    Some(i64::from(days) * SECONDS_A_DAY as i64 + i64::from(time))
}

/// Returns the day number of a date of any year up to 9999, or `None` if there is no such date.
fn day_number(year: u16, month: u8, day: u8) -> Option<i32>
    ensures some { IsSome result ↔ IsCivilDate (pos year) month day }
    ensures number { IfSome result (λ n. n ≡ days_from_civil (pos year) month day) }
    ensures range { IfSome result IsEpochDay }
{
    let year = i16::try_from(year).ok()?;
    let month = i8::try_from(month).ok()?;
    let day = i8::try_from(day).ok()?;
    let date = civil::Date::new(year, month, day).ok()?;
    Some(date.to_plain().to_unix_epoch_day())
}

/// Returns the number of days, 28 to 31, in a month, from 1 to 12, of a year from `FIRST_YEAR` to `LAST_YEAR`.
pub fn month_length(year: u16, month: u8) -> u8
    requires year { IsInRange first_year last_year year }
    requires month { IsInRange 1 12 month }
    ensures { result ≡ length_of_month year month }
{
    days_in_month(year as i16, month)
}
