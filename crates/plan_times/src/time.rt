//! Reads the times that people type.

ghost use Rattle.std.specs.Prelude.{◌≡◌, ◌<◌, ◌≤◌, ◌^◌, [], IfOk};
ghost use Rattle.plan_sets.specs.Limits.{end_second};
ghost use Rattle.plan_times.specs.Forms.{form_of};
ghost use Rattle.plan_times.specs.Times.{in_years, before, is_after, local_time, IsLocalSince, IsLocalUntil, IsSince, IsUntil};

use crate::day::{day_meant, days_to_next};
use crate::fault::TimeFault;
use crate::form::{Form, form_of};
use crate::local_text::Local;
use crate::local_time::{day_at, second_of};
use plan_clock::Clock;
use plan_sets::{END_SECOND, SECONDS_A_DAY};

// Returns a second, if it is in the planner's years.
fn in_years(second: u64) -> Result<u64, TimeFault>
    ensures { result ≡ in_years second }
{
    if second <= END_SECOND {
        Ok(second)
    } else {
        Err(TimeFault::OutOfYears)
    }
}

// Returns the second that is so much before a second, if that is not before 1970.
fn before(second: u64, span: u64) -> Result<u64, TimeFault>
    ensures { result ≡ before second span }
{
    second.checked_sub(span).ok_or(TimeFault::OutOfYears)
}

// Returns the local time of a day and a time of day.
fn local_time(day: u64, time: u32) -> u64
    requires { day < 2 ^ 41 }
    ensures { result ≡ local_time day time }
{
    day * SECONDS_A_DAY + u64::from(time)
}

// Returns whether a result is a second after another.
fn is_after(second: u64, result_given: Result<u64, TimeFault>) -> bool
    ensures { result ≡ is_after second result_given }
{
    match result_given {
        Ok(found) => second < found,
        Err(_) => false,
    }
}

// Returns the second of a local date and time that a span starts at.
fn local_since(clock: &Clock, now: u64, local: Local) -> Result<u64, TimeFault>
    requires { now ≤ end_second }
    ensures meaning { IsLocalSince clock.now now local result }
    ensures years { IfOk result (λ n. n ≤ end_second) }
{
    let today = day_at(clock, now);
    let day = day_meant(today, today, local.day);
    second_of(clock, local_time(day, local.time), false)
}

// Returns the second of a local date and time that a span ends at.
fn local_until(clock: &Clock, since: u64, now: u64, local: Local) -> Result<u64, TimeFault>
    requires since { since ≤ end_second }
    requires now { now ≤ end_second }
    ensures meaning { IsLocalUntil clock.now since now local result }
    ensures years { IfOk result (λ n. n ≤ end_second) }
{
    let day = day_meant(day_at(clock, now), day_at(clock, since), local.day);
    let first = second_of(clock, local_time(day, local.time), true);
    if is_after(since, first) {
        return first;
    }
    let next = day + days_to_next(local.day);
    second_of(clock, local_time(next, local.time), true)
}

// Returns the second of a date and time in UTC that a span starts at.
fn utc_since(now: u64, local: Local) -> Result<u64, TimeFault>
    requires { now ≤ end_second }
    ensures meaning { IsLocalSince [] now local result }
    ensures years { IfOk result (λ n. n ≤ end_second) }
{
    let utc = Clock::utc();
    local_since(&utc, now, local)
}

// Returns the second of a date and time in UTC that a span ends at.
fn utc_until(since: u64, now: u64, local: Local) -> Result<u64, TimeFault>
    requires since { since ≤ end_second }
    requires now { now ≤ end_second }
    ensures meaning { IsLocalUntil [] since now local result }
    ensures years { IfOk result (λ n. n ≤ end_second) }
{
    let utc = Clock::utc();
    local_until(&utc, since, now, local)
}

/// Returns the second of the text of a time at which a span starts, or after which something is searched.
///
/// `now` is a reading of the clock, and `clock` shows the local time. The text is read by the rules of docs/FORMATS.md, "Times and
/// lengths".
///
/// # Errors
///
/// `BadTime` if the text is not a time, and `OutOfYears` if the time is before 1970 or after the planner's last year.
pub fn since_time(text: &str, now: u64, clock: &Clock) -> Result<u64, TimeFault>
    requires { now ≤ end_second }
    ensures meaning { IsSince clock.now now (form_of text.now) result }
    ensures years { IfOk result (λ n. n ≤ end_second) }
{
    match form_of(text)? {
        Form::Now => Ok(now),
        Form::Second(second) => in_years(second),
        Form::Ahead(span) => in_years(now.saturating_add(span)),
        Form::Back(span) => before(now, span),
        Form::Ago(span) => before(now, span),
        Form::OfClock(local) => local_since(clock, now, local),
        Form::OfUtc(local) => utc_since(now, local),
    }
}

/// Returns the second of the text of a time at which a span ends, which starts at `since`.
///
/// `now` is a reading of the clock, and `clock` shows the local time. The text is read by the rules of docs/FORMATS.md, "Times and
/// lengths".
///
/// # Errors
///
/// `BadTime` if the text is not a time, and `OutOfYears` if the time is before 1970 or after the planner's last year.
pub fn until_time(text: &str, since: u64, now: u64, clock: &Clock) -> Result<u64, TimeFault>
    requires since { since ≤ end_second }
    requires now { now ≤ end_second }
    ensures meaning { IsUntil clock.now since now (form_of text.now) result }
    ensures years { IfOk result (λ n. n ≤ end_second) }
{
    match form_of(text)? {
        Form::Now => Ok(now),
        Form::Second(second) => in_years(second),
        Form::Ahead(span) => in_years(since.saturating_add(span)),
        Form::Back(span) => before(since, span),
        Form::Ago(span) => before(now, span),
        Form::OfClock(local) => local_until(clock, since, now, local),
        Form::OfUtc(local) => utc_until(since, now, local),
    }
}
