//! Finds the next start of a rule, depending on the kind of rule.
//!
//! In this crate, `first_..` finds the first start at or after a second, and `next_..` the first start after
//! another start. Both search up to an end. The public functions search up to the end of the planner's years:
//! `next_from` finds the first start at or after a second, and `next_start` the first start after it.

ghost use Rattle.std.specs.Prelude.{◌≡◌, ◌+◌, ◌*◌, ◌<◌, ◌≤◌, slice_get};
ghost use Rattle.plan_sets.specs.Limits.{end_second};
ghost use Rattle.plan_next.specs.Starts.{is_start, starts, IsFirstIn};
ghost use Rattle.plan_next.specs.Next.{starts_at_minute};

use crate::search::{HOURS_A_DAY, MINUTES_AN_HOUR, Pattern, SECONDS_A_MINUTE};
use plan_match::{CronRule, Events, Rule};
use plan_sets::{END_SECOND, SECONDS_A_DAY, civil_of};

// After the first day, this many days are searched in all events before any event is searched further. Most
// events start within them.
const FAR_DAYS: u64 = 400;

/// Returns the first start of a rule after `after`, or `None` if it has none before `END_SECOND`.
///
/// `after` is any number of seconds since 1970-01-01T00:00:00Z. No memory is requested.
pub fn next_start(rule: &Rule, after: u64) -> Option<u64>
    ensures first { result ≡ slice_get (starts rule.now (after + 1) end_second) 0 }
    ensures least { IsFirstIn (is_start rule.now) (after + 1) end_second result }
{
    next_from(rule, after.saturating_add(1))
}

/// Returns the first start of a rule at or after `since`, or `None` if it has none before `END_SECOND`.
///
/// `since` is any number of seconds since 1970-01-01T00:00:00Z. No memory is requested.
pub fn next_from(rule: &Rule, since: u64) -> Option<u64>
    ensures first { result ≡ slice_get (starts rule.now since end_second) 0 }
    ensures least { IsFirstIn (is_start rule.now) since end_second result }
{
    first_start(rule, since, END_SECOND)
}

/// Returns the first start of a rule at or after `since` and before `end`.
pub(crate) fn first_start(rule: &Rule, since: u64, end: u64) -> Option<u64>
    requires { end ≤ end_second }
    ensures { IsFirstIn (is_start rule.now) since end result }
{
    if since >= end {
        return None;
    }
    match rule {
        Rule::Cron(rule) => first_of_cron(rule, since, end),
        Rule::Never => None,
        Rule::Events(events) => first_of_events(events, since, end),
    }
}

/// Returns the first start of a cron rule at or after `since` and before `end`.
///
/// For a rule in UTC, the first whole minute is tried before the search. If the rule starts then, no search is needed.
pub(crate) fn first_of_cron(rule: &CronRule, since: u64, end: u64) -> Option<u64>
    requires part { since ≤ end }
    requires years { end ≤ end_second }
    ensures { IsFirstIn (is_start (Rule.Cron rule.now)) since end result }
{
    if rule.clock.is_utc() {
        let minute = since.div_ceil(u64::from(SECONDS_A_MINUTE));
        let first = minute * u64::from(SECONDS_A_MINUTE);
        if first < end && starts_at_minute(rule, minute) {
            return Some(first);
        }
    }
    Pattern::Cron(rule).first_start(since, end)
}

// Returns whether a cron rule starts at a minute, counted from 1970-01-01T00:00:00Z, by UTC.
fn starts_at_minute(rule: &CronRule, minute: u64) -> bool
    requires { minute * SECONDS_A_MINUTE < end_second }
    ensures { result ≡ starts_at_minute rule.now minute }
{
    let hour = minute / u64::from(MINUTES_AN_HOUR);
    let day = hour / u64::from(HOURS_A_DAY);
    rule.minutes()
        .contains((minute % u64::from(MINUTES_AN_HOUR)) as u16)
        && rule
            .hours()
            .contains((hour % u64::from(HOURS_A_DAY)) as u16)
        && rule.day_matches(&civil_of(day * SECONDS_A_DAY))
}

/// Returns the first start of a list of events at or after `since` and before `end`.
///
/// If there are several events, all of them are searched through a near part of time before any is searched
/// through a far one.
pub(crate) fn first_of_events(events: &Events, since: u64, end: u64) -> Option<u64>
    requires part { since ≤ end }
    requires years { end ≤ end_second }
    ensures { IsFirstIn (is_start (Rule.Events events.now)) since end result }
{
    if events.len() < 2 {
        return first_within(events, since, end);
    }
    let near = end.min(since + SECONDS_A_DAY);
    let far = end.min(near + FAR_DAYS * SECONDS_A_DAY);
    if let Some(first) = first_within(events, since, near) {
        return Some(first);
    }
    if let Some(first) = first_within(events, near, far) {
        return Some(first);
    }
    first_within(events, far, end)
}

// Returns the first start of a list of events at or after `since` and before `end`. Each event is searched up
// to the first start of the events before it in the list.
fn first_within(events: &Events, since: u64, end: u64) -> Option<u64>
    requires part { since ≤ end }
    requires years { end ≤ end_second }
    ensures { IsFirstIn (is_start (Rule.Events events.now)) since end result }
{
    let mut first = None;
    for i in 0..events.len() {
        if let Some(event) = events.get(i) {
            let before = first.unwrap_or(end);
            first = Pattern::Event(event).first_start(since, before).or(first);
        }
    }
    first
}
