//! Starts of a timer that systemd may merge, since they are less than its delay apart (systemd.timer(5), `AccuracySec=`
//! and `RandomizedDelaySec=`).

ghost use Rattle.std.specs.Prelude.{◌≡◌, ℕ, ◌&&◌, ◌≤◌, false, true, not, IfOk};
ghost use Rattle.plan_match.specs.Zone.{rule_in};
ghost use Rattle.plan_match.specs.declared.rule.Rule.TheVariants as rule;
ghost use Rattle.plan_sets.specs.Values.{has_value};
ghost use Rattle.plan_next.specs.Close.{has_close_starts};
ghost use Rattle.plan_systemd.specs.Merged.{are_apart, has_near, may_merge, HasSeconds, HaveSeconds};

use plan_clock::Clock;
use plan_match::{Calendar, Events, Rule};
use plan_next::has_close_starts;
use plan_sets::ValueSet;
use std::alloc::{AllocError, Global};

// 2024-01-01T00:00:00Z.
const SINCE: u64 = 1_704_067_200;

// The end of 400 days from then on.
const UNTIL: u64 = 1_738_627_200;

// The number of seconds in a minute.
const MINUTE: u16 = 60;

/// Returns whether systemd may merge starts of a list of events, by the clock of a zone, unless they name their own zone:
/// whether a start in the first 400 days from 2024-01-01T00:00:00Z has another one less than `delay` seconds after it.
///
/// The delay is the sum of both settings, rounded up to whole seconds.
///
/// # Errors
///
/// `AllocError` if an allocation fails.
pub fn may_merge(
    alloc: Global,
    clock: &Clock,
    events: &Events,
    delay: u64,
) -> Result<bool, AllocError>
    ensures { IfOk result (λ merges. merges ≡ may_merge (rule_in clock.now (rule.Events events.now)) delay) }
{
    if are_spaced(clock, events, delay) {
        return Ok(false);
    }
    let rule = Rule::Events(events.in_zone(alloc, clock)?);
    Ok(has_close_starts(&rule, SINCE, UNTIL, delay))
}

// Returns whether it is clear without a search that no two starts are less than `apart` seconds apart: that is one second,
// or all events have the same seconds in UTC, and these are that far apart.
fn are_spaced(clock: &Clock, events: &Events, apart: u64) -> bool
    ensures { result ≡ true → (a b : ℕ)
        → has_close_starts (rule_in clock.now (rule.Events events.now)) a b apart ≡ false }
{
    if apart < 2 {
        return true;
    }
    if !clock.is_utc() || apart > u64::from(MINUTE) {
        return false;
    }
    match events.get(0) {
        Some(first) => {
            have_seconds(events, &first.seconds) && are_apart(&first.seconds, apart as u16)
        }
        None => false,
    }
}

// Returns whether all events have no clock and these seconds.
fn have_seconds(events: &Events, seconds: &ValueSet) -> bool
    ensures { result ≡ true → HaveSeconds seconds.now events.now }
{
    for i in 0..events.len() {
        if let Some(event) = events.get(i) {
            if !has_seconds(event, seconds) {
                return false;
            }
        }
    }
    true
}

// Returns whether an event has no clock and these seconds.
fn has_seconds(event: &Calendar, seconds: &ValueSet) -> bool
    ensures { result ≡ true → HasSeconds seconds.now event.now }
{
    event.clock.is_utc() && event.seconds == *seconds
}

// Returns whether no second of a set has another one less than `apart` seconds after it, in the same minute or in the
// next.
fn are_apart(seconds: &ValueSet, apart: u16) -> bool
    requires { apart ≤ 60 }
    ensures { result ≡ are_apart seconds.now apart }
{
    (0..MINUTE).all(|s| !is_crowded(seconds, apart, s))
}

// Returns whether a second of the set has another one less than `apart` seconds after it.
fn is_crowded(seconds: &ValueSet, apart: u16, s: u16) -> bool
    requires apart { apart ≤ 60 }
    requires second { s ≤ 60 }
    ensures { result ≡ (has_value seconds.now s && has_near seconds.now apart s) }
{
    seconds.contains(s) && has_near(seconds, apart, s)
}

// Returns whether a set has a second less than `apart` seconds after this one.
fn has_near(seconds: &ValueSet, apart: u16, s: u16) -> bool
    requires apart { apart ≤ 60 }
    requires second { s ≤ 60 }
    ensures { result ≡ has_near seconds.now apart s }
{
    (1..apart).any(|k| seconds.contains((s + k) % MINUTE))
}
