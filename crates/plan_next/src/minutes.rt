//! Finds the starts of a cron rule within an hour. For each minute of the rule, the next one in the hour is kept.

ghost use Rattle.std.specs.Prelude.{◌≡◌, ◌+◌, ◌<◌, ◌≤◌, ℕ, true, IfOk};
ghost use Rattle.plan_sets.specs.Limits.{end_second};
ghost use Rattle.plan_sets.specs.Values.{has_value};
ghost use Rattle.plan_next.specs.Starts.{is_start};
ghost use Rattle.plan_next.specs.Next.{AreNextMinutes, IsFirstOrEnd};
ghost use Rattle.plan_next.specs.Piece.{AreFound};
ghost use Rattle.plan_next.specs.Search.{IsPlain};
ghost use Rattle.plan_next.specs.declared.search.Pattern.TheVariants.{Cron};

use crate::nexts::MOST_KEPT;
use crate::search::{MINUTES_AN_HOUR, Pattern, SECONDS_A_MINUTE};
use crate::zone::Plain;
use plan_match::{CronRule, Rule};
use plan_sets::ValueSet;
use std::alloc::AllocError;

/// Keeps, for each of these minutes of an hour, which of them comes next, or 60 after the last.
pub(crate) fn keep_next_minutes(minutes: &ValueSet, kept: &mut [u64; MOST_KEPT])
    ensures { AreNextMinutes minutes.now kept.new }
{
    let mut minute = minute_or_end(minutes, 0);
    while minute < MINUTES_AN_HOUR {
        let next = minute_or_end(minutes, minute + 1);
        kept[usize::from(minute)] = u64::from(next);
        minute = next;
    }
}

// Returns the first of these minutes of an hour at or after `from`, or 60 if there is none.
fn minute_or_end(minutes: &ValueSet, from: u16) -> u16
    requires { from ≤ MINUTES_AN_HOUR }
    ensures { IsFirstOrEnd (has_value minutes.now) from MINUTES_AN_HOUR result }
{
    match minutes.first_from(from) {
        Some(minute) if minute < MINUTES_AN_HOUR => minute,
        _ => MINUTES_AN_HOUR,
    }
}

/// Adds the starts of a cron rule that follow `start` in its hour, until `found` has `most` starts, and returns
/// the last start that was found: `start` if none is added.
///
/// `start` is the last start found so far. `part` begins with it, and in it the rule starts exactly when what its
/// clock shows matches. `kept` is from `keep_next_minutes`.
///
/// # Errors
///
/// `AllocError` if an allocation fails.
pub(crate) fn add_minutes(
    rule: &CronRule,
    kept: &[u64; MOST_KEPT],
    start: u64,
    part: Plain,
    upto: u64,
    most: usize,
    found: &mut Vec<u64>,
) -> Result<u64, AllocError>
    requires years { upto ≤ end_second }
    requires start { is_start (Rule.Cron rule.now) start ≡ true }
    requires plain { IsPlain (Cron rule) start upto part }
    requires kept { AreNextMinutes rule.now.minutes kept.now }
    ensures from { IfOk result (λ last. start ≤ last) }
    ensures part { IfOk result (λ last. last < upto) }
    ensures last { IfOk result (λ last. is_start (Rule.Cron rule.now) last ≡ true) }
    ensures found { (since : ℕ) → AreFound (Rule.Cron rule.now) since upto most found.old.items (start + 1)
        → IfOk result (λ last. AreFound (Rule.Cron rule.now) since upto most found.new.items (last + 1)) }
{
    let mut last = start;
    let mut minute = part.shown / u64::from(SECONDS_A_MINUTE) % u64::from(MINUTES_AN_HOUR);
    for _ in found.len()..most {
        let next = kept[minute as usize];
        let later = last + (next - minute) * u64::from(SECONDS_A_MINUTE);
        if next >= u64::from(MINUTES_AN_HOUR) || later >= part.upto {
            return Ok(last);
        }
        found.push(later)?;
        last = later;
        minute = next;
    }
    Ok(last)
}
