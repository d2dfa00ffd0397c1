//! The changes of a zone: the seconds at which its offset changes, found one year at a time.

ghost use Rattle.std.specs.Prelude.{◌≡◌, ℕ, ◌+◌, ◌^◌, ◌<◌, ◌≤◌, ◌<ℤ◌, ◌≤ℤ◌, ◌↔◌, pos, neg_ℤ, IfOk};
ghost use Rattle.jiff_core.specs.Timestamp.{nanos_of_seconds};
ghost use Rattle.plan_sets.specs.Limits.{end_second};
ghost use Rattle.plan_zones.specs.Changes.{added, zone_offset, year_at, Covers};

use jiff_core::Timestamp;
use jiff_core::civil::days_in_year;
use jiff_tz::Tzif;
use plan_clock::Change;
use plan_sets::{END_SECOND, FIRST_YEAR, LAST_YEAR, SECONDS_A_DAY};
use std::alloc::{AllocError, Global};

// Finds the changes of the zone from 1970 through 2999.
pub(crate) fn changes_of(alloc: Global, zone: &Tzif) -> Result<Vec<Change>, AllocError>
    ensures { IfOk result (λ changes. Covers zone.now changes.items end_second) }
{
    let mut changes = Vec::new(alloc);
    let mut start = 0;
    for year in FIRST_YEAR..LAST_YEAR + 1 {
        let end = start + u64::from(days_in_year(year as i16)) * SECONDS_A_DAY;
        add_year(&mut changes, zone, start, end)?;
        start = end;
    }
    Ok(changes)
}

// Adds the changes of a year, from its first second to the first second of the next year.
fn add_year(changes: &mut Vec<Change>, zone: &Tzif, start: u64, end: u64) -> Result<(), AllocError>
    requires covered { Covers zone.now changes.old.items start }
    requires year { (n : ℕ) → start ≤ n → n < end → year_at n ≡ year_at start }
    requires forward { start ≤ end }
    requires in_years { end ≤ end_second }
    ensures { IfOk result (λ _. Covers zone.now changes.new.items end) }
{
    let mut second = start;
    while second < end {
        let offset = zone.to_offset(instant_of(second)).seconds;
        add_change(changes, Change { second, offset })?;
        second = next_change(zone, second).min(end);
    }
    Ok(())
}

// Adds the change, unless it has the same offset as the change before it.
fn add_change(changes: &mut Vec<Change>, change: Change) -> Result<(), AllocError>
    ensures { IfOk result (λ _. changes.new.items ≡ added changes.old.items change) }
{
    if let Some(last) = changes.last() {
        if last.offset == change.offset {
            return Ok(());
        }
    }
    changes.push(change)?;
    Ok(())
}

// Returns a later second. Before it, the offset doesn't change within the year.
fn next_change(zone: &Tzif, second: u64) -> u64
    requires { second < end_second }
    ensures later { second < result }
    ensures steady { (n : ℕ) → second ≤ n → n < result → n < end_second → year_at n ≡ year_at second
        → zone_offset zone.now n ≡ zone_offset zone.now second }
{
    match zone.next_transition(instant_of(second)) {
        Some(change) => first_second_from(change.timestamp).max(second + 1),
        None => END_SECOND,
    }
}

// Returns the instant at which a second starts.
fn instant_of(second: u64) -> Timestamp
    requires { second < end_second }
    ensures { result.nanosecond ≡ nanos_of_seconds (pos second) }
{
    Timestamp {
        nanosecond: i128::from(second) * 1_000_000_000,
    }
}

// Returns the first second that starts at or after the instant.
fn first_second_from(instant: Timestamp) -> u64
    ensures steps { (n : ℕ) → n < result ↔ (nanos_of_seconds (pos n) <ℤ instant.nanosecond) }
    ensures fits { result < 2 ^ 63 }
{
    if instant.nanosecond <= 0 {
        return 0;
    }
    let before = Timestamp {
        nanosecond: instant.nanosecond - 1,
    };
    before.floor_second() as u64 + 1
}
