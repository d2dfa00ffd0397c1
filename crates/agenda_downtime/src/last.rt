//! The last line of the table.

ghost use Rattle.std.specs.Prelude.{◌≡◌, ◌≤◌, IfOk, string_bytes};
ghost use Rattle.plan_sets.specs.Limits.{end_second};
ghost use Rattle.agenda_downtime.specs.Last.{count_with, is_same, missed_text, outcomes_text};

use crate::rows::{MissedRow, MissedRows};
use agenda_table::{Look, plural};
use plan_downtime::Outcome;
use plan_rules::Text;
use std::alloc::{AllocError, Global};

/// Returns the last line of the table: how many jobs miss something, how many of them have each outcome, the downtime from
/// its start to its end, and the zone.
///
/// # Errors
///
/// `AllocError` if an allocation fails.
pub fn missed_text(
    alloc: Global,
    look: &Look<'_>,
    rows: &MissedRows,
    since: u64,
    upto: u64,
    zone: &str,
) -> Result<Text, AllocError>
    requires since { since ≤ end_second }
    requires upto { upto ≤ end_second }
    ensures { IfOk result (λ text. text ≡ missed_text look.now rows.now since upto zone.now) }
{
    let outcomes = outcomes_text(alloc, rows.as_slice())?;
    let mut passed = 0;
    let from = look.start_text(since, &mut passed);
    let to = look.start_text(upto, &mut passed);
    let (outcomes, from, to) = (outcomes.as_str(), from.as_str(), to.as_str());
    let text = format!(in alloc; "{outcomes}; down from {from} to {to}, {zone}")?;
    Ok(Text::new(text))
}

// Returns how many rows there are, and how many of them have each outcome.
fn outcomes_text(alloc: Global, rows: &[MissedRow]) -> Result<Text, AllocError>
    ensures { IfOk result (λ text. text ≡ outcomes_text rows.now) }
{
    let count = rows.len();
    let s = plural(count);
    let lost = count_with(rows, Outcome::Lost);
    let made_up = count_with(rows, Outcome::MadeUp);
    let at_boot = count_with(rows, Outcome::AtBoot);
    let text = format!(in alloc;
        "{count} job{s}: {lost} lost, {made_up} made up, {at_boot} at boot"
    )?;
    Ok(Text::new(text))
}

// Returns how many rows have an outcome.
fn count_with(rows: &[MissedRow], outcome: Outcome) -> usize
    ensures { result ≡ count_with outcome rows.now }
{
    rows.iter()
        .filter(|row| is_same(row.outcome(), outcome))
        .count()
}

// Returns whether two outcomes are the same.
fn is_same(one: Outcome, other: Outcome) -> bool
    ensures { result ≡ is_same one other }
{
    matches!(
        (one, other),
        (Outcome::Lost, Outcome::Lost)
            | (Outcome::MadeUp, Outcome::MadeUp)
            | (Outcome::AtBoot, Outcome::AtBoot)
    )
}
