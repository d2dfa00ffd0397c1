//! The last line of the table.

ghost use Rattle.std.specs.Prelude.{◌≡◌, ◌==◌, ◌≤◌, IfOk};
ghost use Rattle.plan_changes.specs.Changes.{kind_number};
ghost use Rattle.plan_sets.specs.Limits.{end_second};
ghost use Rattle.agenda_changes.specs.Last.{change_text, count_with, counts_text};

use agenda_table::{Look, plural};
use plan_changes::{Change, ChangeKind};
use plan_rules::Text;
use std::alloc::{AllocError, Global};

/// Returns the last line of the table: how many starts there are fewer, and how many more, the span from its start to its end,
/// and the zone.
///
/// # Errors
///
/// `AllocError` if an allocation fails.
pub fn change_text(
    alloc: Global,
    look: &Look<'_>,
    changes: &[Change],
    since: u64,
    upto: u64,
    zone: &str,
) -> Result<Text, AllocError>
    requires since { since ≤ end_second }
    requires upto { upto ≤ end_second }
    ensures { IfOk result (λ text. text ≡ change_text look.now changes.now since upto zone.now) }
{
    let counts = counts_text(alloc, changes)?;
    let mut passed = 0;
    let from = look.start_text(since, &mut passed);
    let to = look.start_text(upto, &mut passed);
    let (counts, from, to) = (counts.as_str(), from.as_str(), to.as_str());
    let text = format!(in alloc; "{counts}, from {from} to {to}, {zone}")?;
    Ok(Text::new(text))
}

// Returns how many starts there are fewer, and how many more.
fn counts_text(alloc: Global, changes: &[Change]) -> Result<Text, AllocError>
    ensures { IfOk result (λ text. text ≡ counts_text changes.now) }
{
    let fewer = count_with(changes, ChangeKind::Removed);
    let s = plural(fewer);
    let more = count_with(changes, ChangeKind::Added);
    let text = format!(in alloc; "{fewer} start{s} fewer, {more} more")?;
    Ok(Text::new(text))
}

// Returns how many changes are of a kind.
fn count_with(changes: &[Change], kind: ChangeKind) -> usize
    ensures { result ≡ count_with kind changes.now }
{
    changes
        .iter()
        .filter(|change| is_same(change.kind, kind))
        .count()
}

// Returns whether two kinds are the same.
fn is_same(one: ChangeKind, other: ChangeKind) -> bool
    ensures { result ≡ (kind_number one == kind_number other) }
{
    matches!(
        (one, other),
        (ChangeKind::Removed, ChangeKind::Removed) | (ChangeKind::Added, ChangeKind::Added)
    )
}
