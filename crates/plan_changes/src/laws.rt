//! The laws of changes.

ghost use Rattle.plan_changes.specs.Laws.{ChangesAreDifferences, NoChangesIfSame};

/// States the law of differences: a start is removed as often as the earlier agenda has it more often than the new one, and
/// added as often as the new one has it more often.
///
/// The function does nothing: its contract is the law.
pub fn changes_are_differences()
    ensures { ChangesAreDifferences }
{}

/// States the law of equal agendas: there are no changes exactly if both agendas have each start equally often.
///
/// The function does nothing: its contract is the law.
pub fn no_changes_if_same()
    ensures { NoChangesIfSame }
{}
