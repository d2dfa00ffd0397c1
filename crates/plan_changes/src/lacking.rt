//! The starts of a list that another list lacks.

ghost use Rattle.std.specs.Prelude.{◌≡◌, ◌++◌, IsTrue, List, OnOk, ℕ};
ghost use Rattle.plan_baseline.specs.Line.{Line};
ghost use Rattle.plan_changes.specs.Changes.{changes_of};
ghost use Rattle.plan_changes.specs.Keys.{AreEachOnce, AreKeysOf, AreUsable};

use crate::change::{Change, ChangeKind};
use crate::counts::Counts;
use crate::keys::{Key, Keys};
use std::alloc::{AllocError, Global};

/// Appends the changes of the starts of a list that another list lacks, in order. The lists are given by their keys.
///
/// # Errors
///
/// `AllocError` if an allocation fails.
pub(crate) fn push_lacking<K: Keys, O: Keys>(
    alloc: Global,
    kind: ChangeKind,
    keys: &K,
    others: &O,
    texts: usize,
    changes: &mut Vec<Change>,
) -> Result<(), AllocError>
    requires usable { AreUsable texts (K.keys keys.now) }
    requires others_usable { AreUsable texts (O.keys others.now) }
    ensures { (all : List (List ℕ)) (lines other_lines : List Line) → AreEachOnce all → AreKeysOf all lines (K.keys keys.now)
        → AreKeysOf all other_lines (O.keys others.now)
        → OnOk result (changes.new.items ≡ changes.old.items ++ changes_of kind other_lines lines) }
{
    let mut counts = Counts::new(alloc, texts)?;
    let mut at = 0;
    for place in 0..keys.len() {
        let key = keys.at(place);
        // Most often both lists go on with the same start.
        if at < others.len() && is_same(others.at(at), key) {
            at += 1;
            continue;
        }
        while at < others.len() && others.at(at).second <= key.second {
            counts.add(others.at(at));
            at += 1;
        }
        if !counts.take(key) {
            let second = key.second;
            changes.push(Change {
                second,
                kind,
                place,
            })?;
        }
    }
    Ok(())
}

// Returns whether two keys are the same.
#[inline(always)]
fn is_same(one: Key, other: Key) -> bool
    ensures { IsTrue result → one ≡ other }
{
    one.second == other.second && one.runs == other.runs
}
