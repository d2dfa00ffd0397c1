//! The entries of a directory of links that count (systemd.unit(5)).

ghost use Rattle.std.specs.Prelude.{◌≡◌, true, IfOk, filter};
ghost use Rattle.plan_timers.specs.Counted.{counted_in, dirs_named, is_at};

use plan_tree::Tree;
use plan_units::{Entry, UnitDir, entries_among, last_name};
use std::alloc::{AllocError, Global};

/// Returns the entries of a directory that count, in the order of their names: of the entries that have the same name in
/// directories of the same name, only the first does, in the order of the directories of units.
///
/// # Errors
///
/// `AllocError` if an allocation fails.
pub fn counted_in<T: Tree>(
    alloc: Global,
    tree: &T,
    dirs: &[UnitDir],
    dir: &UnitDir,
) -> Result<Vec<Entry>, AllocError>
    ensures { T.is_known ≡ true → IfOk result (λ entries.
        entries.items ≡ counted_in (T.held tree.now) dirs.now dir.now) }
{
    let named = dirs_named(alloc, dirs, last_name(dir.path.as_str()))?;
    let found = entries_among(alloc, tree, named.as_slice())?;
    entries_at(alloc, dir, found)
}

// Returns the directories of a name in the directories of units, first to last.
fn dirs_named(alloc: Global, dirs: &[UnitDir], name: &str) -> Result<Vec<UnitDir>, AllocError>
    ensures { IfOk result (λ named. named.items ≡ dirs_named dirs.now name.now) }
{
    let mut named = Vec::new(alloc);
    for dir in dirs {
        named.push(dir.child(alloc, name)?)?;
    }
    Ok(named)
}

// Returns those of some entries that are in a directory.
fn entries_at(alloc: Global, dir: &UnitDir, found: Vec<Entry>) -> Result<Vec<Entry>, AllocError>
    ensures { IfOk result (λ entries. entries.items ≡ filter (is_at dir.now) found.items) }
{
    let mut entries = Vec::new(alloc);
    for entry in found {
        if is_at(alloc, dir, &entry)? {
            entries.push(entry)?;
        }
    }
    Ok(entries)
}

// Returns whether an entry is in a directory.
fn is_at(alloc: Global, dir: &UnitDir, entry: &Entry) -> Result<bool, AllocError>
    ensures { IfOk result (λ is. is ≡ is_at dir.now entry.now) }
{
    let path = dir.path.child(alloc, entry.name.as_str())?;
    Ok(path.as_str() == entry.path.as_str())
}
