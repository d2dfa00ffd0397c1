//! The drop-ins of a unit (systemd.unit(5)).

ghost use Rattle.std.specs.Prelude.{◌≡◌, true, IfOk, filter};
ghost use Rattle.plan_units.specs.DropIns.{drop_in_entries, drop_ins, is_drop_in, read_entries};

use crate::mask::is_mask;
use crate::merging::{Entry, entries_among};
use crate::paths::UnitDir;
use crate::unit_dirs::unit_dirs;
use plan_tree::Tree;
use std::alloc::{AllocError, Global};

/// Returns the drop-ins of a unit that are read, in the order of their names: all but masks.
///
/// # Errors
///
/// `AllocError` if an allocation fails.
pub fn drop_ins<T: Tree>(
    alloc: Global,
    tree: &T,
    dirs: &[UnitDir],
    name: &str,
) -> Result<Vec<Entry>, AllocError>
    ensures { T.is_known ≡ true → IfOk result (λ found.
        found.items ≡ drop_ins (T.held tree.now) dirs.now name.now) }
{
    let found = drop_in_entries(alloc, tree, dirs, name)?;
    read_entries(alloc, tree, found)
}

/// Returns the drop-ins of a unit in the order of their names, with masks.
///
/// They are the entries `*.conf` of the unit's directories `.d`. Of entries that have the same name the first counts.
///
/// # Errors
///
/// `AllocError` if an allocation fails.
pub fn drop_in_entries<T: Tree>(
    alloc: Global,
    tree: &T,
    dirs: &[UnitDir],
    name: &str,
) -> Result<Vec<Entry>, AllocError>
    ensures { T.is_known ≡ true → IfOk result (λ found.
        found.items ≡ drop_in_entries (T.held tree.now) dirs.now name.now) }
{
    let places = unit_dirs(alloc, dirs, name, ".d")?;
    let found = entries_among(alloc, tree, places.as_slice())?;
    Ok(drop_ins_among(found))
}

/// Returns the entries that are drop-ins by their names: those whose names end with `.conf`.
pub fn drop_ins_among(found: Vec<Entry>) -> Vec<Entry>
    ensures { result.items ≡ filter is_drop_in found.items }
{
    let mut found = found;
    found.retain(|entry| is_drop_in(entry));
    found
}

// Returns whether an entry is a drop-in by its name.
fn is_drop_in(entry: &Entry) -> bool
    ensures { result ≡ is_drop_in entry.now }
{
    entry.name.as_str().as_bytes().ends_with(b".conf")
}

// Returns the entries that are no masks.
fn read_entries<T: Tree>(
    alloc: Global,
    tree: &T,
    found: Vec<Entry>,
) -> Result<Vec<Entry>, AllocError>
    ensures { T.is_known ≡ true → IfOk result (λ read.
        read.items ≡ read_entries (T.held tree.now).node found.items) }
{
    let mut read = Vec::new(alloc);
    for entry in found {
        if !is_mask(alloc, tree, entry.real.as_str())? {
            read.push(entry)?;
        }
    }
    Ok(read)
}
