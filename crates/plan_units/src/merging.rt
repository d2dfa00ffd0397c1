//! What several directories have together: of entries that have the same name, the first counts (systemd.unit(5)).

ghost use Rattle.std.specs.Prelude.{◌≡◌, true, IfOk, OnOk, map};
ghost use Rattle.std.specs.List.{list_any, prefix_len};
ghost use Rattle.std.specs.Str.{bytes_eq};
ghost use Rattle.plan_tree.specs.Order.{is_before};
ghost use Rattle.plan_units.specs.Entries.{entries_among, names_at, places_in, places_of, read_dir, with_entry, with_names, with_read};

use crate::paths::{UnitDir, read_dir};
use plan_tree::{Name, Place, Tree, entries};
use std::alloc::{AllocError, Global};

/// An entry of a directory.
#[derive(Debug, Drop)]
pub struct Entry {
    /// Its path.
    pub path: Place,
    /// The path that it is read by: its directory is no link.
    pub real: Place,
    /// Its name.
    pub name: Name,
}

/// Returns the entries of some directories in the order of their names. Of entries that have the same name, only the
/// first is one of them. A directory that is a link is read where it leads.
///
/// # Errors
///
/// `AllocError` if an allocation fails.
pub fn entries_among<T: Tree>(
    alloc: Global,
    tree: &T,
    dirs: &[UnitDir],
) -> Result<Vec<Entry>, AllocError>
    ensures { T.is_known ≡ true → IfOk result (λ found.
        found.items ≡ entries_among (T.held tree.now) dirs.now) }
{
    let mut found = Vec::new(alloc);
    for dir in dirs {
        add_read(alloc, tree, &mut found, dir)?;
    }
    Ok(found)
}

// Adds the entries of a directory. One that is a link is read where it leads.
fn add_read<T: Tree>(
    alloc: Global,
    tree: &T,
    found: &mut Vec<Entry>,
    dir: &UnitDir,
) -> Result<(), AllocError>
    ensures { T.is_known ≡ true → OnOk result (found.new.items
        ≡ with_read (T.held tree.now) found.old.items (read_dir (T.held tree.now).node dir.now)) }
{
    if let Some(dir) = read_dir(alloc, tree, dir)? {
        let names = names_at(alloc, tree, dir.real.as_str())?;
        add_names(alloc, found, &dir, names)?;
    }
    Ok(())
}

/// Returns the names in a directory, in order; none if it can't be listed. There is no link in its path.
///
/// # Errors
///
/// `AllocError` if an allocation fails.
pub fn names_at<T: Tree>(alloc: Global, tree: &T, dir: &str) -> Result<Vec<Name>, AllocError>
    ensures { T.is_known ≡ true → IfOk result (λ names. names.items ≡ names_at (T.held tree.now) dir.now) }
{
    match entries(alloc, tree, dir)? {
        Some(listing) => Ok(listing.names),
        None => Ok(Vec::new(alloc)),
    }
}

// Adds the entries of these names in a directory.
fn add_names(
    alloc: Global,
    found: &mut Vec<Entry>,
    dir: &UnitDir,
    names: Vec<Name>,
) -> Result<(), AllocError>
    ensures { OnOk result (found.new.items ≡ with_names found.old.items dir.now names.items) }
{
    for name in names {
        let path = dir.path.child(alloc, name.as_str())?;
        let real = dir.real.child(alloc, name.as_str())?;
        add_entry(found, Entry { path, real, name })?;
    }
    Ok(())
}

// Adds an entry at its place, unless one has its name.
fn add_entry(found: &mut Vec<Entry>, entry: Entry) -> Result<(), AllocError>
    ensures { OnOk result (found.new.items ≡ with_entry found.old.items entry) }
{
    if has_name(found.as_slice(), &entry.name) {
        return Ok(());
    }
    let place = count_before(found.as_slice(), &entry.name);
    found.insert(place, entry)?;
    Ok(())
}

// Returns whether an entry has this name.
fn has_name(found: &[Entry], name: &Name) -> bool
    ensures { result ≡ list_any (λ other. bytes_eq other.name name.now) found.now }
{
    found.iter().any(|other| other.name == *name)
}

// Returns how many entries come before a name.
fn count_before(found: &[Entry], name: &Name) -> usize
    ensures { result ≡ prefix_len (λ other. is_before other.name name.now) found.now }
{
    found.iter().take_while(|other| other.name < *name).count()
}

// Returns the directories of some names and a suffix in each directory of units, first to last.
pub(crate) fn places_of(
    alloc: Global,
    dirs: &[UnitDir],
    names: &[Name],
    suffix: &str,
) -> Result<Vec<UnitDir>, AllocError>
    ensures { IfOk result (λ places. places.items ≡ places_of dirs.now names.now suffix.now) }
{
    let mut places = Vec::new(alloc);
    for dir in dirs {
        let mut more = places_in(alloc, dir, names, suffix)?;
        places.append(&mut more)?;
    }
    Ok(places)
}

// Returns the directories of some names and a suffix in a directory.
fn places_in(
    alloc: Global,
    dir: &UnitDir,
    names: &[Name],
    suffix: &str,
) -> Result<Vec<UnitDir>, AllocError>
    ensures { IfOk result (λ places. places.items ≡ places_in dir.now names.now suffix.now) }
{
    let mut places = Vec::new(alloc);
    for name in names {
        let mut full = String::from_str(alloc, name.as_str())?;
        full.push_str(suffix)?;
        places.push(dir.child(alloc, full.as_str())?)?;
    }
    Ok(places)
}
