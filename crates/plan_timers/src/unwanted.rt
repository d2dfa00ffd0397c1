//! Timers that only units want that the boot doesn't start.

ghost use Rattle.std.specs.Prelude.{◌≡◌, ◌==◌, true, [], IfOk, map};
ghost use Rattle.std.specs.List.{list_any};
ghost use Rattle.std.specs.Str.{byte, bytes_eq};
ghost use Rattle.plan_timers.specs.Unwanted.{has_own_file, is_further, is_named, is_unreached, is_unwanted, names_unit, unit_in, unwanted_at, unwanted_timers, with_entries, with_link, with_links};
ghost use Rattle.plan_timers.specs.Wishes.{units_view};
ghost use Rattle.plan_units.specs.Unit.{unit_of};

use crate::counted::counted_in;
use crate::links::LinkDir;
use crate::reports::{Skipped, Why, copy_of};
use crate::units::Units;
use crate::wish::is_in;
use plan_texts::Text;
use plan_tree::{Name, Place, Tree};
use plan_units::{Entry, Unit, UnitDir, is_counted, is_timer, last_name, stem, unit_of};
use std::alloc::{AllocError, Global};

/// Returns the timers that have a file and aren't reached, but that are linked in a directory of a unit that isn't reached
/// either. Each is told once, by the first such link in the order of the directories.
///
/// Of links that have the same name in directories of the same name, only the first is one. A directory of all units of a
/// type, such as `service.wants`, is none of a unit.
///
/// # Errors
///
/// `AllocError` if an allocation fails.
pub fn unwanted_timers<T: Tree>(
    alloc: Global,
    tree: &T,
    units: &Units<'_>,
) -> Result<Vec<Skipped>, AllocError>
    ensures { T.is_known ≡ true → IfOk result (λ found.
        found.items ≡ unwanted_timers (T.held tree.now) (units_view units.now)) }
{
    let entries = with_links(alloc, tree, units)?;
    let mut skipped = Vec::new(alloc);
    for entry in entries.as_slice() {
        skipped.push(unwanted_at(alloc, entry.path.as_str())?)?;
    }
    Ok(skipped)
}

// Returns the first link of each timer that is wanted by units alone that aren't reached.
fn with_links<T: Tree>(alloc: Global, tree: &T, units: &Units<'_>) -> Result<Vec<Entry>, AllocError>
    ensures { T.is_known ≡ true → IfOk result (λ found.
        found.items ≡ with_links (T.held tree.now) (units_view units.now) [] units.now.links.now) }
{
    let mut found = Vec::new(alloc);
    for link in units.links {
        found = with_link(alloc, tree, units, found, link)?;
    }
    Ok(found)
}

// Returns these links, and those in a directory of links, if its unit isn't reached.
fn with_link<T: Tree>(
    alloc: Global,
    tree: &T,
    units: &Units<'_>,
    found: Vec<Entry>,
    link: &LinkDir,
) -> Result<Vec<Entry>, AllocError>
    ensures { T.is_known ≡ true → IfOk result (λ after.
        after.items ≡ with_link (T.held tree.now) (units_view units.now) found.items link.now) }
{
    if !is_unreached(link.unit.as_str(), units.reached) {
        return Ok(found);
    }
    let entries = counted_in(alloc, tree, units.dirs, &link.dir)?;
    with_entries(alloc, tree, units, found, entries)
}

// Returns whether a name is that of a unit that isn't reached.
fn is_unreached(unit: &str, reached: &[Name]) -> bool
    ensures { result ≡ is_unreached unit.now reached.now }
{
    names_unit(unit) && !is_in(unit, reached)
}

// Returns whether a name is that of a unit: it has a type.
fn names_unit(name: &str) -> bool
    ensures { result ≡ names_unit name.now }
{
    name.as_bytes().iter().any(|byte| *byte == b'.')
}

// Returns these links, and those entries that are links to further timers that aren't reached.
fn with_entries<T: Tree>(
    alloc: Global,
    tree: &T,
    units: &Units<'_>,
    found: Vec<Entry>,
    entries: Vec<Entry>,
) -> Result<Vec<Entry>, AllocError>
    ensures { T.is_known ≡ true → IfOk result (λ after. after.items
        ≡ with_entries (T.held tree.now).node (units_view units.now) found.items entries.items) }
{
    let mut found = found;
    for entry in entries {
        if is_further(alloc, tree, units, found.as_slice(), &entry)? {
            found.push(entry)?;
        }
    }
    Ok(found)
}

// Returns whether an entry is a link to a timer that has a file and isn't reached, and none of these links has its name.
fn is_further<T: Tree>(
    alloc: Global,
    tree: &T,
    units: &Units<'_>,
    found: &[Entry],
    entry: &Entry,
) -> Result<bool, AllocError>
    ensures { T.is_known ≡ true → IfOk result (λ is.
        is ≡ is_further (T.held tree.now).node (units_view units.now) found.now entry.now) }
{
    Ok(!is_named(found, &entry.name) && is_unwanted(alloc, tree, units, entry)?)
}

// Returns whether one of some links has this name.
fn is_named(found: &[Entry], name: &Name) -> bool
    ensures { result ≡ is_named found.now name.now }
{
    found.iter().any(|other| other.name == *name)
}

// Returns whether an entry is a link to a timer that has a file and isn't reached.
fn is_unwanted<T: Tree>(
    alloc: Global,
    tree: &T,
    units: &Units<'_>,
    entry: &Entry,
) -> Result<bool, AllocError>
    ensures { T.is_known ≡ true → IfOk result (λ is.
        is ≡ is_unwanted (T.held tree.now).node (units_view units.now) entry.now) }
{
    if !is_timer(&entry.name) || is_in(entry.name.as_str(), units.reached) {
        return Ok(false);
    }
    if !is_counted(alloc, tree, entry.real.as_str())? {
        return Ok(false);
    }
    has_own_unit(alloc, tree, units.dirs, &entry.name)
}

// Returns whether a name isn't an alias, and has a file.
fn has_own_unit<T: Tree>(
    alloc: Global,
    tree: &T,
    dirs: &[UnitDir],
    name: &Name,
) -> Result<bool, AllocError>
    ensures { T.is_known ≡ true → IfOk result (λ has.
        has ≡ has_own_file name.now (unit_of (T.held tree.now).node dirs.now name.now)) }
{
    let unit = unit_of(alloc, tree, dirs, name.as_str())?;
    Ok(has_own_file(name, &unit))
}

// Returns whether a name that isn't an alias has a unit.
fn has_own_file(name: &Name, unit: &Option<Unit>) -> bool
    ensures { result ≡ has_own_file name.now unit.now }
{
    match unit {
        None => false,
        Some(unit) => unit.name == *name,
    }
}

// Returns the link with a path as skipped.
fn unwanted_at(alloc: Global, path: &str) -> Result<Skipped, AllocError>
    ensures { IfOk result (λ skipped. skipped ≡ unwanted_at path.now) }
{
    Ok(Skipped {
        path: copy_of(alloc, path)?,
        why: Why::WantedBy(unit_in(alloc, path)?),
    })
}

// Returns the name of the unit in whose directory of links a path is.
fn unit_in(alloc: Global, path: &str) -> Result<Text, AllocError>
    ensures { IfOk result (λ unit. unit ≡ unit_in path.now) }
{
    let mut dir = Place::at(alloc, path)?;
    dir.leave();
    copy_of(alloc, stem(last_name(dir.as_str())))
}
