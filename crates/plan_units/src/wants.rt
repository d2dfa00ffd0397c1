//! Which units a unit wants, and the units that are reached (systemd.unit(5)).

ghost use Rattle.std.specs.Prelude.{◌≡◌, ◌++◌, true, IfOk, IfNone, IfSome, OnOk, if◌then◌else◌, ◌∷◌, []};
ghost use Rattle.plan_units.specs.Reach.{AreReached, AreTooMany};
ghost use Rattle.plan_units.specs.Wants.{counted_names, is_counted, linked_names, set_by_unit, set_in, wants_of, wants_of_unit};

use crate::drop_in_files::drop_ins;
use crate::mask::is_mask;
use crate::merging::{Entry, entries_among};
use crate::paths::UnitDir;
use crate::reach::{Wants, reached};
use crate::settings::set_names;
use crate::unit::{Unit, unit_of};
use crate::unit_dirs::unit_dirs;
use crate::validity::wanted_unit;
use plan_tree::{Name, Node, Tree};
use std::alloc::{AllocError, Global};

/// The units of a tree, by the directories of their search path.
#[derive(Drop)]
pub struct TreeUnits<'a, T: Tree> {
    /// The tree.
    pub tree: &'a T,
    /// The directories of units, first to last.
    pub dirs: &'a [UnitDir],
}

impl<T: Tree> Wants for TreeUnits<'_, T> {
    ghost use Rattle.plan_units.specs.Wants.{wants_of};

    ghost is_known = { T.is_known };

    ghost wants = { λ units name. wants_of (T.held units.tree.now) units.dirs.now name };

    fn wanted(&self, alloc: Global, name: &str) -> Result<Vec<Name>, AllocError> {
        wanted_names(alloc, self.tree, self.dirs, name)
    }
}

/// Returns the units of a tree that are reached from a name, or `None` if there are more than 10,000.
///
/// # Errors
///
/// `AllocError` if an allocation fails.
pub fn reached_units<T: Tree>(
    alloc: Global,
    tree: &T,
    dirs: &[UnitDir],
    first: Name,
) -> Result<Option<Vec<Name>>, AllocError>
    ensures all { T.is_known ≡ true → IfOk result (λ found.
        IfSome found (λ names. AreReached (wants_of (T.held tree.now) dirs.now) first names.items)) }
    ensures too_many { T.is_known ≡ true → IfOk result (λ found.
        IfNone found (AreTooMany (wants_of (T.held tree.now) dirs.now) first)) }
{
    reached(alloc, &TreeUnits { tree, dirs }, first)
}

/// Returns the names that a name wants: the unit that it is, the units that are linked in the directories of the name, and
/// those that the files of its unit name. A name without a unit wants none, and of a masked unit only the unit is reached.
///
/// # Errors
///
/// `AllocError` if an allocation fails.
pub fn wanted_names<T: Tree>(
    alloc: Global,
    tree: &T,
    dirs: &[UnitDir],
    name: &str,
) -> Result<Vec<Name>, AllocError>
    ensures { T.is_known ≡ true → IfOk result (λ names.
        names.items ≡ wants_of (T.held tree.now) dirs.now name.now) }
{
    let mut names = Vec::new(alloc);
    let Some(unit) = unit_of(alloc, tree, dirs, name)? else {
        return Ok(names);
    };
    let mut wanted = wants_of_unit(alloc, tree, dirs, name, &unit)?;
    names.push(unit.name)?;
    names.append(&mut wanted)?;
    Ok(names)
}

// Returns the names that the unit of a name wants.
fn wants_of_unit<T: Tree>(
    alloc: Global,
    tree: &T,
    dirs: &[UnitDir],
    name: &str,
    unit: &Unit,
) -> Result<Vec<Name>, AllocError>
    ensures { T.is_known ≡ true → IfOk result (λ names.
        names.items ≡ wants_of_unit (T.held tree.now) dirs.now name.now unit.now) }
{
    if is_mask(alloc, tree, unit.file.real.as_str())? {
        return Ok(Vec::new(alloc));
    }
    let own = unit.name.as_str();
    let mut names = linked_names(alloc, tree, dirs, name, own, ".wants")?;
    let mut required = linked_names(alloc, tree, dirs, name, own, ".requires")?;
    let mut set = set_by_unit(alloc, tree, dirs, unit)?;
    names.append(&mut required)?;
    names.append(&mut set)?;
    Ok(names)
}

/// Returns the names that a unit's file and its drop-ins mean in settings such as `Wants=`.
///
/// # Errors
///
/// `AllocError` if an allocation fails.
pub fn set_by_unit<T: Tree>(
    alloc: Global,
    tree: &T,
    dirs: &[UnitDir],
    unit: &Unit,
) -> Result<Vec<Name>, AllocError>
    ensures { T.is_known ≡ true → IfOk result (λ names.
        names.items ≡ set_by_unit (T.held tree.now) dirs.now unit.now) }
{
    let name = unit.name.as_str();
    let mut names = set_names(alloc, tree, name, unit.file.real.as_str())?;
    let found = drop_ins(alloc, tree, dirs, name)?;
    let mut more = set_in(alloc, tree, name, found.as_slice())?;
    names.append(&mut more)?;
    Ok(names)
}

// Returns the names that some files of a unit write.
fn set_in<T: Tree>(
    alloc: Global,
    tree: &T,
    unit: &str,
    files: &[Entry],
) -> Result<Vec<Name>, AllocError>
    ensures { T.is_known ≡ true → IfOk result (λ names.
        names.items ≡ set_in (T.held tree.now) unit.now files.now) }
{
    let mut names = Vec::new(alloc);
    for file in files {
        let mut more = set_names(alloc, tree, unit, file.real.as_str())?;
        names.append(&mut more)?;
    }
    Ok(names)
}

// Returns the names that are linked in the directories of a name with a suffix, as they are meant for its unit.
fn linked_names<T: Tree>(
    alloc: Global,
    tree: &T,
    dirs: &[UnitDir],
    name: &str,
    unit: &str,
    suffix: &str,
) -> Result<Vec<Name>, AllocError>
    ensures { T.is_known ≡ true → IfOk result (λ names.
        names.items ≡ linked_names (T.held tree.now) dirs.now name.now unit.now suffix.now) }
{
    let places = unit_dirs(alloc, dirs, name, suffix)?;
    let found = entries_among(alloc, tree, places.as_slice())?;
    counted_names(alloc, tree, unit, found.as_slice())
}

// Returns the names of the entries that count, as they are meant for a unit, but for invalid ones. The entries that count
// are the links that lead to no mask.
fn counted_names<T: Tree>(
    alloc: Global,
    tree: &T,
    unit: &str,
    found: &[Entry],
) -> Result<Vec<Name>, AllocError>
    ensures { T.is_known ≡ true → IfOk result (λ names.
        names.items ≡ counted_names (T.held tree.now).node unit.now found.now) }
{
    let mut names = Vec::new(alloc);
    for entry in found {
        if is_counted(alloc, tree, entry.real.as_str())? {
            if let Some(name) = wanted_unit(alloc, unit, entry.name.as_str())? {
                names.push(name)?;
            }
        }
    }
    Ok(names)
}

/// Returns whether what has a path counts as a link to a unit: it is a link, and leads to no mask.
///
/// # Errors
///
/// `AllocError` if an allocation fails.
pub fn is_counted<T: Tree>(alloc: Global, tree: &T, path: &str) -> Result<bool, AllocError>
    ensures { T.is_known ≡ true → IfOk result (λ is. is ≡ is_counted (T.held tree.now).node path.now) }
{
    match tree.node(alloc, path)? {
        Node::Link(_) => Ok(!is_mask(alloc, tree, path)?),
        _ => Ok(false),
    }
}
