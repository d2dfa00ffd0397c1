//! The path of what enables a timer.

ghost use Rattle.std.specs.Prelude.{◌≡◌, true, IfOk};
ghost use Rattle.plan_units.specs.Reach.{is_in};
ghost use Rattle.plan_timers.specs.Wishes.{first_setting, is_set, path_of_setting, units_view, wish_of};

use crate::links::first_link;
use crate::units::Units;
use plan_tree::{Name, Place, Tree};
use plan_units::{Unit, UnitDir, is_mask, set_by_unit, unit_of};
use std::alloc::{AllocError, Global};

/// Returns the path of what enables a timer: its first link, or else its own file, or else the file of the
/// first unit that wants it by a setting. A timer without any of these is named by itself.
///
/// # Errors
///
/// `AllocError` if an allocation fails.
pub fn wish_of<T: Tree>(
    alloc: Global,
    tree: &T,
    units: &Units<'_>,
    name: &str,
) -> Result<Place, AllocError>
    ensures { T.is_known ≡ true → IfOk result (λ path.
        path ≡ wish_of (T.held tree.now) (units_view units.now) name.now) }
{
    if let Some(link) = first_link(alloc, tree, units.links, name)? {
        return Ok(link);
    }
    if let Some(unit) = unit_of(alloc, tree, units.dirs, name)? {
        return Place::at(alloc, unit.file.path.as_str());
    }
    match first_setting(alloc, tree, units.dirs, units.reached, name)? {
        Some(path) => Ok(path),
        None => Place::at(alloc, name),
    }
}

// Returns the path of the file of the first of some units that wants a unit by a setting.
fn first_setting<T: Tree>(
    alloc: Global,
    tree: &T,
    dirs: &[UnitDir],
    reached: &[Name],
    name: &str,
) -> Result<Option<Place>, AllocError>
    ensures { T.is_known ≡ true → IfOk result (λ path.
        path ≡ first_setting (T.held tree.now) dirs.now reached.now name.now) }
{
    for other in reached {
        let unit = unit_of(alloc, tree, dirs, other.as_str())?;
        if let Some(path) = path_of_setting(alloc, tree, dirs, &unit, name)? {
            return Ok(Some(path));
        }
    }
    Ok(None)
}

// Returns the path of the file of a unit, if there is one and it wants a unit by a setting.
fn path_of_setting<T: Tree>(
    alloc: Global,
    tree: &T,
    dirs: &[UnitDir],
    unit: &Option<Unit>,
    name: &str,
) -> Result<Option<Place>, AllocError>
    ensures { T.is_known ≡ true → IfOk result (λ path.
        path ≡ path_of_setting (T.held tree.now) dirs.now unit.now name.now) }
{
    let Some(unit) = unit else {
        return Ok(None);
    };
    if is_set(alloc, tree, dirs, unit, name)? {
        Ok(Some(Place::at(alloc, unit.file.path.as_str())?))
    } else {
        Ok(None)
    }
}

// Returns whether a unit wants a unit by a setting.
fn is_set<T: Tree>(
    alloc: Global,
    tree: &T,
    dirs: &[UnitDir],
    unit: &Unit,
    name: &str,
) -> Result<bool, AllocError>
    ensures { T.is_known ≡ true → IfOk result (λ is.
        is ≡ is_set (T.held tree.now) dirs.now unit.now name.now) }
{
    if is_mask(alloc, tree, unit.file.real.as_str())? {
        return Ok(false);
    }
    let names = set_by_unit(alloc, tree, dirs, unit)?;
    Ok(is_in(name, names.as_slice()))
}

// Returns whether a name is in a list.
pub(crate) fn is_in(name: &str, names: &[Name]) -> bool
    ensures { result ≡ is_in name.now names.now }
{
    names.iter().any(|other| other.as_str() == name)
}
