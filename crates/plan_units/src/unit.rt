//! The unit of a name.

ghost use Rattle.std.specs.Prelude.{◌≡◌, true, IfOk};
ghost use Rattle.plan_units.specs.Unit.{unit_of, unit_within};

use crate::file::{UnitFile, file_of_unit};
use crate::names::named_for;
use crate::paths::UnitDir;
use plan_tree::{Name, Tree};
use std::alloc::{AllocError, Global};

/// A unit.
#[derive(Debug, Drop)]
pub struct Unit {
    /// Its name.
    pub name: Name,
    /// Its file, or that of its template.
    pub file: UnitFile,
}

/// The maximum number of names that are read, if one is an alias of the next.
const MOST_NAMES: u32 = 8;

/// Returns the unit of a name, or `None` if no file counts for it. An alias is the unit that it names
/// (systemd.unit(5)).
///
/// # Errors
///
/// `AllocError` if an allocation fails.
pub fn unit_of<T: Tree>(
    alloc: Global,
    tree: &T,
    dirs: &[UnitDir],
    name: &str,
) -> Result<Option<Unit>, AllocError>
    ensures { T.is_known ≡ true → IfOk result (λ unit.
        unit ≡ unit_of (T.held tree.now).node dirs.now name.now) }
{
    unit_within(alloc, tree, dirs, MOST_NAMES, Name::at(alloc, name)?)
}

// Returns the unit of a name, if at most `names` names may be read.
fn unit_within<T: Tree>(
    alloc: Global,
    tree: &T,
    dirs: &[UnitDir],
    names: u32,
    name: Name,
) -> Result<Option<Unit>, AllocError>
    ensures { T.is_known ≡ true → IfOk result (λ unit.
        unit ≡ unit_within (T.held tree.now).node dirs.now names name) }
{
    if names == 0 {
        return Ok(None);
    }
    let Some(file) = file_of_unit(alloc, tree, dirs, name.as_str())? else {
        return Ok(None);
    };
    match &file.alias {
        None => Ok(Some(Unit { name, file })),
        Some(alias) => {
            let other = named_for(alloc, name.as_str(), alias.as_str())?;
            unit_within(alloc, tree, dirs, names - 1, other)
        }
    }
}
