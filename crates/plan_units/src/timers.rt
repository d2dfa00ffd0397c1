//! The timers that start with the machine.

ghost use Rattle.std.specs.Prelude.{◌≡◌, true, IfNone, IfOk, IfSome, filter};
ghost use Rattle.plan_units.specs.Reach.{AreTooMany};
ghost use Rattle.plan_units.specs.Timers.{AreTimers, first_unit, is_timer};
ghost use Rattle.plan_units.specs.Wants.{wants_of};

use crate::paths::UnitDir;
use crate::wants::reached_units;
use plan_tree::{Name, Tree};
use std::alloc::{AllocError, Global};

/// Returns the names of the timers that are reached from `default.target`, or `None` if more than 10,000 units are.
///
/// A name may be an alias or masked, or have no file: see `unit_of` and `is_mask`.
///
/// # Errors
///
/// `AllocError` if an allocation fails.
pub fn boot_timers<T: Tree>(
    alloc: Global,
    tree: &T,
    dirs: &[UnitDir],
) -> Result<Option<Vec<Name>>, AllocError>
    ensures all { T.is_known ≡ true → IfOk result (λ found.
        IfSome found (λ names. AreTimers (T.held tree.now) dirs.now names.items)) }
    ensures too_many { T.is_known ≡ true → IfOk result (λ found.
        IfNone found (AreTooMany (wants_of (T.held tree.now) dirs.now) first_unit)) }
{
    let first = Name::at(alloc, "default.target")?;
    match reached_units(alloc, tree, dirs, first)? {
        None => Ok(None),
        Some(names) => Ok(Some(timers_among(names))),
    }
}

// Returns the names that are those of timers.
fn timers_among(names: Vec<Name>) -> Vec<Name>
    ensures { result.items ≡ filter is_timer names.items }
{
    let mut names = names;
    names.retain(|name| is_timer(name));
    names
}

/// Returns whether a name is that of a timer.
pub fn is_timer(name: &Name) -> bool
    ensures { result ≡ is_timer name.now }
{
    name.as_str().as_bytes().ends_with(b".timer")
}
