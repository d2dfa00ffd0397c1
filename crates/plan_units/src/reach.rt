//! The units that are reached from a unit.

ghost use Rattle.std.specs.Prelude.{◌≡◌, true, IfOk, IfNone, IfSome, OnOk};
ghost use Rattle.plan_units.specs.Reach.{AreReached, AreTooMany, with_name, with_new};

use plan_tree::Name;
use std::alloc::{AllocError, Global};

/// Which units a unit wants.
pub trait Wants {
    ghost use Rattle.std.specs.Prelude.{◌≡◌, Bool, true, IfOk, List, ℕ};

    /// Whether contracts know what units want.
    ghost is_known: { Bool };

    /// The names of the units that the unit with a name wants.
    ghost wants: { Self → List ℕ → List (List ℕ) };

    /// Returns the names of the units that the unit with a name wants.
    fn wanted(&self, alloc: Global, name: &str) -> Result<Vec<Name>, AllocError>
        ensures { is_known ≡ true → IfOk result (λ names. names.items ≡ wants self.now name.now) };
}

/// The maximum number of units.
const MOST_UNITS: usize = 10_000;

/// Returns the units that are reached from a unit, or `None` if there are more than 10,000.
///
/// # Errors
///
/// `AllocError` if an allocation fails.
pub fn reached<W: Wants>(
    alloc: Global,
    units: &W,
    first: Name,
) -> Result<Option<Vec<Name>>, AllocError>
    ensures all { W.is_known ≡ true → IfOk result (λ found.
        IfSome found (λ names. AreReached (W.wants units.now) first names.items)) }
    ensures too_many { W.is_known ≡ true → IfOk result (λ found.
        IfNone found (AreTooMany (W.wants units.now) first)) }
{
    let mut found = Vec::new(alloc);
    found.push(first)?;
    for place in 0..MOST_UNITS {
        if place == found.len() {
            return Ok(Some(found));
        }
        let names = units.wanted(alloc, found[place].as_str())?;
        add_new(&mut found, names)?;
    }
    if found.len() <= MOST_UNITS {
        Ok(Some(found))
    } else {
        Ok(None)
    }
}

/// Adds the names that aren't found yet.
///
/// # Errors
///
/// `AllocError` if an allocation fails.
pub fn add_new(found: &mut Vec<Name>, names: Vec<Name>) -> Result<(), AllocError>
    ensures { OnOk result (found.new.items ≡ with_new found.old.items names.items) }
{
    for name in names {
        add(found, name)?;
    }
    Ok(())
}

// Adds a name if it isn't found yet.
fn add(found: &mut Vec<Name>, name: Name) -> Result<(), AllocError>
    ensures { OnOk result (found.new.items ≡ with_name found.old.items name) }
{
    if found.as_slice().contains(&name) {
        return Ok(());
    }
    found.push(name)?;
    Ok(())
}
