//! The order of timers.

ghost use Rattle.std.specs.Prelude.{◌≡◌, ◌==◌, IfOk};
ghost use Rattle.std.specs.Str.{byte};
ghost use Rattle.plan_timers.specs.Names.{has_at, in_timer_order};

use plan_tree::{Name, in_order};
use std::alloc::{AllocError, Global};

/// Returns the names of timers in the order of a machine's sources: first those without `@`, then the instances, both in
/// byte order.
///
/// # Errors
///
/// `AllocError` if an allocation fails.
pub fn in_timer_order(alloc: Global, names: Vec<Name>) -> Result<Vec<Name>, AllocError>
    ensures { IfOk result (λ ordered. ordered.items ≡ in_timer_order names.items) }
{
    let sorted = in_order(names);
    let mut others = Vec::new(alloc);
    let mut instances = Vec::new(alloc);
    for name in sorted {
        if has_at(name.as_str()) {
            instances.push(name)?;
        } else {
            others.push(name)?;
        }
    }
    others.append(&mut instances)?;
    Ok(others)
}

// Returns whether a name has an `@`.
pub(crate) fn has_at(name: &str) -> bool
    ensures { result ≡ has_at name.now }
{
    name.as_bytes().iter().any(|byte| *byte == b'@')
}
