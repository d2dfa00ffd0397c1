//! Whether the manager of a user starts with the machine (loginctl(1), enable-linger).

ghost use Rattle.std.specs.Prelude.{◌≡◌, true, IfOk};
ghost use Rattle.plan_users.specs.Lingering.{exists, lingers};

use plan_tree::{End, Place, Tree, follow};
use std::alloc::{AllocError, Global};

// Returns whether the user with a name lingers: var/lib/systemd/linger has that name.
pub(crate) fn lingers<T: Tree>(alloc: Global, tree: &T, name: &str) -> Result<bool, AllocError>
    ensures { T.is_known ≡ true → IfOk result (λ is. is ≡ lingers (T.held tree.now).node name.now) }
{
    let dir = Place::at(alloc, "var/lib/systemd/linger")?;
    let path = dir.child(alloc, name)?;
    exists(alloc, tree, path.as_str())
}

// Returns whether a path leads to something.
#[tactic(auto, unfolding(crate::specs::Lingering::exists))]
fn exists<T: Tree>(alloc: Global, tree: &T, path: &str) -> Result<bool, AllocError>
    ensures { T.is_known ≡ true → IfOk result (λ is. is ≡ exists (T.held tree.now).node path.now) }
{
    match follow(alloc, tree, path)? {
        End::Found(_) => Ok(true),
        End::Nothing | End::Unknown => Ok(false),
    }
}
