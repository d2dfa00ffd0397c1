//! The search path of the units of a user (systemd.unit(5), user unit search path).

ghost use Rattle.std.specs.Prelude.{◌≡◌, true, IfOk, map};
ghost use Rattle.plan_users.specs.Dirs.{config_dir, data_dir, has_dirs, is_dir, paths_by, user_dirs};

use plan_tree::{Place, Tree};
use plan_units::{UnitDir, dir_at, dirs_at};
use std::alloc::{AllocError, Global};

// Returns the directories of the units of a user with this home directory that exist in a tree, first to last.
pub(crate) fn user_dirs<T: Tree>(
    alloc: Global,
    tree: &T,
    home: &Place,
) -> Result<Vec<UnitDir>, AllocError>
    ensures { T.is_known ≡ true → IfOk result (λ dirs. dirs.items ≡ user_dirs (T.held tree.now).node home.now) }
{
    let config = config_dir(alloc, home)?;
    let share = data_dir(alloc, home)?;
    let paths = paths_by(config.as_str(), share.as_str());
    dirs_at(alloc, tree, &paths)
}

// Returns the paths of the directories of units, first to last, by those of the two in the home directory.
fn paths_by<'a>(config: &'a str, share: &'a str) -> [&'a str; 9]
    ensures { map (λ path. path.now) result ≡ paths_by config.now share.now }
{
    [
        config,
        "etc/systemd/user",
        "run/systemd/user",
        share,
        "usr/local/share/systemd/user",
        "usr/share/systemd/user",
        "usr/local/lib/systemd/user",
        "lib/systemd/user",
        "usr/lib/systemd/user",
    ]
}

// Returns the first directory of units in a home directory.
pub(crate) fn config_dir(alloc: Global, home: &Place) -> Result<Place, AllocError>
    ensures { IfOk result (λ dir. dir ≡ config_dir home.now) }
{
    home.child(alloc, ".config/systemd/user")
}

// Returns the second directory of units in a home directory.
pub(crate) fn data_dir(alloc: Global, home: &Place) -> Result<Place, AllocError>
    ensures { IfOk result (λ dir. dir ≡ data_dir home.now) }
{
    home.child(alloc, ".local/share/systemd/user")
}

// Returns whether a home directory has a directory of units.
pub(crate) fn has_dirs<T: Tree>(alloc: Global, tree: &T, home: &Place) -> Result<bool, AllocError>
    ensures { T.is_known ≡ true → IfOk result (λ has. has ≡ has_dirs (T.held tree.now).node home.now) }
{
    let config = config_dir(alloc, home)?;
    if is_dir(alloc, tree, config.as_str())? {
        return Ok(true);
    }
    let share = data_dir(alloc, home)?;
    is_dir(alloc, tree, share.as_str())
}

// Returns whether a path leads to a directory.
#[tactic(auto, unfolding(crate::specs::Dirs::is_dir))]
fn is_dir<T: Tree>(alloc: Global, tree: &T, path: &str) -> Result<bool, AllocError>
    ensures { T.is_known ≡ true → IfOk result (λ is. is ≡ is_dir (T.held tree.now).node path.now) }
{
    let dir = dir_at(alloc, tree, path)?;
    Ok(dir.is_some())
}
