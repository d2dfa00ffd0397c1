//! The timers of the users of a machine, one user after the other.

ghost use Rattle.std.specs.Prelude.{◌≡◌, true, Any, IfOk, IfNone, IfSome};
ghost use Rattle.plan_units.specs.Reach.{AreTooMany};
ghost use Rattle.plan_units.specs.Timers.{first_unit};
ghost use Rattle.plan_units.specs.Wants.{wants_of};
ghost use Rattle.plan_users.specs.Dirs.{user_dirs};
ghost use Rattle.plan_users.specs.Found.{nothing, users_view};
ghost use Rattle.plan_users.specs.Timers.{AreFoundAfter, AreTooManyUserUnits, AreUserTimers, IsFoundFor, IsFoundIn, ReachesTooMany, has_units};
ghost use Rattle.plan_users.specs.UserTree.{held_for};

use crate::dirs::{has_dirs, user_dirs};
use crate::found::{UserTimers, found_for, joined, nothing};
use crate::lingering::lingers;
use crate::managers::{Manager, managers_of};
use crate::user_tree::UserTree;
use plan_timers::machine_timers;
use plan_tree::{Complete, Listed, Tree};
use plan_units::UnitDir;
use std::alloc::{AllocError, Global};

/// Returns what is found of the timers of the users in the etc/passwd of a machine: those that the manager of a user who
/// lingers starts, and the other users who have timers. In the files `%u`, `%U` and `%h` are the user's. Returns `None` if the
/// manager of a user reaches more than 10,000 units.
///
/// Of each file the first `most` bytes are read, or all if there are fewer. Read at least 1,048,577, one more than a text may
/// have: the unit that a timer starts is found in the bytes that were read.
///
/// # Errors
///
/// `AllocError` if an allocation fails.
pub fn user_timers<T: Complete>(
    alloc: Global,
    tree: &T,
    most: u64,
) -> Result<Option<UserTimers>, AllocError>
    ensures found { T.is_known ≡ true → IfOk result (λ found.
        IfSome found (λ timers. AreUserTimers (T.held tree.now) most (users_view timers))) }
    ensures too_many { T.is_known ≡ true → IfOk result (λ found.
        IfNone found (AreTooManyUserUnits (T.held tree.now))) }
{
    let managers = managers_of(alloc, tree)?;
    timers_among(alloc, tree, managers.as_slice(), most)
}

// Returns what is found for some users.
fn timers_among<T: Complete>(
    alloc: Global,
    tree: &T,
    managers: &[Manager],
    most: u64,
) -> Result<Option<UserTimers>, AllocError>
    ensures found { T.is_known ≡ true → IfOk result (λ found.
        IfSome found (λ timers. AreFoundAfter (T.held tree.now) most managers.now nothing (users_view timers))) }
    ensures too_many { T.is_known ≡ true → IfOk result (λ found.
        IfNone found (Any (ReachesTooMany (T.held tree.now)) managers.now)) }
{
    let mut found = nothing(alloc);
    for manager in managers {
        match timers_for(alloc, tree, manager, most)? {
            None => return Ok(None),
            Some(own) => found = joined(found, own)?,
        }
    }
    Ok(Some(found))
}

// Returns what is found for a user.
fn timers_for<T: Complete>(
    alloc: Global,
    tree: &T,
    manager: &Manager,
    most: u64,
) -> Result<Option<UserTimers>, AllocError>
    ensures found { T.is_known ≡ true → IfOk result (λ found.
        IfSome found (λ own. IsFoundFor (T.held tree.now) most manager.now (users_view own))) }
    ensures too_many { T.is_known ≡ true → IfOk result (λ found.
        IfNone found (ReachesTooMany (T.held tree.now) manager.now)) }
{
    let has = has_units(alloc, tree, manager)?;
    if has {
        timers_of(alloc, tree, manager, most)
    } else {
        Ok(Some(nothing(alloc)))
    }
}

// Returns what is found for a user whose timers are looked for.
fn timers_of<T: Complete>(
    alloc: Global,
    tree: &T,
    manager: &Manager,
    most: u64,
) -> Result<Option<UserTimers>, AllocError>
    ensures found { T.is_known ≡ true → IfOk result (λ found.
        IfSome found (λ own.
        IsFoundIn (held_for manager.now (T.held tree.now)) (user_dirs (T.held tree.now).node manager.now.home) most manager.now (users_view own))) }
    ensures too_many { T.is_known ≡ true → IfOk result (λ found.
        IfNone found (AreTooMany (wants_of (held_for manager.now (T.held tree.now)) (user_dirs (T.held tree.now).node manager.now.home)) first_unit)) }
{
    let dirs = user_dirs(alloc, tree, &manager.home)?;
    let listed = listed(alloc, tree, dirs.as_slice())?;
    let read = UserTree::new(&listed, manager);
    timers_in(alloc, &read, dirs.as_slice(), manager, most)
}

// Returns whether a user lingers, or has a directory of units at home.
fn has_units<T: Tree>(alloc: Global, tree: &T, manager: &Manager) -> Result<bool, AllocError>
    ensures { T.is_known ≡ true → IfOk result (λ has. has ≡ has_units (T.held tree.now).node manager.now) }
{
    if lingers(alloc, tree, manager.user.as_str())? {
        return Ok(true);
    }
    has_dirs(alloc, tree, &manager.home)
}

// Returns a tree that holds what `tree` does, and knows what is in these directories.
fn listed<'a, T: Complete>(
    alloc: Global,
    tree: &'a T,
    dirs: &[UnitDir],
) -> Result<Listed<'a, T>, AllocError>
    ensures { IfOk result (λ listed. ⟦<Listed<'a, T> as Tree>⟧.held listed ≡ T.held tree.now) }
{
    let mut paths = Vec::new(alloc);
    for dir in dirs {
        paths.push(dir.path.as_str())?;
        paths.push(dir.real.as_str())?;
    }
    Listed::new(alloc, tree, paths.as_slice())
}

// Returns what is found for a user whose units are in these directories.
fn timers_in<T: Tree>(
    alloc: Global,
    tree: &T,
    dirs: &[UnitDir],
    manager: &Manager,
    most: u64,
) -> Result<Option<UserTimers>, AllocError>
    ensures found { T.is_known ≡ true → IfOk result (λ found.
        IfSome found (λ own. IsFoundIn (T.held tree.now) dirs.now most manager.now (users_view own))) }
    ensures too_many { T.is_known ≡ true → IfOk result (λ found.
        IfNone found (AreTooMany (wants_of (T.held tree.now) dirs.now) first_unit)) }
{
    match machine_timers(alloc, tree, dirs, false, most)? {
        None => Ok(None),
        Some(timers) => {
            let found = found_for(alloc, tree, dirs, manager, timers)?;
            Ok(Some(found))
        }
    }
}
