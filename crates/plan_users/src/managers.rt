//! The users who can have a manager of units (user@.service(5)).

ghost use Rattle.std.specs.Prelude.{◌≡◌, ◌==◌, [], true, IfOk, map};
ghost use Rattle.std.specs.List.{list_any};
ghost use Rattle.std.specs.Str.{byte};
ghost use Rattle.plan_tree.specs.Place.{names_of};
ghost use Rattle.plan_users.specs.Managers.{home_of, homes_of, inside, is_file_name, manager_of, managers_after, managers_of, new_manager, place_from};

use plan_owners::{User, users_of};
use plan_rules::Names;
use plan_texts::{Text, begins_with};
use plan_timers::copy_of;
use plan_tree::{Place, Tree, is_here, is_up, names_of};
use std::alloc::{AllocError, Global};

// A user who can have a manager of units.
#[derive(Debug, Drop)]
pub(crate) struct Manager {
    // The name of the user.
    pub(crate) user: Text,
    // The number of the user, in decimal.
    pub(crate) number: Text,
    // The home directory, as a path in the tree.
    pub(crate) home: Place,
}

// Returns the users who can have a manager, in the order of etc/passwd.
pub(crate) fn managers_of<T: Tree>(alloc: Global, tree: &T) -> Result<Vec<Manager>, AllocError>
    ensures { T.is_known ≡ true → IfOk result (λ managers. managers.items ≡ managers_of (T.held tree.now)) }
{
    match users_of(alloc, tree)? {
        Some(users) => managers_among(alloc, users.as_slice()),
        None => Ok(Vec::new(alloc)),
    }
}

/// Returns the home directories of the users who can have a manager of units, as paths in the tree, in the order of etc/passwd.
///
/// # Errors
///
/// `AllocError` if an allocation fails.
pub fn user_homes<T: Tree>(alloc: Global, tree: &T) -> Result<Vec<Place>, AllocError>
    ensures { T.is_known ≡ true → IfOk result (λ homes. homes.items ≡ homes_of (T.held tree.now)) }
{
    let managers = managers_of(alloc, tree)?;
    homes_among(alloc, managers)
}

// Returns the home directories of some users.
fn homes_among(alloc: Global, managers: Vec<Manager>) -> Result<Vec<Place>, AllocError>
    ensures { IfOk result (λ homes. homes.items ≡ map (λ manager. manager.home) managers.items) }
{
    let mut homes = Vec::new(alloc);
    for manager in managers {
        homes.push(manager.home)?;
    }
    Ok(homes)
}

// Returns those of some users who can have a manager.
fn managers_among(alloc: Global, users: &[User]) -> Result<Vec<Manager>, AllocError>
    ensures { IfOk result (λ managers. managers.items ≡ managers_after [] users.now) }
{
    let mut managers = Vec::new(alloc);
    let mut names = Names::new(alloc);
    for user in users {
        if let Some(manager) = new_manager(alloc, &names, user)? {
            managers.push(manager)?;
        }
        names.add(alloc, user.name.as_str())?;
    }
    Ok(managers)
}

// Returns the manager of a user, if none of these names is the user's.
fn new_manager(alloc: Global, names: &Names, user: &User) -> Result<Option<Manager>, AllocError>
    ensures { IfOk result (λ manager. manager ≡ new_manager names.now user.now) }
{
    if names.contains(user.name.as_str()) {
        return Ok(None);
    }
    manager_of(alloc, user)
}

// Returns the manager of a user who can have one.
fn manager_of(alloc: Global, user: &User) -> Result<Option<Manager>, AllocError>
    ensures { IfOk result (λ manager. manager ≡ manager_of user.now) }
{
    if !is_file_name(user.name.as_str()) {
        return Ok(None);
    }
    match home_of(alloc, user.home.as_str())? {
        None => Ok(None),
        Some(home) => Ok(Some(Manager {
            user: copy_of(alloc, user.name.as_str())?,
            number: copy_of(alloc, user.number.as_str())?,
            home,
        })),
    }
}

// Returns whether a file in a directory can have a name.
fn is_file_name(name: &str) -> bool
    ensures { result ≡ is_file_name name.now }
{
    !is_here(name) && !is_up(name) && !has_slash(name.as_bytes())
}

// Returns whether a text has a slash.
fn has_slash(text: &[u8]) -> bool
    ensures { result ≡ list_any (λ b. b == byte "/") text.now }
{
    text.iter().any(|byte| *byte == b'/')
}

// Returns the path in the tree of a home directory, if it is an absolute path.
fn home_of(alloc: Global, home: &str) -> Result<Option<Place>, AllocError>
    ensures { IfOk result (λ place. place ≡ home_of home.now) }
{
    if !begins_with(home.as_bytes(), b'/') {
        return Ok(None);
    }
    Ok(Some(place_of(alloc, home)?))
}

// Returns the path in the tree of a path.
fn place_of(alloc: Global, path: &str) -> Result<Place, AllocError>
    ensures { IfOk result (λ place. place ≡ place_from [] (names_of path.now)) }
{
    let names = names_of(alloc, path)?;
    let mut place = Place::root(alloc);
    for name in names.as_slice() {
        place = inside(alloc, place, name)?;
    }
    Ok(place)
}

// Returns a directory, or the one with a name in it.
fn inside(alloc: Global, dir: Place, name: &str) -> Result<Place, AllocError>
    ensures { IfOk result (λ place. place ≡ inside dir name.now) }
{
    if is_here(name) {
        return Ok(dir);
    }
    dir.child(alloc, name)
}
