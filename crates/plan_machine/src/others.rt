//! What starts jobs on a machine but isn't planned.

ghost use Rattle.std.specs.Prelude.{◌≡◌, true, IfOk, map};
ghost use Rattle.std.specs.List.{list_any};
ghost use Rattle.std.specs.Str.{bytes_eq};
ghost use Rattle.plan_machine.specs.Others.{anacron_jobs, at_jobs, at_paths, has_at_job, has_file, has_timer, has_timer_below, has_user_timer, homeless_timers, is_file_at, is_timer_below, is_timer_entry, is_unit_entry, timers_of_home, timers_of_homes, user_units};

use crate::directories::{is_directory, names_at, names_in};
use crate::files::{is_file, lead_of};
use plan_texts::Text;
use plan_timers::{NotPlanned, Unplanned, copy_of};
use plan_tree::{End, Name, Node, Place, Tree};
use plan_users::user_homes;
use std::alloc::{AllocError, Global};

/// Returns the table of anacron, if there is one.
///
/// # Errors
///
/// `AllocError` if an allocation fails.
pub fn anacron_jobs<T: Tree>(alloc: Global, tree: &T) -> Result<Option<NotPlanned>, AllocError>
    ensures { T.is_known ≡ true → IfOk result (λ found. found ≡ anacron_jobs (T.held tree.now).node) }
{
    let end = lead_of(alloc, tree, "etc/anacrontab")?;
    if !is_file_at(alloc, tree, &end)? {
        return Ok(None);
    }
    Ok(Some(NotPlanned {
        path: copy_of(alloc, "etc/anacrontab")?,
        why: Unplanned::Anacron,
    }))
}

// Returns whether a path leads to a regular file.
fn is_file_at<T: Tree>(alloc: Global, tree: &T, end: &End) -> Result<bool, AllocError>
    ensures { T.is_known ≡ true → IfOk result (λ is. is ≡ is_file_at (T.held tree.now).node end.now) }
{
    match end {
        End::Found(path) => Ok(is_file(&tree.node(alloc, path.as_str())?)),
        End::Nothing | End::Unknown => Ok(false),
    }
}

/// Returns the directories that have jobs of at.
///
/// # Errors
///
/// `AllocError` if an allocation fails.
pub fn at_jobs<T: Tree>(alloc: Global, tree: &T) -> Result<Vec<NotPlanned>, AllocError>
    ensures { T.is_known ≡ true → IfOk result (λ found. found.items ≡ at_jobs (T.held tree.now)) }
{
    let mut found = Vec::new(alloc);
    for path in &at_paths() {
        let end = lead_of(alloc, tree, path)?;
        if has_at_job(alloc, tree, &end)? {
            found.push(NotPlanned {
                path: copy_of(alloc, path)?,
                why: Unplanned::AtJobs,
            })?;
        }
    }
    Ok(found)
}

// Returns the directories in which at keeps its jobs.
fn at_paths() -> [&'static str; 4]
    ensures { map (λ path. path.now) result ≡ at_paths }
{
    [
        "var/spool/cron/atjobs",
        "var/spool/at",
        "var/spool/atd",
        "var/spool/atjobs",
    ]
}

// Returns whether the directory where a path leads has a job of at.
fn has_at_job<T: Tree>(alloc: Global, tree: &T, end: &End) -> Result<bool, AllocError>
    ensures { T.is_known ≡ true → IfOk result (λ has. has ≡ has_at_job (T.held tree.now) end.now) }
{
    match end {
        End::Found(dir) => {
            let names = names_in(alloc, tree, dir.as_str())?;
            has_file(alloc, tree, dir, names.as_slice())
        }
        End::Nothing | End::Unknown => Ok(false),
    }
}

// Returns whether one of these names in a directory is a regular file.
fn has_file<T: Tree>(
    alloc: Global,
    tree: &T,
    dir: &Place,
    names: &[Name],
) -> Result<bool, AllocError>
    ensures { T.is_known ≡ true → IfOk result (λ has. has ≡ has_file (T.held tree.now).node dir.now names.now) }
{
    for name in names {
        let path = dir.child(alloc, name.as_str())?;
        if is_file(&tree.node(alloc, path.as_str())?) {
            return Ok(true);
        }
    }
    Ok(false)
}

/// Returns the directories of users' units that have timers, of homes that aren't the home of a user in etc/passwd: those in home
/// in the order of their names, then that of root.
///
/// # Errors
///
/// `AllocError` if an allocation fails.
pub fn homeless_timers<T: Tree>(alloc: Global, tree: &T) -> Result<Vec<NotPlanned>, AllocError>
    ensures { T.is_known ≡ true → IfOk result (λ found. found.items ≡ homeless_timers (T.held tree.now)) }
{
    let known = user_homes(alloc, tree)?;
    let end = lead_of(alloc, tree, "home")?;
    let names = names_at(alloc, tree, &end)?;
    let mut found = timers_of_homes(alloc, tree, known.as_slice(), names.as_slice())?;
    let mut more = timers_of_home(alloc, tree, known.as_slice(), "root")?;
    found.append(&mut more)?;
    Ok(found)
}

// Returns those of homes with these names, without those that are known.
fn timers_of_homes<T: Tree>(
    alloc: Global,
    tree: &T,
    known: &[Place],
    names: &[Name],
) -> Result<Vec<NotPlanned>, AllocError>
    ensures { T.is_known ≡ true → IfOk result (λ found.
        found.items ≡ timers_of_homes (T.held tree.now) known.now names.now) }
{
    let home = Place::at(alloc, "home")?;
    let mut found = Vec::new(alloc);
    for name in names {
        let path = home.child(alloc, name.as_str())?;
        let mut more = timers_of_home(alloc, tree, known, path.as_str())?;
        found.append(&mut more)?;
    }
    Ok(found)
}

// Returns the directory of the units of a home, if it has timers and the home isn't known.
fn timers_of_home<T: Tree>(
    alloc: Global,
    tree: &T,
    known: &[Place],
    home: &str,
) -> Result<Vec<NotPlanned>, AllocError>
    ensures { T.is_known ≡ true → IfOk result (λ found.
        found.items ≡ timers_of_home (T.held tree.now) known.now home.now) }
{
    if is_among(known, home) {
        return Ok(Vec::new(alloc));
    }
    let path = user_units(alloc, home)?;
    let end = lead_of(alloc, tree, path.as_str())?;
    let mut found = Vec::new(alloc);
    if has_user_timer(alloc, tree, &end)? {
        found.push(NotPlanned {
            path,
            why: Unplanned::UserTimers,
        })?;
    }
    Ok(found)
}

// Returns whether a path is one of these.
fn is_among(places: &[Place], path: &str) -> bool
    ensures { result ≡ list_any (λ place. bytes_eq place path.now) places.now }
{
    places.iter().any(|place| place.as_str() == path)
}

// Returns the directory of a user's units.
fn user_units(alloc: Global, home: &str) -> Result<Text, AllocError>
    ensures { IfOk result (λ path. path ≡ user_units home.now) }
{
    let mut path = String::from_str(alloc, home)?;
    path.push_str("/.config/systemd/user")?;
    Ok(Text::new(path))
}

// Returns whether the directory where a path leads has a timer, or a directory in it has one.
fn has_user_timer<T: Tree>(alloc: Global, tree: &T, end: &End) -> Result<bool, AllocError>
    ensures { T.is_known ≡ true → IfOk result (λ has. has ≡ has_user_timer (T.held tree.now) end.now) }
{
    match end {
        End::Found(dir) => {
            let names = names_in(alloc, tree, dir.as_str())?;
            if has_timer(alloc, tree, dir, names.as_slice())? {
                return Ok(true);
            }
            has_timer_below(alloc, tree, dir, names.as_slice())
        }
        End::Nothing | End::Unknown => Ok(false),
    }
}

// Returns whether one of these names in a directory is that of a timer.
fn has_timer<T: Tree>(
    alloc: Global,
    tree: &T,
    dir: &Place,
    names: &[Name],
) -> Result<bool, AllocError>
    ensures { T.is_known ≡ true → IfOk result (λ has. has ≡ has_timer (T.held tree.now).node dir.now names.now) }
{
    for name in names {
        if is_timer_entry(alloc, tree, dir, name.as_str())? {
            return Ok(true);
        }
    }
    Ok(false)
}

// Returns whether a name in a directory is that of a timer.
fn is_timer_entry<T: Tree>(
    alloc: Global,
    tree: &T,
    dir: &Place,
    name: &str,
) -> Result<bool, AllocError>
    ensures { T.is_known ≡ true → IfOk result (λ is. is ≡ is_timer_entry (T.held tree.now).node dir.now name.now) }
{
    if !name.as_bytes().ends_with(b".timer") {
        return Ok(false);
    }
    let path = dir.child(alloc, name)?;
    Ok(is_unit_entry(&tree.node(alloc, path.as_str())?))
}

// Returns whether a node is neither a directory nor a mask.
fn is_unit_entry(node: &Node) -> bool
    ensures { result ≡ is_unit_entry node.now }
{
    match node {
        Node::Directory => false,
        Node::Link(text) => text.as_str() != "/dev/null",
        _ => true,
    }
}

// Returns whether one of these names in a directory is a directory that has a timer.
fn has_timer_below<T: Tree>(
    alloc: Global,
    tree: &T,
    dir: &Place,
    names: &[Name],
) -> Result<bool, AllocError>
    ensures { T.is_known ≡ true → IfOk result (λ has. has ≡ has_timer_below (T.held tree.now) dir.now names.now) }
{
    for name in names {
        let path = dir.child(alloc, name.as_str())?;
        if is_timer_below(alloc, tree, &path)? {
            return Ok(true);
        }
    }
    Ok(false)
}

// Returns whether a path is that of a directory that has a timer.
fn is_timer_below<T: Tree>(alloc: Global, tree: &T, path: &Place) -> Result<bool, AllocError>
    ensures { T.is_known ≡ true → IfOk result (λ is. is ≡ is_timer_below (T.held tree.now) path.now) }
{
    if !is_directory(&tree.node(alloc, path.as_str())?) {
        return Ok(false);
    }
    let names = names_in(alloc, tree, path.as_str())?;
    has_timer(alloc, tree, path, names.as_slice())
}
