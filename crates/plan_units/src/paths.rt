//! The search path of units (systemd.unit(5)).

ghost use Rattle.std.specs.Prelude.{◌≡◌, true, IfOk, OnOk, Some, map};
ghost use Rattle.std.specs.List.{list_any};
ghost use Rattle.std.specs.Str.{bytes_eq};
ghost use Rattle.plan_tree.specs.Links.{end_of};
ghost use Rattle.plan_units.specs.Entries.{read_dir};
ghost use Rattle.plan_units.specs.SearchPath.{dir_by, dirs_at, is_of_system, search_path, unit_paths, with_dir};

use plan_tree::{End, Node, Place, Tree, follow};
use std::alloc::{AllocError, Global};

/// A directory of units, or a directory in one.
#[derive(Debug, Drop)]
pub struct UnitDir {
    /// Its path.
    pub path: Place,
    /// The path that it is read by: where its path leads. A directory that was only named may be a link there.
    pub real: Place,
}

impl UnitDir {
    ghost use Rattle.plan_units.specs.Entries.{dir_in};

    /// Returns the directory of a name in this directory.
    ///
    /// # Errors
    ///
    /// `AllocError` if an allocation fails.
    pub fn child(&self, alloc: Global, name: &str) -> Result<UnitDir, AllocError>
        ensures { IfOk result (λ dir. dir ≡ dir_in self.now name.now) }
    {
        Ok(UnitDir {
            path: self.path.child(alloc, name)?,
            real: self.real.child(alloc, name)?,
        })
    }
}

// Returns the paths of the directories of units, first to last.
pub(crate) fn unit_paths() -> [&'static str; 13]
    ensures { map (λ path. path.now) result ≡ unit_paths }
{
    [
        "etc/systemd/system.control",
        "run/systemd/system.control",
        "run/systemd/transient",
        "run/systemd/generator.early",
        "etc/systemd/system",
        "etc/systemd/system.attached",
        "run/systemd/system",
        "run/systemd/system.attached",
        "run/systemd/generator",
        "usr/local/lib/systemd/system",
        "lib/systemd/system",
        "usr/lib/systemd/system",
        "run/systemd/generator.late",
    ]
}

// Returns whether directories are those of the system's units.
pub(crate) fn is_of_system(dirs: &[UnitDir]) -> bool
    ensures { result ≡ is_of_system dirs.now }
{
    dirs.iter().any(|dir| is_system_path(dir.path.as_str()))
}

// Returns whether a path is that of a directory of the system's units.
fn is_system_path(path: &str) -> bool
    ensures { result ≡ list_any (bytes_eq path.now) unit_paths }
{
    is_one_of(path, &unit_paths())
}

// Returns whether a path is one of some paths.
fn is_one_of(path: &str, others: &[&str]) -> bool
    ensures { result ≡ list_any (bytes_eq path.now) (map (λ other. other.now) others.now) }
{
    for other in others {
        if path == *other {
            return true;
        }
    }
    false
}

/// Returns the directories of units that exist in a tree, first to last.
///
/// A directory that is the same as an earlier one, at the end of its links, is skipped.
///
/// # Errors
///
/// `AllocError` if an allocation fails.
#[tactic(auto, unfolding(crate::specs::SearchPath::dirs_at))]
pub fn search_path<T: Tree>(alloc: Global, tree: &T) -> Result<Vec<UnitDir>, AllocError>
    ensures { T.is_known ≡ true → IfOk result (λ dirs. dirs.items ≡ search_path (T.held tree.now).node) }
{
    dirs_at(alloc, tree, &unit_paths())
}

/// Returns the directories where some paths lead, in order. One that is the same as an earlier one is skipped.
///
/// # Errors
///
/// `AllocError` if an allocation fails.
#[tactic(auto, unfolding(crate::specs::SearchPath::dirs_at))]
pub fn dirs_at<T: Tree>(alloc: Global, tree: &T, paths: &[&str]) -> Result<Vec<UnitDir>, AllocError>
    ensures { T.is_known ≡ true → IfOk result (λ dirs.
        dirs.items ≡ dirs_at (T.held tree.now).node (map (λ path. path.now) paths.now)) }
{
    let mut dirs = Vec::new(alloc);
    for path in paths {
        if let Some(dir) = dir_at(alloc, tree, path)? {
            add_dir(&mut dirs, dir)?;
        }
    }
    Ok(dirs)
}

/// Returns the directory where a path leads, if it leads to one.
///
/// # Errors
///
/// `AllocError` if an allocation fails.
pub fn dir_at<T: Tree>(alloc: Global, tree: &T, path: &str) -> Result<Option<UnitDir>, AllocError>
    ensures { T.is_known ≡ true → IfOk result (λ dir.
        dir ≡ dir_by (T.held tree.now).node path.now (end_of (T.held tree.now).node path.now)) }
{
    dir_from(alloc, tree, path, path)
}

// Returns the directory with a path where another path leads, if it leads to one.
fn dir_from<T: Tree>(
    alloc: Global,
    tree: &T,
    path: &str,
    from: &str,
) -> Result<Option<UnitDir>, AllocError>
    ensures { T.is_known ≡ true → IfOk result (λ dir.
        dir ≡ dir_by (T.held tree.now).node path.now (end_of (T.held tree.now).node from.now)) }
{
    match follow(alloc, tree, from)? {
        End::Found(real) => match tree.node(alloc, real.as_str())? {
            Node::Directory => Ok(Some(UnitDir {
                path: Place::at(alloc, path)?,
                real,
            })),
            _ => Ok(None),
        },
        End::Nothing | End::Unknown => Ok(None),
    }
}

/// Returns the directory that is read in place of one, if there is one: that where it leads if it is a link, with its path,
/// or else itself.
///
/// # Errors
///
/// `AllocError` if an allocation fails.
pub fn read_dir<T: Tree>(
    alloc: Global,
    tree: &T,
    dir: &UnitDir,
) -> Result<Option<UnitDir>, AllocError>
    ensures { T.is_known ≡ true → IfOk result (λ found. found ≡ read_dir (T.held tree.now).node dir.now) }
{
    let path = dir.path.as_str();
    let real = dir.real.as_str();
    match tree.node(alloc, real)? {
        Node::Directory => Ok(Some(UnitDir {
            path: Place::at(alloc, path)?,
            real: Place::at(alloc, real)?,
        })),
        Node::Link(_) => dir_from(alloc, tree, path, real),
        _ => Ok(None),
    }
}

// Adds a directory, unless one is the same.
fn add_dir(dirs: &mut Vec<UnitDir>, dir: UnitDir) -> Result<(), AllocError>
    ensures { OnOk result (dirs.new.items ≡ with_dir dirs.old.items (Some dir)) }
{
    if is_among(dirs.as_slice(), dir.real.as_str()) {
        return Ok(());
    }
    dirs.push(dir)?;
    Ok(())
}

// Returns whether a path is where one of some directories leads.
fn is_among(dirs: &[UnitDir], real: &str) -> bool
    ensures { result ≡ list_any (λ other. bytes_eq other.real real.now) dirs.now }
{
    dirs.iter().any(|other| other.real.as_str() == real)
}
