//! Which file counts for a unit's name (systemd.unit(5)).

ghost use Rattle.std.specs.Prelude.{◌≡◌, ◌+◌, ◌-◌, ◌++◌, ◌∷◌, [], not, ◌==◌, true, IfOk, drop, length, map, nat_eq, nat_lt};
ghost use Rattle.std.specs.List.{list_any, prefix_len, suffix_len};
ghost use Rattle.std.specs.Str.{byte};
ghost use Rattle.plan_tree.specs.Place.{child, start};
ghost use Rattle.plan_units.specs.UnitFile.{file_at, file_by, file_by_lead, file_of_name, file_of_unit, is_below, is_below_dir, is_unit_path, last_name, lead, lead_from};

use crate::names::{can_be_alias, named_for, template_of};
use crate::paths::{UnitDir, is_of_system, unit_paths};
use crate::validity::{is_unit_name, is_valid_name};
use plan_texts::begins_with;
use plan_tree::{Name, Node, Place, Tree, is_here, is_up, names_of};
use std::alloc::{AllocError, Global};

/// The file of a name.
#[derive(Debug, Drop)]
pub struct UnitFile {
    /// Its path.
    pub path: Place,
    /// The path that it is read by: its directory is no link.
    pub real: Place,
    /// The other name that it stands for, if it is an alias.
    pub alias: Option<Name>,
}

/// Returns the file of a unit's name: that of the name itself, or else of its template. A name that is invalid or that of a
/// template is not that of a unit, so it has none.
///
/// # Errors
///
/// `AllocError` if an allocation fails.
pub fn file_of_unit<T: Tree>(
    alloc: Global,
    tree: &T,
    dirs: &[UnitDir],
    name: &str,
) -> Result<Option<UnitFile>, AllocError>
    ensures { T.is_known ≡ true → IfOk result (λ file.
        file ≡ file_of_unit (T.held tree.now).node dirs.now name.now) }
{
    if !is_unit_name(name) {
        return Ok(None);
    }
    if let Some(file) = file_of_name(alloc, tree, dirs, name)? {
        return Ok(Some(file));
    }
    match template_of(alloc, name)? {
        None => Ok(None),
        Some(template) => file_of_name(alloc, tree, dirs, template.as_str()),
    }
}

// Returns the file of a name: the first in the directories that counts.
fn file_of_name<T: Tree>(
    alloc: Global,
    tree: &T,
    dirs: &[UnitDir],
    name: &str,
) -> Result<Option<UnitFile>, AllocError>
    ensures { T.is_known ≡ true → IfOk result (λ file.
        file ≡ file_of_name (T.held tree.now).node dirs.now name.now) }
{
    for dir in dirs {
        if let Some(file) = file_in(alloc, tree, dirs, dir, name)? {
            return Ok(Some(file));
        }
    }
    Ok(None)
}

// Returns the file of a name in a directory of a search path, if one counts.
fn file_in<T: Tree>(
    alloc: Global,
    tree: &T,
    dirs: &[UnitDir],
    dir: &UnitDir,
    name: &str,
) -> Result<Option<UnitFile>, AllocError>
    ensures { T.is_known ≡ true → IfOk result (λ file.
        file ≡ file_by ((T.held tree.now).node (child dir.now.real name.now)) dirs.now dir.now name.now) }
{
    let real = dir.real.child(alloc, name)?;
    match tree.node(alloc, real.as_str())? {
        Node::Missing | Node::Unreadable | Node::Directory => Ok(None),
        Node::Link(text) => {
            let to = lead(alloc, dir.path.as_str(), text.as_str())?;
            file_by_lead(alloc, dirs, dir, name, to.as_str())
        }
        Node::File { .. } | Node::Null | Node::Other => {
            Ok(Some(file_at(alloc, dir, name, None)?))
        }
    }
}

// Returns the file of a name that is a link in a directory, if it counts. By its names the link leads to `to`.
fn file_by_lead(
    alloc: Global,
    dirs: &[UnitDir],
    dir: &UnitDir,
    name: &str,
    to: &str,
) -> Result<Option<UnitFile>, AllocError>
    ensures { IfOk result (λ file. file ≡ file_by_lead dirs.now dir.now name.now to.now) }
{
    if !is_unit_path(alloc, dirs, to)? {
        return Ok(Some(file_at(alloc, dir, name, None)?));
    }
    let last = last_name(to);
    if !is_valid_name(last) || !can_be_alias(name, last) {
        return Ok(None);
    }
    if named_for(alloc, name, last)?.as_str() == name {
        return Ok(None);
    }
    let alias = Name::at(alloc, last)?;
    Ok(Some(file_at(alloc, dir, name, Some(alias))?))
}

// Returns the file of a name in a directory.
fn file_at(
    alloc: Global,
    dir: &UnitDir,
    name: &str,
    alias: Option<Name>,
) -> Result<UnitFile, AllocError>
    ensures { IfOk result (λ file. file ≡ file_at dir.now name.now alias) }
{
    let UnitDir { path, real } = dir.child(alloc, name)?;
    Ok(UnitFile { path, real, alias })
}

// Returns where the text of a link in a directory leads, by its names alone.
fn lead(alloc: Global, dir: &str, text: &str) -> Result<Place, AllocError>
    ensures { IfOk result (λ place. place ≡ lead dir.now text.now) }
{
    let mut place = if begins_with(text.as_bytes(), b'/') {
        Place::root(alloc)
    } else {
        Place::at(alloc, dir)?
    };
    let names = names_of(alloc, text)?;
    for name in names.as_slice() {
        place = lead_on(alloc, place, name)?;
    }
    Ok(place)
}

// Returns where a name leads from a directory.
fn lead_on(alloc: Global, dir: Place, name: &str) -> Result<Place, AllocError>
    ensures { IfOk result (λ place. place ≡ lead_from dir (name.now ∷ [])) }
{
    if is_here(name) {
        return Ok(dir);
    }
    if is_up(name) {
        let mut dir = dir;
        dir.leave();
        return Ok(dir);
    }
    dir.child(alloc, name)
}

// Returns whether a path is below the search path that these directories are of.
fn is_unit_path(alloc: Global, dirs: &[UnitDir], path: &str) -> Result<bool, AllocError>
    ensures { IfOk result (λ is. is ≡ is_unit_path dirs.now path.now) }
{
    if is_of_system(dirs) {
        return is_below_any(alloc, path, &unit_paths());
    }
    is_below_dirs(alloc, path, dirs)
}

// Returns whether a path is below one of some directories.
fn is_below_any(alloc: Global, path: &str, dirs: &[&str]) -> Result<bool, AllocError>
    ensures { IfOk result (λ is. is ≡ list_any (λ dir. is_below path.now dir) (map (λ dir. dir.now) dirs.now)) }
{
    for dir in dirs {
        if is_below(alloc, path, dir)? {
            return Ok(true);
        }
    }
    Ok(false)
}

// Returns whether a path is below one of some directories, or below where one leads.
fn is_below_dirs(alloc: Global, path: &str, dirs: &[UnitDir]) -> Result<bool, AllocError>
    ensures { IfOk result (λ is. is ≡ list_any (λ dir. is_below_dir path.now dir) dirs.now) }
{
    for dir in dirs {
        if is_below_dir(alloc, path, dir)? {
            return Ok(true);
        }
    }
    Ok(false)
}

// Returns whether a path is below a directory, or below where that leads.
fn is_below_dir(alloc: Global, path: &str, dir: &UnitDir) -> Result<bool, AllocError>
    ensures { IfOk result (λ is. is ≡ is_below_dir path.now dir.now) }
{
    Ok(is_below(alloc, path, dir.path.as_str())? || is_below(alloc, path, dir.real.as_str())?)
}

/// Returns whether a path is below a directory.
///
/// # Errors
///
/// `AllocError` if an allocation fails.
pub fn is_below(alloc: Global, path: &str, dir: &str) -> Result<bool, AllocError>
    ensures { IfOk result (λ is. is ≡ is_below path.now dir.now) }
{
    let mut front = String::from_str(alloc, dir)?;
    front.push_str("/")?;
    Ok(path.as_bytes().starts_with(front.as_str().as_bytes()) && dir.len() + 1 < path.len())
}

/// Returns the last name of a path.
pub fn last_name(path: &str) -> &str
    ensures { result.now ≡ last_name path.now }
{
    let start = path.len().saturating_sub(last_name_len(path.as_bytes()));
    &path[start..]
}

// Returns the length of the last name of a path.
fn last_name_len(path: &[u8]) -> usize
    ensures { result ≡ suffix_len (λ b. not (b == byte "/")) path.now }
{
    path.iter().rev().take_while(|byte| **byte != b'/').count()
}
