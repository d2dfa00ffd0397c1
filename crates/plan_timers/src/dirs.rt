//! Directories of units and of drop-ins that can't be read whole.

ghost use Rattle.std.specs.Prelude.{◌≡◌, true, IfOk};
ghost use Rattle.std.specs.Option.{option_map};
ghost use Rattle.plan_timers.specs.Dirs.{can_search, dir_fault, fault_of_listing, is_drop_in_dir, is_unreadable, names_drop_ins, names_of_sources, skipped_by, skipped_dir, skipped_dirs, skipped_drop_in, skipped_drop_in_dirs, skipped_drop_ins, skipped_in_dirs};
ghost use Rattle.plan_tree.specs.Tree.{listed};

use crate::reports::{Skipped, Why, copy_of};
use crate::source::TimerSource;
use crate::wish::is_in;
use plan_tree::{Listing, Name, Node, Place, Tree};
use plan_units::{UnitDir, names_at, names_of_dirs, read_dir, stem};
use std::alloc::{AllocError, Global};

/// Returns those of some directories that can't be listed or searched, or that have a name that isn't UTF-8.
///
/// # Errors
///
/// `AllocError` if an allocation fails.
pub fn skipped_dirs<T: Tree>(
    alloc: Global,
    tree: &T,
    dirs: &[UnitDir],
) -> Result<Vec<Skipped>, AllocError>
    ensures { T.is_known ≡ true → IfOk result (λ skipped.
        skipped.items ≡ skipped_dirs (T.held tree.now) dirs.now) }
{
    let mut skipped = Vec::new(alloc);
    for dir in dirs {
        if let Some(one) = skipped_dir(alloc, tree, dir)? {
            skipped.push(one)?;
        }
    }
    Ok(skipped)
}

// Returns a directory as skipped, if it can't be read whole.
pub(crate) fn skipped_dir<T: Tree>(
    alloc: Global,
    tree: &T,
    dir: &UnitDir,
) -> Result<Option<Skipped>, AllocError>
    ensures { T.is_known ≡ true → IfOk result (λ skipped.
        skipped ≡ skipped_dir (T.held tree.now) dir.now) }
{
    let fault = dir_fault(alloc, tree, dir.real.as_str())?;
    skipped_by(alloc, dir.path.as_str(), fault)
}

// Returns the path as skipped, if there is a reason.
pub(crate) fn skipped_by(
    alloc: Global,
    path: &str,
    why: Option<Why>,
) -> Result<Option<Skipped>, AllocError>
    ensures { IfOk result (λ skipped. skipped ≡ skipped_by path.now why) }
{
    match why {
        None => Ok(None),
        Some(why) => Ok(Some(Skipped {
            path: copy_of(alloc, path)?,
            why,
        })),
    }
}

// Returns why a directory can't be read whole.
fn dir_fault<T: Tree>(alloc: Global, tree: &T, dir: &str) -> Result<Option<Why>, AllocError>
    ensures { T.is_known ≡ true → IfOk result (λ why. why ≡ dir_fault (T.held tree.now) dir.now) }
{
    if !can_search(alloc, tree, dir)? {
        return Ok(Some(Why::NotReadable));
    }
    let listing = tree.names(alloc, dir)?;
    Ok(fault_of_listing(&listing))
}

// Returns why what was listed of a directory isn't whole.
fn fault_of_listing(listing: &Option<Listing>) -> Option<Why>
    ensures { result ≡ fault_of_listing (option_map listed listing.now) }
{
    match listing {
        None => Some(Why::NotReadable),
        Some(listing) if !listing.is_whole => Some(Why::NotUtf8),
        Some(_) => None,
    }
}

// Returns whether the names in a directory can be looked at.
fn can_search<T: Tree>(alloc: Global, tree: &T, dir: &str) -> Result<bool, AllocError>
    ensures { T.is_known ≡ true → IfOk result (λ can. can ≡ can_search (T.held tree.now).node dir.now) }
{
    let itself = Place::at(alloc, dir)?.child(alloc, ".")?;
    Ok(!is_unreadable(&tree.node(alloc, itself.as_str())?))
}

// Returns whether a node can't be determined.
fn is_unreadable(node: &Node) -> bool
    ensures { result ≡ is_unreadable node.now }
{
    matches!(node, Node::Unreadable)
}

/// Returns those directories of drop-ins of some timers that can't be listed or searched, or that have a name that isn't
/// UTF-8.
///
/// # Errors
///
/// `AllocError` if an allocation fails.
pub fn skipped_drop_in_dirs<T: Tree>(
    alloc: Global,
    tree: &T,
    dirs: &[UnitDir],
    sources: &[TimerSource],
) -> Result<Vec<Skipped>, AllocError>
    ensures { T.is_known ≡ true → IfOk result (λ skipped.
        skipped.items ≡ skipped_drop_in_dirs (T.held tree.now) sources.now dirs.now) }
{
    let read = names_of_sources(alloc, sources)?;
    skipped_in_dirs(alloc, tree, dirs, read.as_slice())
}

// Returns the names whose directories of drop-ins some timers read.
fn names_of_sources(alloc: Global, sources: &[TimerSource]) -> Result<Vec<Name>, AllocError>
    ensures { IfOk result (λ read. read.items ≡ names_of_sources sources.now) }
{
    let mut read = Vec::new(alloc);
    for source in sources {
        let mut more = names_of_dirs(alloc, source.unit.as_str())?;
        read.append(&mut more)?;
    }
    Ok(read)
}

// Returns those directories of drop-ins of some names that can't be read whole.
fn skipped_in_dirs<T: Tree>(
    alloc: Global,
    tree: &T,
    dirs: &[UnitDir],
    read: &[Name],
) -> Result<Vec<Skipped>, AllocError>
    ensures { T.is_known ≡ true → IfOk result (λ skipped.
        skipped.items ≡ skipped_in_dirs (T.held tree.now) read.now dirs.now) }
{
    let mut skipped = Vec::new(alloc);
    for dir in dirs {
        let names = names_at(alloc, tree, dir.real.as_str())?;
        let mut more = skipped_drop_ins(alloc, tree, read, dir, names.as_slice())?;
        skipped.append(&mut more)?;
    }
    Ok(skipped)
}

// Returns those directories of drop-ins of some names that have these names in a directory and can't be read whole.
fn skipped_drop_ins<T: Tree>(
    alloc: Global,
    tree: &T,
    read: &[Name],
    dir: &UnitDir,
    names: &[Name],
) -> Result<Vec<Skipped>, AllocError>
    ensures { T.is_known ≡ true → IfOk result (λ skipped.
        skipped.items ≡ skipped_drop_ins (T.held tree.now) read.now dir.now names.now) }
{
    let mut skipped = Vec::new(alloc);
    for name in names {
        if let Some(one) = skipped_drop_in(alloc, tree, read, dir, name.as_str())? {
            skipped.push(one)?;
        }
    }
    Ok(skipped)
}

// Returns the directory of drop-ins of some names that has this name as skipped, if it can't be read whole.
fn skipped_drop_in<T: Tree>(
    alloc: Global,
    tree: &T,
    read: &[Name],
    dir: &UnitDir,
    name: &str,
) -> Result<Option<Skipped>, AllocError>
    ensures { T.is_known ≡ true → IfOk result (λ skipped.
        skipped ≡ skipped_drop_in (T.held tree.now) read.now dir.now name.now) }
{
    if !is_drop_in_dir(read, name) {
        return Ok(None);
    }
    let named = dir.child(alloc, name)?;
    match read_dir(alloc, tree, &named)? {
        None => Ok(None),
        Some(inside) => skipped_dir(alloc, tree, &inside),
    }
}

// Returns whether a name is that of a directory of drop-ins of one of these names.
fn is_drop_in_dir(read: &[Name], name: &str) -> bool
    ensures { result ≡ is_drop_in_dir read.now name.now }
{
    names_drop_ins(name) && is_in(stem(name), read)
}

// Returns whether a name is `NAME.d`.
fn names_drop_ins(name: &str) -> bool
    ensures { result ≡ names_drop_ins name.now }
{
    name.as_bytes().ends_with(b".d")
}
