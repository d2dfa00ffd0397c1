//! The directories of links and of drop-ins that are read, and what is skipped of them.

ghost use Rattle.std.specs.Prelude.{◌≡◌, true, [], IfOk};
ghost use Rattle.std.specs.List.{cons_option};
ghost use Rattle.plan_timers.specs.ReadDirs.{entry_fault, fault_by, is_reader, is_reader_by, read_names, skipped_entries, skipped_links, skipped_of_link, skipped_of_links};

use crate::counted::counted_in;
use crate::dirs::skipped_dir;
use crate::links::LinkDir;
use crate::reports::{Skipped, Why, copy_of};
use crate::wish::is_in;
use plan_tree::{Name, Node, Tree};
use plan_units::{Entry, Unit, UnitDir, is_mask, is_timer, is_valid_name, names_of_dirs, unit_of};
use std::alloc::{AllocError, Global};

/// Returns what is skipped of the directories of links that are read: those of reached units that have a file and aren't
/// masked.
///
/// # Errors
///
/// `AllocError` if an allocation fails.
pub fn skipped_links<T: Tree>(
    alloc: Global,
    tree: &T,
    dirs: &[UnitDir],
    reached: &[Name],
    links: &[LinkDir],
) -> Result<Vec<Skipped>, AllocError>
    ensures { T.is_known ≡ true → IfOk result (λ skipped.
        skipped.items ≡ skipped_links (T.held tree.now) dirs.now reached.now links.now) }
{
    let names = read_names(alloc, tree, dirs, reached)?;
    skipped_of_links(alloc, tree, dirs, names.as_slice(), links)
}

// Returns what is skipped of those directories of links that have these names.
fn skipped_of_links<T: Tree>(
    alloc: Global,
    tree: &T,
    dirs: &[UnitDir],
    names: &[Name],
    links: &[LinkDir],
) -> Result<Vec<Skipped>, AllocError>
    ensures { T.is_known ≡ true → IfOk result (λ skipped.
        skipped.items ≡ skipped_of_links (T.held tree.now) dirs.now names.now links.now) }
{
    let mut skipped = Vec::new(alloc);
    for link in links {
        let mut more = skipped_of_link(alloc, tree, dirs, names, link)?;
        skipped.append(&mut more)?;
    }
    Ok(skipped)
}

// Returns the names whose directories of links are read: those of the units among these that have a file and aren't masked.
fn read_names<T: Tree>(
    alloc: Global,
    tree: &T,
    dirs: &[UnitDir],
    reached: &[Name],
) -> Result<Vec<Name>, AllocError>
    ensures { T.is_known ≡ true → IfOk result (λ names.
        names.items ≡ read_names (T.held tree.now).node dirs.now reached.now) }
{
    let mut names = Vec::new(alloc);
    for name in reached {
        if is_reader(alloc, tree, dirs, name.as_str())? {
            let mut more = names_of_dirs(alloc, name.as_str())?;
            names.append(&mut more)?;
        }
    }
    Ok(names)
}

// Returns whether the directories of links of a name are read: its unit has a file and isn't masked.
fn is_reader<T: Tree>(
    alloc: Global,
    tree: &T,
    dirs: &[UnitDir],
    name: &str,
) -> Result<bool, AllocError>
    ensures { T.is_known ≡ true → IfOk result (λ is. is ≡ is_reader (T.held tree.now).node dirs.now name.now) }
{
    let unit = unit_of(alloc, tree, dirs, name)?;
    is_reader_by(alloc, tree, &unit)
}

// Returns whether a unit reads its directories of links: it has a file and isn't masked.
fn is_reader_by<T: Tree>(alloc: Global, tree: &T, unit: &Option<Unit>) -> Result<bool, AllocError>
    ensures { T.is_known ≡ true → IfOk result (λ is. is ≡ is_reader_by (T.held tree.now).node unit.now) }
{
    match unit {
        None => Ok(false),
        Some(unit) => Ok(!is_mask(alloc, tree, unit.file.real.as_str())?),
    }
}

// Returns what is skipped of a directory of links, if it has one of these names.
fn skipped_of_link<T: Tree>(
    alloc: Global,
    tree: &T,
    dirs: &[UnitDir],
    names: &[Name],
    link: &LinkDir,
) -> Result<Vec<Skipped>, AllocError>
    ensures { T.is_known ≡ true → IfOk result (λ skipped.
        skipped.items ≡ skipped_of_link (T.held tree.now) dirs.now names.now link.now) }
{
    if !is_in(link.unit.as_str(), names) {
        return Ok(Vec::new(alloc));
    }
    let mut skipped = list_of(alloc, skipped_dir(alloc, tree, &link.dir)?)?;
    let entries = counted_in(alloc, tree, dirs, &link.dir)?;
    let mut more = skipped_entries(alloc, tree, entries.as_slice())?;
    skipped.append(&mut more)?;
    Ok(skipped)
}

// Returns a list of what there is, if there is anything.
fn list_of(alloc: Global, found: Option<Skipped>) -> Result<Vec<Skipped>, AllocError>
    ensures { IfOk result (λ list. list.items ≡ cons_option found []) }
{
    let mut list = Vec::new(alloc);
    if let Some(found) = found {
        list.push(found)?;
    }
    Ok(list)
}

// Returns which of some entries enable no timer.
fn skipped_entries<T: Tree>(
    alloc: Global,
    tree: &T,
    entries: &[Entry],
) -> Result<Vec<Skipped>, AllocError>
    ensures { T.is_known ≡ true → IfOk result (λ skipped.
        skipped.items ≡ skipped_entries (T.held tree.now).node entries.now) }
{
    let mut skipped = Vec::new(alloc);
    for entry in entries {
        if let Some(why) = entry_fault(alloc, tree, entry)? {
            let path = copy_of(alloc, entry.path.as_str())?;
            skipped.push(Skipped { path, why })?;
        }
    }
    Ok(skipped)
}

// Returns why an entry enables no timer, if it has the name of one.
fn entry_fault<T: Tree>(alloc: Global, tree: &T, entry: &Entry) -> Result<Option<Why>, AllocError>
    ensures { T.is_known ≡ true → IfOk result (λ why.
        why ≡ entry_fault (T.held tree.now).node entry.now) }
{
    if !is_timer(&entry.name) {
        return Ok(None);
    }
    if is_mask(alloc, tree, entry.real.as_str())? {
        return Ok(Some(Why::Masked));
    }
    let node = tree.node(alloc, entry.real.as_str())?;
    Ok(fault_by(entry.name.as_str(), &node))
}

// Returns why what isn't a mask enables no timer, by its name.
fn fault_by(name: &str, node: &Node) -> Option<Why>
    ensures { result ≡ fault_by name.now node.now }
{
    match node {
        Node::Link(_) if !is_valid_name(name) => Some(Why::BadName),
        Node::Link(_) | Node::Missing | Node::Unreadable => None,
        Node::File { .. } | Node::Directory | Node::Null | Node::Other => Some(Why::NoLink),
    }
}
