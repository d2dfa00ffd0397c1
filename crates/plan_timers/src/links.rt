//! The directories of links, and the links that enable a timer (systemd.unit(5)).

ghost use Rattle.std.specs.Prelude.{◌≡◌, true, IfOk, Some};
ghost use Rattle.plan_timers.specs.Links.{first_link, link_at, link_dir, link_dir_by, link_dirs, link_dirs_among, link_in, names_links};

use plan_tree::{Name, Place, Tree};
use plan_units::{UnitDir, is_counted, names_at, read_dir, stem, template_of, wanted_name};
use std::alloc::{AllocError, Global};

/// A directory of links to the units that a unit wants.
#[derive(Debug, Drop)]
pub struct LinkDir {
    /// The name of the unit.
    pub unit: Name,
    /// The directory: `NAME.wants` or `NAME.requires`.
    pub dir: UnitDir,
}

/// Returns the directories `NAME.wants` and `NAME.requires` in the order of the search path, and in each directory of it in
/// the order of their names. One that is a link is read where it leads.
///
/// # Errors
///
/// `AllocError` if an allocation fails.
pub fn link_dirs<T: Tree>(
    alloc: Global,
    tree: &T,
    dirs: &[UnitDir],
) -> Result<Vec<LinkDir>, AllocError>
    ensures { T.is_known ≡ true → IfOk result (λ found.
        found.items ≡ link_dirs (T.held tree.now) dirs.now) }
{
    let mut found = Vec::new(alloc);
    for dir in dirs {
        let names = names_at(alloc, tree, dir.real.as_str())?;
        let mut more = link_dirs_among(alloc, tree, dir, names.as_slice())?;
        found.append(&mut more)?;
    }
    Ok(found)
}

// Returns the directories of links that have these names in a directory.
fn link_dirs_among<T: Tree>(
    alloc: Global,
    tree: &T,
    dir: &UnitDir,
    names: &[Name],
) -> Result<Vec<LinkDir>, AllocError>
    ensures { T.is_known ≡ true → IfOk result (λ found.
        found.items ≡ link_dirs_among (T.held tree.now).node dir.now names.now) }
{
    let mut found = Vec::new(alloc);
    for name in names {
        if let Some(links) = link_dir(alloc, tree, dir, name.as_str())? {
            found.push(links)?;
        }
    }
    Ok(found)
}

// Returns the directory of links that has this name in a directory, if there is one.
fn link_dir<T: Tree>(
    alloc: Global,
    tree: &T,
    dir: &UnitDir,
    name: &str,
) -> Result<Option<LinkDir>, AllocError>
    ensures { T.is_known ≡ true → IfOk result (λ found.
        found ≡ link_dir (T.held tree.now).node dir.now name.now) }
{
    if !names_links(name) {
        return Ok(None);
    }
    let named = dir.child(alloc, name)?;
    match read_dir(alloc, tree, &named)? {
        None => Ok(None),
        Some(dir) => Ok(Some(link_dir_of(alloc, name, dir)?)),
    }
}

// Returns the directory of links that has this name.
fn link_dir_of(alloc: Global, name: &str, dir: UnitDir) -> Result<LinkDir, AllocError>
    ensures { IfOk result (λ links. Some links ≡ link_dir_by name.now (Some dir)) }
{
    let unit = Name::at(alloc, stem(name))?;
    Ok(LinkDir { unit, dir })
}

// Returns whether a name is `NAME.wants` or `NAME.requires`.
fn names_links(name: &str) -> bool
    ensures { result ≡ names_links name.now }
{
    name.as_bytes().ends_with(b".wants") || name.as_bytes().ends_with(b".requires")
}

/// Returns the path of the first link of a name in directories of links. A mask is none. A link to a template is one of the
/// instance that the directory's unit means by it.
///
/// # Errors
///
/// `AllocError` if an allocation fails.
pub fn first_link<T: Tree>(
    alloc: Global,
    tree: &T,
    links: &[LinkDir],
    name: &str,
) -> Result<Option<Place>, AllocError>
    ensures { T.is_known ≡ true → IfOk result (λ path.
        path ≡ first_link (T.held tree.now).node links.now name.now) }
{
    for link in links {
        if let Some(path) = link_in(alloc, tree, link, name)? {
            return Ok(Some(path));
        }
    }
    Ok(None)
}

// Returns the path of the link of a name in a directory of links.
fn link_in<T: Tree>(
    alloc: Global,
    tree: &T,
    link: &LinkDir,
    name: &str,
) -> Result<Option<Place>, AllocError>
    ensures { T.is_known ≡ true → IfOk result (λ path.
        path ≡ link_in (T.held tree.now).node link.now name.now) }
{
    if let Some(path) = link_at(alloc, tree, &link.dir, name)? {
        return Ok(Some(path));
    }
    let Some(template) = template_of(alloc, name)? else {
        return Ok(None);
    };
    let meant = wanted_name(alloc, link.unit.as_str(), template.as_str())?;
    if meant.as_str() == name {
        link_at(alloc, tree, &link.dir, template.as_str())
    } else {
        Ok(None)
    }
}

// Returns the path of a name in a directory, if what is there counts as a link.
fn link_at<T: Tree>(
    alloc: Global,
    tree: &T,
    dir: &UnitDir,
    name: &str,
) -> Result<Option<Place>, AllocError>
    ensures { T.is_known ≡ true → IfOk result (λ path.
        path ≡ link_at (T.held tree.now).node dir.now name.now) }
{
    let real = dir.real.child(alloc, name)?;
    if is_counted(alloc, tree, real.as_str())? {
        Ok(Some(dir.path.child(alloc, name)?))
    } else {
        Ok(None)
    }
}
