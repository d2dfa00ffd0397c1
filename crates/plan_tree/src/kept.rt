//! What is kept of a tree, so that it isn't asked for again.

ghost use Rattle.std.specs.Prelude.{◌≡◌, true, IfOk, OnOk};
ghost use Rattle.std.specs.HashMap.{IsEmpty};
ghost use Rattle.plan_tree.specs.Complete.{is_searchable};
ghost use Rattle.plan_tree.specs.Kept.{HasNames, IsListing, Keeps, has_node};

use crate::complete::Complete;
use crate::name::Name;
use crate::place::{Place, names_of};
use crate::rooted::path_below;
use crate::tree::{Listing, Node, Tree};
use std::alloc::{AllocError, Global};
use std::collections::HashMap;

/// The names in a directory.
#[derive(Drop)]
pub(crate) struct KeptDir {
    /// Its listing.
    pub(crate) listing: Listing,
    /// Whether what has no name in it is missing.
    pub(crate) is_complete: bool,
}

/// What is known of a tree.
#[derive(Drop)]
pub(crate) struct Kept {
    /// What is at some paths.
    pub(crate) nodes: HashMap<String, Node>,
    /// The names in some directories.
    pub(crate) dirs: HashMap<String, KeptDir>,
}

impl Kept {
    /// Returns what is known at first: nothing.
    pub(crate) fn new(alloc: Global) -> Kept
        ensures nodes { IsEmpty result.nodes }
        ensures dirs { IsEmpty result.dirs }
    {
        Kept {
            nodes: HashMap::new(alloc),
            dirs: HashMap::new(alloc),
        }
    }
}

/// Keeps what is at a path. Returns whether that is a directory.
pub(crate) fn keep_node<T: Tree>(
    alloc: Global,
    tree: &T,
    kept: &mut Kept,
    path: &str,
) -> Result<bool, AllocError>
    ensures keeps { T.is_known ≡ true → OnOk result (Keeps (T.held tree.now) kept.old kept.new) }
    ensures kept { OnOk result (has_node kept.new path.now ≡ true) }
{
    if let Some(node) = kept.nodes.get(path) {
        return Ok(node.is_directory());
    }
    let node = tree.node(alloc, path)?;
    let is_directory = node.is_directory();
    kept.nodes.insert(String::from_str(alloc, path)?, node)?;
    Ok(is_directory)
}

/// Keeps what is at each path on the way to a path, up to the first that isn't a directory. Returns whether all are.
pub(crate) fn keep_way<T: Tree>(
    alloc: Global,
    tree: &T,
    kept: &mut Kept,
    path: &str,
) -> Result<bool, AllocError>
    ensures { T.is_known ≡ true → OnOk result (Keeps (T.held tree.now) kept.old kept.new) }
{
    let mut place = Place::root(alloc);
    let names = names_of(alloc, path)?;
    for name in names.as_slice() {
        place = place.child(alloc, name)?;
        if !keep_node(alloc, tree, kept, place.as_str())? {
            return Ok(false);
        }
    }
    Ok(true)
}

/// Keeps the names in a directory, and what has them. Returns the paths of the directories in it.
pub(crate) fn keep_dir<T: Complete>(
    alloc: Global,
    tree: &T,
    kept: &mut Kept,
    dir: &str,
) -> Result<Vec<String>, AllocError>
    ensures { T.is_known ≡ true → OnOk result (Keeps (T.held tree.now) kept.old kept.new) }
{
    match tree.names(alloc, dir)? {
        None => Ok(Vec::new(alloc)),
        Some(listing) => {
            let inside = keep_names(alloc, tree, kept, dir, listing.names.as_slice())?;
            keep_listing(alloc, tree, kept, dir, listing)?;
            Ok(inside)
        }
    }
}

// Keeps what has some names in a directory. Returns the paths of the directories among them.
fn keep_names<T: Tree>(
    alloc: Global,
    tree: &T,
    kept: &mut Kept,
    dir: &str,
    names: &[Name],
) -> Result<Vec<String>, AllocError>
    ensures keeps { T.is_known ≡ true → OnOk result (Keeps (T.held tree.now) kept.old kept.new) }
    ensures kept { T.is_known ≡ true → OnOk result (HasNames kept.new dir.now names.now) }
{
    let mut inside = Vec::new(alloc);
    for name in names {
        let path = path_below(alloc, dir, name.as_str())?;
        if keep_node(alloc, tree, kept, path.as_str())? {
            inside.push(path)?;
        }
    }
    Ok(inside)
}

// Keeps the listing of a directory, in which what has its names is kept.
fn keep_listing<T: Complete>(
    alloc: Global,
    tree: &T,
    kept: &mut Kept,
    dir: &str,
    listing: Listing,
) -> Result<(), AllocError>
    ensures { T.is_known ≡ true → OnOk result (
        IsListing (T.held tree.now) kept.old dir.now listing → Keeps (T.held tree.now) kept.old kept.new) }
{
    let is_searchable = is_searchable(alloc, tree, dir)?;
    let is_complete = listing.is_whole && is_searchable;
    let found = KeptDir {
        listing,
        is_complete,
    };
    kept.dirs.insert(String::from_str(alloc, dir)?, found)?;
    Ok(())
}

// Returns whether a directory can be searched.
fn is_searchable<T: Tree>(alloc: Global, tree: &T, dir: &str) -> Result<bool, AllocError>
    ensures { T.is_known ≡ true → IfOk result (λ is. is ≡ is_searchable (T.held tree.now) dir.now) }
{
    let path = path_below(alloc, dir, ".")?;
    match tree.node(alloc, path.as_str())? {
        Node::Unreadable => Ok(false),
        _ => Ok(true),
    }
}
