//! A tree of which some directories are read at once.

ghost use Rattle.std.specs.Prelude.{◌≡◌, true, IfOk, IfSome, None, OnOk};
ghost use Rattle.std.proofs.Props.{props};
ghost use Rattle.plan_tree.specs.declared.tree.Node.TheVariants.{Missing};
ghost use Rattle.plan_tree.specs.Complete.{LacksSlash};
ghost use Rattle.plan_tree.specs.Kept.{IsKept, Keeps, node_at};
ghost use Rattle.plan_tree.specs.Tree.{listed, path_below};

use crate::complete::Complete;
use crate::kept::{Kept, keep_dir, keep_way};
use crate::links::{is_here, is_up};
use crate::name::Name;
use crate::tree::{Listing, Node, Status, Tree};
use plan_texts::Text;
use std::alloc::{AllocError, Global};

/// A tree that reads some directories once, and then knows what is in them and what isn't.
#[derive(Drop)]
pub struct Listed<'a, T: Complete> {
    tree: &'a T,
    kept: Kept,
    ghost is_kept: { T.is_known ≡ true → IsKept (T.held tree.now) kept } by { Prim.hlevel props },
}

impl<'a, T: Complete> Listed<'a, T> {
    /// Returns a tree that holds what `tree` does. It reads the directories at some paths, and the directories in them, and
    /// what is on the way to them. A path with a link in it is read up to the link.
    ///
    /// # Errors
    ///
    /// `AllocError` if an allocation fails.
    pub fn new(alloc: Global, tree: &'a T, paths: &[&str]) -> Result<Listed<'a, T>, AllocError>
        ensures { IfOk result (λ listed. ⟦<Listed<'a, T> as Tree>⟧.held listed ≡ T.held tree.now) }
    {
        let mut kept = Kept::new(alloc);
        for path in paths {
            keep_below(alloc, tree, &mut kept, path)?;
        }
        Ok(Listed { tree, kept })
    }

    // Returns whether nothing has a path, by what is kept.
    fn is_missing(&self, path: &str) -> bool
        ensures { T.is_known ≡ true → result ≡ true → node_at self.now.kept path.now ≡ None →
            (T.held self.now.tree.now).node path.now ≡ Missing }
    {
        match dir_and_name(path) {
            Some((dir, name)) if !is_here(name) && !is_up(name) => match self.kept.dirs.get(dir) {
                Some(found) => found.is_complete,
                None => false,
            },
            _ => false,
        }
    }
}

// Keeps what is on the way to a path, and if that is a directory, what is in it and in the directories in it.
fn keep_below<T: Complete>(
    alloc: Global,
    tree: &T,
    kept: &mut Kept,
    path: &str,
) -> Result<(), AllocError>
    ensures { T.is_known ≡ true → OnOk result (Keeps (T.held tree.now) kept.old kept.new) }
{
    if kept.dirs.contains_key(path) || !keep_way(alloc, tree, kept, path)? {
        return Ok(());
    }
    let inside = keep_dir(alloc, tree, kept, path)?;
    for dir in inside.as_slice() {
        keep_dir(alloc, tree, kept, dir.as_str())?;
    }
    Ok(())
}

// Returns the directory and the name of a path that has a `/`.
fn dir_and_name(path: &str) -> Option<(&str, &str)>
    ensures { IfSome result (λ parts. (path.now ≡ path_below parts.0.now parts.1.now) × LacksSlash parts.1.now) }
{
    let (dir, name) = path.rsplit_once('/')?;
    Some((dir, name))
}

// Returns a copy of what is at a path.
fn copy_of(alloc: Global, node: &Node) -> Result<Node, AllocError>
    ensures { IfOk result (λ copy. copy ≡ node.now) }
{
    match node {
        Node::Missing => Ok(Node::Missing),
        Node::Unreadable => Ok(Node::Unreadable),
        Node::File { is_empty } => Ok(Node::File {
            is_empty: *is_empty,
        }),
        Node::Directory => Ok(Node::Directory),
        Node::Link(text) => Ok(Node::Link(Text::new(String::from_str(alloc, text.as_str())?))),
        Node::Null => Ok(Node::Null),
        Node::Other => Ok(Node::Other),
    }
}

// Returns a copy of a listing.
fn copy_of_listing(alloc: Global, listing: &Listing) -> Result<Listing, AllocError>
    ensures { IfOk result (λ copy. listed copy ≡ listed listing.now) }
{
    let mut names = Vec::new(alloc);
    for name in listing.names.as_slice() {
        names.push(Name::at(alloc, name.as_str())?)?;
    }
    Ok(Listing {
        names,
        is_whole: listing.is_whole,
    })
}

impl<T: Complete> Tree for Listed<'_, T> {
    ghost is_known = { T.is_known };

    ghost held = { λ listed. T.held listed.tree.now };

    fn node(&self, alloc: Global, path: &str) -> Result<Node, AllocError> {
        if let Some(node) = self.kept.nodes.get(path) {
            return copy_of(alloc, node);
        }
        if self.is_missing(path) {
            return Ok(Node::Missing);
        }
        self.tree.node(alloc, path)
    }

    fn names(&self, alloc: Global, path: &str) -> Result<Option<Listing>, AllocError> {
        match self.kept.dirs.get(path) {
            Some(found) => Ok(Some(copy_of_listing(alloc, &found.listing)?)),
            None => self.tree.names(alloc, path),
        }
    }

    fn status(&self, alloc: Global, path: &str) -> Result<Option<Status>, AllocError> {
        self.tree.status(alloc, path)
    }

    fn front(&self, alloc: Global, path: &str, most: u64) -> Result<Option<Vec<u8>>, AllocError> {
        self.tree.front(alloc, path, most)
    }

    fn failures(&self, alloc: Global, dir: &str) -> Result<Vec<Text>, AllocError> {
        self.tree.failures(alloc, dir)
    }
}
