//! What a user knows of a tree: what is at its known places.

ghost use Rattle.std.specs.Prelude.{◌≡◌};
ghost use Rattle.plan_idle.specs.Known.{execute_status, is_known, is_open, is_readable, is_roots, known_node, owners_count};

use crate::known::{KnownPlaces, is_within, is_within_any};
use plan_tree::{Listing, Node, Status, Tree};
use std::alloc::{AllocError, Global};

// The execute bits of a mode, of its owner, its group and others; its read bits; and the write bits of group and others
// (inode(7)).
const EXECUTE: u32 = 0o111;

const READ: u32 = 0o444;

const OTHERS_WRITE: u32 = 0o022;

// A tree in which all is unreadable that isn't at a known place. So nothing but known places decides what is found in it.
#[derive(Drop)]
pub(crate) struct KnownTree<'a, T: Tree> {
    // The tree.
    pub(crate) tree: &'a T,
    // Its known places.
    pub(crate) places: &'a KnownPlaces,
    // Whether root looks.
    pub(crate) is_root: bool,
    // Whether only places in usr are known.
    pub(crate) only_usr: bool,
}

impl<T: Tree> KnownTree<'_, T> {
    // Returns whether a place is known.
    fn is_known(&self, place: &str) -> bool
        ensures { result ≡ is_known self.now.places.now self.now.is_root self.now.only_usr place.now }
    {
        let places = self.places;
        is_roots(owners_count(places.root), places.root)
            && is_open(self.is_root, places.root)
            && is_within_any(place, places.tops.as_slice())
            && !is_within_any(place, places.mounts.as_slice())
            && (!self.only_usr || is_within(place.as_bytes(), b"usr"))
    }

    // Returns what is known to be at such a place.
    fn known_node(&self, node: Node, status: Option<Status>) -> Node
        ensures { result ≡ known_node self.now.places.now self.now.is_root node status }
    {
        let places = self.places;
        let is_roots = is_roots(owners_count(places.root), status);
        match node {
            Node::Missing | Node::Unreadable | Node::Link(_) => node,
            Node::Directory if is_roots && is_open(self.is_root, status) => node,
            Node::File { .. } | Node::Null | Node::Other if is_roots => node,
            _ => Node::Unreadable,
        }
    }
}

impl<T: Tree> Tree for KnownTree<'_, T> {
    ghost use Rattle.plan_idle.specs.Known.{known_in};

    ghost is_known = { T.is_known };

    ghost held = { λ known. known_in known.places.now known.is_root known.only_usr (T.held known.tree.now) };

    fn node(&self, alloc: Global, path: &str) -> Result<Node, AllocError> {
        if !self.is_known(path) {
            return Ok(Node::Unreadable);
        }
        let node = self.tree.node(alloc, path)?;
        let status = self.tree.status(alloc, path)?;
        Ok(self.known_node(node, status))
    }

    fn names(&self, alloc: Global, path: &str) -> Result<Option<Listing>, AllocError> {
        let status = self.tree.status(alloc, path)?;
        if is_readable(self.is_root, status) {
            self.tree.names(alloc, path)
        } else {
            Ok(None)
        }
    }

    fn status(&self, alloc: Global, path: &str) -> Result<Option<Status>, AllocError> {
        let status = self.tree.status(alloc, path)?;
        Ok(execute_status(self.is_root, status))
    }

    fn front(&self, alloc: Global, path: &str, most: u64) -> Result<Option<Vec<u8>>, AllocError> {
        self.tree.front(alloc, path, most)
    }
}

// Returns whether owners count: root owns the root directory.
fn owners_count(root: Option<Status>) -> bool
    ensures { result ≡ owners_count root }
{
    match root {
        None => false,
        Some(status) => status.owner == 0,
    }
}

// Returns whether something is root's, and neither its group nor others may write to it, if owners count.
fn is_roots(count: bool, status: Option<Status>) -> bool
    ensures { result ≡ is_roots count status }
{
    if !count {
        return true;
    }
    match status {
        None => false,
        Some(status) => status.owner == 0 && status.mode & OTHERS_WRITE == 0,
    }
}

// Returns whether the user may search a directory with this status.
fn is_open(is_root: bool, status: Option<Status>) -> bool
    ensures { result ≡ is_open is_root status }
{
    if is_root {
        return true;
    }
    match status {
        None => false,
        Some(status) => status.mode & EXECUTE == EXECUTE,
    }
}

// Returns whether the user may read a directory with this status.
fn is_readable(is_root: bool, status: Option<Status>) -> bool
    ensures { result ≡ is_readable is_root status }
{
    if is_root {
        return true;
    }
    match status {
        None => false,
        Some(status) => status.mode & READ == READ,
    }
}

// Returns a status, if it says whether the user may execute the file that has it.
fn execute_status(is_root: bool, status: Option<Status>) -> Option<Status>
    ensures { result ≡ execute_status is_root status }
{
    if is_root {
        return status;
    }
    match status {
        Some(status) if matches!(status.mode & EXECUTE, EXECUTE | 0) => Some(status),
        _ => None,
    }
}
