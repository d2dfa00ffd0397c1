//! A tree in which what is missing is a directory.

use plan_tree::{Listing, Node, Status, Tree};
use std::alloc::{AllocError, Global};

// A tree in which what is missing is a directory, as systemd makes it for a mount point.
#[derive(Drop)]
pub(crate) struct Filled<'a, T: Tree> {
    // The tree.
    pub(crate) tree: &'a T,
}

impl<T: Tree> Tree for Filled<'_, T> {
    ghost use Rattle.plan_idle.specs.Known.{filled};

    ghost is_known = { T.is_known };

    ghost held = { λ filled_tree. filled (T.held filled_tree.tree.now) };

    fn node(&self, alloc: Global, path: &str) -> Result<Node, AllocError> {
        match self.tree.node(alloc, path)? {
            Node::Missing => Ok(Node::Directory),
            node => Ok(node),
        }
    }

    fn names(&self, alloc: Global, path: &str) -> Result<Option<Listing>, AllocError> {
        self.tree.names(alloc, path)
    }

    fn status(&self, alloc: Global, path: &str) -> Result<Option<Status>, AllocError> {
        self.tree.status(alloc, path)
    }

    fn front(&self, alloc: Global, path: &str, most: u64) -> Result<Option<Vec<u8>>, AllocError> {
        self.tree.front(alloc, path, most)
    }
}
