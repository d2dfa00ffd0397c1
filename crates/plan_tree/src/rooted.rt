//! The tree below a directory of another tree.

ghost use Rattle.std.specs.Prelude.{◌≡◌, [], true, IfOk, string_bytes};
ghost use Rattle.plan_tree.specs.Tree.{below, is_directory, path_below};

use crate::tree::{Listing, Node, Status, Tree};
use plan_texts::Text;
use std::alloc::{AllocError, Global};

/// The tree below a directory of another tree: at a path it has what the other one has at the directory's path, `/`, and
/// that path.
#[derive(Drop)]
pub struct Rooted<'a, T: Tree> {
    tree: &'a T,
    root: &'a str,
}

impl<'a, T: Tree> Rooted<'a, T> {
    /// Returns the tree below the directory that `tree` has at `root`. It is empty for `/`.
    pub fn new(tree: &'a T, root: &'a str) -> Rooted<'a, T>
        ensures { ⟦<Rooted<'a, T> as Tree>⟧.held result ≡ below root.now (T.held tree.now) }
    {
        Rooted { tree, root }
    }
}

impl<T: Tree> Tree for Rooted<'_, T> {
    ghost use Rattle.plan_tree.specs.Tree.{below};

    ghost is_known = { T.is_known };

    ghost held = { λ rooted. below rooted.root.now (T.held rooted.tree.now) };

    fn node(&self, alloc: Global, path: &str) -> Result<Node, AllocError> {
        let whole = path_below(alloc, self.root, path)?;
        self.tree.node(alloc, whole.as_str())
    }

    fn names(&self, alloc: Global, path: &str) -> Result<Option<Listing>, AllocError> {
        let whole = path_below(alloc, self.root, path)?;
        self.tree.names(alloc, whole.as_str())
    }

    fn status(&self, alloc: Global, path: &str) -> Result<Option<Status>, AllocError> {
        let whole = path_below(alloc, self.root, path)?;
        self.tree.status(alloc, whole.as_str())
    }

    fn front(&self, alloc: Global, path: &str, most: u64) -> Result<Option<Vec<u8>>, AllocError> {
        let whole = path_below(alloc, self.root, path)?;
        self.tree.front(alloc, whole.as_str(), most)
    }

    fn failures(&self, alloc: Global, dir: &str) -> Result<Vec<Text>, AllocError> {
        let whole = path_below(alloc, self.root, dir)?;
        self.tree.failures(alloc, whole.as_str())
    }
}

/// Returns the path that a tree has for a path in the tree below one of its directories.
pub(crate) fn path_below(alloc: Global, root: &str, path: &str) -> Result<String, AllocError>
    ensures { IfOk result (λ whole. string_bytes whole ≡ path_below root.now path.now) }
{
    let mut whole = String::from_str(alloc, root)?;
    whole.push_str("/")?;
    whole.push_str(path)?;
    Ok(whole)
}

/// Returns whether a path is that of a directory, or of a link that the tree itself follows to one: whether `path` with a
/// `/` after it is that of a directory. `path` is empty for `/`.
///
/// # Errors
///
/// `AllocError` if an allocation fails.
pub fn is_directory<T: Tree>(alloc: Global, tree: &T, path: &str) -> Result<bool, AllocError>
    ensures { T.is_known ≡ true → IfOk result (λ is.
        is ≡ is_directory ((T.held tree.now).node (path_below path.now []))) }
{
    let node = Rooted::new(tree, path).node(alloc, "")?;
    Ok(node.is_directory())
}
