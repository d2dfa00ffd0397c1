//! Trees whose listings name everything.

use crate::disk::DiskTree;
use crate::few::FewNodes;
use crate::rooted::Rooted;
use crate::tree::Tree;

/// A tree in which the whole listing of a directory names everything that is in it.
pub trait Complete: Tree {
    ghost use Rattle.std.specs.Prelude.{◌≡◌, true};
    ghost use Rattle.plan_tree.specs.Complete.{IsComplete};

    /// A name that a whole listing lacks is missing.
    ghost complete: { (tree : Self) → Self.is_known ≡ true → IsComplete (Self.held tree) };
}

impl Complete for DiskTree<'_> {
    ghost use Rattle.std.proofs.Common.{rules};

    ghost complete = { Prim.search rules };
}

impl<T: Complete> Complete for Rooted<'_, T> {
    ghost use Rattle.plan_tree.specs.Complete.{below_complete};

    ghost complete = { λ rooted known. below_complete rooted.root.now (T.held rooted.tree.now) (T.complete rooted.tree.now known) };
}

impl Complete for FewNodes<'_> {
    ghost use Rattle.plan_tree.specs.FewComplete.{few_complete};

    ghost complete = { λ tree known. few_complete tree.0.now };
}
