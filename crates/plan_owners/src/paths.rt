//! Where paths lead.

ghost use Rattle.std.specs.Prelude.{◌≡◌, true, IfOk};
ghost use Rattle.plan_owners.specs.Paths.{is_file, is_file_at, is_link, lead_of, name_of_path};

use plan_tree::{End, Node, Tree, follow, names_of};
use std::alloc::{AllocError, Global};

// Returns where a path leads.
#[tactic(auto, unfolding(crate::specs::Paths::lead_of))]
pub(crate) fn lead_of<T: Tree>(alloc: Global, tree: &T, path: &str) -> Result<End, AllocError>
    ensures { T.is_known ≡ true → IfOk result (λ end. end ≡ lead_of (T.held tree.now).node path.now) }
{
    follow(alloc, tree, path)
}

// Returns whether a path leads to a regular file.
pub(crate) fn is_file_at<T: Tree>(alloc: Global, tree: &T, end: &End) -> Result<bool, AllocError>
    ensures { T.is_known ≡ true → IfOk result (λ is. is ≡ is_file_at (T.held tree.now).node end.now) }
{
    match end {
        End::Found(path) => Ok(is_file(&tree.node(alloc, path.as_str())?)),
        End::Nothing | End::Unknown => Ok(false),
    }
}

// Returns whether a node is a regular file.
fn is_file(node: &Node) -> bool
    ensures { result ≡ is_file node.now }
{
    matches!(node, Node::File { .. })
}

// Returns whether a node is a link.
pub(crate) fn is_link(node: &Node) -> bool
    ensures { result ≡ is_link node.now }
{
    matches!(node, Node::Link(_))
}

// Returns the last name of a path.
pub(crate) fn name_of_path(alloc: Global, path: &str) -> Result<&str, AllocError>
    ensures { IfOk result (λ name. name.now ≡ name_of_path path.now) }
{
    let names = names_of(alloc, path)?;
    match names.last() {
        Some(name) => Ok(name),
        None => Ok(""),
    }
}
