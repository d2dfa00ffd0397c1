//! Masks (systemd.unit(5)).

ghost use Rattle.std.specs.Prelude.{◌≡◌, true, IfOk};
ghost use Rattle.plan_units.specs.Masks.{is_mask, is_mask_node};

use plan_tree::{End, Node, Tree, follow};
use std::alloc::{AllocError, Global};

/// Returns whether a path is a mask: it leads to an empty file or to /dev/null.
///
/// # Errors
///
/// `AllocError` if an allocation fails.
pub fn is_mask<T: Tree>(alloc: Global, tree: &T, path: &str) -> Result<bool, AllocError>
    ensures { T.is_known ≡ true → IfOk result (λ is. is ≡ is_mask (T.held tree.now).node path.now) }
{
    match follow(alloc, tree, path)? {
        End::Found(place) => {
            if place.as_str() == "dev/null" {
                return Ok(true);
            }
            let node = tree.node(alloc, place.as_str())?;
            Ok(is_mask_node(&node))
        }
        End::Nothing | End::Unknown => Ok(false),
    }
}

// Returns whether a node is an empty file or /dev/null.
fn is_mask_node(node: &Node) -> bool
    ensures { result ≡ is_mask_node node.now }
{
    match node {
        Node::File { is_empty } => *is_empty,
        Node::Null => true,
        _ => false,
    }
}
