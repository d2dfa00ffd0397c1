//! The bytes of the file where a path leads.

ghost use Rattle.std.specs.Prelude.{◌≡◌, true, IfOk, take};
ghost use Rattle.std.specs.Option.{option_map};
ghost use Rattle.plan_tree.specs.Contents.{contents_of};

use crate::links::{End, follow};
use crate::tree::{Node, Tree};
use std::alloc::{AllocError, Global};

/// Returns the first `most` bytes of the regular file where a path leads, or all if there are fewer; `None` if it
/// leads to no regular file, or to one that can't be read. Nothing else is opened.
///
/// # Errors
///
/// `AllocError` if an allocation fails.
pub fn contents<T: Tree>(
    alloc: Global,
    tree: &T,
    path: &str,
    most: u64,
) -> Result<Option<Vec<u8>>, AllocError>
    ensures { T.is_known ≡ true → IfOk result (λ found.
        option_map (λ read. read.items) found ≡ option_map (take most) (contents_of (T.held tree.now) path.now)) }
{
    match follow(alloc, tree, path)? {
        End::Found(place) => match tree.node(alloc, place.as_str())? {
            Node::File { .. } => tree.front(alloc, place.as_str(), most),
            _ => Ok(None),
        },
        End::Nothing | End::Unknown => Ok(None),
    }
}
