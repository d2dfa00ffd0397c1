//! Where a path leads, and the file there.

ghost use Rattle.std.specs.Prelude.{◌≡◌, true, IfOk};
ghost use Rattle.std.specs.Option.{option_map};
ghost use Rattle.plan_machine.specs.Files.{bytes_at, bytes_of_end, file_at, is_file, lead_of};

use plan_parts::Part;
use plan_timers::copy_of;
use plan_tree::{End, Node, Tree, follow};
use std::alloc::{AllocError, Global};

// Returns where a path leads.
#[tactic(auto, unfolding(crate::specs::Files::lead_of))]
pub(crate) fn lead_of<T: Tree>(alloc: Global, tree: &T, path: &str) -> Result<End, AllocError>
    ensures { T.is_known ≡ true → IfOk result (λ end. end ≡ lead_of (T.held tree.now).node path.now) }
{
    follow(alloc, tree, path)
}

// Returns the file where a path leads, with its first `most` bytes; `None` if it leads to no regular file that can
// be read.
pub(crate) fn file_at<T: Tree>(
    alloc: Global,
    tree: &T,
    most: u64,
    path: &str,
    end: &End,
) -> Result<Option<Part>, AllocError>
    ensures { T.is_known ≡ true → IfOk result (λ file. file ≡ file_at (T.held tree.now) most path.now end.now) }
{
    let End::Found(real) = end else {
        return Ok(None);
    };
    match bytes_at(alloc, tree, most, real.as_str())? {
        None => Ok(None),
        Some(bytes) => Ok(Some(Part::new(copy_of(alloc, path)?, bytes))),
    }
}

// Returns the first `most` bytes of the file where a path leads.
pub(crate) fn bytes_of_end<T: Tree>(
    alloc: Global,
    tree: &T,
    most: u64,
    end: &End,
) -> Result<Option<Vec<u8>>, AllocError>
    ensures { T.is_known ≡ true → IfOk result (λ found.
        option_map (λ bytes. bytes.items) found ≡ bytes_of_end (T.held tree.now) most end.now) }
{
    match end {
        End::Found(real) => bytes_at(alloc, tree, most, real.as_str()),
        End::Nothing | End::Unknown => Ok(None),
    }
}

// Returns the first `most` bytes of the file at the end of a path's links. Only a regular file is opened, once.
fn bytes_at<T: Tree>(
    alloc: Global,
    tree: &T,
    most: u64,
    real: &str,
) -> Result<Option<Vec<u8>>, AllocError>
    ensures { T.is_known ≡ true → IfOk result (λ found.
        option_map (λ bytes. bytes.items) found ≡ bytes_at (T.held tree.now) most real.now) }
{
    if real == "dev/null" || !is_file(&tree.node(alloc, real)?) {
        return Ok(None);
    }
    tree.front(alloc, real, most)
}

// Returns whether a node is a regular file.
pub(crate) fn is_file(node: &Node) -> bool
    ensures { result ≡ is_file node.now }
{
    matches!(node, Node::File { .. })
}
