//! Directories of crontabs: whether one is there, and the names in it.

ghost use Rattle.std.specs.Prelude.{◌≡◌, true, IfOk};
ghost use Rattle.std.specs.Option.{option_map};
ghost use Rattle.plan_tree.specs.Tree.{listed};
ghost use Rattle.plan_machine.specs.Directories.{can_search, is_directory, is_directory_at, is_link, is_link_in, is_missing, is_unreadable, listing_in, look, names_at, names_in, with_directory, with_whole};

use crate::collection::MachineSources;
use crate::files::lead_of;
use plan_timers::Why;
use plan_tree::{End, Listing, Name, Node, Place, Tree, entries};
use std::alloc::{AllocError, Global};

// Returns where a name in a directory leads. A link that leads nowhere is there, so that is unknown.
#[tactic(auto, unfolding(crate::specs::Directories::look))]
pub(crate) fn look<T: Tree>(
    alloc: Global,
    tree: &T,
    dir: &str,
    name: &str,
) -> Result<End, AllocError>
    ensures { T.is_known ≡ true → IfOk result (λ end. end ≡ look (T.held tree.now).node dir.now name.now) }
{
    let path = Place::at(alloc, dir)?.child(alloc, name)?;
    match lead_of(alloc, tree, path.as_str())? {
        End::Nothing => {
            let dir = lead_of(alloc, tree, dir)?;
            if is_link_in(alloc, tree, &dir, name)? {
                Ok(End::Unknown)
            } else {
                Ok(End::Nothing)
            }
        }
        End::Found(real) => Ok(End::Found(real)),
        End::Unknown => Ok(End::Unknown),
    }
}

// Returns whether a name in a directory is a link.
fn is_link_in<T: Tree>(alloc: Global, tree: &T, dir: &End, name: &str) -> Result<bool, AllocError>
    ensures { T.is_known ≡ true → IfOk result (λ is. is ≡ is_link_in (T.held tree.now).node dir.now name.now) }
{
    match dir {
        End::Found(real) => {
            let path = real.child(alloc, name)?;
            Ok(is_link(&tree.node(alloc, path.as_str())?))
        }
        End::Nothing | End::Unknown => Ok(false),
    }
}

// Returns whether a node is a link.
fn is_link(node: &Node) -> bool
    ensures { result ≡ is_link node.now }
{
    matches!(node, Node::Link(_))
}

// Returns whether nothing is where a path leads.
pub(crate) fn is_missing(end: &End) -> bool
    ensures { result ≡ is_missing end.now }
{
    matches!(end, End::Nothing)
}

// Returns whether a path leads to a directory.
pub(crate) fn is_directory_at<T: Tree>(
    alloc: Global,
    tree: &T,
    end: &End,
) -> Result<bool, AllocError>
    ensures { T.is_known ≡ true → IfOk result (λ is. is ≡ is_directory_at (T.held tree.now).node end.now) }
{
    match end {
        End::Found(real) => Ok(is_directory(&tree.node(alloc, real.as_str())?)),
        End::Nothing | End::Unknown => Ok(false),
    }
}

// Returns whether a node is a directory.
pub(crate) fn is_directory(node: &Node) -> bool
    ensures { result ≡ is_directory node.now }
{
    matches!(node, Node::Directory)
}

// Returns whether the names in a directory can be looked at.
pub(crate) fn can_search<T: Tree>(alloc: Global, tree: &T, dir: &str) -> Result<bool, AllocError>
    ensures { T.is_known ≡ true → IfOk result (λ can. can ≡ can_search (T.held tree.now).node dir.now) }
{
    let itself = Place::at(alloc, dir)?.child(alloc, ".")?;
    Ok(!is_unreadable(&tree.node(alloc, itself.as_str())?))
}

// Returns whether a node can't be determined.
fn is_unreadable(node: &Node) -> bool
    ensures { result ≡ is_unreadable node.now }
{
    matches!(node, Node::Unreadable)
}

// Returns the entries of a directory, or `None` if it can't be listed or searched.
fn listing_in<T: Tree>(alloc: Global, tree: &T, dir: &str) -> Result<Option<Listing>, AllocError>
    ensures { T.is_known ≡ true → IfOk result (λ found.
        option_map listed found ≡ listing_in (T.held tree.now) dir.now) }
{
    if !can_search(alloc, tree, dir)? {
        return Ok(None);
    }
    entries(alloc, tree, dir)
}

// Returns the names in the directory where a path leads; none if it can't be listed or searched.
pub(crate) fn names_at<T: Tree>(alloc: Global, tree: &T, end: &End) -> Result<Vec<Name>, AllocError>
    ensures { T.is_known ≡ true → IfOk result (λ names. names.items ≡ names_at (T.held tree.now) end.now) }
{
    match end {
        End::Found(dir) => names_in(alloc, tree, dir.as_str()),
        End::Nothing | End::Unknown => Ok(Vec::new(alloc)),
    }
}

// Returns the names in a directory; none if it can't be listed or searched.
pub(crate) fn names_in<T: Tree>(alloc: Global, tree: &T, dir: &str) -> Result<Vec<Name>, AllocError>
    ensures { T.is_known ≡ true → IfOk result (λ names. names.items ≡ names_in (T.held tree.now) dir.now) }
{
    match listing_in(alloc, tree, dir)? {
        Some(listing) => Ok(listing.names),
        None => Ok(Vec::new(alloc)),
    }
}

// Returns the names in the directory where a path leads, and adds what is skipped of it.
pub(crate) fn read_directory<T: Tree>(
    alloc: Global,
    tree: &T,
    all: MachineSources,
    path: &str,
    end: &End,
) -> Result<(MachineSources, Vec<Name>), AllocError>
    ensures all { T.is_known ≡ true → IfOk result (λ read.
        read.0 ≡ with_directory (T.held tree.now) all path.now end.now) }
    ensures names { T.is_known ≡ true → IfOk result (λ read. read.1.items ≡ names_at (T.held tree.now) end.now) }
{
    match end {
        End::Found(dir) => match listing_in(alloc, tree, dir.as_str())? {
            Some(listing) => {
                let all = with_whole(alloc, all, path, listing.is_whole)?;
                Ok((all, listing.names))
            }
            None => {
                let all = all.with_skipped(alloc, path, Why::NotReadable)?;
                Ok((all, Vec::new(alloc)))
            }
        },
        End::Nothing => Ok((all, Vec::new(alloc))),
        End::Unknown => {
            let all = all.with_skipped(alloc, path, Why::NotReadable)?;
            Ok((all, Vec::new(alloc)))
        }
    }
}

// Adds that a directory has a name that isn't UTF-8, unless its names are whole.
fn with_whole(
    alloc: Global,
    all: MachineSources,
    path: &str,
    is_whole: bool,
) -> Result<MachineSources, AllocError>
    ensures { IfOk result (λ new. new ≡ with_whole all path.now is_whole) }
{
    if is_whole {
        return Ok(all);
    }
    all.with_skipped(alloc, path, Why::NotUtf8)
}
