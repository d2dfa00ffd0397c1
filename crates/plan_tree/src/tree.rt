//! What is at each path of a tree.

ghost use Rattle.std.specs.Prelude.{◌≡◌};

use crate::name::Name;
use plan_texts::Text;
use std::alloc::{AllocError, Global};

/// What is at a path, without following a link.
#[derive(Debug, Drop)]
pub enum Node {
    /// Nothing has this path.
    Missing,
    /// It can't be determined what has this path: a directory on the way can't be searched.
    Unreadable,
    /// A regular file.
    File {
        /// Whether it has no bytes.
        is_empty: bool,
    },
    /// A directory.
    Directory,
    /// A symbolic link, and its text.
    Link(Text),
    /// The device /dev/null.
    Null,
    /// A device, a pipe or a socket.
    Other,
}

impl Node {
    ghost use Rattle.plan_tree.specs.Tree.{is_directory};

    /// Returns whether it is a directory.
    pub fn is_directory(&self) -> bool
        ensures { result ≡ is_directory self.now }
    {
        match self {
            Node::Directory => true,
            _ => false,
        }
    }
}

/// The names in a directory.
#[derive(Debug, Drop)]
pub struct Listing {
    /// The names, in any order, without `.` and `..`.
    pub names: Vec<Name>,
    /// Whether these are all names: none was skipped because it isn't UTF-8.
    pub is_whole: bool,
}

/// Who owns what is at a path, without following a link, and who may do what with it (inode(7)).
#[derive(Clone, Copy, Debug, PartialEq, Eq)]
pub struct Status {
    /// The number of the user who owns it; that of root is 0.
    pub owner: u32,
    /// The bits of its mode: those of its permissions, and the three above them.
    pub mode: u32,
    /// The number of its hard links.
    pub links: u64,
}

/// A tree of files. Paths are relative to its root, and have no `/` at either end.
pub trait Tree {
    ghost use Rattle.std.specs.Prelude.{◌≡◌, [], Bool, true, IfOk, take};
    ghost use Rattle.std.specs.Option.{option_map};
    ghost use Rattle.plan_tree.specs.Tree.{Held, listed};

    /// Whether contracts know what the tree holds.
    ghost is_known: { Bool };

    /// What the tree holds.
    ghost held: { Self → Held };

    /// Returns what is at a path.
    fn node(&self, alloc: Global, path: &str) -> Result<Node, AllocError>
        ensures { is_known ≡ true → IfOk result (λ node. node ≡ (held self.now).node path.now) };

    /// Returns the names in a directory, or `None` if it can't be listed.
    fn names(&self, alloc: Global, path: &str) -> Result<Option<Listing>, AllocError>
        ensures { is_known ≡ true → IfOk result (λ names. option_map listed names ≡ (held self.now).names path.now) };

    /// Returns the status of what is at a path; `None` if it is missing or can't be determined.
    fn status(&self, alloc: Global, path: &str) -> Result<Option<Status>, AllocError>
        ensures { is_known ≡ true → IfOk result (λ status. status ≡ (held self.now).status path.now) };

    /// Returns the first `most` bytes of a file, or all if there are fewer; `None` if it can't be read.
    fn front(&self, alloc: Global, path: &str, most: u64) -> Result<Option<Vec<u8>>, AllocError>
        ensures { is_known ≡ true → IfOk result (λ bytes.
            option_map (λ read. read.items) bytes ≡ option_map (take most) ((held self.now).bytes path.now)) };

    /// Returns the paths below a directory at which an error occurred since the last call, other than that nothing is there: of a
    /// directory that can't be searched its own. They are relative to the directory. A tree that contracts know has none.
    fn failures(&self, alloc: Global, _dir: &str) -> Result<Vec<Text>, AllocError>
        ensures { is_known ≡ true → IfOk result (λ paths. paths.items ≡ []) }
    {
        Ok(Vec::new(alloc))
    }
}
