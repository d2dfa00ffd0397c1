//! The tree of files below a directory, and where paths lead in it.
//!
//! All paths are relative to that directory, the root of the tree. Read `tree` first, then `links`. Only those of
//! `DiskTree` are paths of the running machine: `Rooted` is the tree below one of its directories.
#![tactic(auto)]

mod complete;
mod disk;
mod few;
mod kept;
mod links;
mod listed;
mod listing;
mod name;
mod place;
mod reading;
mod rooted;
mod tree;

pub use complete::Complete;
pub use disk::DiskTree;
pub use few::{Few, FewNodes};
pub use links::{End, follow, is_here, is_up};
pub use listed::Listed;
pub use listing::entries;
pub use name::{Name, in_order};
pub use place::{Place, names_of};
pub use reading::contents;
pub use rooted::{Rooted, is_directory};
pub use tree::{Listing, Node, Status, Tree};
