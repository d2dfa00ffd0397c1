//! The entries of a directory, in order.

ghost use Rattle.std.specs.Prelude.{◌≡◌, true, IfOk, filter};
ghost use Rattle.std.specs.Option.{option_map};
ghost use Rattle.plan_tree.specs.Entries.{entries_of, is_shown};
ghost use Rattle.plan_tree.specs.Tree.{listed};

use crate::name::{Name, in_order};
use crate::tree::{Listing, Tree};
use plan_texts::begins_with;
use std::alloc::{AllocError, Global};

/// Returns the names in a directory in the order of their bytes, without those that begin with `.`; `None` if it
/// can't be listed.
///
/// # Errors
///
/// `AllocError` if an allocation fails.
pub fn entries<T: Tree>(alloc: Global, tree: &T, path: &str) -> Result<Option<Listing>, AllocError>
    ensures { T.is_known ≡ true → IfOk result (λ found.
        option_map listed found ≡ entries_of ((T.held tree.now).names path.now)) }
{
    match tree.names(alloc, path)? {
        None => Ok(None),
        Some(listing) => Ok(Some(Listing {
            names: in_order(shown(listing.names)),
            is_whole: listing.is_whole,
        })),
    }
}

// Returns the names that don't begin with `.`.
fn shown(names: Vec<Name>) -> Vec<Name>
    ensures { result.items ≡ filter is_shown names.items }
{
    let mut names = names;
    names.retain(|name| is_visible(name));
    names
}

// Returns whether a name doesn't begin with `.`.
fn is_visible(name: &Name) -> bool
    ensures { result ≡ is_shown name.now }
{
    !begins_with(name.as_str().as_bytes(), b'.')
}
