//! A tree that is a list of paths, for tests.

ghost use Rattle.std.specs.Prelude.{◌≡◌, IfOk, map, take};
ghost use Rattle.std.specs.List.{list_any};
ghost use Rattle.std.specs.Str.{bytes_eq};
ghost use Rattle.plan_tree.specs.Few.{few_at, is_left_out};

use crate::name::Name;
use crate::place::last_name_len;
use crate::tree::{Listing, Node, Status, Tree};
use plan_texts::Text;
use std::alloc::{AllocError, Global};

/// What is at a path of a list.
#[derive(Clone, Copy, Drop)]
pub enum Few<'a> {
    /// It can't be determined.
    Unreadable,
    /// A regular file with these bytes, or one that can't be read and isn't empty.
    File(Option<&'a [u8]>),
    /// A regular file with these bytes and this status.
    Owned(&'a [u8], Status),
    /// A directory with these names, or one that can't be listed.
    Directory(Option<&'a [&'a str]>),
    /// A link with this text.
    Link(&'a str),
    /// The device /dev/null.
    Null,
    /// Another device.
    Other,
}

/// A tree that is a list of paths, each with what it has. Only `Owned` has a status. If a directory has names, nothing has another name in it.
#[derive(Drop)]
pub struct FewNodes<'a>(pub &'a [(&'a str, Few<'a>)]);

impl FewNodes<'_> {
    fn find(&self, path: &[u8]) -> Option<Few<'_>>
        ensures { result ≡ few_at self.now.0.now path.now }
    {
        for (given, few) in self.0 {
            if given.as_bytes() == path {
                return Some(*few);
            }
        }
        None
    }

    // Returns whether the directory of a path has names, and the last name of the path is not one of them.
    fn is_left_out(&self, path: &[u8]) -> bool
        ensures { result ≡ is_left_out self.now.0.now path.now }
    {
        let end = path.len().saturating_sub(last_name_len(path));
        let name = &path[end..];
        if name.is_empty() {
            return false;
        }
        match self.find(&path[..end.saturating_sub(1)]) {
            Some(Few::Directory(Some(names))) => !has_name(names, name),
            _ => false,
        }
    }
}

// Returns whether a name is one of some names.
fn has_name(names: &[&str], name: &[u8]) -> bool
    ensures { result ≡ list_any (bytes_eq name.now) (map (λ other. other.now) names.now) }
{
    for other in names {
        if name == other.as_bytes() {
            return true;
        }
    }
    false
}

impl Tree for FewNodes<'_> {
    ghost use Rattle.std.specs.Prelude.{true};
    ghost use Rattle.plan_tree.specs.Few.{held_in};

    ghost is_known = { true };

    ghost held = { λ tree. held_in tree.0.now };

    fn node(&self, alloc: Global, path: &str) -> Result<Node, AllocError> {
        if self.is_left_out(path.as_bytes()) {
            return Ok(Node::Missing);
        }
        match self.find(path.as_bytes()) {
            None => Ok(Node::Missing),
            Some(Few::Unreadable) => Ok(Node::Unreadable),
            Some(Few::File(None)) => Ok(Node::File { is_empty: false }),
            Some(Few::File(Some(bytes))) => Ok(Node::File {
                is_empty: bytes.is_empty(),
            }),
            Some(Few::Owned(bytes, _)) => Ok(Node::File {
                is_empty: bytes.is_empty(),
            }),
            Some(Few::Directory(_)) => Ok(Node::Directory),
            Some(Few::Link(text)) => Ok(Node::Link(Text::new(String::from_str(alloc, text)?))),
            Some(Few::Null) => Ok(Node::Null),
            Some(Few::Other) => Ok(Node::Other),
        }
    }

    fn names(&self, alloc: Global, path: &str) -> Result<Option<Listing>, AllocError> {
        match self.find(path.as_bytes()) {
            Some(Few::Directory(Some(names))) => Ok(Some(Listing {
                names: texts(alloc, names)?,
                is_whole: true,
            })),
            _ => Ok(None),
        }
    }

    fn status(&self, _alloc: Global, path: &str) -> Result<Option<Status>, AllocError> {
        match self.find(path.as_bytes()) {
            Some(Few::Owned(_, status)) => Ok(Some(status)),
            _ => Ok(None),
        }
    }

    fn front(&self, alloc: Global, path: &str, most: u64) -> Result<Option<Vec<u8>>, AllocError> {
        match self.find(path.as_bytes()) {
            Some(Few::File(Some(bytes)) | Few::Owned(bytes, _)) => Ok(Some(first_bytes(
                alloc, bytes, most,
            )?)),
            _ => Ok(None),
        }
    }
}

// Returns copies of texts.
fn texts(alloc: Global, texts: &[&str]) -> Result<Vec<Name>, AllocError>
    ensures { IfOk result (λ copies. copies.items ≡ map (λ text. text.now) texts.now) }
{
    let mut copies = Vec::new(alloc);
    for text in texts {
        copies.push(Name::at(alloc, text)?)?;
    }
    Ok(copies)
}

// Returns the first `most` bytes of a text.
fn first_bytes(alloc: Global, bytes: &[u8], most: u64) -> Result<Vec<u8>, AllocError>
    ensures { IfOk result (λ first. first.items ≡ take most bytes.now) }
{
    let kept = match usize::try_from(most) {
        Ok(most) => bytes.len().min(most),
        Err(_) => bytes.len(),
    };
    Vec::from_slice(alloc, &bytes[..kept])
}
