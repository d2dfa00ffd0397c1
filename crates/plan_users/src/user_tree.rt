//! The files of a user's units, as the manager of the user reads them (systemd.unit(5), specifiers).

ghost use Rattle.std.specs.Prelude.{◌≡◌, true, IfOk, take};
ghost use Rattle.std.specs.Option.{option_map};
ghost use Rattle.plan_parts.specs.Specifiers.{replaced};
ghost use Rattle.plan_texts.specs.Lines.{is_too_large};
ghost use Rattle.plan_users.specs.UserTree.{as_read, expanded_for, held_for, home_path, user_text};

use crate::managers::Manager;
use plan_texts::lines::{MOST_BYTES, is_too_large};
use plan_tree::{Listing, Node, Status, Tree};
use std::alloc::{AllocError, Global};

// A tree of which the manager of a user reads the files: in each the specifiers of the user are replaced.
#[derive(Drop)]
pub(crate) struct UserTree<'a, T: Tree> {
    tree: &'a T,
    manager: &'a Manager,
}

impl<'a, T: Tree> UserTree<'a, T> {
    // Returns the tree that the manager of a user reads.
    pub(crate) fn new(tree: &'a T, manager: &'a Manager) -> UserTree<'a, T>
        ensures { ⟦<UserTree<'a, T> as Tree>⟧.held result ≡ held_for manager.now (T.held tree.now) }
    {
        UserTree { tree, manager }
    }
}

impl<T: Tree> Tree for UserTree<'_, T> {
    ghost is_known = { T.is_known };

    ghost held = { λ user. held_for user.manager.now (T.held user.tree.now) };

    fn node(&self, alloc: Global, path: &str) -> Result<Node, AllocError> {
        self.tree.node(alloc, path)
    }

    fn names(&self, alloc: Global, path: &str) -> Result<Option<Listing>, AllocError> {
        self.tree.names(alloc, path)
    }

    fn status(&self, alloc: Global, path: &str) -> Result<Option<Status>, AllocError> {
        self.tree.status(alloc, path)
    }

    fn front(&self, alloc: Global, path: &str, most: u64) -> Result<Option<Vec<u8>>, AllocError> {
        let enough = most.max(MOST_BYTES as u64 + 1);
        match self.tree.front(alloc, path, enough)? {
            Some(bytes) => Ok(Some(front_read(alloc, self.manager, bytes, most)?)),
            None => Ok(None),
        }
    }
}

// Returns the first `most` bytes of a file as the manager of a user reads it.
fn front_read(
    alloc: Global,
    manager: &Manager,
    bytes: Vec<u8>,
    most: u64,
) -> Result<Vec<u8>, AllocError>
    ensures { IfOk result (λ front. front.items ≡ take most (as_read manager.now bytes.items)) }
{
    let mut read = as_read(alloc, manager, bytes)?;
    if most < read.len() as u64 {
        read.truncate(most as usize);
    }
    Ok(read)
}

// Returns a file as the manager of a user reads it.
fn as_read(alloc: Global, manager: &Manager, bytes: Vec<u8>) -> Result<Vec<u8>, AllocError>
    ensures { IfOk result (λ read. read.items ≡ as_read manager.now bytes.items) }
{
    if is_too_large(bytes.as_slice()) {
        return Ok(bytes);
    }
    expanded_for(alloc, manager, bytes.as_slice())
}

// Returns a text with the specifiers of a user replaced.
fn expanded_for(alloc: Global, manager: &Manager, text: &[u8]) -> Result<Vec<u8>, AllocError>
    ensures { IfOk result (λ read. read.items ≡ expanded_for manager.now text.now) }
{
    let mut read = Vec::with_capacity(alloc, text.len())?;
    let mut marked = false;
    for byte in text {
        if marked {
            let mut more = user_text(alloc, manager, *byte)?;
            read.append(&mut more)?;
            marked = false;
        } else if *byte == b'%' {
            marked = true;
        } else {
            read.push(*byte)?;
        }
    }
    if marked {
        read.push(b'%')?;
    }
    Ok(read)
}

// Returns what a letter after `%` stands for. If it is no specifier of the user, both stay.
fn user_text(alloc: Global, manager: &Manager, letter: u8) -> Result<Vec<u8>, AllocError>
    ensures { IfOk result (λ text. text.items ≡ user_text manager.now letter) }
{
    match letter {
        b'u' => Vec::from_slice(alloc, manager.user.as_str().as_bytes()),
        b'U' => Vec::from_slice(alloc, manager.number.as_str().as_bytes()),
        b'h' => home_path(alloc, manager.home.as_str()),
        _ => Vec::from_slice(alloc, &[b'%', letter]),
    }
}

// Returns the path of a home directory on the machine.
fn home_path(alloc: Global, home: &str) -> Result<Vec<u8>, AllocError>
    ensures { IfOk result (λ path. path.items ≡ home_path home.now) }
{
    let mut path = Vec::from_slice(alloc, b"/")?;
    path.extend_from_slice(home.as_bytes())?;
    Ok(path)
}
