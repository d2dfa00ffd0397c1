//! What a command finds where it looks for a file in a tree.

ghost use Rattle.std.specs.Prelude.{◌≡◌, true, IfOk};
ghost use Rattle.plan_idle.specs.Answers.{answer_of, booted_answer, booted_by, directory_answer, directory_if, end_answer, executable_answer, exists_answer, file_answer, full_answer, init_answer, is_systemd, mode_answer, node_answer, path_answer, program_answer};

use crate::answer::Answer;
use crate::known::lead_of;
use plan_shell::Property;
use plan_tree::{End, Node, Status, Tree, follow};
use std::alloc::{AllocError, Global};

/// The path of the directory that shows that systemd runs (sd_booted(3)).
pub(crate) const BOOTED_PATH: &str = "/run/systemd/system";

// The execute bits of a mode: those of its owner, its group and others (inode(7)).
const EXECUTE: u32 = 0o111;

/// Returns whether a path leads to a regular file that is executable.
///
/// # Errors
///
/// `AllocError` if an allocation fails.
pub(crate) fn program_answer<T: Tree>(
    alloc: Global,
    tree: &T,
    path: &str,
) -> Result<Answer, AllocError>
    ensures { T.is_known ≡ true → IfOk result (λ answer. answer ≡ program_answer (T.held tree.now) path.now) }
{
    match path_answer(alloc, tree, Property::File, path)? {
        Answer::Yes => path_answer(alloc, tree, Property::Executable, path),
        answer => Ok(answer),
    }
}

/// Returns whether what a path leads to has a property.
///
/// # Errors
///
/// `AllocError` if an allocation fails.
pub(crate) fn path_answer<T: Tree>(
    alloc: Global,
    tree: &T,
    property: Property,
    path: &str,
) -> Result<Answer, AllocError>
    ensures { T.is_known ≡ true → IfOk result (λ answer. answer ≡ path_answer (T.held tree.now) property path.now) }
{
    let end = follow(alloc, tree, path)?;
    end_answer(alloc, tree, property, end)
}

// Returns whether what is at the end of a path's links has a property.
fn end_answer<T: Tree>(
    alloc: Global,
    tree: &T,
    property: Property,
    end: End,
) -> Result<Answer, AllocError>
    ensures { T.is_known ≡ true → IfOk result (λ answer. answer ≡ end_answer (T.held tree.now) property end) }
{
    match end {
        End::Found(place) => place_answer(alloc, tree, property, place.as_str()),
        End::Nothing => Ok(Answer::No),
        End::Unknown => Ok(Answer::Unknown),
    }
}

// Returns whether what is at a path without links has a property.
fn place_answer<T: Tree>(
    alloc: Global,
    tree: &T,
    property: Property,
    place: &str,
) -> Result<Answer, AllocError>
    ensures { T.is_known ≡ true → IfOk result (λ answer.
        answer ≡ end_answer (T.held tree.now) property (End.Found place.now)) }
{
    if place.is_empty() {
        return Ok(Answer::Unknown);
    }
    let node = tree.node(alloc, place)?;
    let status = tree.status(alloc, place)?;
    Ok(node_answer(property, &node, status))
}

/// Returns whether run/systemd/system has a property.
///
/// # Errors
///
/// `AllocError` if an allocation fails.
pub(crate) fn booted_answer<T: Tree>(
    alloc: Global,
    tree: &T,
    property: Property,
) -> Result<Answer, AllocError>
    ensures { T.is_known ≡ true → IfOk result (λ answer. answer ≡ booted_answer (T.held tree.now) property) }
{
    let end = lead_of(alloc, tree, BOOTED_PATH)?;
    booted_by(alloc, tree, property, end)
}

// Returns the same, by where run/systemd/system leads.
fn booted_by<T: Tree>(
    alloc: Global,
    tree: &T,
    property: Property,
    end: End,
) -> Result<Answer, AllocError>
    ensures { T.is_known ≡ true → IfOk result (λ answer. answer ≡ booted_by (T.held tree.now) property end) }
{
    match end {
        End::Found(place) => place_answer(alloc, tree, property, place.as_str()),
        End::Nothing => {
            let init = lead_of(alloc, tree, "sbin/init")?;
            Ok(directory_if(property, init_answer(init)))
        }
        End::Unknown => Ok(Answer::Unknown),
    }
}

// Returns whether systemd is at the end of a path's links.
fn init_answer(end: End) -> Answer
    ensures { result ≡ init_answer end }
{
    match end {
        End::Found(place) => answer_of(is_systemd(place.as_str())),
        End::Nothing => Answer::No,
        End::Unknown => Answer::Unknown,
    }
}

// Returns whether a path is that of a file named systemd.
fn is_systemd(place: &str) -> bool
    ensures { result ≡ is_systemd place.now }
{
    place == "systemd" || place.as_bytes().ends_with(b"/systemd")
}

// Returns whether a directory has a property, if it is there.
fn directory_if(property: Property, answer: Answer) -> Answer
    ensures { result ≡ directory_if property answer }
{
    match answer {
        Answer::Yes => node_answer(property, &Node::Directory, None),
        answer => answer,
    }
}

// Returns whether what is at the end of a path's links has a property.
fn node_answer(property: Property, node: &Node, status: Option<Status>) -> Answer
    ensures { result ≡ node_answer property node.now status }
{
    match property {
        Property::Exists => exists_answer(node),
        Property::File => file_answer(node),
        Property::Directory => directory_answer(node),
        Property::NotEmpty => full_answer(node),
        Property::Executable => executable_answer(node, status),
        Property::Command => Answer::Unknown,
        Property::NoScripts => Answer::Acts,
    }
}

fn exists_answer(node: &Node) -> Answer
    ensures { result ≡ exists_answer node.now }
{
    match node {
        Node::Missing => Answer::No,
        Node::Unreadable => Answer::Unknown,
        _ => Answer::Yes,
    }
}

fn file_answer(node: &Node) -> Answer
    ensures { result ≡ file_answer node.now }
{
    match node {
        Node::File { .. } => Answer::Yes,
        Node::Unreadable => Answer::Unknown,
        _ => Answer::No,
    }
}

fn directory_answer(node: &Node) -> Answer
    ensures { result ≡ directory_answer node.now }
{
    match node {
        Node::Directory => Answer::Yes,
        Node::Unreadable => Answer::Unknown,
        _ => Answer::No,
    }
}

fn full_answer(node: &Node) -> Answer
    ensures { result ≡ full_answer node.now }
{
    match node {
        Node::File { is_empty } => answer_of(!*is_empty),
        Node::Directory => Answer::Yes,
        Node::Unreadable | Node::Other => Answer::Unknown,
        _ => Answer::No,
    }
}

fn executable_answer(node: &Node, status: Option<Status>) -> Answer
    ensures { result ≡ executable_answer node.now status }
{
    match node {
        Node::File { .. } => mode_answer(status),
        Node::Directory => Answer::Yes,
        Node::Unreadable => Answer::Unknown,
        _ => Answer::No,
    }
}

fn mode_answer(status: Option<Status>) -> Answer
    ensures { result ≡ mode_answer status }
{
    match status {
        None => Answer::Unknown,
        Some(status) => answer_of(status.mode & EXECUTE != 0),
    }
}

fn answer_of(holds: bool) -> Answer
    ensures { result ≡ answer_of holds }
{
    if holds { Answer::Yes } else { Answer::No }
}
