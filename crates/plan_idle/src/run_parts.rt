//! The scripts of a directory, which run-parts runs (run-parts(8) of Debian).

ghost use Rattle.std.specs.Prelude.{◌≡◌, true, IfOk};
ghost use Rattle.std.specs.List.{list_all};
ghost use Rattle.plan_tree.specs.Links.{end_of};
ghost use Rattle.plan_idle.specs.Answers.{is_no, is_script, is_script_byte, is_script_name, is_yes, may_run, no_scripts_answer, no_scripts_in, scripts_among, scripts_of};

use crate::answer::Answer;
use crate::files::program_answer;
use plan_tree::{End, Name, Place, Tree, follow, in_order};
use std::alloc::{AllocError, Global};

/// Returns the scripts of a directory: the names in it, in the order of their bytes, that consist of letters, digits, `_`
/// and `-`, and lead to a regular file that is executable.
///
/// # Errors
///
/// `AllocError` if an allocation fails.
pub fn scripts<T: Tree>(alloc: Global, tree: &T, path: &str) -> Result<Vec<Name>, AllocError>
    ensures { T.is_known ≡ true → IfOk result (λ scripts. scripts.items ≡ scripts_of (T.held tree.now) path.now) }
{
    let End::Found(dir) = follow(alloc, tree, path)? else {
        return Ok(Vec::new(alloc));
    };
    match tree.names(alloc, dir.as_str())? {
        Some(listing) => {
            let names = in_order(listing.names);
            scripts_among(alloc, tree, &dir, names.as_slice())
        }
        None => Ok(Vec::new(alloc)),
    }
}

// Returns the scripts among some names in a directory.
fn scripts_among<T: Tree>(
    alloc: Global,
    tree: &T,
    dir: &Place,
    names: &[Name],
) -> Result<Vec<Name>, AllocError>
    ensures { T.is_known ≡ true → IfOk result (λ scripts. scripts.items ≡ scripts_among (T.held tree.now) dir.now names.now) }
{
    let mut scripts = Vec::new(alloc);
    for name in names {
        if is_script(alloc, tree, dir, name.as_str())? {
            scripts.push(Name::at(alloc, name.as_str())?)?;
        }
    }
    Ok(scripts)
}

// Returns whether a name in a directory is that of a script.
fn is_script<T: Tree>(alloc: Global, tree: &T, dir: &Place, name: &str) -> Result<bool, AllocError>
    ensures { T.is_known ≡ true → IfOk result (λ is. is ≡ is_script (T.held tree.now) dir.now name.now) }
{
    if !is_script_name(name) {
        return Ok(false);
    }
    let path = dir.child(alloc, name)?;
    Ok(is_yes(program_answer(alloc, tree, path.as_str())?))
}

/// Returns `Yes` if a directory is known to have no scripts, otherwise `Acts`.
///
/// # Errors
///
/// `AllocError` if an allocation fails.
pub(crate) fn no_scripts_answer<T: Tree>(
    alloc: Global,
    tree: &T,
    path: &str,
) -> Result<Answer, AllocError>
    ensures { T.is_known ≡ true → IfOk result (λ answer.
        answer ≡ no_scripts_answer (T.held tree.now) (end_of (T.held tree.now).node path.now)) }
{
    let End::Found(dir) = follow(alloc, tree, path)? else {
        return Ok(Answer::Acts);
    };
    if !tree.node(alloc, dir.as_str())?.is_directory() {
        return Ok(Answer::Acts);
    }
    match tree.names(alloc, dir.as_str())? {
        None => Ok(Answer::Acts),
        Some(listing) => {
            if !listing.is_whole {
                return Ok(Answer::Acts);
            }
            no_scripts_in(alloc, tree, &dir, listing.names.as_slice())
        }
    }
}

// Returns `Yes` if none of some names in a directory may be that of a script, otherwise `Acts`.
fn no_scripts_in<T: Tree>(
    alloc: Global,
    tree: &T,
    dir: &Place,
    names: &[Name],
) -> Result<Answer, AllocError>
    ensures { T.is_known ≡ true → IfOk result (λ answer.
        answer ≡ no_scripts_in (T.held tree.now) dir.now names.now) }
{
    for name in names {
        if may_run(alloc, tree, dir, name.as_str())? {
            return Ok(Answer::Acts);
        }
    }
    Ok(Answer::Yes)
}

// Returns whether a name in a directory may be that of a script.
fn may_run<T: Tree>(alloc: Global, tree: &T, dir: &Place, name: &str) -> Result<bool, AllocError>
    ensures { T.is_known ≡ true → IfOk result (λ may. may ≡ may_run (T.held tree.now) dir.now name.now) }
{
    if !is_script_name(name) {
        return Ok(false);
    }
    let path = dir.child(alloc, name)?;
    Ok(!is_no(program_answer(alloc, tree, path.as_str())?))
}

// Returns whether a name is that of a script.
fn is_script_name(name: &str) -> bool
    ensures { result ≡ is_script_name name.now }
{
    name.as_bytes().iter().all(|byte| is_script_byte(*byte))
}

// Returns whether the name of a script may have a byte.
fn is_script_byte(byte: u8) -> bool
    ensures { result ≡ is_script_byte byte }
{
    byte.is_ascii_alphanumeric() || byte == b'_' || byte == b'-'
}

fn is_no(answer: Answer) -> bool
    ensures { result ≡ is_no answer }
{
    match answer {
        Answer::No => true,
        _ => false,
    }
}

fn is_yes(answer: Answer) -> bool
    ensures { result ≡ is_yes answer }
{
    match answer {
        Answer::Yes => true,
        _ => false,
    }
}
