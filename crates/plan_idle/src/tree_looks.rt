//! What a command finds where it looks in a tree.

ghost use Rattle.std.specs.Prelude.{◌≡◌, true, IfOk, map, string_bytes};
ghost use Rattle.plan_idle.specs.Answers.{answer_among, answer_at, answer_in, command_by, dirs_of, only_usr, or_answer, path_in, word_answer};
ghost use Rattle.plan_idle.specs.declared.answer.Answer.TheVariants.{No};

use crate::answer::{Answer, Look};
use crate::files::{BOOTED_PATH, booted_answer, path_answer, program_answer};
use crate::known::KnownPlaces;
use crate::known_tree::KnownTree;
use crate::run_parts::no_scripts_answer;
use crate::shell_words::word_answer;
use plan_shell::Property;
use plan_texts::begins_with;
use plan_tree::Tree;
use std::alloc::{AllocError, Global};
use std::marker::Model;

/// Who looks.
#[derive(Debug, Drop)]
pub struct Asker<'a> {
    /// Whether it is root.
    pub is_root: bool,
    /// Whether the shell is bash. Otherwise it is dash or bash.
    pub is_bash: bool,
    /// The PATH of the shell.
    pub path: &'a str,
}

impl<'a> Model for Asker<'a> {
    ghost use Rattle.plan_idle.specs.Answers.{Asker};

    ghost Value = { Asker };

    ghost view = { λ asker. record { is_root = asker.is_root; is_bash = asker.is_bash; path = asker.path.now } };
}

/// A tree in which the commands of a crontab look for files.
#[derive(Drop)]
pub struct TreeLooks<'a, T: Tree> {
    tree: &'a T,
    places: &'a KnownPlaces,
    asker: Asker<'a>,
}

impl<'a, T: Tree> TreeLooks<'a, T> {
    /// Returns a tree in which the commands of a user look for files, if what is at these places of it is known.
    pub fn new(tree: &'a T, places: &'a KnownPlaces, asker: Asker<'a>) -> TreeLooks<'a, T>
        ensures { ⟦<TreeLooks<'a, T> as Look>⟧.looks result ≡ answer_at (T.held tree.now) places.now asker.entry }
    {
        TreeLooks {
            tree,
            places,
            asker,
        }
    }
}

impl<T: Tree> Look for TreeLooks<'_, T> {
    ghost use Rattle.plan_idle.specs.Answers.{answer_at};

    ghost is_known = { T.is_known };

    ghost looks = { λ looks. answer_at (T.held looks.tree.now) looks.places.now looks.asker };

    fn look(&self, alloc: Global, property: Property, subject: &str) -> Result<Answer, AllocError> {
        let known = KnownTree {
            tree: self.tree,
            places: self.places,
            is_root: self.asker.is_root,
            only_usr: only_usr(property),
        };
        match property {
            Property::Command => command_answer(alloc, &known, &self.asker, subject),
            Property::NoScripts => no_scripts_answer(alloc, &known, subject),
            property if subject == BOOTED_PATH => booted_answer(alloc, self.tree, property),
            property => path_answer(alloc, &known, property, subject),
        }
    }
}

// Returns whether a property is known in usr alone.
fn only_usr(property: Property) -> bool
    ensures { result ≡ only_usr property }
{
    matches!(property, Property::NotEmpty)
}

// Returns whether a command has this name: in the shell, or in a directory of PATH.
fn command_answer<T: Tree>(
    alloc: Global,
    tree: &T,
    asker: &Asker<'_>,
    name: &str,
) -> Result<Answer, AllocError>
    ensures { T.is_known ≡ true → IfOk result (λ answer.
        answer ≡ command_by (T.held tree.now) name.now asker.now.path (word_answer asker.now.is_bash name.now)) }
{
    match word_answer(alloc, asker.is_bash, name)? {
        Answer::No => answer_by_path(alloc, tree, name, asker.path),
        answer => Ok(answer),
    }
}

// Returns whether a directory of PATH has a command.
fn answer_by_path<T: Tree>(
    alloc: Global,
    tree: &T,
    name: &str,
    path: &str,
) -> Result<Answer, AllocError>
    ensures { T.is_known ≡ true → IfOk result (λ answer.
        answer ≡ answer_among (T.held tree.now) name.now No (dirs_of path.now)) }
{
    let dirs = dirs_of(alloc, path)?;
    answer_among(alloc, tree, name, dirs.as_slice())
}

/// Returns the directories of PATH: the parts of a text between its colons.
pub(crate) fn dirs_of(alloc: Global, path: &str) -> Result<Vec<&str>, AllocError>
    ensures { IfOk result (λ dirs. map (λ dir. dir.now) dirs.items ≡ dirs_of path.now) }
{
    let dirs = path.split(':').collect(alloc)?;
    Ok(dirs)
}

// Returns whether one of some directories has a command.
fn answer_among<T: Tree>(
    alloc: Global,
    tree: &T,
    name: &str,
    dirs: &[&str],
) -> Result<Answer, AllocError>
    ensures { T.is_known ≡ true → IfOk result (λ answer.
        answer ≡ answer_among (T.held tree.now) name.now No (map (λ dir. dir.now) dirs.now)) }
{
    let mut found = Answer::No;
    for dir in dirs {
        found = or_answer(found, answer_in(alloc, tree, name, dir)?);
    }
    Ok(found)
}

// Returns whether a directory of PATH has a command.
fn answer_in<T: Tree>(alloc: Global, tree: &T, name: &str, dir: &str) -> Result<Answer, AllocError>
    ensures { T.is_known ≡ true → IfOk result (λ answer. answer ≡ answer_in (T.held tree.now) name.now dir.now) }
{
    if !begins_with(dir.as_bytes(), b'/') {
        return Ok(Answer::Unknown);
    }
    let path = path_in(alloc, name, dir)?;
    program_answer(alloc, tree, path.as_str())
}

// Returns the path of a name in a directory of PATH.
fn path_in(alloc: Global, name: &str, dir: &str) -> Result<String, AllocError>
    ensures { IfOk result (λ path. string_bytes path ≡ path_in name.now dir.now) }
{
    let mut path = String::from_str(alloc, dir)?;
    path.push_str("/")?;
    path.push_str(name)?;
    Ok(path)
}

// Returns the answer for either of two directories.
fn or_answer(first: Answer, second: Answer) -> Answer
    ensures { result ≡ or_answer first second }
{
    match (first, second) {
        (Answer::No, second) => second,
        (Answer::Unknown, Answer::Yes) => Answer::Yes,
        (first, _) => first,
    }
}
