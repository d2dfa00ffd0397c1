//! Which simple commands have no effect.

ghost use Rattle.std.specs.Prelude.{◌≡◌, ◌∷◌, [], IfOk, Some, map, option_map, true, false};
ghost use Rattle.plan_shell.specs.Commands.{begins_compound, cd, changes_shell, command, constant, is_errors_too, is_null, is_option, is_silenced, is_to, is_to_null, is_unread, looked, run_from, run_parts, steps_by, steps_of, tests_or_effect, utility_of};

use crate::conditions::tests;
use crate::step::{Property, Step};
use crate::words::{is_word, name_of, path_of};
use plan_texts::Text;
use std::alloc::{AllocError, Global};

// What the first word of a simple command names.
#[derive(Clone, Copy)]
enum Utility {
    // `test`.
    Test,
    // `[`.
    Bracket,
    // `cd`.
    Cd,
    // `command`.
    Command,
    // `run-parts`.
    RunParts,
    // `true` or `:`.
    True,
    // `false`.
    False,
    // A command that isn't read.
    Unread,
    // Another command.
    Other,
}

/// Returns the steps of a simple command, or `None` if it isn't read.
///
/// # Errors
///
/// `AllocError` if an allocation fails.
pub(crate) fn steps_of(alloc: Global, words: &[&[u8]]) -> Result<Option<Vec<Step>>, AllocError>
    ensures { IfOk result (λ steps. option_map (λ steps. steps.items) steps ≡ steps_of (map (λ word. word.now) words.now)) }
{
    match words {
        [] => Ok(None),
        [word, arguments @ ..] => steps_by(alloc, utility_of(word), arguments),
    }
}

// Returns the steps of a simple command, by what its first word names.
fn steps_by(
    alloc: Global,
    utility: Utility,
    arguments: &[&[u8]],
) -> Result<Option<Vec<Step>>, AllocError>
    ensures { IfOk result (λ steps.
        option_map (λ steps. steps.items) steps ≡ steps_by utility (map (λ word. word.now) arguments.now)) }
{
    match utility {
        Utility::Test => tests_or_effect(alloc, tests(alloc, false, arguments)?),
        Utility::Bracket => tests_or_effect(alloc, tests(alloc, true, arguments)?),
        Utility::Cd => one(alloc, cd(alloc, arguments)?),
        Utility::Command => one(alloc, command(alloc, arguments)?),
        Utility::RunParts => one(alloc, run_parts(alloc, arguments)?),
        Utility::True => one(alloc, constant(true, arguments)),
        Utility::False => one(alloc, constant(false, arguments)),
        Utility::Unread => Ok(None),
        Utility::Other => one(alloc, Step::Effect),
    }
}

// Returns what the first word of a simple command names.
fn utility_of(word: &[u8]) -> Utility
    ensures { result ≡ utility_of word.now }
{
    if is_word(word, "test") {
        return Utility::Test;
    }
    if is_word(word, "[") {
        return Utility::Bracket;
    }
    if is_word(word, "cd") {
        return Utility::Cd;
    }
    if is_word(word, "command") {
        return Utility::Command;
    }
    if is_word(word, "run-parts") {
        return Utility::RunParts;
    }
    if is_word(word, "true") || is_word(word, ":") {
        return Utility::True;
    }
    if is_word(word, "false") {
        return Utility::False;
    }
    if is_unread(word) {
        return Utility::Unread;
    }
    Utility::Other
}

// Returns whether a word begins a command that isn't read.
fn is_unread(word: &[u8]) -> bool
    ensures { result ≡ is_unread word.now }
{
    begins_compound(word) || changes_shell(word)
}

// Returns whether a word begins a command with commands in it that isn't read.
fn begins_compound(word: &[u8]) -> bool
    ensures { result ≡ begins_compound word.now }
{
    is_word(word, "while")
        || is_word(word, "until")
        || is_word(word, "for")
        || is_word(word, "case")
        || is_word(word, "function")
        || is_word(word, "[[")
        || is_word(word, "time")
}

// Returns whether a word begins a command that may change how what follows is read or run.
fn changes_shell(word: &[u8]) -> bool
    ensures { result ≡ changes_shell word.now }
{
    is_word(word, "eval")
        || is_word(word, "exec")
        || is_word(word, "exit")
        || is_word(word, "trap")
        || is_word(word, "set")
        || is_word(word, "alias")
        || is_word(word, ".")
}

// Returns one step as the steps of a command.
fn one(alloc: Global, step: Step) -> Result<Option<Vec<Step>>, AllocError>
    ensures { IfOk result (λ steps. option_map (λ steps. steps.items) steps ≡ Some (step ∷ [])) }
{
    let mut steps = Vec::new(alloc);
    steps.push(step)?;
    Ok(Some(steps))
}

// Returns the steps of COND, or of a command with an effect.
fn tests_or_effect(alloc: Global, tests: Option<Vec<Step>>) -> Result<Option<Vec<Step>>, AllocError>
    ensures { IfOk result (λ steps.
        option_map (λ steps. steps.items) steps ≡ Some (tests_or_effect (option_map (λ steps. steps.items) tests))) }
{
    match tests {
        Some(steps) => Ok(Some(steps)),
        None => one(alloc, Step::Effect),
    }
}

// Returns the step of a look at a path or a name, or of a command with an effect.
fn looked(property: Property, subject: Option<Text>) -> Step
    ensures { result ≡ looked property subject }
{
    match subject {
        Some(subject) => Step::Look(property, subject),
        None => Step::Effect,
    }
}

// Returns the step of `true` and `false`.
fn constant(value: bool, arguments: &[&[u8]]) -> Step
    ensures { result ≡ constant value (map (λ word. word.now) arguments.now) }
{
    match arguments {
        [] => Step::Known(value),
        _ => Step::Effect,
    }
}

// Returns the step of `cd`.
fn cd(alloc: Global, arguments: &[&[u8]]) -> Result<Step, AllocError>
    ensures { IfOk result (λ step. step ≡ cd (map (λ word. word.now) arguments.now)) }
{
    match arguments {
        [path] => Ok(looked(Property::Directory, path_of(alloc, path)?)),
        _ => Ok(Step::Effect),
    }
}

// Returns the step of `command`.
fn command(alloc: Global, arguments: &[&[u8]]) -> Result<Step, AllocError>
    ensures { IfOk result (λ step. step ≡ command (map (λ word. word.now) arguments.now)) }
{
    match arguments {
        [option, name, rest @ ..] if is_word(option, "-v") && is_silenced(rest) => {
            Ok(looked(Property::Command, name_of(alloc, name)?))
        }
        _ => Ok(Step::Effect),
    }
}

// Returns whether words redirect the output to /dev/null, and the errors or not.
fn is_silenced(words: &[&[u8]]) -> bool
    ensures { result ≡ is_silenced (map (λ word. word.now) words.now) }
{
    match words {
        [one] => is_to_null(one),
        [one, two] => is_to(one) && is_null(two) || is_to_null(one) && is_errors_too(two),
        [one, two, three] => is_to(one) && is_null(two) && is_errors_too(three),
        _ => false,
    }
}

fn is_null(word: &[u8]) -> bool
    ensures { result ≡ is_null word.now }
{
    is_word(word, "/dev/null")
}

fn is_to_null(word: &[u8]) -> bool
    ensures { result ≡ is_to_null word.now }
{
    is_word(word, ">/dev/null")
}

fn is_to(word: &[u8]) -> bool
    ensures { result ≡ is_to word.now }
{
    is_word(word, ">")
}

fn is_errors_too(word: &[u8]) -> bool
    ensures { result ≡ is_errors_too word.now }
{
    is_word(word, "2>&1")
}

// Returns the step of `run-parts`.
fn run_parts(alloc: Global, arguments: &[&[u8]]) -> Result<Step, AllocError>
    ensures { IfOk result (λ step. step ≡ run_parts (map (λ word. word.now) arguments.now)) }
{
    match arguments {
        [] => Ok(Step::Effect),
        [first, rest @ ..] => run_from(alloc, first, rest),
    }
}

// Returns the step of `run-parts` from a word and the ones after it.
#[tactic(auto, using(crate::proofs::CommandLemmas::stops))]
fn run_from(alloc: Global, first: &[u8], rest: &[&[u8]]) -> Result<Step, AllocError>
    ensures { IfOk result (λ step. step ≡ run_from first.now (map (λ word. word.now) rest.now)) }
{
    let mut last = first;
    for word in rest {
        if !is_option(last) {
            return Ok(Step::Effect);
        }
        last = word;
    }
    Ok(looked(Property::NoScripts, path_of(alloc, last)?))
}

// Returns whether a word is an option of run-parts that doesn't change which names are scripts.
#[tactic(auto, unfolding(crate::specs::Commands::is_option))]
fn is_option(word: &[u8]) -> bool
    ensures { result ≡ is_option word.now }
{
    is_word(word, "--report")
        || is_word(word, "-v")
        || is_word(word, "--verbose")
        || is_word(word, "--exit-on-error")
        || is_word(word, "--new-session")
        || is_word(word, "--random")
}
