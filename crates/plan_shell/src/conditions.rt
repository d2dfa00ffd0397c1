//! COND of test(1), of which each part looks at a path.

ghost use Rattle.std.specs.Prelude.{◌≡◌, ◌++◌, IfOk, OnSome, map, option_map, false};
ghost use Rattle.plan_shell.specs.Commands.{at_operator, expected_after, is_ended, is_not, operator_of, steps_at, tests};

use crate::step::{Property, Step};
use crate::words::{is_word, path_of};
use std::alloc::{AllocError, Global};

// What the next word of COND has to be.
#[derive(Clone, Copy)]
enum Expected {
    // `!` or an operator.
    Test,
    // An operator, after `!` or not.
    Operator(bool),
    // The path of a property, negated or not.
    Path(bool, Property),
    // `-a`, or the `]` of `[`.
    Joint,
    // There is none.
    Nothing,
}

/// Returns the steps of COND, or `None` if the words are something else. `bracket` says whether `]` ends it.
///
/// # Errors
///
/// `AllocError` if an allocation fails.
pub(crate) fn tests(
    alloc: Global,
    bracket: bool,
    words: &[&[u8]],
) -> Result<Option<Vec<Step>>, AllocError>
    ensures { IfOk result (λ steps. option_map (λ steps. steps.items) steps ≡ tests bracket (map (λ word. word.now) words.now)) }
{
    let mut steps = Vec::new(alloc);
    steps.push(Step::Known(true))?;
    let mut expected = Expected::Test;
    for word in words {
        match read_word(alloc, &mut steps, bracket, expected, word)? {
            Some(next) => expected = next,
            None => return Ok(None),
        }
    }
    Ok(if is_ended(bracket, expected) {
        Some(steps)
    } else {
        None
    })
}

// Adds the steps of a word. Returns what is expected after it, or `None` if the word isn't expected.
fn read_word(
    alloc: Global,
    steps: &mut Vec<Step>,
    bracket: bool,
    expected: Expected,
    word: &[u8],
) -> Result<Option<Expected>, AllocError>
    ensures next { IfOk result (λ next. next ≡ expected_after bracket expected word.now) }
    ensures steps { IfOk result (λ next. OnSome next (steps.new.items ≡ steps.old.items ++ steps_at expected word.now)) }
{
    match expected {
        Expected::Test if is_not(word) => Ok(Some(Expected::Operator(true))),
        Expected::Test => Ok(at_operator(false, word)),
        Expected::Operator(negated) => Ok(at_operator(negated, word)),
        Expected::Path(negated, property) => push_look(alloc, steps, negated, property, word),
        Expected::Joint => Ok(at_joint(bracket, word)),
        Expected::Nothing => Ok(None),
    }
}

// Adds the steps of the path of a property. Returns what is expected after it, or `None` if the word is no path.
fn push_look(
    alloc: Global,
    steps: &mut Vec<Step>,
    negated: bool,
    property: Property,
    word: &[u8],
) -> Result<Option<Expected>, AllocError>
    ensures next { IfOk result (λ next. next ≡ expected_after false (Expected.Path negated property) word.now) }
    ensures steps { IfOk result (λ next. OnSome next (
        steps.new.items ≡ steps.old.items ++ steps_at (Expected.Path negated property) word.now)) }
{
    let Some(path) = path_of(alloc, word)? else {
        return Ok(None);
    };
    steps.push(Step::Look(property, path))?;
    if negated {
        steps.push(Step::Not)?;
    }
    steps.push(Step::And)?;
    Ok(Some(Expected::Joint))
}

// Returns what is expected after a word that follows a path.
fn at_joint(bracket: bool, word: &[u8]) -> Option<Expected>
    ensures { result ≡ expected_after bracket Expected.Joint word.now }
{
    if is_word(word, "-a") {
        return Some(Expected::Test);
    }
    if bracket && is_word(word, "]") {
        return Some(Expected::Nothing);
    }
    None
}

// Returns whether COND may end here.
fn is_ended(bracket: bool, expected: Expected) -> bool
    ensures { result ≡ is_ended bracket expected }
{
    match expected {
        Expected::Joint => !bracket,
        Expected::Nothing => true,
        _ => false,
    }
}

// Returns what is expected after an operator.
fn at_operator(negated: bool, word: &[u8]) -> Option<Expected>
    ensures { result ≡ at_operator negated word.now }
{
    Some(Expected::Path(negated, operator_of(word)?))
}

// Returns the property that an operator tests.
fn operator_of(word: &[u8]) -> Option<Property>
    ensures { result ≡ operator_of word.now }
{
    if is_word(word, "-x") {
        return Some(Property::Executable);
    }
    if is_word(word, "-e") {
        return Some(Property::Exists);
    }
    if is_word(word, "-f") {
        return Some(Property::File);
    }
    if is_word(word, "-d") {
        return Some(Property::Directory);
    }
    if is_word(word, "-s") {
        return Some(Property::NotEmpty);
    }
    None
}

// Returns whether a word is `!`.
fn is_not(word: &[u8]) -> bool
    ensures { result ≡ is_not word.now }
{
    is_word(word, "!") || is_word(word, "\\!")
}
