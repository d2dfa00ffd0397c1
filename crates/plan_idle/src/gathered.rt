//! What a command may run, with the directories whose scripts it may run.

ghost use Rattle.std.specs.Prelude.{◌≡◌, ◌++◌, IfOk};
ghost use Rattle.plan_idle.specs.Gathered.{alone, at_and, at_both, at_if, at_look, at_not, at_or, gathered};
ghost use Rattle.plan_idle.specs.Outcomes.{looked_at};
ghost use Rattle.plan_idle.specs.Scripts.{look_directories, only_if};

use crate::answer::Answer;
use crate::outcomes::{
    Outcomes, and_outcomes, both, if_outcomes, looked_at, not_outcomes, or_outcomes,
};
use plan_shell::Property;
use plan_texts::Text;
use std::alloc::{AllocError, Global};
use std::marker::Model;

/// What a command may run, with the directories of its `run-parts` commands that may run.
#[derive(Drop)]
pub(crate) struct Gathered {
    /// What it may run.
    pub(crate) outcomes: Outcomes,
    /// The directories, in the order of the commands.
    pub(crate) dirs: Vec<Text>,
}

impl Model for Gathered {
    ghost use Rattle.plan_idle.specs.Gathered.{Gathered};

    ghost Value = { Gathered };

    ghost view = { λ gathered. record { outcomes = gathered.outcomes; dirs = gathered.dirs.items } };
}

/// Returns a command without `run-parts`.
pub(crate) fn alone(alloc: Global, outcomes: Outcomes) -> Gathered
    ensures { result ≡ alone outcomes }
{
    Gathered {
        outcomes,
        dirs: Vec::new(alloc),
    }
}

/// Returns a command that looks at something.
///
/// # Errors
///
/// `AllocError` if an allocation fails.
pub(crate) fn at_look(
    alloc: Global,
    property: Property,
    subject: &str,
    answer: Answer,
) -> Result<Gathered, AllocError>
    ensures { IfOk result (λ made.
        made ≡ gathered (looked_at property subject.now answer) (look_directories property subject.now)) }
{
    let outcomes = looked_at(alloc, property, subject, answer)?;
    let dirs = look_directories(alloc, property, subject)?;
    Ok(Gathered { outcomes, dirs })
}

// Returns the directory whose scripts a command runs that looks at something.
fn look_directories(
    alloc: Global,
    property: Property,
    subject: &str,
) -> Result<Vec<Text>, AllocError>
    ensures { IfOk result (λ dirs. dirs.items ≡ look_directories property subject.now) }
{
    let mut dirs = Vec::new(alloc);
    match property {
        Property::NoScripts => {
            dirs.push(Text::new(String::from_str(alloc, subject)?))?;
            Ok(dirs)
        }
        _ => Ok(dirs),
    }
}

/// Returns `! a`.
pub(crate) fn at_not(a: Gathered) -> Gathered
    ensures { result ≡ at_not a }
{
    Gathered {
        outcomes: not_outcomes(a.outcomes),
        dirs: a.dirs,
    }
}

/// Returns `a; b`.
///
/// # Errors
///
/// `AllocError` if an allocation fails.
pub(crate) fn at_both(a: Gathered, b: Gathered) -> Result<Gathered, AllocError>
    ensures { IfOk result (λ joined. joined ≡ at_both a b) }
{
    let dirs = joined(a.dirs, b.dirs)?;
    let outcomes = both(a.outcomes, b.outcomes);
    Ok(Gathered { outcomes, dirs })
}

/// Returns `a && b`.
///
/// # Errors
///
/// `AllocError` if an allocation fails.
pub(crate) fn at_and(a: Gathered, b: Gathered) -> Result<Gathered, AllocError>
    ensures { IfOk result (λ joined. joined ≡ at_and a b) }
{
    let more = only_if(a.outcomes.may_be_true, b.dirs);
    let dirs = joined(a.dirs, more)?;
    let outcomes = and_outcomes(a.outcomes, b.outcomes);
    Ok(Gathered { outcomes, dirs })
}

/// Returns `a || b`.
///
/// # Errors
///
/// `AllocError` if an allocation fails.
pub(crate) fn at_or(a: Gathered, b: Gathered) -> Result<Gathered, AllocError>
    ensures { IfOk result (λ joined. joined ≡ at_or a b) }
{
    let more = only_if(a.outcomes.may_be_false, b.dirs);
    let dirs = joined(a.dirs, more)?;
    let outcomes = or_outcomes(a.outcomes, b.outcomes);
    Ok(Gathered { outcomes, dirs })
}

/// Returns `if a; then b; else c; fi`.
///
/// # Errors
///
/// `AllocError` if an allocation fails.
pub(crate) fn at_if(a: Gathered, b: Gathered, c: Gathered) -> Result<Gathered, AllocError>
    ensures { IfOk result (λ joined. joined ≡ at_if a b c) }
{
    let first = only_if(a.outcomes.may_be_true, b.dirs);
    let second = only_if(a.outcomes.may_be_false, c.dirs);
    let more = joined(first, second)?;
    let dirs = joined(a.dirs, more)?;
    let outcomes = if_outcomes(a.outcomes, b.outcomes, c.outcomes);
    Ok(Gathered { outcomes, dirs })
}

// Returns some directories, and then others.
fn joined(first: Vec<Text>, second: Vec<Text>) -> Result<Vec<Text>, AllocError>
    ensures { IfOk result (λ dirs. dirs.items ≡ first.items ++ second.items) }
{
    let mut dirs = first;
    let mut more = second;
    dirs.append(&mut more)?;
    Ok(dirs)
}

// Returns the directories of a part, if it may run.
fn only_if(may: bool, dirs: Vec<Text>) -> Vec<Text>
    ensures { result.items ≡ only_if may dirs.items }
{
    let mut dirs = dirs;
    if !may {
        dirs.clear();
    }
    dirs
}
