//! A list of commands that is being read, and the lists that it is in.

ghost use Rattle.std.specs.Prelude.{◌≡◌, ◌∷◌, ◌++◌, [], MatchOption, OnOk, length};
ghost use Rattle.plan_shell.specs.Reading.{ending_steps, if_steps, is_in, join_steps, new_level, not_steps, pipe_steps, pipeline_steps};

use crate::step::Step;
use std::alloc::{AllocError, Global};
use std::marker::Model;

/// What a list is inside.
#[derive(Clone, Copy)]
pub(crate) enum Inside {
    /// Nothing: it is the whole command.
    Whole,
    /// `(..)`.
    Parentheses,
    /// `{..}`.
    Braces,
    /// The condition of an `if` or `elif`.
    Condition,
    /// The part after a `then`.
    Then,
    /// The part after an `else`.
    Else,
}

/// What joins a pipeline to the ones before it.
#[derive(Clone, Copy)]
pub(crate) enum Join {
    /// Nothing: it is the first.
    None,
    /// `&&`.
    And,
    /// `||`.
    Or,
}

/// A list of commands, as far as it has been read.
#[derive(Clone, Copy)]
pub(crate) struct Level {
    /// What it is inside.
    pub(crate) inside: Inside,
    /// The number of `elif`s before it, in the same `if`.
    pub(crate) elifs: u32,
    /// Whether a `;` has been read.
    pub(crate) is_second: bool,
    /// What joins its last pipeline to the ones before it.
    pub(crate) join: Join,
    /// Whether its last pipeline begins with `!`.
    pub(crate) is_negated: bool,
    /// Whether its last command follows a `|`.
    pub(crate) is_piped: bool,
}

impl Level {
    /// Returns a list of which nothing has been read.
    pub(crate) fn new(inside: Inside, elifs: u32) -> Level
        ensures { result ≡ new_level inside elifs }
    {
        Level {
            inside,
            elifs,
            is_second: false,
            join: Join::None,
            is_negated: false,
            is_piped: false,
        }
    }
}

/// Returns whether a list is inside `kind`.
pub(crate) fn is_in(kind: Inside, inside: Inside) -> bool
    ensures { result ≡ is_in kind inside }
{
    match (kind, inside) {
        (Inside::Whole, Inside::Whole) => true,
        (Inside::Parentheses, Inside::Parentheses) => true,
        (Inside::Braces, Inside::Braces) => true,
        (Inside::Condition, Inside::Condition) => true,
        (Inside::Then, Inside::Then) => true,
        (Inside::Else, Inside::Else) => true,
        _ => false,
    }
}

/// Adds the steps that end a command.
pub(crate) fn push_pipe(steps: &mut Vec<Step>, level: Level) -> Result<(), AllocError>
    ensures { OnOk result (steps.new.items ≡ steps.old.items ++ pipe_steps level) }
{
    if level.is_piped {
        steps.push(Step::Both)?;
    }
    Ok(())
}

// Adds the step of a `!`.
fn push_not(steps: &mut Vec<Step>, level: Level) -> Result<(), AllocError>
    ensures { OnOk result (steps.new.items ≡ steps.old.items ++ not_steps level) }
{
    if level.is_negated {
        steps.push(Step::Not)?;
    }
    Ok(())
}

// Adds the step of a `&&` or `||`.
fn push_join(steps: &mut Vec<Step>, join: Join) -> Result<(), AllocError>
    ensures { OnOk result (steps.new.items ≡ steps.old.items ++ join_steps join) }
{
    match join {
        Join::None => Ok(()),
        Join::And => Ok(steps.push(Step::And)?),
        Join::Or => Ok(steps.push(Step::Or)?),
    }
}

/// Adds the steps that end a pipeline.
pub(crate) fn push_pipeline(steps: &mut Vec<Step>, level: Level) -> Result<(), AllocError>
    ensures { OnOk result (steps.new.items ≡ steps.old.items ++ pipeline_steps level) }
{
    push_pipe(steps, level)?;
    push_not(steps, level)?;
    push_join(steps, level.join)
}

/// Adds the steps that end a list after a command.
pub(crate) fn push_ending(steps: &mut Vec<Step>, level: Level) -> Result<(), AllocError>
    ensures { OnOk result (steps.new.items ≡ steps.old.items ++ ending_steps level) }
{
    push_pipeline(steps, level)?;
    if level.is_second {
        steps.push(Step::Both)?;
    }
    Ok(())
}

/// Adds the steps that end an `if` and those that its `elif`s began.
pub(crate) fn push_ifs(steps: &mut Vec<Step>, elifs: u32) -> Result<(), AllocError>
    ensures { OnOk result (steps.new.items ≡ steps.old.items ++ if_steps elifs) }
{
    for _ in 0..elifs {
        steps.push(Step::If)?;
    }
    Ok(steps.push(Step::If)?)
}

/// The lists that a list is in, the innermost first.
#[derive(Drop)]
pub(crate) struct Outer {
    levels: Vec<Level>,
}

impl Model for Outer {
    ghost use Rattle.std.specs.Prelude.{List, reverse};
    ghost use Rattle.plan_shell.specs.declared.level.Level.{Level};

    ghost Value = { List Level };

    ghost view = { λ outer. reverse outer.levels.items };
}

impl Outer {
    /// Returns no lists.
    pub(crate) fn new(alloc: Global) -> Outer
        ensures { result ≡ [] }
    {
        Outer {
            levels: Vec::new(alloc),
        }
    }

    /// Returns the number of lists.
    pub(crate) fn len(&self) -> usize
        ensures { result ≡ length self.now }
    {
        self.levels.len()
    }

    /// Adds a list that is in all of them.
    pub(crate) fn push(&mut self, level: Level) -> Result<(), AllocError>
        ensures { OnOk result (self.new ≡ level ∷ self.old) }
    {
        Ok(self.levels.push(level)?)
    }

    /// Takes the innermost list.
    pub(crate) fn pop(&mut self) -> Option<Level>
        ensures { MatchOption result (self.old ≡ []) (λ level. self.old ≡ level ∷ self.new) }
    {
        self.levels.pop()
    }
}
