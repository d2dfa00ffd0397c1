//! A command of a job, as sh(1) reads it.

ghost use Rattle.std.specs.Prelude.{◌≡◌, [], IfOk, map};
ghost use Rattle.plan_shell.specs.Reading.{start, state_of, steps_from, steps_in, whole};

use crate::pieces::pieces;
use crate::reader::{Reader, after_piece, ended, whole};
use crate::step::Step;
use std::alloc::{AllocError, Global};
use std::marker::Model;

/// A command of a job, as sh(1) reads it. Contracts see its steps; `tree_of` says which command they make.
#[derive(Debug, Drop)]
pub struct ShellList {
    steps: Vec<Step>,
}

impl Model for ShellList {
    ghost use Rattle.std.specs.Prelude.{List};
    ghost use Rattle.plan_shell.specs.declared.step.Step.{Step};

    ghost Value = { List Step };

    ghost view = { λ list. list.steps.items };
}

impl ShellList {
    /// Reads a command. Returns `None` if it isn't in the grammar, or not closed.
    ///
    /// # Errors
    ///
    /// `AllocError` if an allocation fails.
    pub fn read(alloc: Global, command: &[u8]) -> Result<Option<ShellList>, AllocError>
        ensures { IfOk result (λ list. list ≡ steps_in command.now) }
    {
        match pieces(alloc, command)? {
            Some(pieces) => Ok(read_pieces(alloc, pieces.as_slice())?),
            None => Ok(None),
        }
    }

    /// Returns the steps of the command.
    pub fn steps(&self) -> &[Step]
        ensures { result.now ≡ self.now }
    {
        self.steps.as_slice()
    }
}

// Reads the pieces of a command.
fn read_pieces(alloc: Global, pieces: &[&[u8]]) -> Result<Option<ShellList>, AllocError>
    ensures { IfOk result (λ list. list ≡ steps_from [] start (map (λ piece. piece.now) pieces.now)) }
{
    let mut reader = Reader::new(alloc);
    let mut words = Vec::new(alloc);
    for piece in pieces {
        match after_piece(alloc, reader, &mut words, piece)? {
            Some(next) => reader = next,
            None => return Ok(None),
        }
    }
    match ended(alloc, reader, words.as_slice())? {
        Some(reader) => listed(reader),
        None => Ok(None),
    }
}

// Returns a command that has ended, or `None` if it isn't closed.
fn listed(reader: Reader) -> Result<Option<ShellList>, AllocError>
    ensures { IfOk result (λ list. list ≡ whole (state_of reader)) }
{
    match whole(reader)? {
        Some(steps) => Ok(Some(ShellList { steps })),
        None => Ok(None),
    }
}
