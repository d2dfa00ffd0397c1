//! What the commands may run that were read, for those that they are parts of.

ghost use Rattle.std.specs.Prelude.{◌≡◌, ◌∷◌, [], MatchOption, OnOk};

use crate::gathered::Gathered;
use std::alloc::{AllocError, Global};
use std::marker::Model;

/// What commands may run, the last one first.
#[derive(Drop)]
pub(crate) struct Stack {
    gathered: Vec<Gathered>,
}

impl Model for Stack {
    ghost use Rattle.std.specs.Prelude.{List, reverse};
    ghost use Rattle.plan_idle.specs.Gathered.{Gathered};

    ghost Value = { List Gathered };

    ghost view = { λ stack. reverse stack.gathered.items };
}

impl Stack {
    /// Returns no commands.
    pub(crate) fn new(alloc: Global) -> Stack
        ensures { result ≡ [] }
    {
        Stack {
            gathered: Vec::new(alloc),
        }
    }

    /// Adds what a command may run.
    pub(crate) fn push(&mut self, gathered: Gathered) -> Result<(), AllocError>
        ensures { OnOk result (self.new ≡ gathered ∷ self.old) }
    {
        Ok(self.gathered.push(gathered)?)
    }

    /// Takes what the last command may run.
    pub(crate) fn pop(&mut self) -> Option<Gathered>
        ensures { MatchOption result ((self.old ≡ []) × (self.new ≡ [])) (λ a. self.old ≡ a ∷ self.new) }
    {
        self.gathered.pop()
    }
}
