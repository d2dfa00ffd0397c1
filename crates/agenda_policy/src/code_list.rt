//! A list of codes.
ghost use Rattle.std.specs.Prelude.{◌≡◌, ◌++◌, ◌∷◌, [], OnOk};

use agenda_codes::Code;
use std::alloc::{AllocError, Global};
use std::marker::Model;

/// Codes, in the order of the arguments. Contracts see this value as a list.
#[derive(Debug, Drop)]
pub struct CodeList {
    kept: Vec<Code>,
}

impl Model for CodeList {
    ghost use Rattle.std.specs.Prelude.{List};
    ghost use Rattle.agenda_codes.specs.declared.Code.{Code};

    ghost Value = { List Code };

    ghost view = { λ codes. codes.kept.items };
}

impl CodeList {
    /// Returns an empty list. This requests no memory; `push` requests what it needs from `alloc`.
    pub fn new(alloc: Global) -> CodeList
        ensures { result ≡ [] }
    {
        CodeList {
            kept: Vec::new(alloc),
        }
    }

    /// Appends a code.
    ///
    /// # Errors
    ///
    /// `AllocError` if an allocation fails.
    pub fn push(&mut self, code: Code) -> Result<(), AllocError>
        ensures { OnOk result (self.new ≡ self.old ++ code ∷ []) }
    {
        self.kept.push(code)?;
        Ok(())
    }

    /// Lends the codes.
    pub fn as_slice(&self) -> &[Code]
        ensures { result.now ≡ self.now }
    {
        self.kept.as_slice()
    }
}
