//! The entry of a line: what the line says by itself, no matter what is wrong with other lines.

ghost use Rattle.std.specs.Prelude.{◌≡◌};
ghost use Rattle.plan_rules.specs.Entries.{fault_of};
ghost use Rattle.plan_rules.specs.LineFaults.{on_line};

use crate::line_fault::{LineCause, LineFault};

/// What a line of a text says, or why it is rejected, independent of all other lines.
#[derive(Debug, Drop)]
pub struct Entry<T> {
    /// The number of the line, from 1. If the line is continued with a backslash, that of its first line.
    pub line: u32,
    /// What the line says, or what is wrong with it. The cause is never `NoMemory`.
    pub read: Result<T, LineCause>,
}

impl<T: Drop> Entry<T> {
    // Returns the error of the line, if it is rejected.
    pub(crate) fn fault(&self) -> Option<LineFault>
        ensures { result ≡ fault_of self.now }
    {
        match &self.read {
            Ok(_) => None,
            Err(cause) => Some(cause.on_line(self.line)),
        }
    }

    // Returns what the line says, or its error if it is rejected.
    pub(crate) fn accepted(self) -> Result<T, LineFault>
        ensures { result ≡ on_line self.line self.read }
    {
        match self.read {
            Ok(said) => Ok(said),
            Err(cause) => Err(cause.on_line(self.line)),
        }
    }
}
