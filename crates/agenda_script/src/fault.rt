//! Why a script is rejected.

use plan_mailbox::NewFault;
use std::alloc::{AllocError, AllocFailed};
use std::error::Error;
use std::fmt::{self, Display, Formatter};

/// What is wrong with a script.
#[derive(Clone, Copy, Debug, PartialEq, Eq)]
pub enum ScriptCause {
    /// An allocation failed. The line is 0.
    NoMemory,
    /// The bytes are not UTF-8. The line is 0.
    NotUtf8,
    /// The script has more than 1,048,576 bytes. The line is 0.
    TooLarge,
    /// The line has none of the forms of a script, or the first line is missing.
    BadLine,
    /// The first line doesn't have 1 to 8 senders and a capacity of 1 to 1,024.
    BadSize,
    /// The script has more than 10,000 steps. The line is 10,002.
    TooManySteps,
}

impl ScriptCause {
    ghost use Rattle.std.specs.Prelude.{◌≡◌};
    ghost use Rattle.agenda_script.specs.Causes.{script_cause};

    /// Returns the cause's name, which error lines show.
    pub fn name(&self) -> &'static str
        ensures { result.now ≡ script_cause self.now }
    {
        match self {
            ScriptCause::NoMemory => "NoMemory",
            ScriptCause::NotUtf8 => "NotUtf8",
            ScriptCause::TooLarge => "TooLarge",
            ScriptCause::BadLine => "BadLine",
            ScriptCause::BadSize => "BadSize",
            ScriptCause::TooManySteps => "TooManySteps",
        }
    }
}

impl Display for ScriptCause {
    ghost use Rattle.std.specs.Prelude.{Some};
    ghost use Rattle.agenda_script.specs.Causes.{script_cause};

    ghost output = { λ fault. Some (script_cause fault) };

    fn fmt<W: fmt::Write>(&self, f: &mut Formatter<W>) -> fmt::Result {
        f.write_str(self.name())
    }
}

impl Error for ScriptCause {}

/// The first error of a script.
#[derive(Clone, Copy, Debug, PartialEq, Eq)]
pub struct ScriptFault {
    /// The line, from 1. The whole script is 0.
    pub line: u32,
    /// What is wrong with it.
    pub cause: ScriptCause,
}

impl Display for ScriptFault {
    ghost use Rattle.std.specs.Prelude.{Some};
    ghost use Rattle.agenda_script.specs.Causes.{script_cause};

    ghost output = { λ fault. Some (script_cause fault.cause) };

    fn fmt<W: fmt::Write>(&self, f: &mut Formatter<W>) -> fmt::Result {
        f.write_str(self.cause.name())
    }
}

impl Error for ScriptFault {}

impl From<AllocError> for ScriptFault {
    ghost use Rattle.std.specs.Prelude.{◌≡◌};
    ghost use Rattle.agenda_script.specs.Script.{memory_fault};

    ghost from_gives = { λ _ fault. fault ≡ memory_fault };

    fn from(_error: AllocError) -> ScriptFault {
        ScriptFault {
            line: 0,
            cause: ScriptCause::NoMemory,
        }
    }
}

impl<T: Drop> From<AllocFailed<T>> for ScriptFault {
    ghost use Rattle.std.specs.Prelude.{◌≡◌};
    ghost use Rattle.agenda_script.specs.Script.{memory_fault};

    ghost from_gives = { λ _ fault. fault ≡ memory_fault };

    fn from(_error: AllocFailed<T>) -> ScriptFault {
        ScriptFault {
            line: 0,
            cause: ScriptCause::NoMemory,
        }
    }
}

// The sizes of a mailbox are in the first line.
impl From<NewFault> for ScriptFault {
    ghost use Rattle.std.specs.Prelude.{◌≡◌};
    ghost use Rattle.agenda_script.specs.Script.{fault_of_mailbox};

    ghost from_gives = { λ fault answer. answer ≡ fault_of_mailbox fault };

    fn from(fault: NewFault) -> ScriptFault {
        match fault {
            NewFault::NoMemory => ScriptFault {
                line: 0,
                cause: ScriptCause::NoMemory,
            },
            NewFault::BadSize => ScriptFault {
                line: 1,
                cause: ScriptCause::BadSize,
            },
        }
    }
}
