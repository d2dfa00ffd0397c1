//! Why a text of lines is rejected: its first bad line, and what is wrong with that line.

use plan_grammar::{RuleCause, RuleFault};
use std::alloc::{AllocError, AllocFailed};
use std::error::Error;
use std::fmt::{self, Display, Formatter};

/// What is wrong with a line, or with the whole text. Errors of the whole text have line 0.
#[derive(Clone, Copy, Debug, PartialEq, Eq)]
pub enum LineCause {
    /// An allocation failed. The line is 0.
    NoMemory,
    /// The bytes are not valid UTF-8. The line is 0.
    NotUtf8,
    /// The text has more than 1,048,576 bytes. The line is 0.
    TooLarge,
    /// A setting has no `=`.
    BadSetting,
    /// A cron rule or a calendar event is invalid. Its error is given, with a cause that is never `NoMemory`.
    Rule(RuleFault),
    /// A job has no command or, in the system's crontab, no user.
    NoCommand,
    /// The file's name is not a valid name of a timer. The line is 0.
    BadTimerName,
    /// A timer file has no `[Timer]` section. The line is 0.
    NoTimerSection,
    /// The list of a timer's events would have more than 64 events.
    TooManyLines,
    /// The file's name is not a valid name of a crontab in its directory. The line is 0.
    BadTabName,
}

/// The first error of a text of lines.
#[derive(Clone, Copy, Debug, PartialEq, Eq)]
pub struct LineFault {
    /// The number of the line, from 1; 0 for the whole text.
    pub line: u32,
    /// What is wrong with this line.
    pub cause: LineCause,
}

impl Display for LineFault {
    ghost use Rattle.std.specs.Prelude.{Some};
    ghost use Rattle.plan_rules.specs.Causes.{line_cause};

    ghost output = { λ fault. Some (line_cause fault.cause) };

    fn fmt<W: fmt::Write>(&self, f: &mut Formatter<W>) -> fmt::Result {
        f.write_str(self.cause.name())
    }
}

impl Error for LineFault {}

impl LineCause {
    ghost use Rattle.std.specs.Prelude.{◌≡◌};
    ghost use Rattle.plan_rules.specs.LineFaults.{fault_on_line};
    ghost use Rattle.plan_rules.specs.Causes.{line_cause};

    /// Returns the name of the cause, as error lines show it. For a rule it is the name of the rule's cause.
    pub fn name(&self) -> &'static str
        ensures { result.now ≡ line_cause self.now }
    {
        match self {
            LineCause::NoMemory => "NoMemory",
            LineCause::NotUtf8 => "NotUtf8",
            LineCause::TooLarge => "TooLarge",
            LineCause::BadSetting => "BadSetting",
            LineCause::Rule(fault) => fault.cause.name(),
            LineCause::NoCommand => "NoCommand",
            LineCause::BadTimerName => "BadTimerName",
            LineCause::NoTimerSection => "NoTimerSection",
            LineCause::TooManyLines => "TooManyLines",
            LineCause::BadTabName => "BadTabName",
        }
    }

    // Returns the error with its line: from 1, or 0 for the whole text. A failed allocation always has line 0.
    pub(crate) fn on_line(self, line: u32) -> LineFault
        ensures { result ≡ fault_on_line line self }
    {
        match self {
            LineCause::NoMemory => LineFault {
                line: 0,
                cause: self,
            },
            _ => LineFault { line, cause: self },
        }
    }
}

impl Display for LineCause {
    ghost use Rattle.std.specs.Prelude.{Some};
    ghost use Rattle.plan_rules.specs.Causes.{line_cause};

    ghost output = { λ fault. Some (line_cause fault) };

    fn fmt<W: fmt::Write>(&self, f: &mut Formatter<W>) -> fmt::Result {
        f.write_str(self.name())
    }
}

impl Error for LineCause {}

impl From<AllocError> for LineCause {
    ghost use Rattle.std.specs.Prelude.{◌≡◌};
    ghost use Rattle.plan_rules.specs.declared.line_fault.LineCause.TheVariants.{NoMemory};

    ghost from_gives = { λ _ cause. cause ≡ NoMemory };

    fn from(_error: AllocError) -> LineCause {
        LineCause::NoMemory
    }
}

impl<T: Drop> From<AllocFailed<T>> for LineCause {
    ghost use Rattle.std.specs.Prelude.{◌≡◌};
    ghost use Rattle.plan_rules.specs.declared.line_fault.LineCause.TheVariants.{NoMemory};

    ghost from_gives = { λ _ cause. cause ≡ NoMemory };

    fn from(_error: AllocFailed<T>) -> LineCause {
        LineCause::NoMemory
    }
}

// If an allocation failed while the rule was read, the cause is `NoMemory`, not the rule.
impl From<RuleFault> for LineCause {
    ghost use Rattle.std.specs.Prelude.{◌≡◌};
    ghost use Rattle.plan_rules.specs.LineFaults.{cause_of_rule};

    ghost from_gives = { λ fault cause. cause ≡ cause_of_rule fault };

    fn from(fault: RuleFault) -> LineCause {
        match fault.cause {
            RuleCause::NoMemory => LineCause::NoMemory,
            _ => LineCause::Rule(fault),
        }
    }
}

impl From<AllocError> for LineFault {
    ghost use Rattle.std.specs.Prelude.{◌≡◌};
    ghost use Rattle.plan_rules.specs.LineFaults.{want_of_memory};

    ghost from_gives = { λ _ fault. fault ≡ want_of_memory };

    fn from(_error: AllocError) -> LineFault {
        LineFault {
            line: 0,
            cause: LineCause::NoMemory,
        }
    }
}

impl<T: Drop> From<AllocFailed<T>> for LineFault {
    ghost use Rattle.std.specs.Prelude.{◌≡◌};
    ghost use Rattle.plan_rules.specs.LineFaults.{want_of_memory};

    ghost from_gives = { λ _ fault. fault ≡ want_of_memory };

    fn from(_error: AllocFailed<T>) -> LineFault {
        LineFault {
            line: 0,
            cause: LineCause::NoMemory,
        }
    }
}
