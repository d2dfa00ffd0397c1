//! The errors in the text of a rule.

use plan_sets::SetFault;
use std::alloc::{AllocError, AllocFailed};
use std::error::Error;
use std::fmt::{self, Display, Formatter};

/// What is wrong with a part of a rule's text.
#[derive(Clone, Copy, Debug, PartialEq, Eq)]
pub enum RuleCause {
    /// An allocation failed; its part is 0.
    NoMemory,
    /// A part is missing, empty, or not allowed at its place.
    WrongParts,
    /// A value or a step isn't a number of 1 to 4 digits.
    BadNumber,
    /// A name is unknown at its place. In a field of a crontab, a value that begins with a letter is a name.
    BadName,
    /// The values of a part don't make a valid set.
    Values(SetFault),
    /// A second, or its step, has a fraction.
    Fraction,
    /// The time zone isn't UTC, and other zones may not be named.
    Zone,
    /// The time zone is unknown. Error lines show this cause as `Zone`.
    UnknownZone,
    /// A word that abbreviates a whole rule, such as `@daily`, is unknown.
    UnknownWord,
    /// The text contains a specifier, which begins with `%`.
    Specifier,
}

impl RuleCause {
    ghost use Rattle.std.specs.Prelude.{◌≡◌};
    ghost use Rattle.plan_grammar.specs.Causes.{rule_cause};

    /// Returns its name, as error lines show it. The name of `Values` is that of its `SetFault`.
    pub fn name(&self) -> &'static str
        ensures { result.now ≡ rule_cause self.now }
    {
        match self {
            RuleCause::NoMemory => "NoMemory",
            RuleCause::WrongParts => "WrongParts",
            RuleCause::BadNumber => "BadNumber",
            RuleCause::BadName => "BadName",
            RuleCause::Values(cause) => cause.name(),
            RuleCause::Fraction => "Fraction",
            RuleCause::Zone | RuleCause::UnknownZone => "Zone",
            RuleCause::UnknownWord => "UnknownWord",
            RuleCause::Specifier => "Specifier",
        }
    }
}

impl Display for RuleCause {
    ghost use Rattle.std.specs.Prelude.{Some};
    ghost use Rattle.plan_grammar.specs.Causes.{rule_cause};

    ghost output = { λ fault. Some (rule_cause fault) };

    fn fmt<W: fmt::Write>(&self, f: &mut Formatter<W>) -> fmt::Result {
        f.write_str(self.name())
    }
}

impl Error for RuleCause {}

/// The first error in a rule's text.
#[derive(Clone, Copy, Debug, PartialEq, Eq)]
pub struct RuleFault {
    /// The part of the text, from 1, or 0 for the whole text.
    pub part: u8,
    /// What is wrong with the part.
    pub cause: RuleCause,
}

impl Display for RuleFault {
    ghost use Rattle.std.specs.Prelude.{Some};
    ghost use Rattle.plan_grammar.specs.Causes.{rule_cause};

    ghost output = { λ fault. Some (rule_cause fault.cause) };

    fn fmt<W: fmt::Write>(&self, f: &mut Formatter<W>) -> fmt::Result {
        f.write_str(self.cause.name())
    }
}

impl Error for RuleFault {}

impl From<AllocError> for RuleFault {
    ghost use Rattle.std.specs.Prelude.{◌≡◌};
    ghost use Rattle.plan_grammar.specs.Readings.{out_of_memory};

    ghost from_gives = { λ _ fault. fault ≡ out_of_memory };

    fn from(_error: AllocError) -> RuleFault {
        RuleFault {
            part: 0,
            cause: RuleCause::NoMemory,
        }
    }
}

impl<T: Drop> From<AllocFailed<T>> for RuleFault {
    ghost use Rattle.std.specs.Prelude.{◌≡◌};
    ghost use Rattle.plan_grammar.specs.Readings.{out_of_memory};

    ghost from_gives = { λ _ fault. fault ≡ out_of_memory };

    fn from(_error: AllocFailed<T>) -> RuleFault {
        RuleFault {
            part: 0,
            cause: RuleCause::NoMemory,
        }
    }
}
