//! Why a text can't be read back.

use std::alloc::{AllocError, AllocFailed};
use std::error::Error;
use std::fmt::{self, Display, Formatter};

/// Why a text isn't read as an agenda.
#[derive(Clone, Copy, Debug, PartialEq, Eq)]
pub enum BaselineFault {
    /// An allocation failed.
    NoMemory,
    /// The line with this number, from 1, is the first that is wrong or missing.
    BadLine(u32),
}

impl BaselineFault {
    ghost use Rattle.std.specs.Prelude.{◌≡◌};
    ghost use Rattle.plan_baseline.specs.Causes.{baseline_cause};

    /// Returns the name of the error.
    pub fn name(&self) -> &'static str
        ensures { result.now ≡ baseline_cause self.now }
    {
        match self {
            BaselineFault::NoMemory => "NoMemory",
            BaselineFault::BadLine(_) => "BadLine",
        }
    }
}

impl Display for BaselineFault {
    ghost use Rattle.std.specs.Prelude.{Some};
    ghost use Rattle.plan_baseline.specs.Causes.{baseline_cause};

    ghost output = { λ fault. Some (baseline_cause fault) };

    fn fmt<W: fmt::Write>(&self, f: &mut Formatter<W>) -> fmt::Result {
        f.write_str(self.name())
    }
}

impl Error for BaselineFault {}

impl From<AllocError> for BaselineFault {
    ghost use Rattle.std.specs.Prelude.{◌≡◌};
    ghost use Rattle.plan_baseline.specs.declared.fault.BaselineFault.TheVariants.{NoMemory};

    ghost from_gives = { λ _ fault. fault ≡ NoMemory };

    fn from(_error: AllocError) -> BaselineFault {
        BaselineFault::NoMemory
    }
}

impl<T: Drop> From<AllocFailed<T>> for BaselineFault {
    ghost use Rattle.std.specs.Prelude.{◌≡◌};
    ghost use Rattle.plan_baseline.specs.declared.fault.BaselineFault.TheVariants.{NoMemory};

    ghost from_gives = { λ _ fault. fault ≡ NoMemory };

    fn from(_error: AllocFailed<T>) -> BaselineFault {
        BaselineFault::NoMemory
    }
}
