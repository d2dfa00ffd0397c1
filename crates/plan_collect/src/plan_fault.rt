//! The errors of a plan.

use crate::collector::{CollectFault, CollectorFault};
use plan_mailbox::NotSettled;
use plan_next::NoMemory;
use std::error::Error;
use std::fmt::{self, Display, Formatter};

/// Why a plan can't be made.
#[derive(Clone, Copy, Debug, PartialEq, Eq)]
pub enum PlanFault {
    /// An allocation failed.
    NoMemory,
    /// The number of planners isn't 1 to 8, or the capacity isn't 1 to 1,024 messages.
    BadSize,
    /// The collector rejected a message, or could not finish. It is never `CollectFault::NoMemory`, which
    /// becomes `NoMemory`.
    Collect(CollectFault),
    /// What a planner's thread sent can't be determined. Only `Inlet::settle` can make this error, and it
    /// always succeeds.
    NotSettled(NotSettled),
    /// The limit isn't 1 to 1,000,000.
    BadLimit,
}

impl PlanFault {
    ghost use Rattle.std.specs.Prelude.{◌≡◌};
    ghost use Rattle.plan_collect.specs.Causes.{plan_cause};

    /// Returns the name of the error. That of a collector's error is the collector's name for it.
    pub fn name(&self) -> &'static str
        ensures { result.now ≡ plan_cause self.now }
    {
        match self {
            PlanFault::NoMemory => "NoMemory",
            PlanFault::BadSize => "BadSize",
            PlanFault::Collect(fault) => fault.name(),
            PlanFault::NotSettled(_) => "NotSettled",
            PlanFault::BadLimit => "BadLimit",
        }
    }
}

impl Display for PlanFault {
    ghost use Rattle.std.specs.Prelude.{Some};
    ghost use Rattle.plan_collect.specs.Causes.{plan_cause};

    ghost output = { λ fault. Some (plan_cause fault) };

    fn fmt<W: fmt::Write>(&self, f: &mut Formatter<W>) -> fmt::Result {
        f.write_str(self.name())
    }
}

impl Error for PlanFault {}

impl From<NoMemory> for PlanFault {
    ghost use Rattle.std.specs.Prelude.{◌≡◌};
    ghost use Rattle.plan_collect.specs.declared.plan_fault.PlanFault.{PlanFault};
    ghost use Rattle.plan_collect.specs.declared.plan_fault.PlanFault.TheVariants.{NoMemory};

    ghost from_gives = { λ _ fault. fault ≡ NoMemory };

    fn from(_error: NoMemory) -> PlanFault {
        PlanFault::NoMemory
    }
}

impl From<CollectorFault> for PlanFault {
    ghost use Rattle.std.specs.Prelude.{◌≡◌};
    ghost use Rattle.plan_collect.specs.PlanFault.{of_collector};

    ghost from_gives = { λ fault plan_fault. plan_fault ≡ of_collector fault };

    fn from(fault: CollectorFault) -> PlanFault {
        match fault {
            CollectorFault::NoMemory => PlanFault::NoMemory,
            CollectorFault::BadLimit => PlanFault::BadLimit,
            CollectorFault::BadSize => PlanFault::BadSize,
        }
    }
}

impl From<CollectFault> for PlanFault {
    ghost use Rattle.std.specs.Prelude.{◌≡◌};
    ghost use Rattle.plan_collect.specs.PlanFault.{of_collect};

    ghost from_gives = { λ fault plan_fault. plan_fault ≡ of_collect fault };

    fn from(fault: CollectFault) -> PlanFault {
        match fault {
            CollectFault::NoMemory => PlanFault::NoMemory,
            fault => PlanFault::Collect(fault),
        }
    }
}

impl From<NotSettled> for PlanFault {
    ghost use Rattle.std.specs.Prelude.{◌≡◌};
    ghost use Rattle.plan_collect.specs.declared.plan_fault.PlanFault.TheVariants.{NotSettled};

    ghost from_gives = { λ unsettled fault. fault ≡ NotSettled unsettled };

    fn from(unsettled: NotSettled) -> PlanFault {
        PlanFault::NotSettled(unsettled)
    }
}
