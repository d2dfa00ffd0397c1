//! The error of a mailbox that can't be made.

ghost use Rattle.std.specs.Prelude.{◌≡◌};
ghost use Rattle.plan_mailbox.specs.declared.faults.NewFault.TheVariants.{NoMemory};

use std::alloc::AllocError;
use thiserror::Error;

/// Why a mailbox can't be made.
#[derive(Clone, Copy, Debug, PartialEq, Eq, Error)]
pub enum NewFault {
    /// An allocation failed.
    #[error("NoMemory")]
    NoMemory,
    /// The number of senders isn't 1 to 8, or the capacity isn't 1 to 1,024.
    #[error("BadSize")]
    BadSize,
}

impl From<AllocError> for NewFault {
    ghost from_gives = { λ _ fault. fault ≡ NoMemory };

    fn from(_error: AllocError) -> Self {
        NewFault::NoMemory
    }
}
