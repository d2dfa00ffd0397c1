//! What a command finds where it looks.

use plan_shell::Property;
use std::alloc::{AllocError, Global};

/// What a command finds where it looks.
#[derive(Clone, Copy, Debug, PartialEq, Eq)]
pub enum Answer {
    /// The property holds.
    Yes,
    /// The property doesn't hold.
    No,
    /// It can't be determined.
    Unknown,
    /// It isn't a look: the command may run something.
    Acts,
}

/// What can be looked at.
pub trait Look {
    ghost use Rattle.std.specs.Prelude.{◌≡◌, Bool, true, IfOk};
    ghost use Rattle.plan_idle.specs.Run.{Looks};

    /// Whether contracts know what there is.
    ghost is_known: { Bool };

    /// What there is.
    ghost looks: { Self → Looks };

    /// Returns what a command finds where it looks for a property of a path or a name.
    fn look(&self, alloc: Global, property: Property, subject: &str) -> Result<Answer, AllocError>
        ensures { is_known ≡ true → IfOk result (λ answer. answer ≡ looks self.now property subject.now) };
}
