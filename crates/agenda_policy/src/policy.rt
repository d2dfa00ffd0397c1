//! Which warnings are denied, and which are allowed.
ghost use Rattle.std.specs.Prelude.{◌≡◌};
ghost use Rattle.agenda_policy.specs.Policy.{has_code, has_name, has_warning, is_allowed, is_denied, neutral};

use crate::code_list::CodeList;
use agenda_codes::Code;
use plan_check::Warning;
use std::alloc::Global;

/// Which warnings are errors, and which are left out.
#[derive(Debug, Drop)]
pub struct Policy {
    /// Whether all warnings are denied.
    pub denies_all: bool,
    /// The codes of the warnings that are denied by name.
    pub denied: CodeList,
    /// The codes of the warnings that are allowed, even if all are denied.
    pub allowed: CodeList,
}

impl Policy {
    /// Returns the policy that denies and allows no warning. This requests no memory.
    pub fn neutral(alloc: Global) -> Policy
        ensures { result ≡ neutral }
    {
        Policy {
            denies_all: false,
            denied: CodeList::new(alloc),
            allowed: CodeList::new(alloc),
        }
    }

    /// Returns whether a warning is an error, unless it is allowed.
    pub fn denies(&self, warning: Warning) -> bool
        ensures { result ≡ is_denied self.now warning }
    {
        self.denies_all || has_warning(self.denied.as_slice(), warning)
    }

    /// Returns whether a warning is left out.
    pub fn allows(&self, warning: Warning) -> bool
        ensures { result ≡ is_allowed self.now warning }
    {
        has_warning(self.allowed.as_slice(), warning)
    }
}

// Returns whether one of these codes is that of a warning.
pub(crate) fn has_warning(codes: &[Code], warning: Warning) -> bool
    ensures { result ≡ has_warning codes.now warning }
{
    has_name(codes, warning.name())
}

// Returns whether this code is among these.
pub(crate) fn has_code(codes: &[Code], code: Code) -> bool
    ensures { result ≡ has_code codes.now code }
{
    has_name(codes, code.name())
}

// Returns whether one of these codes has this name.
fn has_name(codes: &[Code], name: &str) -> bool
    ensures { result ≡ has_name codes.now name.now }
{
    codes.iter().any(|code| code.name() == name)
}
