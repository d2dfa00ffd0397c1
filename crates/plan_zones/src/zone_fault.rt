//! Why a zone has no clock, and the names of these errors.

ghost use Rattle.std.specs.Prelude.{◌≡◌};
ghost use Rattle.plan_zones.specs.declared.zone_fault.ZoneFault.TheVariants.{NoMemory};

use std::alloc::{AllocError, AllocFailed};
use std::error::Error;
use std::fmt::{self, Display, Formatter};

/// Why a zone can't be used.
#[derive(Clone, Copy, Debug, PartialEq, Eq)]
pub enum ZoneFault {
    /// An allocation failed.
    NoMemory,
    /// The text is neither `UTC`, nor a path, nor a valid name of a zone.
    BadZoneName,
    /// The system has no file for this zone.
    NoSuchZone,
    /// The file has more than 1,048,576 bytes.
    TooLarge,
    /// The file is not a valid TZif file (RFC 9636).
    BadZone,
}

impl ZoneFault {
    ghost use Rattle.plan_zones.specs.Zones.{zone_fault_name};

    /// Returns the name of the error, by which users can search for a message.
    pub fn name(self) -> &'static str
        ensures { result.now ≡ zone_fault_name self }
    {
        match self {
            ZoneFault::NoMemory => "NoMemory",
            ZoneFault::BadZoneName => "BadZoneName",
            ZoneFault::NoSuchZone => "NoSuchZone",
            ZoneFault::TooLarge => "TooLarge",
            ZoneFault::BadZone => "BadZone",
        }
    }
}

impl Display for ZoneFault {
    ghost use Rattle.std.specs.Prelude.{Some};
    ghost use Rattle.plan_zones.specs.Zones.{zone_fault_name};

    ghost output = { λ fault. Some (zone_fault_name fault) };

    fn fmt<W: fmt::Write>(&self, f: &mut Formatter<W>) -> fmt::Result {
        f.write_str(self.name())
    }
}

impl Error for ZoneFault {}

impl From<AllocError> for ZoneFault {
    ghost from_gives = { λ _ fault. fault ≡ NoMemory };

    fn from(_: AllocError) -> ZoneFault {
        ZoneFault::NoMemory
    }
}

impl<T: Drop> From<AllocFailed<T>> for ZoneFault {
    ghost from_gives = { λ _ fault. fault ≡ NoMemory };

    fn from(_: AllocFailed<T>) -> ZoneFault {
        ZoneFault::NoMemory
    }
}
