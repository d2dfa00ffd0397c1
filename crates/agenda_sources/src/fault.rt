//! Why sources make no list of jobs.

ghost use Rattle.std.specs.Prelude.{◌≡◌};
ghost use Rattle.agenda_sources.specs.Faults.{IsOwnFault, fault_at, fault_in};

use plan_check::FileFault;
use plan_rules::{LineCause, LineFault, Text};
use thiserror::Error;

/// The first error of the sources.
#[derive(Debug, Drop, Error)]
pub enum SourceFault {
    /// An allocation failed.
    #[error("NoMemory")]
    NoMemory,
    /// The source at this place, from 0, is invalid. This is its first error, whose cause is never `NoMemory`.
    #[error("{1}")]
    InSource(usize, LineFault),
    /// Two jobs have this name.
    #[error("SameName")]
    SameName(Text),
    /// There are more than 1,000 jobs.
    #[error("Full")]
    Full,
}

impl SourceFault {
    // Returns the error of the source at a place. If its cause is `NoMemory`, so is the result.
    pub(crate) fn in_source(place: usize, fault: LineFault) -> SourceFault
        ensures fault { result ≡ fault_at place fault }
        ensures own { IsOwnFault result }
    {
        match fault.cause {
            LineCause::NoMemory => SourceFault::NoMemory,
            _ => SourceFault::InSource(place, fault),
        }
    }

    // Returns the error that decides in the source at a place. If its cause is `NoMemory`, so is the result.
    pub(crate) fn of_file(place: usize, fault: FileFault) -> SourceFault
        ensures fault { result ≡ fault_in place fault }
        ensures own { IsOwnFault result }
    {
        match fault {
            FileFault::Rejected(fault) => SourceFault::in_source(place, fault),
            FileFault::SameName(name) => SourceFault::SameName(name),
            FileFault::Full => SourceFault::Full,
        }
    }
}
