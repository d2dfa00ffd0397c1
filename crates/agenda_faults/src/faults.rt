//! Why the program fails, and its exit status in each case.

ghost use Rattle.std.specs.Prelude.{◌≡◌};
ghost use Rattle.agenda_faults.specs.Faults.{line_status, machine_status, plan_status, rule_status, script_status, zone_status};

use crate::machine_faults::{MachineFault, TimeOption};
use crate::status::{FAILED, REJECTED, USAGE};
use agenda_script::{ScriptCause, ScriptFault};
use agenda_sources::SourceFault;
use plan_collect::{CollectFault, PlanFault, SpanFault};
use plan_rules::{LineCause, LineFault, RuleCause, RuleFault, Text};
use plan_sets::MomentFault;
use plan_streams::WriteFault;
use plan_zones::ZoneFault;
use std::alloc::{AllocError, AllocFailed};
use thiserror::Error;

/// Why a command was not done.
#[derive(Debug, Drop, Error)]
pub enum RunFault {
    /// An allocation failed.
    #[error("NoMemory")]
    NoMemory,
    /// The count of `next` is outside 1 to 1,000.
    #[error("BadCount")]
    BadCount,
    /// The text of `next` is not a rule.
    #[error("{0}")]
    Rule(RuleFault),
    /// The source at this place, from 0, is invalid. This is its first error.
    #[error("{1}")]
    InSource(usize, LineFault),
    /// Two jobs have this name.
    #[error("SameName")]
    SameName(Text),
    /// There are more than 1,000 jobs.
    #[error("Full")]
    Full,
    /// No plan was made of the jobs.
    #[error("{0}")]
    Plan(PlanFault),
    /// The script is invalid.
    #[error("{0}")]
    Script(ScriptFault),
    /// The stream failed.
    #[error("{0}")]
    Device(WriteFault),
    /// The minimum gap of `quiet` is 0 seconds.
    #[error("BadLeast")]
    BadLeast,
    /// The answer about a machine has more starts than this limit. The line is in words.
    #[error("TooMany")]
    TooManyStarts(u64),
}

impl From<AllocError> for RunFault {
    ghost use Rattle.std.specs.Prelude.{◌≡◌};
    ghost use Rattle.agenda_faults.specs.declared.faults.RunFault.TheVariants.{NoMemory};

    ghost from_gives = { λ _ fault. fault ≡ NoMemory };

    fn from(_failed: AllocError) -> RunFault {
        RunFault::NoMemory
    }
}

impl<T: Drop> From<AllocFailed<T>> for RunFault {
    ghost use Rattle.std.specs.Prelude.{◌≡◌};
    ghost use Rattle.agenda_faults.specs.declared.faults.RunFault.TheVariants.{NoMemory};

    ghost from_gives = { λ _ fault. fault ≡ NoMemory };

    fn from(_failed: AllocFailed<T>) -> RunFault {
        RunFault::NoMemory
    }
}

impl From<WriteFault> for RunFault {
    ghost use Rattle.std.specs.Prelude.{◌≡◌};
    ghost use Rattle.agenda_faults.specs.declared.faults.RunFault.TheVariants.{Device};

    ghost from_gives = { λ fault answer. answer ≡ Device fault };

    fn from(fault: WriteFault) -> RunFault {
        RunFault::Device(fault)
    }
}

// If the cause of the rule's error is `NoMemory`, so is the result.
impl From<RuleFault> for RunFault {
    ghost use Rattle.std.specs.Prelude.{◌≡◌};
    ghost use Rattle.agenda_faults.specs.Faults.{fault_of_rule};

    ghost from_gives = { λ fault answer. answer ≡ fault_of_rule fault };

    fn from(fault: RuleFault) -> RunFault {
        match fault.cause {
            RuleCause::NoMemory => RunFault::NoMemory,
            _ => RunFault::Rule(fault),
        }
    }
}

impl From<SourceFault> for RunFault {
    ghost use Rattle.std.specs.Prelude.{◌≡◌};
    ghost use Rattle.agenda_faults.specs.Faults.{fault_of_sources};

    ghost from_gives = { λ fault answer. answer ≡ fault_of_sources fault };

    fn from(fault: SourceFault) -> RunFault {
        match fault {
            SourceFault::NoMemory => RunFault::NoMemory,
            SourceFault::InSource(place, fault) => RunFault::InSource(place, fault),
            SourceFault::SameName(name) => RunFault::SameName(name),
            SourceFault::Full => RunFault::Full,
        }
    }
}

// Running out of memory is always the same error.
impl From<PlanFault> for RunFault {
    ghost use Rattle.std.specs.Prelude.{◌≡◌};
    ghost use Rattle.agenda_faults.specs.Faults.{fault_of_plan};

    ghost from_gives = { λ fault answer. answer ≡ fault_of_plan fault };

    fn from(fault: PlanFault) -> RunFault {
        match fault {
            PlanFault::NoMemory => RunFault::NoMemory,
            fault => RunFault::Plan(fault),
        }
    }
}

// If the cause of the script's error is `NoMemory`, so is the result.
impl From<ScriptFault> for RunFault {
    ghost use Rattle.std.specs.Prelude.{◌≡◌};
    ghost use Rattle.agenda_faults.specs.Faults.{fault_of_script};

    ghost from_gives = { λ fault answer. answer ≡ fault_of_script fault };

    fn from(fault: ScriptFault) -> RunFault {
        match fault.cause {
            ScriptCause::NoMemory => RunFault::NoMemory,
            _ => RunFault::Script(fault),
        }
    }
}

/// Why the program ends with a status other than 0.
#[derive(Debug, Drop)]
pub enum Failure {
    /// The arguments are invalid. The text shows the usage.
    Usage(Text),
    /// The text of this option is not a timestamp.
    Moment(TimeOption, MomentFault),
    /// The timestamps of `--since` and `--upto` don't bound a span.
    Span(SpanFault),
    /// The zone of `--zone` can't be used.
    Zone(ZoneFault),
    /// The command was not done.
    Run(RunFault),
    /// The file with this path can't be opened or read.
    File(Text),
    /// The agenda with this path isn't one that `plan` prints: this line, from 1, is the first that is wrong.
    BadBaseline(Text, u32),
    /// The root of a machine, which has this path, isn't a directory.
    NotDirectory(Text),
    /// The root of a machine, which has this path, has neither etc nor usr.
    NoSystem(Text),
    /// The boot of the machine whose root has this path reaches more than 10,000 units.
    TooManyUnits(Text),
    /// A question about a machine can't be answered.
    Machine(MachineFault),
}

impl From<AllocError> for Failure {
    ghost use Rattle.std.specs.Prelude.{◌≡◌};
    ghost use Rattle.agenda_faults.specs.declared.faults.RunFault.TheVariants.{NoMemory};
    ghost use Rattle.agenda_faults.specs.declared.faults.Failure.TheVariants.{Run};

    ghost from_gives = { λ _ failure. failure ≡ Run NoMemory };

    fn from(_failed: AllocError) -> Failure {
        Failure::Run(RunFault::NoMemory)
    }
}

impl<T: Drop> From<AllocFailed<T>> for Failure {
    ghost use Rattle.std.specs.Prelude.{◌≡◌};
    ghost use Rattle.agenda_faults.specs.declared.faults.RunFault.TheVariants.{NoMemory};
    ghost use Rattle.agenda_faults.specs.declared.faults.Failure.TheVariants.{Run};

    ghost from_gives = { λ _ failure. failure ≡ Run NoMemory };

    fn from(_failed: AllocFailed<T>) -> Failure {
        Failure::Run(RunFault::NoMemory)
    }
}

impl From<RunFault> for Failure {
    ghost use Rattle.std.specs.Prelude.{◌≡◌};
    ghost use Rattle.agenda_faults.specs.declared.faults.Failure.TheVariants.{Run};

    ghost from_gives = { λ fault failure. failure ≡ Run fault };

    fn from(fault: RunFault) -> Failure {
        Failure::Run(fault)
    }
}

// Running out of memory for a zone is always the same error.
impl From<ZoneFault> for Failure {
    ghost use Rattle.std.specs.Prelude.{◌≡◌};
    ghost use Rattle.agenda_faults.specs.Faults.{failure_of_zone};

    ghost from_gives = { λ fault failure. failure ≡ failure_of_zone fault };

    fn from(fault: ZoneFault) -> Failure {
        match fault {
            ZoneFault::NoMemory => Failure::Run(RunFault::NoMemory),
            fault => Failure::Zone(fault),
        }
    }
}

impl Failure {
    ghost use Rattle.agenda_faults.specs.Faults.{status_of};

    /// Returns the exit status: 1 if input, a size, a count or a limit is rejected, 2 for usage, and 3 if an
    /// allocation, a device or a file failed or the planners' accounts don't agree.
    pub fn status(&self) -> u8
        ensures { result ≡ status_of self.now }
    {
        match self {
            Failure::Usage(_) => USAGE,
            Failure::Moment(_, _) | Failure::Span(_) => REJECTED,
            Failure::Zone(fault) => zone_status(*fault),
            Failure::Run(fault) => fault.status(),
            Failure::File(_) => FAILED,
            Failure::BadBaseline(_, _) => REJECTED,
            Failure::NotDirectory(_) | Failure::NoSystem(_) | Failure::TooManyUnits(_) => REJECTED,
            Failure::Machine(fault) => machine_status(fault),
        }
    }
}

impl RunFault {
    ghost use Rattle.agenda_faults.specs.Faults.{run_status};

    // Returns the exit status if a command was not done.
    fn status(&self) -> u8
        ensures { result ≡ run_status self.now }
    {
        match self {
            RunFault::Rule(fault) => rule_status(fault.cause),
            RunFault::InSource(_, fault) => line_status(fault.cause),
            RunFault::Plan(fault) => plan_status(*fault),
            RunFault::Script(fault) => script_status(fault.cause),
            RunFault::BadCount | RunFault::BadLeast | RunFault::SameName(_) | RunFault::Full => {
                REJECTED
            }
            RunFault::TooManyStarts(_) => REJECTED,
            RunFault::NoMemory | RunFault::Device(_) => FAILED,
        }
    }
}

// Returns the status for a rule that is rejected.
fn rule_status(cause: RuleCause) -> u8
    ensures { result ≡ rule_status cause }
{
    match cause {
        RuleCause::NoMemory => FAILED,
        _ => REJECTED,
    }
}

// Returns the status for a crontab or a timer file that is rejected.
fn line_status(cause: LineCause) -> u8
    ensures { result ≡ line_status cause }
{
    match cause {
        LineCause::NoMemory => FAILED,
        LineCause::Rule(fault) => rule_status(fault.cause),
        _ => REJECTED,
    }
}

// Returns the status if no plan was made.
fn plan_status(fault: PlanFault) -> u8
    ensures { result ≡ plan_status fault }
{
    match fault {
        PlanFault::NoMemory
        | PlanFault::NotSettled(_)
        | PlanFault::Collect(CollectFault::NoMemory) => FAILED,
        _ => REJECTED,
    }
}

// Returns the status for a zone that can't be used.
fn zone_status(fault: ZoneFault) -> u8
    ensures { result ≡ zone_status fault }
{
    match fault {
        ZoneFault::NoMemory => FAILED,
        _ => REJECTED,
    }
}

// Returns the status for a question about a machine.
fn machine_status(fault: &MachineFault) -> u8
    ensures { result ≡ machine_status fault.now }
{
    match fault {
        MachineFault::Zone(_, fault, _) => zone_status(*fault),
        _ => REJECTED,
    }
}

// Returns the status for a script that is rejected.
fn script_status(cause: ScriptCause) -> u8
    ensures { result ≡ script_status cause }
{
    match cause {
        ScriptCause::NoMemory => FAILED,
        _ => REJECTED,
    }
}
