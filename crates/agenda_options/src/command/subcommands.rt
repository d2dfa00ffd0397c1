//! The subcommands of the command lines.
ghost use Rattle.std.specs.Prelude.{◌≡◌, IfOk, false};
ghost use Rattle.clap.specs.Words.{app_of};
ghost use Rattle.clap.specs.declared.builder.command.Command.TheViews.{out-Command};
ghost use Rattle.agenda_options.specs.Command.{app_for};

use super::machine::{
    machine_changes_command, machine_check_command, machine_clear_command,
    machine_describe_command, machine_downtime_command, machine_next_command, machine_plan_command,
    machine_quiet_command, machine_scripts_command, machine_sources_command,
    machine_upcoming_command, machine_week_command,
};
use super::windows::{changes_command, clear_command, downtime_command, week_command};
use super::{
    check_command, describe_command, explain_command, help, new_subcommand, next_command,
    plan_command, quiet_command, steps_command, upcoming_command,
};
use clap::Command;
use std::alloc::{AllocError, Global};

/// A subcommand of `agenda`, or a question of `agenda machine`.
#[derive(Clone, Copy)]
pub(super) enum Subcommand {
    Next,
    Plan,
    Upcoming,
    Quiet,
    Downtime,
    Clear,
    Changes,
    Week,
    Check,
    Describe,
    Machine,
    Steps,
    Explain,
    MachineUpcoming,
    MachinePlan,
    MachineQuiet,
    MachineDowntime,
    MachineClear,
    MachineChanges,
    MachineWeek,
    MachineScripts,
    MachineCheck,
    MachineSources,
    MachineNext,
    MachineDescribe,
}

impl Subcommand {
    /// Returns the command line of the subcommand.
    ///
    /// # Errors
    ///
    /// An allocation failed.
    #[tactic(auto, unfolding(crate::specs::Command::machine_listed))]
    pub(super) fn command<'a>(self, alloc: Global) -> Result<Command<'a>, AllocError>
        ensures app { IfOk result (λ command. app_of command ≡ app_for self) }
        ensures local { IfOk result (λ command. (out-Command command).has_globals ≡ false) }
    {
        match self {
            Subcommand::Next => next_command(alloc),
            Subcommand::Plan => plan_command(alloc),
            Subcommand::Upcoming => upcoming_command(alloc),
            Subcommand::Quiet => quiet_command(alloc),
            Subcommand::Downtime => downtime_command(alloc),
            Subcommand::Clear => clear_command(alloc),
            Subcommand::Changes => changes_command(alloc),
            Subcommand::Week => week_command(alloc),
            Subcommand::Check => check_command(alloc),
            Subcommand::Describe => describe_command(alloc),
            // Arguments that begin with `machine` are read by `machine_command`.
            Subcommand::Machine => {
                Ok(new_subcommand(alloc, "machine", help::MACHINE, help::AFTER_MACHINE))
            }
            Subcommand::Steps => steps_command(alloc),
            Subcommand::Explain => explain_command(alloc),
            Subcommand::MachineUpcoming => machine_upcoming_command(alloc),
            Subcommand::MachinePlan => machine_plan_command(alloc),
            Subcommand::MachineQuiet => machine_quiet_command(alloc),
            Subcommand::MachineDowntime => machine_downtime_command(alloc),
            Subcommand::MachineClear => machine_clear_command(alloc),
            Subcommand::MachineChanges => machine_changes_command(alloc),
            Subcommand::MachineWeek => machine_week_command(alloc),
            Subcommand::MachineScripts => machine_scripts_command(alloc),
            Subcommand::MachineCheck => machine_check_command(alloc),
            Subcommand::MachineSources => machine_sources_command(alloc),
            Subcommand::MachineNext => machine_next_command(alloc),
            Subcommand::MachineDescribe => machine_describe_command(alloc),
        }
    }
}
