//! Makes the agenda of jobs, with the errors of a command.

ghost use Rattle.std.specs.Prelude.{◌≡◌, Err, IfErr, IfOk, length};
ghost use Rattle.plan_collect.specs.Agenda.{IsOfJobs};
ghost use Rattle.plan_texts.specs.Steps.{GivesUnless};
ghost use Rattle.agenda_commands.specs.Command.{step};
ghost use Rattle.agenda_commands.specs.Goal.{agenda_of_jobs, checked_sizes};
ghost use Rattle.agenda_faults.specs.Faults.{fault_of_plan};
ghost use Rattle.agenda_faults.specs.declared.faults.RunFault.TheVariants.{NoMemory};

use crate::goal::Planning;
use agenda_faults::RunFault;
use plan_collect::{Agenda, PlanFault};
use plan_rules::Jobs;
use plan_threads::{NoGate, plan};
use std::alloc::Global;
use std::sync::Wait;
use std::thread::Threads;

/// Makes the agenda of jobs that are planned as they are. The function waits for the planners.
///
/// # Errors
///
/// The errors of `plan`, each as that of the command.
pub(crate) fn make_agenda<R: Threads + Wait + Sync>(
    rt: &R,
    alloc: Global,
    jobs: &Jobs,
    planning: &Planning,
) -> Result<Agenda, RunFault>
    ensures planned { GivesUnless NoMemory (λ made. made) result (agenda_of_jobs jobs.now planning.now) }
    ensures jobs { IfOk result (λ made. IsOfJobs (length jobs.now) made.entries) }

    // These errors are found before any memory is requested.
    ensures at_once { IfErr (checked_sizes planning.now) (λ fault. result ≡ Err fault) }
{
    of_command(plan(rt, alloc, jobs, planning.span, planning.sizes, &NoGate))
}

// Returns the same answer with the error of the command: `NoMemory` only for `NoMemory`.
fn of_command(answer: Result<Agenda, PlanFault>) -> Result<Agenda, RunFault>
    ensures { result ≡ step fault_of_plan answer }
{
    match answer {
        Ok(agenda) => Ok(agenda),
        Err(fault) => Err(RunFault::from(fault)),
    }
}
