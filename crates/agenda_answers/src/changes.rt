//! Compares the agenda of jobs with an earlier one.

ghost use Rattle.std.specs.Prelude.{◌≡◌, IfOk, IsTrue, true};
ghost use Rattle.agenda_answers.specs.Changes.{AnswersChanges, changes_goal, changes_since};

use crate::answers::end;
use crate::jobs::answer_jobs;
use agenda_arguments::ChangesRequest;
use agenda_commands::{Earlier, Goal, Planning};
use agenda_faults::Failure;
use agenda_inputs::{Files, read_baseline};
use plan_baseline::Baseline;
use plan_collect::Sizes;
use plan_streams::Stream;
use std::alloc::{AllocError, Global};
use std::sync::Wait;
use std::thread::Threads;

/// Compares the agenda of jobs with an earlier one, which is read first, and returns the exit status.
///
/// The status is that of `answer_jobs`, but 1 if the agendas differ.
pub(crate) fn answer_changes<R: Threads + Wait + Sync, F: Files, O: Stream, E: Stream>(
    rt: &R,
    alloc: Global,
    request: &ChangesRequest,
    files: &mut F,
    out: &mut O,
    err: &mut E,
) -> u8
    ensures answers { AnswersChanges (F.held files.old) request.now result
        (record { takes_all = O.takes_all; old = O.holds out.old; new = O.holds out.new })
        (record { takes_all = E.takes_all; old = E.holds err.old; new = E.holds err.new }) }
    ensures out_flushed { result ≡ 0 → IsTrue (O.is_flushed out.new) }
    ensures err_flushed { E.takes_all ≡ true → IsTrue (E.is_flushed err.old) → IsTrue (E.is_flushed err.new) }
{
    match changes_goal(alloc, request, files) {
        Ok(goal) => answer_jobs(rt, alloc, &goal, &request.jobs, files, out, err),
        Err(failure) => end(Err(failure), request.jobs.sources.as_slice(), err),
    }
}

// Reads the earlier agenda of a request, and returns what is made of the jobs.
fn changes_goal<F: Files>(
    alloc: Global,
    request: &ChangesRequest,
    files: &mut F,
) -> Result<Goal, Failure>
    ensures read { changes_goal (F.held files.old) request.now result }
    ensures same { F.held files.new ≡ F.held files.old }
{
    let before = read_baseline(alloc, files, request.before.as_str())?;
    let goal = changes_since(alloc, before, request.sizes, request.jobs.delays)?;
    Ok(goal)
}

/// Returns the goal to compare the agenda of jobs with an earlier one, over the span of that.
///
/// # Errors
///
/// `AllocError` if an allocation failed.
pub(crate) fn changes_since(
    alloc: Global,
    before: Baseline,
    sizes: Sizes,
    delays: bool,
) -> Result<Goal, AllocError>
    ensures { IfOk result (λ goal. goal ≡ changes_since before sizes delays) }
{
    let planning = Planning {
        span: before.span(),
        sizes,
        delays,
    };
    let before = Earlier::new(alloc, before)?;
    Ok(Goal::Changes { planning, before })
}
