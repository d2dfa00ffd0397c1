//! Answers a request for jobs, by a goal.
//!
//! The answer is made before a byte is written, so if an allocation fails, only its line is written. If the request keeps
//! going, what is invalid or can't be read is skipped, and its lines go to standard error. Then the answer goes to
//! standard output.

ghost use Rattle.std.specs.Prelude.{◌≡◌, Err, IsTrue, List, OnOk, true};
ghost use Rattle.agenda_answers.specs.Answer.{HoldsAfter};
ghost use Rattle.agenda_inputs.specs.Files.{Held};
ghost use Rattle.agenda_inputs.specs.Opened.{OpensFirst, input_files};
ghost use Rattle.agenda_answers.specs.Outcome.{AnswersJobs, Reports, found_status, outcome_by, parted, printed, settles, skipped_status};
ghost use Rattle.agenda_answers.specs.Program.{ChangesNothing};
ghost use Rattle.agenda_answers.specs.Requests.{request_of, stopping};
ghost use Rattle.agenda_faults.specs.declared.faults.Failure.{Failure};
ghost use Rattle.agenda_commands.specs.declared.Goal.{Goal};
ghost use Rattle.agenda_sources.specs.declared.Source.{Source};
ghost use Rattle.agenda_arguments.specs.declared.Ask.{Ask};
ghost use Rattle.agenda_arguments.specs.declared.JobsRequest.{JobsRequest};

use crate::answers::end;
use crate::formats::{UTC, make_format};
use agenda_arguments::JobsRequest;
use agenda_commands::{Goal, PreparedAnswer, RemarkedAnswer, kept_if, prepare_answer};
use agenda_faults::status::{DONE, FAILED, REJECTED};
use agenda_faults::{Failure, RunFault};
use agenda_findings::write_skipped;
use agenda_inputs::{Files, read_input};
use agenda_sources::{Found, SourcePath, SourcePaths, without_errors_all_is_kept};
use plan_rules::Text;
use plan_streams::Stream;
use std::alloc::Global;
use std::marker::Model;
use std::sync::Wait;
use std::thread::Threads;

/// What is skipped, and the answer without it. Contracts see this value as a record of the same name.
#[derive(Drop)]
pub(crate) struct Outcome {
    /// The paths of the files that can't be opened or read.
    pub unread: SourcePaths,
    /// The paths of the other sources.
    pub paths: SourcePaths,
    /// The errors of those sources.
    pub errors: Vec<Found>,
    /// The answer for the other jobs, or its error, which isn't `NoMemory`.
    pub answer: Result<PreparedAnswer, RunFault>,
    /// The exit status if there is an answer.
    pub status: u8,
}

impl Model for Outcome {
    ghost use Rattle.agenda_answers.specs.Outcome.{Outcome};

    ghost Value = { Outcome };

    ghost view = { λ kept. record {
      unread = kept.unread;
      paths = kept.paths;
      errors = kept.errors.items;
      answer = kept.answer;
      status = kept.status;
    } };
}

/// Answers a request for jobs, and returns the exit status.
///
/// The status is 3 if a file is skipped, 1 if an error is skipped, if a first entry is asked for and there is one, or if
/// something changed, and 0 otherwise. If there is no answer, it is that of the error. If standard error fails, it is 3,
/// and nothing is written to standard output.
pub(crate) fn answer_jobs<R: Threads + Wait + Sync, F: Files, O: Stream, E: Stream>(
    rt: &R,
    alloc: Global,
    goal: &Goal,
    jobs: &JobsRequest,
    files: &mut F,
    out: &mut O,
    err: &mut E,
) -> u8
    ensures answers { AnswersJobs (F.held files.old) goal.now jobs.now result
        (record { takes_all = O.takes_all; old = O.holds out.old; new = O.holds out.new })
        (record { takes_all = E.takes_all; old = E.holds err.old; new = E.holds err.new }) }
    ensures out_flushed { result ≡ 0 → IsTrue (O.is_flushed out.new) }
    ensures err_flushed { E.takes_all ≡ true → IsTrue (E.is_flushed err.old) → IsTrue (E.is_flushed err.new) }
{
    match make_outcome(rt, alloc, goal, jobs, files) {
        Ok(outcome) => report(outcome, jobs.sources.as_slice(), out, err),
        Err(failure) => end(Err(failure), jobs.sources.as_slice(), err),
    }
}

// Reads the sources, and makes the answer for their jobs.
fn make_outcome<R: Threads + Wait + Sync, F: Files>(
    rt: &R,
    alloc: Global,
    goal: &Goal,
    jobs: &JobsRequest,
    files: &mut F,
) -> Result<Outcome, Failure>
    ensures made { outcome_by jobs.now.keep_going (F.held files.old) goal.now jobs.now result }
    ensures first { (sources : List Source) × OpensFirst (input_files jobs.now.zones jobs.now.sources sources) (F.opened files.old) (F.opened files.new) }
{
    let (tried, zones) = read_input(alloc, files, &jobs.zones, &jobs.sources, jobs.keep_going)?;
    let format = make_format(alloc, jobs.format, &jobs.zones.zone, UTC, &zones.clock)?;
    let (errors, kept) = kept_if(alloc, jobs.keep_going, &tried.sources, &zones)?;
    let made = prepare_answer(rt, alloc, kept, &tried.sources, &zones, goal, format);
    let made = settled(made)?;
    let (answer, said) = parted(made);
    let status = skipped_status(tried.unread.as_slice(), errors.as_slice());
    let status = found_status(said.finds_any, status);
    Ok(Outcome {
        unread: tried.unread,
        paths: tried.paths,
        errors,
        answer,
        status,
    })
}

/// Returns an answer, or its error.
///
/// # Errors
///
/// `Run(NoMemory)` if an allocation failed, which is no answer.
pub(crate) fn settled<A>(made: Result<A, RunFault>) -> Result<Result<A, RunFault>, Failure>
    ensures { settles made result }
{
    match made {
        Ok(answer) => Ok(Ok(answer)),
        Err(RunFault::NoMemory) => Err(Failure::Run(RunFault::NoMemory)),
        Err(fault) => Ok(Err(fault)),
    }
}

// What is said about an answer.
#[derive(Drop)]
pub(crate) struct Said {
    // A line for people, if there is something to say.
    pub(crate) remark: Option<Text>,
    // Whether the answer has a start in a span that was to be clear, or a change.
    pub(crate) finds_any: bool,
}

// Returns an answer and what is said about it. Nothing is said about an error.
pub(crate) fn parted(
    made: Result<RemarkedAnswer, RunFault>,
) -> (Result<PreparedAnswer, RunFault>, Said)
    ensures { result ≡ parted made }
{
    match made {
        Ok(made) => {
            let said = Said {
                remark: made.remark,
                finds_any: made.finds_any,
            };
            (Ok(made.answer), said)
        }
        Err(fault) => {
            let said = Said {
                remark: None,
                finds_any: false,
            };
            (Err(fault), said)
        }
    }
}

// Returns the exit status of an answer, by that without it: 1 if a start is found in a span that was to be clear, or a
// change.
pub(crate) fn found_status(finds_any: bool, status: u8) -> u8
    ensures { result ≡ found_status finds_any status }
{
    if finds_any && status == DONE {
        REJECTED
    } else {
        status
    }
}

/// Reports what is skipped, then writes the answer, and returns the exit status. `sources` are the paths that the
/// request names.
pub(crate) fn report<O: Stream, E: Stream>(
    outcome: Outcome,
    sources: &[SourcePath],
    out: &mut O,
    err: &mut E,
) -> u8
    ensures answers { Reports sources.now outcome result
        (record { takes_all = O.takes_all; old = O.holds out.old; new = O.holds out.new })
        (record { takes_all = E.takes_all; old = E.holds err.old; new = E.holds err.new }) }
    ensures out_flushed { result ≡ 0 → IsTrue (O.is_flushed out.new) }
    ensures err_flushed { E.takes_all ≡ true → IsTrue (E.is_flushed err.old) → IsTrue (E.is_flushed err.new) }
{
    let Outcome {
        unread,
        paths,
        errors,
        answer,
        status,
    } = outcome;
    let (unread, errors) = (unread.as_slice(), errors.as_slice());
    if write_skipped(unread, paths.as_slice(), errors, err).is_err() {
        return FAILED;
    }
    let done = print_answer(answer, status, out);
    end(done, sources, err)
}

// Returns the exit status of an answer after what is skipped.
pub(crate) fn skipped_status(unread: &[SourcePath], errors: &[Found]) -> u8
    ensures { result ≡ skipped_status unread.now errors.now }
{
    if !unread.is_empty() {
        FAILED
    } else if !errors.is_empty() {
        REJECTED
    } else {
        DONE
    }
}

// Prints an answer, which has this exit status, or returns the failure if there is none.
fn print_answer<S: Stream>(
    answer: Result<PreparedAnswer, RunFault>,
    status: u8,
    out: &mut S,
) -> Result<u8, Failure>
    ensures ends { HoldsAfter S.takes_all (printed answer status) result (S.holds out.old) (S.holds out.new) }
    ensures flushed { OnOk result (IsTrue (S.is_flushed out.new)) }
{
    match answer {
        Ok(answer) => match answer.write(out) {
            Ok(()) => Ok(status),
            Err(fault) => Err(Failure::Run(RunFault::from(fault))),
        },
        Err(fault) => Err(Failure::Run(fault)),
    }
}

/// States the law of keeping going: if nothing is skipped, a request is answered as it may be without `keep_going`.
/// So is a request whose times, span or zone are rejected.
///
/// The function does nothing: its contract is the law.
pub fn keeping_going_changes_nothing()
    ensures jobs { (held : Held) → (goal : Goal) → (jobs : JobsRequest) → ChangesNothing held goal jobs }
    ensures times { (ask : Ask) → (failure : Failure) → request_of ask (Err failure) → request_of (stopping ask) (Err failure) }
{
    without_errors_all_is_kept();
}
