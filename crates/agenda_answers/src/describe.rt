//! Says in words when a rule starts its job, or when each job of crontabs and timers does.

ghost use Rattle.std.specs.Prelude.{◌≡◌, IsTrue, OnOk, true};
ghost use Rattle.agenda_answers.specs.Answer.{Leaves};
ghost use Rattle.agenda_answers.specs.Describe.{AnswersDescriptions, describe_ends, described_by};

use crate::answers::{end, status_after};
use crate::jobs::{Outcome, report, settled, skipped_status};
use agenda_arguments::{JobsRequest, ZonesRequest};
use agenda_commands::{Form, kept_if, prepare_description, run_describe};
use agenda_faults::Failure;
use agenda_inputs::{Files, read_input, read_rule_zones};
use agenda_sources::Asked;
use plan_streams::Stream;
use plan_write::Format;
use std::alloc::Global;

/// Says in words when a rule that is given by itself starts its job. With `json` the answer is an object.
///
/// # Errors
///
/// That of the zones or of the rule, and that of the stream.
pub(crate) fn describe<F: Files, S: Stream>(
    alloc: Global,
    rule: &Asked,
    zones: &ZonesRequest,
    json: bool,
    files: &mut F,
    out: &mut S,
) -> Result<u8, Failure>
    ensures ends { Leaves S.takes_all (describe_ends (F.held files.old) rule.now zones.now json) result (S.holds out.old) (S.holds out.new) }
    ensures flushed { OnOk result (IsTrue (S.is_flushed out.new)) }
{
    let zones = read_rule_zones(alloc, files, zones, rule)?;
    status_after(run_describe(alloc, rule, &zones.timers.zones, json, out))
}

/// Says in words when each job of crontabs and timers starts, and returns the exit status.
///
/// The status is 3 if a file is skipped, 1 if an error is skipped, and 0 otherwise. If there is no answer, it is that of
/// the error. If standard error fails, it is 3, and nothing is written to standard output.
pub(crate) fn answer_descriptions<F: Files, O: Stream, E: Stream>(
    alloc: Global,
    jobs: &JobsRequest,
    files: &mut F,
    out: &mut O,
    err: &mut E,
) -> u8
    ensures answers { AnswersDescriptions (F.held files.old) jobs.now result
        (record { takes_all = O.takes_all; old = O.holds out.old; new = O.holds out.new })
        (record { takes_all = E.takes_all; old = E.holds err.old; new = E.holds err.new }) }
    ensures out_flushed { result ≡ 0 → IsTrue (O.is_flushed out.new) }
    ensures err_flushed { E.takes_all ≡ true → IsTrue (E.is_flushed err.old) → IsTrue (E.is_flushed err.new) }
{
    match describe_sources(alloc, jobs, files) {
        Ok(outcome) => report(outcome, jobs.sources.as_slice(), out, err),
        Err(failure) => end(Err(failure), jobs.sources.as_slice(), err),
    }
}

// Reads the sources, and describes their jobs.
fn describe_sources<F: Files>(
    alloc: Global,
    jobs: &JobsRequest,
    files: &mut F,
) -> Result<Outcome, Failure>
    ensures { described_by (F.held files.old) jobs.now result }
{
    let (tried, zones) = read_input(alloc, files, &jobs.zones, &jobs.sources, jobs.keep_going)?;
    let (errors, kept) = kept_if(alloc, jobs.keep_going, &tried.sources, &zones)?;
    let form = Form::Lines(Format {
        json: jobs.format.json,
        local: None,
    });
    let made = prepare_description(alloc, kept, &tried.sources, &zones, form);
    let answer = settled(made)?;
    let status = skipped_status(tried.unread.as_slice(), errors.as_slice());
    Ok(Outcome {
        unread: tried.unread,
        paths: tried.paths,
        errors,
        answer,
        status,
    })
}
