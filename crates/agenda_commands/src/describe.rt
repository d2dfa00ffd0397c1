//! Says in words when a rule starts its job, or when each job does.

ghost use Rattle.std.specs.Prelude.{◌≡◌, IfOk, IsTrue, OnOk, map};
ghost use Rattle.agenda_commands.specs.Command.{Outputs};
ghost use Rattle.agenda_commands.specs.Describe.{description_output, described_text, sentence_output};
ghost use Rattle.agenda_commands.specs.Goal.{Makes};
ghost use Rattle.agenda_commands.specs.Prepare.{jobs_or};
ghost use Rattle.agenda_describe.specs.Jobs.{described};

use crate::prepare::{Form, Prepared, PreparedAnswer, jobs_or};
use agenda_describe::{Descriptions, describe_asked, jobs_text, write_sentence};
use agenda_faults::RunFault;
use agenda_sources::{Asked, Sources, TimeZones};
use plan_rules::{EventZones, Jobs};
use plan_streams::Stream;
use std::alloc::{AllocError, Global};

/// Writes in words when a rule starts its job, in one line. With `json` the line is an object. An event may name these zones.
///
/// # Errors
///
/// `Rule` if the text isn't a rule, or `NoMemory` if an allocation failed. Nothing is written then. `Device` if the stream
/// failed, which then accepted the first bytes of the text.
pub fn run_describe<S: Stream>(
    alloc: Global,
    asked: &Asked,
    zones: &EventZones,
    json: bool,
    out: &mut S,
) -> Result<(), RunFault>
    ensures output { Outputs S.takes_all (sentence_output zones.now asked.now json) result (S.holds out.old) (S.holds out.new) }
    ensures flushed { OnOk result (IsTrue (S.is_flushed out.new)) }
{
    let sentence = describe_asked(alloc, asked, zones)?;
    write_sentence(&sentence, json, out)?;
    Ok(())
}

/// Prepares the descriptions of jobs in a form: those that were kept, or else all jobs of the sources. Nothing is written.
///
/// # Errors
///
/// `InSource`, `SameName` or `Full` if no jobs were kept and the sources make no list of jobs, whichever comes first in them;
/// `NoMemory` if an allocation failed.
pub fn prepare_description(
    alloc: Global,
    kept: Option<Jobs>,
    sources: &Sources,
    zones: &TimeZones,
    form: Form,
) -> Result<PreparedAnswer, RunFault>
    ensures answer { Makes (λ answer. description_output form zones.now sources.now (jobs_or kept zones.now sources.now) ≡ answer)
        (λ text. text) result }
{
    let jobs = jobs_or(alloc, kept, sources, zones)?;
    let answer = descriptions_in(alloc, &jobs, sources, &zones.timers.zones, form)?;
    Ok(answer)
}

// Describes jobs of sources in a form.
fn descriptions_in(
    alloc: Global,
    jobs: &Jobs,
    sources: &Sources,
    zones: &EventZones,
    form: Form,
) -> Result<PreparedAnswer, AllocError>
    ensures { IfOk result (λ answer. answer ≡ described_text form (map (described zones.now sources.now) jobs.now)) }
{
    let descriptions = Descriptions::new(alloc, jobs, sources, zones)?;
    match form {
        Form::Lines(format) => Ok(PreparedAnswer::new(Prepared::Descriptions(
            descriptions,
            format.json,
        ))),
        Form::Table(form) => {
            let last = jobs_text(alloc, jobs.len(), form.zone.name.as_str())?;
            Ok(PreparedAnswer::new(Prepared::DescriptionTable(descriptions, last, form.frame)))
        }
    }
}
