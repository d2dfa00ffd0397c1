//! The jobs of a machine that an answer is about, and what isn't known of them.

ghost use Rattle.std.specs.Prelude.{◌≡◌, ◌++◌, IfOk, codes, false};
ghost use Rattle.std.specs.Option.{option_map};
ghost use Rattle.agenda_answers.specs.Choice.{left_in, names_if};
ghost use Rattle.agenda_answers.specs.Machine.{errors_in};
ghost use Rattle.agenda_machine.specs.Places.{paths_of};
ghost use Rattle.agenda_machine.specs.Root.{root_of};
ghost use Rattle.agenda_sources.specs.Findings.{kept_jobs};

use crate::machine_answer::Skipped;
use agenda_faults::{Failure, MachineFault};
use agenda_machine::{
    Choice, Reading, count_left, left_out, located, names_of, names_of_machine, paths_of, root_of,
    unchosen, unexcepted, unknowns,
};
use agenda_sources::{Found, Kept, Sources, TimeZones, kept_of_sources};
use plan_machine::Machine;
use plan_rules::{Jobs, Text};
use std::alloc::{AllocError, Global};

// The sources of a machine, and those that a plan reads.
#[derive(Clone, Copy)]
pub(crate) struct ReadSources<'a> {
    pub(crate) all: &'a Sources,
    pub(crate) planned: &'a Sources,
}

// The jobs of the sources of a machine, and those that a plan reads.
#[derive(Drop)]
pub(crate) struct ReadJobs {
    pub(crate) all: Jobs,
    pub(crate) planned: Jobs,
}

// The jobs that are left, and how many unknown things.
#[derive(Drop)]
pub(crate) struct Left {
    pub(crate) jobs: Jobs,
    pub(crate) unknown: usize,
}

// Finds the errors of all sources of a machine, and the jobs that are left without these.
pub(crate) fn read_jobs(
    alloc: Global,
    dir: &str,
    machine: &Machine,
    sources: ReadSources<'_>,
    zones: &TimeZones,
) -> Result<(Skipped, ReadJobs), AllocError>
    ensures paths { IfOk result (λ read. read.0.paths ≡ paths_of false (root_of dir.now) machine.now.sources.items) }
    ensures errors { IfOk result (λ read. read.0.errors.items ≡ errors_in machine.now zones.now sources.entry.all.now) }
    ensures all { IfOk result (λ read. read.1.all ≡ kept_jobs zones.now sources.entry.all.now) }
    ensures planned { IfOk result (λ read. read.1.planned ≡ kept_jobs zones.now sources.entry.planned.now) }
{
    let Kept { errors, jobs: all } = kept_of_sources(alloc, sources.all, zones)?;
    let errors = located(machine.sources.as_slice(), errors)?;
    let paths = paths_of(alloc, root_of(dir), machine.sources.as_slice(), false)?;
    let planned = kept_jobs(alloc, sources.planned, zones)?;
    Ok((Skipped { paths, errors }, ReadJobs { all, planned }))
}

// Finds the jobs of sources that are left without errors.
fn kept_jobs(alloc: Global, sources: &Sources, zones: &TimeZones) -> Result<Jobs, AllocError>
    ensures { IfOk result (λ jobs. jobs ≡ kept_jobs zones.now sources.now) }
{
    let Kept { jobs, .. } = kept_of_sources(alloc, sources, zones)?;
    Ok(jobs)
}

// Leaves out the jobs of a machine that aren't asked for, by patterns, and what is unknown of them. Each pattern has to name something.
pub(crate) fn left_of(
    alloc: Global,
    reading: &Reading<'_>,
    jobs: ReadJobs,
    except: &[Text],
    only: &[Text],
) -> Result<Left, Failure>
    ensures { left_in reading.now.root.now reading.now.machine.now reading.now.machine.now.unplanned.items reading.now.paths.now
        reading.now.errors.now reading.now.is_zone_unknown jobs.all jobs.planned except.now only.now result }
{
    let unknown = unknowns(alloc, reading)?;
    let names = names_of_machine(alloc, reading.machine, &jobs.all, unknown.as_slice())?;
    let front = front_of(alloc, reading.root)?;
    names_if(
        alloc,
        unexcepted(except, front.as_str(), names.as_slice()),
        false,
    )?;
    names_if(alloc, unchosen(only, names.as_slice()), true)?;
    let choice = Choice {
        front: front.as_str(),
        except,
        only,
    };
    let left = left_out(choice, names_of(alloc, &jobs.planned)?);
    Ok(Left {
        jobs: jobs.planned.without(left.as_slice()),
        unknown: count_left(choice, unknown.as_slice()),
    })
}

// Returns what the paths below a root begin with.
fn front_of(alloc: Global, root: &str) -> Result<Text, AllocError>
    ensures { IfOk result (λ front. front ≡ root.now ++ codes "/") }
{
    let mut front = String::from_str(alloc, root)?;
    front.push_str("/")?;
    Ok(Text::new(front))
}

// Rejects a pattern of `--except` or `--only` that nothing fits, if there is one.
fn names_if(alloc: Global, pattern: Option<&Text>, is_only: bool) -> Result<(), Failure>
    ensures { names_if (option_map (λ pattern. pattern.now) pattern.entry) is_only result }
{
    let Some(pattern) = pattern else {
        return Ok(());
    };
    let pattern = Text::new(String::from_str(alloc, pattern.as_str())?);
    Err(Failure::Machine(if is_only {
        MachineFault::NothingChosen(pattern)
    } else {
        MachineFault::NothingExcepted(pattern)
    }))
}
