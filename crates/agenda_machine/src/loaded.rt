//! The sources of a machine as a plan reads them: only what its daemons load, and without its idle jobs.

ghost use Rattle.std.specs.Prelude.{◌≡◌, ◌++◌, [], true, false, IfOk, OnOk, map};
ghost use Rattle.std.specs.List.{cons_option, flat_map};
ghost use Rattle.std.specs.Option.{option_map};
ghost use Rattle.agenda_machine.specs.Idle.{idle_reports};
ghost use Rattle.agenda_machine.specs.IdleJobs.{IdleJobsAreExcepted};
ghost use Rattle.agenda_machine.specs.Loaded.{IdleJobsOfMachineAreLeftOut, idle_jobs, idle_of, kept_source, loaded_from, loaded_source, missing_place, missing_places, planned_sources, unloaded_from, unplanned_with_idle};
ghost use Rattle.plan_loads.specs.Loading.{loading_of};
ghost use Rattle.plan_tree.specs.Links.{end_of};

use crate::idle::{Kept, kept_of};
use agenda_sources::{Bytes, Source, Sources};
use plan_loads::{Loading, loading_of};
use plan_machine::{CronDaemon, Machine, MachineSource, NotPlanned, Unplanned, has_cron_daemon};
use plan_texts::Text;
use plan_tree::{End, Tree, follow};
use std::alloc::{AllocError, Global};

/// A machine, and its sources as a plan reads them.
#[derive(Drop)]
pub struct LoadedMachine {
    /// The machine, with all that isn't planned on it.
    pub machine: Machine,
    /// The sources of which its daemons load anything, with the texts that a plan reads of them.
    pub planned: Sources,
}

/// States the law of idle jobs: a plan reads the same sources with and without them, and without them each crontab has exactly
/// the entries of the other jobs.
///
/// The function does nothing: its contract is the law.
pub fn idle_jobs_of_machine_are_left_out()
    ensures { IdleJobsOfMachineAreLeftOut }
{}

/// States the law of answers without idle jobs: the jobs of a plan without idle jobs are those of a plan with them, in the same
/// order, but for the jobs with the names of idle ones. So an answer with `--idle` has the same jobs, and the idle ones.
///
/// No job may have the name of another, and there may be at most 1,000 jobs with the idle ones: else an idle job may take the
/// place of another one. `check` and each answer report both as errors.
///
/// The function does nothing: its contract is the law.
pub fn idle_jobs_are_excepted()
    ensures { IdleJobsAreExcepted }
{}

// What the daemons of a machine load of its sources, as a plan reads it.
#[derive(Drop)]
struct LoadedSources {
    // The sources of which they load anything.
    sources: Vec<Source>,
    // What isn't planned of the others.
    reports: Vec<NotPlanned>,
    // The idle jobs that aren't planned.
    jobs: Vec<NotPlanned>,
}

// What is loaded of a source, as a plan reads it.
#[derive(Drop)]
struct LoadedSource {
    // The source, if anything is loaded of it.
    source: Option<Source>,
    // The idle jobs that aren't planned.
    jobs: Vec<NotPlanned>,
}

/// Returns the sources of a machine as a plan reads them, and the machine with what isn't planned of them: what its daemons don't
/// load and what starts at times that files don't tell, as `loading_of` of plan_loads says, directories that are missing, and idle jobs,
/// as `active_crontab` of plan_runs finds them. With `idle` these are planned, and not reported.
///
/// # Errors
///
/// `AllocError` if an allocation fails.
#[tactic(auto, using(crate::proofs::LoadedLemmas::planned_are, crate::proofs::LoadedLemmas::unplanned_are))]
pub fn with_loaded<T: Tree>(
    alloc: Global,
    tree: &T,
    idle: bool,
    machine: Machine,
) -> Result<LoadedMachine, AllocError>
    ensures planned { T.is_known ≡ true → IfOk result (λ loaded. loaded.planned ≡ planned_sources (T.held tree.now) idle machine) }
    ensures unplanned { T.is_known ≡ true → IfOk result (λ loaded.
        loaded.machine.unplanned.items ≡ unplanned_with_idle (T.held tree.now) idle machine) }
    ensures others { IfOk result (λ loaded. loaded.machine ≡ record machine { unplanned = loaded.machine.unplanned }) }
{
    let LoadedSources {
        sources,
        reports,
        jobs,
    } = loaded_from(
        alloc,
        tree,
        idle,
        machine.unplanned.as_slice(),
        machine.cron_daemon,
        machine.sources.as_slice(),
    )?;
    let machine = with_reports(machine, reports)?;
    let missing = missing_reports(alloc, tree)?;
    let machine = with_reports(machine, missing)?;
    let machine = with_reports(machine, jobs)?;
    Ok(LoadedMachine {
        machine,
        planned: Sources::new(sources),
    })
}

/// Returns a machine with the idle jobs of its sources among what isn't planned, at the end.
///
/// # Errors
///
/// `AllocError` if an allocation fails.
pub fn with_idle<T: Tree>(alloc: Global, tree: &T, machine: Machine) -> Result<Machine, AllocError>
    ensures unplanned { T.is_known ≡ true → IfOk result (λ all.
        all.unplanned.items ≡ machine.unplanned.items ++ idle_jobs (T.held tree.now) machine) }
    ensures others { IfOk result (λ all. all ≡ record machine { unplanned = all.unplanned }) }
{
    let loaded = loaded_from(
        alloc,
        tree,
        false,
        machine.unplanned.as_slice(),
        machine.cron_daemon,
        machine.sources.as_slice(),
    )?;
    with_reports(machine, loaded.jobs)
}

// Returns the reports of the directories that a machine lacks.
fn missing_reports<T: Tree>(alloc: Global, tree: &T) -> Result<Vec<NotPlanned>, AllocError>
    ensures { T.is_known ≡ true → IfOk result (λ all. all.items ≡ missing_places (T.held tree.now)) }
{
    let mut all = Vec::new(alloc);
    if has_cron_daemon(alloc, tree)? {
        let why = "no directory of users' crontabs: is another disk mounted there?";
        add_missing(
            alloc,
            tree,
            &mut all,
            "var/spool/cron/.",
            "var/spool/cron",
            why,
        )?;
    }
    let why = "is another disk mounted there?";
    add_missing(alloc, tree, &mut all, "var/lib/.", "var/lib", why)?;
    Ok(all)
}

// Adds the report of a directory, unless its path leads to one: `dir` is the path with `/.` at its end.
fn add_missing<T: Tree>(
    alloc: Global,
    tree: &T,
    all: &mut Vec<NotPlanned>,
    dir: &str,
    path: &str,
    why: &str,
) -> Result<(), AllocError>
    ensures { T.is_known ≡ true → OnOk result (all.new.items
        ≡ all.old.items ++ missing_place (end_of (T.held tree.now).node dir.now) path.now why.now) }
{
    if let End::Found(_) = follow(alloc, tree, dir)? {
        return Ok(());
    }
    all.push(NotPlanned {
        path: Text::new(String::from_str(alloc, path)?),
        why: Unplanned::LineUnknown(0, Text::new(String::from_str(alloc, why)?)),
    })?;
    Ok(())
}

// Returns a machine with more that isn't planned, at the end.
fn with_reports(machine: Machine, reports: Vec<NotPlanned>) -> Result<Machine, AllocError>
    ensures unplanned { IfOk result (λ all. all.unplanned.items ≡ machine.unplanned.items ++ reports.items) }
    ensures others { IfOk result (λ all. all ≡ record machine { unplanned = all.unplanned }) }
{
    let Machine {
        sources,
        skipped,
        mut unplanned,
        lacks_cron_daemon,
        cron_daemon,
    } = machine;
    let mut reports = reports;
    unplanned.append(&mut reports)?;
    Ok(Machine {
        sources,
        skipped,
        unplanned,
        lacks_cron_daemon,
        cron_daemon,
    })
}

// Returns what is loaded of sources, as a plan reads it.
fn loaded_from<T: Tree>(
    alloc: Global,
    tree: &T,
    idle: bool,
    unplanned: &[NotPlanned],
    daemon: CronDaemon,
    sources: &[MachineSource],
) -> Result<LoadedSources, AllocError>
    ensures sources { T.is_known ≡ true → IfOk result (λ loaded.
        loaded.sources.items ≡ map (kept_source (T.held tree.now) idle) (loaded_from unplanned.now daemon sources.now)) }
    ensures reports { IfOk result (λ loaded. loaded.reports.items ≡ unloaded_from unplanned.now daemon sources.now) }
    ensures jobs { T.is_known ≡ true → IfOk result (λ loaded.
        loaded.jobs.items ≡ flat_map (idle_of (T.held tree.now) idle unplanned.now daemon) sources.now) }
{
    let mut loaded = Vec::with_capacity(alloc, sources.len())?;
    let mut reports = Vec::new(alloc);
    let mut jobs = Vec::new(alloc);
    for source in sources {
        let Loading {
            text,
            reports: mut unloaded,
        } = loading_of(alloc, unplanned, daemon, source.kind(), source.parts())?;
        let mut one = loaded_source(alloc, tree, idle, source, text)?;
        reports.append(&mut unloaded)?;
        jobs.append(&mut one.jobs)?;
        add(&mut loaded, one.source)?;
    }
    Ok(LoadedSources {
        sources: loaded,
        reports,
        jobs,
    })
}

// Adds a source, if there is one.
fn add(loaded: &mut Vec<Source>, source: Option<Source>) -> Result<(), AllocError>
    ensures { OnOk result (loaded.new.items ≡ loaded.old.items ++ cons_option source []) }
{
    if let Some(source) = source {
        loaded.push(source)?;
    }
    Ok(())
}

// Returns what is loaded of a source of which this text is loaded, if anything is.
fn loaded_source<T: Tree>(
    alloc: Global,
    tree: &T,
    idle: bool,
    source: &MachineSource,
    text: Option<Vec<u8>>,
) -> Result<LoadedSource, AllocError>
    ensures source { T.is_known ≡ true → IfOk result (λ one.
        one.source ≡ option_map (kept_source (T.held tree.now) idle)
        (loaded_source source.now (option_map (λ text. text.items) text))) }
    ensures jobs { T.is_known ≡ true → IfOk result (λ one.
        one.jobs.items ≡ idle_reports (T.held tree.now) idle source.now (option_map (λ text. text.items) text)) }
{
    match text {
        None => Ok(LoadedSource {
            source: None,
            jobs: Vec::new(alloc),
        }),
        Some(text) => {
            let Kept { text, reports } = kept_of(alloc, tree, idle, source, text)?;
            let source = source_with(alloc, source, text)?;
            Ok(LoadedSource {
                source: Some(source),
                jobs: reports,
            })
        }
    }
}

// Returns a source with a text.
fn source_with(alloc: Global, source: &MachineSource, text: Vec<u8>) -> Result<Source, AllocError>
    ensures { IfOk result (λ one. one ≡ record { kind = source.now.kind; name = source.now.name; bytes = text.items }) }
{
    Ok(Source {
        kind: source.kind(),
        name: Text::new(String::from_str(alloc, source.name())?),
        bytes: Bytes::new(text),
    })
}
