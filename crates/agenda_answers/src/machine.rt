//! Answers a question about a machine.
//!
//! The answer is made before a byte is written.

ghost use Rattle.std.specs.Prelude.{◌≡◌, ◌||◌, [], false, IfOk, IsTrue, Some, option_map, string_bytes, true, unwrap_or};
ghost use Rattle.agenda_answers.specs.Host.{host_of};
ghost use Rattle.agenda_answers.specs.Machine.{AnswersMachine, answers_said, files_if, found_in, has_system, in_words, is_there, root_if};
ghost use Rattle.agenda_answers.specs.Machine.{findings_rest, is_root, machine_below, machine_ends, machine_if, machine_of};
ghost use Rattle.agenda_answers.specs.Machine.{is_stopped, machine_zones, naming_limit, needs_files, rest_of, shows_findings, shows_jobs};
ghost use Rattle.agenda_machine.specs.JobFiles.{files_of_jobs};
ghost use Rattle.agenda_machine.specs.Places.{paths_of};
ghost use Rattle.agenda_machine.specs.Root.{root_of};

use crate::answers::end;
use crate::choice::{ReadSources, left_of, read_jobs};
use crate::clear::{
    is_clear, is_clear_question, is_too_large, jobs_status, remark_of, unanswered_status,
};
use crate::formats::{FormRequest, make_form, unnamed_zone};
use crate::host::Host;
use crate::jobs::{Outcome, parted, settled};
use crate::machine_answer::{MachineAnswer, Printout, Site, Skipped, show, status_of};
use crate::machine_describe::descriptions_answer;
use crate::machine_goal::goal_at;
use agenda_arguments::{MachineCheck, MachineJobs, MachineQuestion, MachineRequest};
use agenda_commands::{Form, Goal, PreparedAnswer, are_warnings, prepare_remarked};
use agenda_faults::{Failure, RunFault};
use agenda_inputs::{Files, MOST_READ, MachineFiles, machine_clock, read_zones};
use agenda_machine::{
    LoadedMachine, Reading, dir_of, files_of_jobs, located, paths_of, root_of, sources_of,
    with_idle, with_loaded,
};
use agenda_policy::judged;
use agenda_sources::{Found, SourcePaths, Sources, TimeZones, findings_of_sources, zone_names};
use plan_clock::Clock;
use plan_collect::{CollectFault, PlanFault};
use plan_machine::{Machine, find_machine};
use plan_rules::{Jobs, Text};
use plan_services::default_accuracy;
use plan_streams::Stream;
use plan_tree::{Complete, Node, Rooted, Tree, is_directory};
use plan_write::JobFile;
use std::alloc::{AllocError, Global};
use std::sync::Wait;
use std::thread::Threads;

/// Answers a question about a machine, and returns the exit status.
///
/// The status is 1 if an error is found or if something can't be read, and 0 otherwise. For `clear` it is 1 if a job may start, 4 if
/// none is known to, but something is unknown, and 0 otherwise. If there is no answer, it is that of the error, but for `clear`, 2 in
/// place of 1. If standard error fails, it is 3, and nothing is written to standard output.
pub(crate) fn answer_machine<R: Threads + Wait + Sync, F: Files, T: Complete, O: Stream, E: Stream>(
    rt: &R,
    alloc: Global,
    request: &MachineRequest,
    files: &mut F,
    host: &Host<'_, T>,
    out: &mut O,
    err: &mut E,
) -> u8
    ensures answers { AnswersMachine (F.held files.old) (host_of T.is_known (T.held host.now.tree.now) host.now.time host.now.frame) request.now result
        (record { takes_all = O.takes_all; old = O.holds out.old; new = O.holds out.new })
        (record { takes_all = E.takes_all; old = E.holds err.old; new = E.holds err.new }) }
    ensures out_flushed { result ≡ 0 → IsTrue (O.is_flushed out.new) }
    ensures err_flushed { E.takes_all ≡ true → IsTrue (E.is_flushed err.old) → IsTrue (E.is_flushed err.new) }
{
    match make_answer(rt, alloc, request, files, host) {
        Ok(answer) => show(answer, out, err),
        Err(failure) => {
            let is_too_large = is_too_large(&failure);
            let status = end(Err(failure), &[], err);
            unanswered_status(is_clear_question(&request.question), is_too_large, status)
        }
    }
}

// Finds what is on a machine, and makes the answer to the question about it.
fn make_answer<'a, R: Threads + Wait + Sync, F: Files, T: Complete>(
    rt: &R,
    alloc: Global,
    request: &'a MachineRequest,
    files: &mut F,
    host: &Host<'_, T>,
) -> Result<MachineAnswer<'a>, Failure>
    ensures { machine_ends (F.held files.old) (host_of T.is_known (T.held host.now.tree.now) host.now.time host.now.frame) request.now result }
{
    let dir = dir_of(request.root.as_str());
    let machine = machine_of(alloc, host.tree, request.all, dir)?;
    let below = Rooted::new(host.tree, root_of(dir));
    match &request.question {
        MachineQuestion::Jobs(jobs) => {
            let host = Host {
                tree: &below,
                time: host.time,
                frame: host.frame,
            };
            let loaded = with_loaded(alloc, &below, jobs.idle, machine)?;
            jobs_answer(rt, alloc, files, &host, dir, jobs, loaded)
        }
        MachineQuestion::Sources { json } => Ok(MachineAnswer {
            site: Site {
                dir,
                machine,
                is_zone_unknown: false,
            },
            printout: Printout::Sources { json: *json },
        }),
        MachineQuestion::Describe(describe) => {
            let host = Host {
                tree: &below,
                time: host.time,
                frame: host.frame,
            };
            let loaded = with_loaded(alloc, &below, describe.idle, machine)?;
            descriptions_answer(alloc, files, &host, dir, describe, loaded)
        }
        MachineQuestion::Check(check) => {
            let machine = with_idle(alloc, &below, machine)?;
            check_answer(alloc, files, &below, dir, check, machine)
        }
    }
}

// Finds what is on the machine whose root has this path, if that is a directory with a system.
fn machine_of<T: Complete>(
    alloc: Global,
    tree: &T,
    all: bool,
    dir: &str,
) -> Result<Machine, Failure>
    ensures { machine_of (record { is_known = T.is_known; held = T.held tree.now }) all dir.now result }
{
    let is = is_root(alloc, tree, dir)?;
    let below = Rooted::new(tree, root_of(dir));
    let has = has_system(alloc, &below)?;
    root_if(alloc, is, has, dir)?;
    machine_below(alloc, tree, all, dir)
}

// Returns whether a path is that of a directory.
fn is_root<T: Tree>(alloc: Global, tree: &T, dir: &str) -> Result<bool, AllocError>
    ensures { T.is_known ≡ true → IfOk result (λ is. is ≡ is_root (T.held tree.now) dir.now) }
{
    let is = is_directory(alloc, tree, root_of(dir))?;
    Ok(!dir.is_empty() && is)
}

// Returns whether a root has anything named etc or usr.
fn has_system<T: Tree>(alloc: Global, tree: &T) -> Result<bool, AllocError>
    ensures { T.is_known ≡ true → IfOk result (λ has. has ≡ has_system (T.held tree.now)) }
{
    let etc = tree.node(alloc, "etc")?;
    let usr = tree.node(alloc, "usr")?;
    Ok(either_is_there(&etc, &usr))
}

// Returns whether anything is at one of two paths.
fn either_is_there(one: &Node, other: &Node) -> bool
    ensures { result ≡ (is_there one.now || is_there other.now) }
{
    !matches!((one, other), (Node::Missing, Node::Missing))
}

// Finds what is on the machine whose root has this path.
fn machine_below<T: Complete>(
    alloc: Global,
    tree: &T,
    all: bool,
    dir: &str,
) -> Result<Machine, Failure>
    ensures { machine_below (record { is_known = T.is_known; held = T.held tree.now }) all dir.now result }
{
    let below = Rooted::new(tree, root_of(dir));
    let found = find_machine(alloc, &below, all, MOST_READ)?;
    machine_if(alloc, found, dir)
}

// Rejects a root that is no directory, or has no system.
fn root_if(alloc: Global, is: bool, has: bool, dir: &str) -> Result<(), Failure>
    ensures { root_if is has dir.now result }
{
    if is && has {
        return Ok(());
    }
    let dir = Text::new(String::from_str(alloc, dir)?);
    if is {
        Err(Failure::NoSystem(dir))
    } else {
        Err(Failure::NotDirectory(dir))
    }
}

// Rejects a machine whose boot reaches too many units.
fn machine_if(alloc: Global, found: Option<Machine>, dir: &str) -> Result<Machine, Failure>
    ensures { machine_if found dir.now result }
{
    match found {
        Some(machine) => Ok(machine),
        None => Err(Failure::TooManyUnits(Text::new(String::from_str(alloc, dir)?))),
    }
}

// Makes the answer to `check` for a machine with this tree.
fn check_answer<'a, F: Files, T: Tree>(
    alloc: Global,
    files: &mut F,
    tree: &T,
    dir: &'a str,
    check: &MachineCheck,
    machine: Machine,
) -> Result<MachineAnswer<'a>, Failure>
    ensures { shows_findings (F.held files.old) (record { is_known = T.is_known; held = T.held tree.now }) dir.now check.now machine
        machine.unplanned.items result }
{
    let clock = machine_clock(alloc, files, tree, &check.zone)?;
    let sources = sources_of(alloc, machine.sources.as_slice())?;
    let zones = machine_zones(alloc, files, tree, clock.clock, &sources)?;
    let printout = findings_of(alloc, dir, &machine, &sources, &zones, check)?;
    Ok(MachineAnswer {
        site: Site {
            dir,
            machine,
            is_zone_unknown: clock.is_unknown,
        },
        printout,
    })
}

// Reads the time zones that the events of a machine's sources end with, and the accuracy of its timers.
pub(crate) fn machine_zones<F: Files, T: Tree>(
    alloc: Global,
    files: &mut F,
    tree: &T,
    clock: Clock,
    sources: &Sources,
) -> Result<TimeZones, Failure>
    ensures { machine_zones (F.held files.old) (record { is_known = T.is_known; held = T.held tree.now }) clock sources.now result }
{
    let accuracy = default_accuracy(alloc, tree)?;
    let names = zone_names(alloc, sources)?;
    let mut files = MachineFiles {
        tree,
        running: files,
    };
    let mut zones = read_zones(alloc, &mut files, &None, clock, &names)?;
    zones.timers.accuracy = accuracy;
    Ok(zones)
}

// Finds what is reported on the sources of a machine.
fn findings_of(
    alloc: Global,
    dir: &str,
    machine: &Machine,
    sources: &Sources,
    zones: &TimeZones,
    check: &MachineCheck,
) -> Result<Printout, AllocError>
    ensures { IfOk result (λ printout. rest_of dir.now machine.now printout
        ≡ findings_rest dir.now check.now.json machine.now (found_in check.now.policy machine.now zones.now sources.now)) }
{
    let found = findings_of_sources(alloc, sources, zones)?;
    let found = judged(alloc, &check.policy, sources, found)?;
    let found = located(machine.sources.as_slice(), found)?;
    let json = check.json;
    let paths = paths_of(alloc, root_of(dir), machine.sources.as_slice(), json)?;
    Ok(Printout::Findings { paths, found, json })
}

// Makes the answer about the jobs of a machine with this tree.
fn jobs_answer<'a, R: Threads + Wait + Sync, F: Files, T: Tree>(
    rt: &R,
    alloc: Global,
    files: &mut F,
    host: &Host<'_, T>,
    dir: &'a str,
    jobs: &MachineJobs,
    loaded: LoadedMachine,
) -> Result<MachineAnswer<'a>, Failure>
    ensures { shows_jobs (F.held files.old) (host_of T.is_known (T.held host.now.tree.now) host.now.time host.now.frame) dir.now jobs.now
        loaded.machine loaded.machine.unplanned.items loaded.planned result }
{
    let LoadedMachine {
        machine,
        planned: loads,
    } = loaded;
    let clock = machine_clock(alloc, files, host.tree, &jobs.zone)?;
    let goal = goal_at(alloc, files, host.time, &clock.clock, jobs)?;
    let sources = sources_of(alloc, machine.sources.as_slice())?;
    let zones = machine_zones(alloc, files, host.tree, clock.clock, &sources)?;
    let unnamed = unnamed_zone(clock.is_of_file);
    let origin = goal.origin(host.time);
    let request = FormRequest {
        format: jobs.format,
        table: jobs.table,
    };
    let form = make_form(
        alloc,
        request,
        origin,
        host.frame,
        &clock.name,
        unnamed,
        &zones.clock,
    )?;
    let read = ReadSources {
        all: &sources,
        planned: &loads,
    };
    let (skipped, read) = read_jobs(alloc, dir, &machine, read, &zones)?;
    let reading = Reading {
        root: root_of(dir),
        machine: &machine,
        paths: skipped.paths.as_slice(),
        errors: skipped.errors.as_slice(),
        is_zone_unknown: clock.is_unknown,
    };
    let except = jobs.except.as_slice();
    let only = jobs.only.as_slice();
    let left = left_of(alloc, &reading, read, except, only)?;
    let site = Site {
        dir,
        machine,
        is_zone_unknown: clock.is_unknown,
    };
    if is_stopped(jobs.strict, skipped.errors.as_slice()) {
        let printout = Printout::Stopped(skipped, is_clear(&goal));
        return Ok(MachineAnswer { site, printout });
    }
    let output = Output {
        goal: &goal,
        form,
        unknown: left.unknown,
    };
    let (outcome, remark) = planned(rt, alloc, host.tree, &site, skipped, left.jobs, output)?;
    let printout = Printout::Jobs(outcome, remark);
    Ok(MachineAnswer { site, printout })
}

// What is made of jobs, in which form, and how many things are unknown.
#[derive(Drop)]
struct Output<'a> {
    goal: &'a Goal,
    form: Form,
    unknown: usize,
}

// Makes the answer for the jobs of a machine that are left, with what is said about it. The machine has this tree.
fn planned<R: Threads + Wait + Sync, T: Tree>(
    rt: &R,
    alloc: Global,
    tree: &T,
    site: &Site<'_>,
    skipped: Skipped,
    kept: Jobs,
    output: Output<'_>,
) -> Result<(Outcome, Option<Text>), Failure>
    ensures { answers_said (record { is_known = T.is_known; held = T.held tree.now }) site.now.dir.now site.now.machine skipped.paths
        skipped.errors.items output.entry.unknown output.entry.form output.entry.goal.now kept result }
{
    let Output {
        goal,
        form,
        unknown,
    } = output;
    let needed = needs_files(&form, goal);
    let files = files_if(alloc, tree, site, &kept, needed)?;
    let made = prepare_remarked(rt, alloc, kept, goal, form, files.as_deref());
    let made = settled(made)?;
    let (answer, said) = parted(made);
    let status = status_of(&site.machine, are_warnings(skipped.errors.as_slice()));
    let status = jobs_status(goal, said.finds_any, status, unknown);
    let remark = remark_of(alloc, goal, answer.is_ok(), status, said.remark, unknown)?;
    let outcome = Outcome {
        unread: SourcePaths::new(alloc),
        status,
        paths: skipped.paths,
        errors: skipped.errors,
        answer: in_words(answer, goal),
    };
    Ok((outcome, remark))
}

// Returns whether an answer in this form has the files of its jobs, or their scripts: a table, lines in JSON, and the list of
// scripts.
fn needs_files(form: &Form, goal: &Goal) -> bool
    ensures { result ≡ needs_files form.now goal.now }
{
    match (form, goal) {
        (Form::Table(_), _) => true,
        (Form::Lines(_), Goal::Scripts { .. }) => true,
        (Form::Lines(format), _) => format.json,
    }
}

// Returns the files of jobs with their scripts, if they are needed.
fn files_if<T: Tree>(
    alloc: Global,
    tree: &T,
    site: &Site<'_>,
    kept: &Jobs,
    needed: bool,
) -> Result<Option<Vec<JobFile>>, AllocError>
    ensures { T.is_known ≡ true → IfOk result (λ files. option_map (λ files. files.items) files
        ≡ files_if needed (files_of_jobs (T.held tree.now) (root_of site.now.dir.now) site.now.machine.sources.items kept.now)) }
{
    if !needed {
        return Ok(None);
    }
    let sources = site.machine.sources.as_slice();
    let files = files_of_jobs(alloc, tree, root_of(site.dir), sources, kept)?;
    Ok(Some(files))
}

// Returns an answer. If it has too many starts for a plan, the error names the limit.
fn in_words(
    answer: Result<PreparedAnswer, RunFault>,
    goal: &Goal,
) -> Result<PreparedAnswer, RunFault>
    ensures { result ≡ in_words goal.now answer }
{
    match goal {
        Goal::Plan { planning, .. } => naming_limit(answer, planning.sizes.limit),
        Goal::Quiet { planning, .. } => naming_limit(answer, planning.sizes.limit),
        Goal::Changes { planning, .. } => naming_limit(answer, planning.sizes.limit),
        Goal::Upcoming { .. } | Goal::Scripts { .. } => answer,
    }
}

// Returns an answer. If it has too many starts, the error names this limit.
fn naming_limit(
    answer: Result<PreparedAnswer, RunFault>,
    limit: u64,
) -> Result<PreparedAnswer, RunFault>
    ensures { result ≡ naming_limit limit answer }
{
    match answer {
        Err(RunFault::Plan(PlanFault::Collect(CollectFault::TooMany))) => {
            Err(RunFault::TooManyStarts(limit))
        }
        answer => answer,
    }
}

// Returns whether an error stops an answer.
pub(crate) fn is_stopped(strict: bool, errors: &[Found]) -> bool
    ensures { result ≡ is_stopped strict errors.now }
{
    strict && !errors.is_empty()
}
