//! Says in words when each job of a machine starts, or when a rule starts its job that may end with a zone of the machine.

ghost use Rattle.std.specs.Prelude.{◌≡◌, IsTrue, true};
ghost use Rattle.agenda_answers.specs.Host.{host_of};
ghost use Rattle.agenda_answers.specs.Machine.{descriptions_said, shows_descriptions};
ghost use Rattle.agenda_answers.specs.MachineDescribe.{AnswersRule, LeavesSentence, zones_at};

use crate::answers::end;
use crate::choice::{ReadSources, left_of, read_jobs};
use crate::formats::{FormRequest, make_form, unnamed_zone};
use crate::host::Host;
use crate::jobs::{Outcome, settled};
use crate::machine::{is_stopped, machine_zones};
use crate::machine_answer::{MachineAnswer, Printout, Site, Skipped, status_of};
use crate::machine_next::report_fault;
use agenda_arguments::{FormatRequest, MachineDescribe, ZonesRequest};
use agenda_commands::{Form, are_warnings, prepare_description, run_describe};
use agenda_faults::Failure;
use agenda_faults::status::DONE;
use agenda_inputs::{Files, MachineFiles, machine_clock, zones_of_rule};
use agenda_machine::{LoadedMachine, Reading, root_of, sources_of};
use agenda_sources::{Asked, SourcePaths, Sources, TimeZones};
use plan_clock::Clock;
use plan_rules::Jobs;
use plan_streams::Stream;
use plan_tree::{Rooted, Tree};
use std::alloc::Global;

/// Makes the answer that describes the jobs of a machine with this tree.
///
/// # Errors
///
/// That of the zone, or `Run(NoMemory)` if an allocation failed.
pub(crate) fn descriptions_answer<'a, F: Files, T: Tree>(
    alloc: Global,
    files: &mut F,
    host: &Host<'_, T>,
    dir: &'a str,
    describe: &MachineDescribe,
    loaded: LoadedMachine,
) -> Result<MachineAnswer<'a>, Failure>
    ensures { shows_descriptions (F.held files.old) (host_of T.is_known (T.held host.now.tree.now) host.now.time host.now.frame) dir.now describe.now
        loaded.machine loaded.machine.unplanned.items loaded.planned result }
{
    let LoadedMachine {
        machine,
        planned: loads,
    } = loaded;
    let clock = machine_clock(alloc, files, host.tree, &describe.zone)?;
    let sources = sources_of(alloc, machine.sources.as_slice())?;
    let zones = machine_zones(alloc, files, host.tree, clock.clock, &sources)?;
    let unnamed = unnamed_zone(clock.is_of_file);
    let request = FormRequest {
        format: FormatRequest {
            json: describe.json,
            local: false,
        },
        table: describe.table,
    };
    let form = make_form(
        alloc,
        request,
        None,
        host.frame,
        &clock.name,
        unnamed,
        &zones.clock,
    )?;
    let read = ReadSources {
        all: &sources,
        planned: &loads,
    };
    let (skipped, read) = read_jobs(alloc, dir, &machine, read, &zones)?;
    let reading = Reading {
        root: root_of(dir),
        machine: &machine,
        paths: skipped.paths.as_slice(),
        errors: skipped.errors.as_slice(),
        is_zone_unknown: clock.is_unknown,
    };
    let except = describe.except.as_slice();
    let only = describe.only.as_slice();
    let left = left_of(alloc, &reading, read, except, only)?;
    let site = Site {
        dir,
        machine,
        is_zone_unknown: clock.is_unknown,
    };
    if is_stopped(describe.strict, skipped.errors.as_slice()) {
        let printout = Printout::Stopped(skipped, false);
        return Ok(MachineAnswer { site, printout });
    }
    let outcome = described(alloc, &site, skipped, left.jobs, &loads, &zones, form)?;
    let printout = Printout::Jobs(outcome, None);
    Ok(MachineAnswer { site, printout })
}

// Describes the jobs of a machine that are left, in a form.
fn described(
    alloc: Global,
    site: &Site<'_>,
    skipped: Skipped,
    kept: Jobs,
    loads: &Sources,
    zones: &TimeZones,
    form: Form,
) -> Result<Outcome, Failure>
    ensures { descriptions_said site.now.machine skipped.paths skipped.errors.items form zones.now loads.now kept result }
{
    let made = prepare_description(alloc, Some(kept), loads, zones, form);
    let answer = settled(made)?;
    Ok(Outcome {
        unread: SourcePaths::new(alloc),
        status: status_of(&site.machine, are_warnings(skipped.errors.as_slice())),
        paths: skipped.paths,
        errors: skipped.errors,
        answer,
    })
}

/// Says in words when a rule starts its job, and returns the exit status. An event may end with a zone of the machine that
/// the program runs on. An invalid rule is reported in words.
///
/// The status is 1 if the rule is rejected, and 0 otherwise.
pub(crate) fn answer_machine_describe<F: Files, T: Tree, O: Stream, E: Stream>(
    alloc: Global,
    rule: &Asked,
    json: bool,
    files: &mut F,
    host: &Host<'_, T>,
    out: &mut O,
    err: &mut E,
) -> u8
    ensures answers { AnswersRule (F.held files.old) (host_of T.is_known (T.held host.now.tree.now) host.now.time host.now.frame) rule.now json result
        (record { takes_all = O.takes_all; old = O.holds out.old; new = O.holds out.new })
        (record { takes_all = E.takes_all; old = E.holds err.old; new = E.holds err.new }) }
    ensures out_flushed { result ≡ 0 → IsTrue (O.is_flushed out.new) }
    ensures err_flushed { E.takes_all ≡ true → IsTrue (E.is_flushed err.old) → IsTrue (E.is_flushed err.new) }
{
    let below = Rooted::new(host.tree, "");
    match zones_at(alloc, rule, files, &below) {
        Ok(zones) => say_sentence(alloc, rule, &zones, json, out, err),
        Err(failure) => end(Err(failure), &[], err),
    }
}

// Reads the zone that a rule may end with, from the files of a machine with this tree.
fn zones_at<F: Files, T: Tree>(
    alloc: Global,
    rule: &Asked,
    files: &mut F,
    tree: &T,
) -> Result<TimeZones, Failure>
    ensures { zones_at (F.held files.old) (record { is_known = T.is_known; held = T.held tree.now }) rule.now result }
{
    let request = ZonesRequest {
        zone: None,
        event_zones: true,
    };
    let mut files = MachineFiles {
        tree,
        running: files,
    };
    zones_of_rule(alloc, &mut files, &request, Clock::utc(), rule)
}

// Says in words when a rule starts its job, and returns the exit status.
fn say_sentence<O: Stream, E: Stream>(
    alloc: Global,
    rule: &Asked,
    zones: &TimeZones,
    json: bool,
    out: &mut O,
    err: &mut E,
) -> u8
    ensures answers { LeavesSentence rule.now zones.now json result
        (record { takes_all = O.takes_all; old = O.holds out.old; new = O.holds out.new })
        (record { takes_all = E.takes_all; old = E.holds err.old; new = E.holds err.new }) }
    ensures out_flushed { result ≡ 0 → IsTrue (O.is_flushed out.new) }
    ensures err_flushed { E.takes_all ≡ true → IsTrue (E.is_flushed err.old) → IsTrue (E.is_flushed err.new) }
{
    match run_describe(alloc, rule, &zones.timers.zones, json, out) {
        Ok(()) => DONE,
        Err(fault) => report_fault(fault, rule, err),
    }
}
