//! What is found on a machine and printed about it, and how it is shown.
//!
//! What is reported goes to standard error, then the answer to standard output.

ghost use Rattle.std.specs.Prelude.{◌≡◌, ◌≢◌, false, IsTrue, Ok, OnOk, true};
ghost use Rattle.agenda_answers.specs.Answer.{HoldsAfter};
ghost use Rattle.agenda_answers.specs.Machine.{ReportsFirst, Says, Shows, ShowsRest, has_reports, machine_reports, machine_status, rest_of, stopped_status};
ghost use Rattle.agenda_findings.specs.Findings.{check_text};
ghost use Rattle.agenda_machine.specs.Listing.{sources_text};
ghost use Rattle.agenda_machine.specs.Root.{root_of};
ghost use Rattle.agenda_sources.specs.Findings.{is_all_clean};
ghost use Rattle.plan_streams.specs.Stream.{Puts};

use crate::answers::end;
use crate::jobs::{Outcome, report};
use agenda_commands::are_warnings;
use agenda_faults::status::{DONE, FAILED, REJECTED, UNKNOWN};
use agenda_faults::{Failure, RunFault};
use agenda_findings::{write_findings, write_skipped};
use agenda_machine::{Reports, is_incomplete, root_of, write_reports, write_sources};
use agenda_sources::{Found, SourcePath, SourcePaths};
use plan_machine::Machine;
use plan_rules::Text;
use plan_streams::{Stream, TextWriter, WriteFault};
use std::marker::Model;
use std::slice;

/// What is printed about a machine.
#[derive(Drop)]
pub(crate) enum Printout {
    /// Its sources.
    Sources {
        /// Whether each line is a JSON object.
        json: bool,
    },
    /// What is wrong with them.
    Findings {
        /// The paths of their files.
        paths: SourcePaths,
        /// The findings, with their places in these paths.
        found: Vec<Found>,
        /// Whether each line is a JSON object.
        json: bool,
    },
    /// What is made of their jobs, and what is said about it.
    Jobs(Outcome, Option<Text>),
    /// The errors of their files, of which the first stops the answer, and whether it was whether a span is clear.
    Stopped(Skipped, bool),
}

/// The errors of a machine's sources, with their places in these paths.
#[derive(Drop)]
pub(crate) struct Skipped {
    pub paths: SourcePaths,
    pub errors: Vec<Found>,
}

/// What is found on a machine.
#[derive(Drop)]
pub(crate) struct Site<'a> {
    /// The path of its root, as it is shown: without the slashes at its end.
    pub dir: &'a str,
    pub machine: Machine,
    pub is_zone_unknown: bool,
}

/// What is found on a machine, and what is printed about it.
#[derive(Drop)]
pub(crate) struct MachineAnswer<'a> {
    pub site: Site<'a>,
    pub printout: Printout,
}

impl<'a> Model for MachineAnswer<'a> {
    ghost use Rattle.agenda_answers.specs.Machine.{Shown, has_reports, machine_reports, rest_of};

    ghost Value = { Shown };

    ghost view = { λ answer. record {
      reports = machine_reports answer.site.dir.now answer.site.machine answer.site.machine.unplanned.items answer.site.is_zone_unknown;
      has_reports = has_reports answer.site.machine answer.site.machine.unplanned.items answer.site.is_zone_unknown;
      rest = rest_of answer.site.dir.now answer.site.machine answer.printout;
    } };
}

/// Reports what is skipped and the like, then prints the answer, and returns the exit status.
pub(crate) fn show<O: Stream, E: Stream>(answer: MachineAnswer<'_>, out: &mut O, err: &mut E) -> u8
    ensures answers { Shows (Ok answer.entry) result
        (record { takes_all = O.takes_all; old = O.holds out.old; new = O.holds out.new })
        (record { takes_all = E.takes_all; old = E.holds err.old; new = E.holds err.new }) }
    ensures out_flushed { result ≡ 0 → IsTrue (O.is_flushed out.new) }
    ensures err_flushed { E.takes_all ≡ true → IsTrue (E.is_flushed err.old) → IsTrue (E.is_flushed err.new) }
{
    if report_site(&answer.site, err).is_err() {
        return FAILED;
    }
    let MachineAnswer { site, printout } = answer;
    show_rest(&site, printout, out, err)
}

// Writes what is reported.
fn report_site<S: Stream>(site: &Site<'_>, err: &mut S) -> Result<(), WriteFault>
    ensures text { Puts S.takes_all result (S.holds err.old) (S.holds err.new)
        (machine_reports site.now.dir.now site.now.machine site.now.machine.unplanned.items site.now.is_zone_unknown) }
    ensures spared { has_reports site.now.machine site.now.machine.unplanned.items site.now.is_zone_unknown ≡ false → result ≡ Ok tt }
    ensures flushed { OnOk result (IsTrue (S.is_flushed err.old) → IsTrue (S.is_flushed err.new)) }
{
    let machine = &site.machine;
    let reports = Reports {
        root: root_of(site.dir),
        dir: site.dir,
        skipped: machine.skipped.as_slice(),
        unplanned: machine.unplanned.as_slice(),
        lacks_cron_daemon: machine.lacks_cron_daemon,
        is_zone_unknown: site.is_zone_unknown,
    };
    write_reports(&reports, err)
}

// Prints the answer after what is reported, and returns the exit status.
fn show_rest<O: Stream, E: Stream>(
    site: &Site<'_>,
    printout: Printout,
    out: &mut O,
    err: &mut E,
) -> u8
    ensures answers { ShowsRest (rest_of site.now.dir.now site.now.machine printout) result
        (record { takes_all = O.takes_all; old = O.holds out.old; new = O.holds out.new })
        (record { takes_all = E.takes_all; old = E.holds err.old; new = E.holds err.new }) }
    ensures out_flushed { result ≡ 0 → IsTrue (O.is_flushed out.new) }
    ensures err_flushed { E.takes_all ≡ true → IsTrue (E.is_flushed err.old) → IsTrue (E.is_flushed err.new) }
{
    match printout {
        Printout::Sources { json } => end(print_sources(site, json, out), &[], err),
        Printout::Findings { paths, found, json } => {
            let done = print_findings(site, paths.as_slice(), found.as_slice(), json, out);
            end(done, &[], err)
        }
        Printout::Jobs(outcome, remark) => {
            let status = report(outcome, &[], out, err);
            say(&remark, status, err)
        }
        Printout::Stopped(skipped, is_clear) => report_first(&skipped, is_clear, err),
    }
}

// Writes what is said about an answer after the answer, which ended with this exit status, and returns the exit status. If
// the answer failed, nothing is said.
fn say<S: Stream>(remark: &Option<Text>, status: u8, err: &mut S) -> u8
    ensures says { Says remark.now status result
        (record { takes_all = S.takes_all; old = S.holds err.old; new = S.holds err.new }) }
    ensures failed { result ≡ 0 → status ≡ 0 }
    ensures flushed { S.takes_all ≡ true → IsTrue (S.is_flushed err.old) → IsTrue (S.is_flushed err.new) }
{
    match remark {
        Some(line) if status != FAILED => match put_text(line.as_str(), err) {
            Ok(()) => status,
            Err(_) => FAILED,
        },
        _ => status,
    }
}

// Writes a text.
fn put_text<S: Stream>(text: &str, out: &mut S) -> Result<(), WriteFault>
    ensures text { Puts S.takes_all result (S.holds out.old) (S.holds out.new) text.now }
    ensures flushed { OnOk result (IsTrue (S.is_flushed out.new)) }
{
    let mut lines = TextWriter::new(out);
    lines.put(text.as_bytes());
    lines.finish()
}

// Reports the first error, which stops the answer, and returns the exit status.
fn report_first<S: Stream>(skipped: &Skipped, is_clear: bool, err: &mut S) -> u8
    ensures answers { ReportsFirst skipped.now.paths skipped.now.errors.items is_clear result
        (record { takes_all = S.takes_all; old = S.holds err.old; new = S.holds err.new }) }
    ensures failed { result ≢ 0 }
    ensures flushed { S.takes_all ≡ true → IsTrue (S.is_flushed err.old) → IsTrue (S.is_flushed err.new) }
{
    let first = match skipped.errors.first() {
        Some(error) => slice::from_ref(error),
        None => &[],
    };
    match write_skipped(&[], skipped.paths.as_slice(), first, err) {
        Ok(()) => stopped_status(is_clear),
        Err(_) => FAILED,
    }
}

// Returns the exit status of an answer that the first error stopped: whether a span is clear isn't known then.
fn stopped_status(is_clear: bool) -> u8
    ensures { result ≡ stopped_status is_clear }
{
    if is_clear { UNKNOWN } else { REJECTED }
}

// Prints the sources of a machine, and returns the exit status.
fn print_sources<S: Stream>(site: &Site<'_>, json: bool, out: &mut S) -> Result<u8, Failure>
    ensures ends { HoldsAfter S.takes_all
        (Ok (record { text = sources_text json (root_of site.now.dir.now) site.now.machine.sources.items; status = machine_status site.now.machine true }))
        result (S.holds out.old) (S.holds out.new) }
    ensures flushed { OnOk result (IsTrue (S.is_flushed out.new)) }
{
    let sources = site.machine.sources.as_slice();
    match write_sources(root_of(site.dir), sources, json, out) {
        Ok(()) => Ok(status_of(&site.machine, true)),
        Err(fault) => Err(Failure::Run(RunFault::Device(fault))),
    }
}

// Prints what is wrong with the sources of a machine, and returns the exit status.
fn print_findings<S: Stream>(
    site: &Site<'_>,
    paths: &[SourcePath],
    found: &[Found],
    json: bool,
    out: &mut S,
) -> Result<u8, Failure>
    ensures ends { HoldsAfter S.takes_all
        (Ok (record { text = check_text json paths.now found.now; status = machine_status site.now.machine (is_all_clean found.now) }))
        result (S.holds out.old) (S.holds out.new) }
    ensures flushed { OnOk result (IsTrue (S.is_flushed out.new)) }
{
    match write_findings(paths, found, json, out) {
        Ok(()) => Ok(status_of(&site.machine, are_warnings(found))),
        Err(fault) => Err(Failure::Run(RunFault::Device(fault))),
    }
}

/// Returns the exit status of an answer.
pub(crate) fn status_of(machine: &Machine, is_clean: bool) -> u8
    ensures { result ≡ machine_status machine.now is_clean }
{
    if is_clean && !is_incomplete(machine.skipped.as_slice()) {
        DONE
    } else {
        REJECTED
    }
}
