//! Answers a question for the next starts of a rule by the clock of the machine that the program runs on.

ghost use Rattle.std.specs.Prelude.{◌≡◌, ◌≢◌, [], Err, IsTrue, true};
ghost use Rattle.agenda_answers.specs.Host.{host_of};
ghost use Rattle.agenda_answers.specs.MachineNext.{AnswersNext, ExitsInWords, ShowsStarts, starts_at};

use crate::answers::end;
use crate::formats::{FormRequest, make_form, unnamed_zone};
use crate::host::Host;
use crate::machine_goal::{after_at, number_in};
use agenda_arguments::{MachineNext, ZonesRequest};
use agenda_commands::{Form, origin_at, run_next_form};
use agenda_faults::status::{DONE, FAILED, REJECTED};
use agenda_faults::{Failure, NumberOption, RunFault};
use agenda_findings::rule_fault_line;
use agenda_inputs::{Files, MachineFiles, machine_clock, zones_of_rule};
use agenda_machine::{Reports, write_reports};
use agenda_sources::{Asked, TimeZones};
use plan_streams::Stream;
use plan_tree::{Rooted, Tree};
use std::alloc::Global;

// What the starts of a rule are listed by.
#[derive(Drop)]
struct NextStarts {
    // The time zones of the rule.
    zones: TimeZones,
    // The starts are later than this, in seconds since 1970-01-01T00:00:00Z.
    after: u64,
    // How they are written.
    form: Form,
    // Whether the zone of the machine is unknown.
    is_zone_unknown: bool,
}

/// Answers a question for the next starts of a rule, and returns the exit status.
///
/// The status is 1 if the zone, the time, the number of starts or the rule is rejected, and 0 otherwise. If standard error
/// fails before the answer, it is 3, and nothing is written to standard output.
pub(crate) fn answer_machine_next<F: Files, T: Tree, O: Stream, E: Stream>(
    alloc: Global,
    request: &MachineNext,
    files: &mut F,
    host: &Host<'_, T>,
    out: &mut O,
    err: &mut E,
) -> u8
    ensures answers { AnswersNext (F.held files.old) (host_of T.is_known (T.held host.now.tree.now) host.now.time host.now.frame) request.now result
        (record { takes_all = O.takes_all; old = O.holds out.old; new = O.holds out.new })
        (record { takes_all = E.takes_all; old = E.holds err.old; new = E.holds err.new }) }
    ensures out_flushed { result ≡ 0 → IsTrue (O.is_flushed out.new) }
    ensures err_flushed { E.takes_all ≡ true → IsTrue (E.is_flushed err.old) → IsTrue (E.is_flushed err.new) }
{
    let below = Rooted::new(host.tree, "");
    let host = Host {
        tree: &below,
        time: host.time,
        frame: host.frame,
    };
    match starts_at(alloc, request, files, &host) {
        Ok(starts) => show_starts(alloc, request, &starts, out, err),
        Err(failure) => end(Err(failure), &[], err),
    }
}

// Reads the zones, the time and the number of starts of a question about a machine with this tree.
fn starts_at<F: Files, T: Tree>(
    alloc: Global,
    request: &MachineNext,
    files: &mut F,
    host: &Host<'_, T>,
) -> Result<NextStarts, Failure>
    ensures { starts_at (F.held files.old) (host_of T.is_known (T.held host.now.tree.now) host.now.time host.now.frame) request.now result }
{
    let clock = machine_clock(alloc, files, host.tree, &request.zone)?;
    let after = after_at(alloc, host.time, &clock.clock, &request.after)?;
    number_in(NumberOption::Count, u64::from(request.count))?;
    let unnamed = unnamed_zone(clock.is_of_file);
    let zone = ZonesRequest {
        zone: clock.name,
        event_zones: true,
    };
    let mut files = MachineFiles {
        tree: host.tree,
        running: files,
    };
    let zones = zones_of_rule(alloc, &mut files, &zone, clock.clock, &request.rule)?;
    let origin = origin_at(after, host.time);
    let form = FormRequest {
        format: request.format,
        table: request.table,
    };
    let form = make_form(
        alloc,
        form,
        origin,
        host.frame,
        &zone.zone,
        unnamed,
        &zones.clock,
    )?;
    Ok(NextStarts {
        zones,
        after,
        form,
        is_zone_unknown: clock.is_unknown,
    })
}

// Reports that the zone is unknown, if it is, then lists the starts, and returns the exit status.
fn show_starts<O: Stream, E: Stream>(
    alloc: Global,
    request: &MachineNext,
    starts: &NextStarts,
    out: &mut O,
    err: &mut E,
) -> u8
    ensures answers { ShowsStarts request.now starts.now result
        (record { takes_all = O.takes_all; old = O.holds out.old; new = O.holds out.new })
        (record { takes_all = E.takes_all; old = E.holds err.old; new = E.holds err.new }) }
    ensures out_flushed { result ≡ 0 → IsTrue (O.is_flushed out.new) }
    ensures err_flushed { E.takes_all ≡ true → IsTrue (E.is_flushed err.old) → IsTrue (E.is_flushed err.new) }
{
    let reports = Reports {
        root: "",
        dir: "/",
        skipped: &[],
        unplanned: &[],
        lacks_cron_daemon: false,
        is_zone_unknown: starts.is_zone_unknown,
    };
    if write_reports(&reports, err).is_err() {
        return FAILED;
    }
    let (rule, count) = (&request.rule, u64::from(request.count));
    match run_next_form(
        alloc,
        rule,
        &starts.zones,
        starts.after,
        count,
        &starts.form,
        out,
    ) {
        Ok(()) => DONE,
        Err(fault) => report_fault(fault, rule, err),
    }
}

// Reports an error, and returns the exit status. That of the rule is reported in words.
pub(crate) fn report_fault<S: Stream>(fault: RunFault, rule: &Asked, err: &mut S) -> u8
    ensures exits { ExitsInWords rule.now (Err fault) result
        (record { takes_all = S.takes_all; old = S.holds err.old; new = S.holds err.new }) }
    ensures failed { result ≢ 0 }
    ensures flushed { S.takes_all ≡ true → IsTrue (S.is_flushed err.old) → IsTrue (S.is_flushed err.new) }
{
    match fault {
        RunFault::Rule(fault) => {
            rule_fault_line(rule, fault, err);
            REJECTED
        }
        fault => end(Err(Failure::Run(fault)), &[], err),
    }
}
