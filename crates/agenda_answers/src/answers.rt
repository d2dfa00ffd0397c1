//! Does what the arguments request, over any files and streams.

ghost use Rattle.std.specs.Prelude.{◌≡◌, ◌≢◌, IsOk, IsTrue, Ok, OnOk, map, string_bytes, true};
ghost use Rattle.agenda_answers.specs.Answer.{Exits, Leaves, SaysNotUtf8, check_ends, next_ends, status_after, status_on, steps_ends, usage_ends};
ghost use Rattle.agenda_answers.specs.Host.{host_of};
ghost use Rattle.agenda_answers.specs.Program.{Answers, AnswersArguments, AnswersAsk, AnswersRequest};

use crate::changes::answer_changes;
use crate::describe::{answer_descriptions, describe};
use crate::formats::{UTC, make_format};
use crate::host::Host;
use crate::jobs::answer_jobs;
use crate::machine::answer_machine;
use crate::machine_describe::answer_machine_describe;
use crate::machine_next::answer_machine_next;
use crate::requests::{Request, StartsRequest, request_of};
use agenda_arguments::{Ask, UsageFault, ZonesRequest, read_words};
use agenda_commands::{Checked, run_check, run_explain, run_next, run_script};
use agenda_faults::status::{DONE, REJECTED};
use agenda_faults::{Failure, RunFault, fault_line};
use agenda_inputs::{Files, read_input, read_path, read_rule_zones};
use agenda_policy::Policy;
use agenda_sources::{SourcePath, SourcePaths};
use plan_rules::Text;
use plan_streams::Stream;
use plan_tree::Complete;
use std::alloc::Global;
use std::io::ErrorKind;
use std::sync::Wait;
use std::thread::Threads;

// The text of usage if an argument isn't UTF-8.
const NOT_UTF8: &str = "a word of the command line is not UTF-8\n";

/// Does what the arguments of the command line request, and returns the exit status of the program. The first
/// of `words` is the name of the program.
///
/// The status is 0 after success and after help; 1 if the input or a count is rejected, or if `check` finds
/// an error; 2 if the arguments are invalid; 3 if an allocation, a device or a file failed.
///
/// The answer goes to `out`. The line of an error, or the text of usage, goes to `err`. What is asked about a machine is answered
/// by its files and directories in `host`, and by the time there.
pub fn answer_arguments<R: Threads + Wait + Sync, F: Files, T: Complete, O: Stream, E: Stream>(
    rt: &R,
    alloc: Global,
    words: &[String],
    files: &mut F,
    host: &Host<'_, T>,
    out: &mut O,
    err: &mut E,
) -> u8
    ensures answers { AnswersArguments (F.held files.old) (host_of T.is_known (T.held host.now.tree.now) host.now.time host.now.frame)
        (map string_bytes words.now) result
        (record { takes_all = O.takes_all; old = O.holds out.old; new = O.holds out.new })
        (record { takes_all = E.takes_all; old = E.holds err.old; new = E.holds err.new }) }
    ensures out_flushed { result ≡ 0 → IsTrue (O.is_flushed out.new) }
    ensures err_flushed { E.takes_all ≡ true → IsTrue (E.is_flushed err.old) → IsTrue (E.is_flushed err.new) }
{
    answer(rt, alloc, read_words(alloc, words), files, host, out, err)
}

/// Does what is requested, like `answer_arguments`.
pub fn answer<R: Threads + Wait + Sync, F: Files, T: Complete, O: Stream, E: Stream>(
    rt: &R,
    alloc: Global,
    asked: Result<Ask, UsageFault>,
    files: &mut F,
    host: &Host<'_, T>,
    out: &mut O,
    err: &mut E,
) -> u8
    ensures answers { Answers (F.held files.old) (host_of T.is_known (T.held host.now.tree.now) host.now.time host.now.frame) asked result
        (record { takes_all = O.takes_all; old = O.holds out.old; new = O.holds out.new })
        (record { takes_all = E.takes_all; old = E.holds err.old; new = E.holds err.new }) }
    ensures out_flushed { result ≡ 0 → IsTrue (O.is_flushed out.new) }
    ensures err_flushed { E.takes_all ≡ true → IsTrue (E.is_flushed err.old) → IsTrue (E.is_flushed err.new) }
{
    match asked {
        Ok(ask) => answer_ask(rt, alloc, ask, files, host, out, err),
        Err(fault) => end(decline(fault, out), &[], err),
    }
}

// Does what is requested, unless a timestamp is rejected.
fn answer_ask<R: Threads + Wait + Sync, F: Files, T: Complete, O: Stream, E: Stream>(
    rt: &R,
    alloc: Global,
    ask: Ask,
    files: &mut F,
    host: &Host<'_, T>,
    out: &mut O,
    err: &mut E,
) -> u8
    ensures answers { AnswersAsk (F.held files.old) (host_of T.is_known (T.held host.now.tree.now) host.now.time host.now.frame) ask result
        (record { takes_all = O.takes_all; old = O.holds out.old; new = O.holds out.new })
        (record { takes_all = E.takes_all; old = E.holds err.old; new = E.holds err.new }) }
    ensures out_flushed { result ≡ 0 → IsTrue (O.is_flushed out.new) }
    ensures err_flushed { E.takes_all ≡ true → IsTrue (E.is_flushed err.old) → IsTrue (E.is_flushed err.new) }
{
    match request_of(ask) {
        Ok(request) => answer_request(rt, alloc, &request, files, host, out, err),
        Err(failure) => end(Err(failure), &[], err),
    }
}

// Does what is requested.
fn answer_request<R: Threads + Wait + Sync, F: Files, T: Complete, O: Stream, E: Stream>(
    rt: &R,
    alloc: Global,
    request: &Request,
    files: &mut F,
    host: &Host<'_, T>,
    out: &mut O,
    err: &mut E,
) -> u8
    ensures answers { AnswersRequest (F.held files.old) (host_of T.is_known (T.held host.now.tree.now) host.now.time host.now.frame) request.now result
        (record { takes_all = O.takes_all; old = O.holds out.old; new = O.holds out.new })
        (record { takes_all = E.takes_all; old = E.holds err.old; new = E.holds err.new }) }
    ensures out_flushed { result ≡ 0 → IsTrue (O.is_flushed out.new) }
    ensures err_flushed { E.takes_all ≡ true → IsTrue (E.is_flushed err.old) → IsTrue (E.is_flushed err.new) }
{
    match request {
        Request::Starts(starts) => end(next(alloc, starts, files, out), &[], err),
        Request::Jobs { goal, jobs } => answer_jobs(rt, alloc, goal, jobs, files, out, err),
        Request::Changes(changes) => answer_changes(rt, alloc, changes, files, out, err),
        Request::Check {
            zones,
            sources,
            policy,
            json,
        } => {
            let done = check(alloc, zones, sources, policy, *json, files, out);
            end(done, sources.as_slice(), err)
        }
        Request::Describe { rule, zones, json } => {
            end(describe(alloc, rule, zones, *json, files, out), &[], err)
        }
        Request::DescribeJobs(jobs) => answer_descriptions(alloc, jobs, files, out, err),
        Request::Steps { file } => end(steps(alloc, file, files, out), &[], err),
        Request::Explain(code) => end(status_after(run_explain(*code, out)), &[], err),
        Request::Machine(machine) => answer_machine(rt, alloc, machine, files, host, out, err),
        Request::MachineNext(next) => answer_machine_next(alloc, next, files, host, out, err),
        Request::MachineDescribe { rule, json } => {
            answer_machine_describe(alloc, rule, *json, files, host, out, err)
        }
    }
}

/// Returns the error for arguments that could not be read: a usage error if one isn't UTF-8, and out of
/// memory for any other `kind`.
pub fn unread_arguments(alloc: Global, kind: ErrorKind) -> UsageFault
    ensures not_utf8 { kind ≡ ErrorKind.InvalidData → SaysNotUtf8 result }
    ensures memory { kind ≢ ErrorKind.InvalidData → result ≡ UsageFault.NoMemory }
{
    if kind != ErrorKind::InvalidData {
        return UsageFault::NoMemory;
    }
    match String::from_str(alloc, NOT_UTF8) {
        Ok(text) => UsageFault::Usage(Text::new(text)),
        Err(_) => UsageFault::NoMemory,
    }
}

// Returns the exit status after a request, and writes the line of its error. `sources` are the paths of the
// sources that it names.
pub(crate) fn end<S: Stream>(done: Result<u8, Failure>, sources: &[SourcePath], err: &mut S) -> u8
    ensures exits { Exits sources.now done result
        (record { takes_all = S.takes_all; old = S.holds err.old; new = S.holds err.new }) }
    ensures succeeded { result ≡ 0 → IsOk done }
    ensures flushed { S.takes_all ≡ true → IsTrue (S.is_flushed err.old) → IsTrue (S.is_flushed err.new) }
{
    match done {
        Ok(status) => status,
        Err(failure) => fault_line(&failure, sources, err),
    }
}

// Returns the exit status after a command that prints a text, or its failure.
pub(crate) fn status_after(run: Result<(), RunFault>) -> Result<u8, Failure>
    ensures { result ≡ status_after run }
{
    match run {
        Ok(()) => Ok(DONE),
        Err(fault) => Err(Failure::Run(fault)),
    }
}

// Prints help, or returns the failure of arguments that request no command.
fn decline<S: Stream>(fault: UsageFault, out: &mut S) -> Result<u8, Failure>
    ensures ends { Leaves S.takes_all (usage_ends fault) result (S.holds out.old) (S.holds out.new) }
    ensures flushed { OnOk result (IsTrue (S.is_flushed out.new)) }
{
    match fault {
        UsageFault::Help(text) => match out.put(text.as_str().as_bytes()) {
            Ok(()) => Ok(DONE),
            Err(fault) => Err(Failure::Run(RunFault::from(fault))),
        },
        UsageFault::Usage(text) => Err(Failure::Usage(text)),
        UsageFault::NoMemory => Err(Failure::Run(RunFault::NoMemory)),
    }
}

// Runs the command `next`.
fn next<F: Files, S: Stream>(
    alloc: Global,
    request: &StartsRequest,
    files: &mut F,
    out: &mut S,
) -> Result<u8, Failure>
    ensures ends { Leaves S.takes_all (next_ends (F.held files.old) request.now) result (S.holds out.old) (S.holds out.new) }
    ensures flushed { OnOk result (IsTrue (S.is_flushed out.new)) }
{
    let zones = read_rule_zones(alloc, files, &request.zones, &request.rule)?;
    let format = make_format(
        alloc,
        request.format,
        &request.zones.zone,
        UTC,
        &zones.clock,
    )?;
    let (after, count) = (request.after, request.count);
    status_after(run_next(alloc, &request.rule, &zones, after, count, &format, out))
}

// Runs the command `check`.
fn check<F: Files, S: Stream>(
    alloc: Global,
    zones: &ZonesRequest,
    paths: &SourcePaths,
    policy: &Policy,
    json: bool,
    files: &mut F,
    out: &mut S,
) -> Result<u8, Failure>
    ensures ends { Leaves S.takes_all (check_ends (F.held files.old) zones.now paths.now policy.now json) result (S.holds out.old) (S.holds out.new) }
    ensures flushed { OnOk result (IsTrue (S.is_flushed out.new)) }
{
    let (tried, zones) = read_input(alloc, files, zones, paths, false)?;
    let checked = run_check(
        alloc,
        paths.as_slice(),
        &tried.sources,
        &zones,
        policy,
        json,
        out,
    )?;
    Ok(status_on(checked))
}

// Returns the exit status of `check`.
fn status_on(checked: Checked) -> u8
    ensures { result ≡ status_on checked }
{
    match checked {
        Checked::WithoutErrors => DONE,
        Checked::WithErrors => REJECTED,
    }
}

// Runs the command `steps`.
fn steps<F: Files, S: Stream>(
    alloc: Global,
    file: &Text,
    files: &mut F,
    out: &mut S,
) -> Result<u8, Failure>
    ensures ends { Leaves S.takes_all (steps_ends (F.held files.old) file.now) result (S.holds out.old) (S.holds out.new) }
    ensures flushed { OnOk result (IsTrue (S.is_flushed out.new)) }
{
    let script = read_path(alloc, files, file.as_str())?;
    status_after(run_script(alloc, script.as_slice(), out))
}
