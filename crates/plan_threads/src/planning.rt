//! A plan by several planners, each in its own thread.

ghost use Rattle.std.specs.Prelude.{◌≡◌, ◌<◌, false, [], length, All, IfOk, IfErr, vec_len};
ghost use Rattle.plan_collect.specs.Agenda.{IsOfJobs};
ghost use Rattle.plan_collect.specs.Planning.{Gives, plan_answer, valid_sizes};
ghost use Rattle.plan_collect.specs.Windows.{timings_of};
ghost use Rattle.plan_mailbox.specs.Ends.{free_of, inlet_of, outlet_of, receipt_of};
ghost use Rattle.plan_threads.specs.Gathering.{AreFresh, IsGathering};
ghost use Rattle.plan_threads.specs.Task.{all_notes, answer_of, parts_of};

use crate::desk::Desk;
use crate::gate::Gate;
use crate::planner::run_planner;
use crate::promise::PlannerPromise;
use crate::task::Task;
use plan_collect::{Agenda, Collector, MOST_PLANNERS, Note, PlanFault, Sizes, Span};
use plan_mailbox::{Outlet, Receipt, Rings};
use plan_rules::Jobs;
use std::alloc::Global;
use std::snapshot::Snapshot;
use std::sync::Wait;
use std::sync::atomic::AtomicBool;
use std::sync::atomic::Ordering::SeqCst;
use std::thread;
use std::thread::Threads;

/// Makes the agenda of jobs over a span. A start before the span is an entry too, if its job's delay lasts
/// into the span.
///
/// Each planner works in its own thread, with a capacity of `sizes.room` messages. The calling thread collects
/// the messages, and waits for the planners.
///
/// # Errors
///
/// The first that applies: `BadSize` if the number of planners or the capacity is out of its range;
/// `BadLimit` if the limit is out of its range; `NoMemory` if an allocation failed or a thread could not be
/// started; `Collect(TooMany)` if the agenda has more entries than the limit. `NotSettled` never comes.
pub fn plan<R: Threads + Wait + Sync, G: Gate>(
    rt: &R,
    alloc: Global,
    jobs: &Jobs,
    span: Span,
    sizes: Sizes,
    gate: &G,
) -> Result<Agenda, PlanFault>
    ensures planned { Gives result (plan_answer (timings_of jobs.now) span sizes) }

    // These errors are found before any memory is requested.
    ensures at_once { IfErr (valid_sizes sizes) (λ fault. result ≡ Err fault) }
    ensures jobs { IfOk result (λ made. IsOfJobs (length jobs.now) made.entries) }
{
    let task = Task::new(span, sizes)?;
    let (outlets, desk) = set_up(alloc, jobs, &task)?;
    run_threads(rt, alloc, jobs, &task, gate, outlets, desk)
}

// Runs the planners of these outlets, each in its own thread, and collects their messages at the desk.
fn run_threads<R: Threads + Wait + Sync, G: Gate>(
    rt: &R,
    alloc: Global,
    jobs: &Jobs,
    task: &Task,
    gate: &G,
    outlets: Vec<Outlet<Note>>,
    desk: Desk,
) -> Result<Agenda, PlanFault>
    requires outlets { AreFresh (inlet_of desk.inlet).rings 0 outlets.items }
    requires as_many { vec_len outlets ≡ task.now.sizes.planners }
    requires gathers { IsGathering (parts_of jobs.now task.now) desk }
    ensures { Gives result (answer_of (parts_of jobs.now task.now)) }
{
    let flags = new_flags();
    let flags = &flags;
    thread::scope(
        thread::scope_env(),
        rt,
        move |scope| -> Result<Agenda, PlanFault>
            requires outlets { AreFresh (inlet_of desk.inlet).rings 0 outlets.items }
            requires as_many { vec_len outlets ≡ task.now.sizes.planners }
            requires gathers { IsGathering (parts_of jobs.now task.now) desk }
            ensures { Gives result (answer_of (parts_of jobs.entry.now task.entry.now)) }
        {
            let Ok(mut threads) = Vec::with_capacity(alloc, task.sizes.planners) else {
                return Err(PlanFault::NoMemory);
            };
            for outlet in outlets {
                let flag = &flags[threads.len()];
                let promise = PlannerPromise {
                    outlet: Snapshot::of(&outlet),
                    jobs: Snapshot::of(jobs),
                    task: Snapshot::of(task),
                };
                let work = move || -> (Receipt<Note>, bool)
                    requires planner { (outlet_of outlet).sender < task.now.sizes.planners }
                    requires fresh { (outlet_of outlet).sent ≡ [] }
                    ensures sender { (receipt_of result.0).sender ≡ (outlet_of outlet).sender }
                    ensures ring { (receipt_of result.0).ring ≡ (outlet_of outlet).ring }
                    ensures all { result.1 ≡ false → (receipt_of result.0).sent
                        ≡ all_notes (parts_of jobs.entry.now task.entry.now) (outlet_of outlet).sender }
                { send_all(rt, alloc, jobs, task, gate, outlet, flag) };
                match scope.spawn_with(promise, work) {
                    Ok(thread) => threads.push_reserved(thread),
                    Err(_) => break,
                }
            }
            let started = threads.len();
            desk.collect(rt, &flags[..started], threads, task.sizes.planners)
        },
    )
}

// Makes the outlets of the planners, each with its whole capacity free, and a desk at which nothing has arrived.
fn set_up(alloc: Global, jobs: &Jobs, task: &Task) -> Result<(Vec<Outlet<Note>>, Desk), PlanFault>
    ensures outlets { IfOk result (λ made. AreFresh (inlet_of made.1.inlet).rings 0 made.0.items) }
    ensures as_many { IfOk result (λ made. vec_len made.0 ≡ task.now.sizes.planners) }
    ensures room { IfOk result (λ made. All (λ outlet. free_of outlet ≡ task.now.sizes.room) made.0.items) }
    ensures gathers { IfOk result (λ made. IsGathering (parts_of jobs.now task.now) made.1) }
    ensures memory { IfErr result (λ fault. fault ≡ PlanFault.NoMemory) }
{
    let Sizes {
        planners,
        room,
        limit,
    } = task.sizes;
    let Ok(collector) = Collector::new(alloc, jobs, task.span, planners, limit) else {
        return Err(PlanFault::NoMemory);
    };
    let Ok(rings) = Rings::new(alloc, planners, room) else {
        return Err(PlanFault::NoMemory);
    };
    let Ok((outlets, inlet)) = rings.split(alloc) else {
        return Err(PlanFault::NoMemory);
    };
    Ok((
        outlets,
        Desk {
            inlet,
            collector,
            first_fault: None,
        },
    ))
}

// Makes the end flags of the planners. None of them is raised.
fn new_flags() -> [AtomicBool; MOST_PLANNERS] {
    [
        AtomicBool::new(false),
        AtomicBool::new(false),
        AtomicBool::new(false),
        AtomicBool::new(false),
        AtomicBool::new(false),
        AtomicBool::new(false),
        AtomicBool::new(false),
        AtomicBool::new(false),
    ]
}

// Runs a planner, and then raises its end flag.
fn send_all<R: Wait, G: Gate>(
    rt: &R,
    alloc: Global,
    jobs: &Jobs,
    task: &Task,
    gate: &G,
    outlet: Outlet<Note>,
    flag: &AtomicBool,
) -> (Receipt<Note>, bool)
    requires planner { (outlet_of outlet).sender < task.now.sizes.planners }
    requires fresh { (outlet_of outlet).sent ≡ [] }
    ensures sender { (receipt_of result.0).sender ≡ (outlet_of outlet).sender }
    ensures ring { (receipt_of result.0).ring ≡ (outlet_of outlet).ring }
    ensures all { result.1 ≡ false → (receipt_of result.0).sent ≡ all_notes (parts_of jobs.now task.now) (outlet_of outlet).sender }
{
    let sent = run_planner(rt, alloc, jobs, task, gate, outlet);
    flag.store(true, SeqCst);
    sent
}
