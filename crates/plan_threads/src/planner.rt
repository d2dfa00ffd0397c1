//! A planner, which sends the pieces of its jobs.

ghost use Rattle.std.specs.Prelude.{◌≡◌, ◌<◌, ◌≤◌, List, ◌++◌, [], map, false, OnOk, OnErr, IfOk};
ghost use Rattle.plan_collect.specs.declared.note.Note.{Note};
ghost use Rattle.plan_collect.specs.Tiling.{pieces};
ghost use Rattle.plan_collect.specs.Windows.{first_second};
ghost use Rattle.plan_mailbox.specs.Ends.{outlet_of, receipt_of};
ghost use Rattle.plan_mailbox.specs.History.{IsPrefix};
ghost use Rattle.plan_threads.specs.Sending.{after_send, cut_rest};
ghost use Rattle.plan_threads.specs.Task.{all_notes, parts_of};

use crate::gate::Gate;
use crate::pause::Pause;
use crate::task::Task;
use plan_collect::{Note, PIECE_STARTS, first_second};
use plan_mailbox::{Outlet, Receipt};
use plan_next::{NoMemory, next_piece};
use plan_rules::{Job, Jobs};
use std::alloc::Global;
use std::sync::Wait;

/// Sends the messages of the outlet's planner, and closes the outlet.
///
/// Job j is sent by planner j mod the number of planners. For each of its jobs, in ascending order, the
/// planner sends at least one piece, each with at most 1,024 starts. The pieces follow each other without a
/// gap, from the job's `first_second` to the end of the span. Then the planner sends its last message. After
/// a piece with which more starts were sent than the limit, it sends nothing more.
///
/// The receipt accounts for what was sent. The returned flag is true if an allocation failed, which ends the
/// sending early. The planner arrives at the gate before it sends. While the outlet is full, it tries again,
/// so it may wait for the receiver.
pub fn run_planner<R: Wait, G: Gate>(
    rt: &R,
    alloc: Global,
    jobs: &Jobs,
    task: &Task,
    gate: &G,
    outlet: Outlet<Note>,
) -> (Receipt<Note>, bool)
    requires planner { (outlet_of outlet).sender < task.now.sizes.planners }
    requires fresh { (outlet_of outlet).sent ≡ [] }
    ensures sender { (receipt_of result.0).sender ≡ (outlet_of outlet).sender }
    ensures ring { (receipt_of result.0).ring ≡ (outlet_of outlet).ring }
    ensures prefix { IsPrefix (receipt_of result.0).sent (all_notes (parts_of jobs.now task.now) (outlet_of outlet).sender) }
    ensures all { result.1 ≡ false → (receipt_of result.0).sent ≡ all_notes (parts_of jobs.now task.now) (outlet_of outlet).sender }
{
    gate.arrive(outlet.sender());
    let mut outlet = outlet;
    let is_out_of_memory = match send_notes(rt, alloc, jobs, task, &mut outlet) {
        Ok(()) => false,
        Err(NoMemory) => true,
    };
    (outlet.close(), is_out_of_memory)
}

// Sends all messages of the outlet's planner.
fn send_notes<R: Wait>(
    rt: &R,
    alloc: Global,
    jobs: &Jobs,
    task: &Task,
    outlet: &mut Outlet<Note>,
) -> Result<(), NoMemory>
    requires fresh { (outlet_of outlet.old).sent ≡ [] }
    ensures sender { (outlet_of outlet.new).sender ≡ (outlet_of outlet.old).sender }
    ensures ring { (outlet_of outlet.new).ring ≡ (outlet_of outlet.old).ring }
    ensures all { OnOk result ((outlet_of outlet.new).sent ≡ all_notes (parts_of jobs.now task.now) (outlet_of outlet.old).sender) }
    ensures prefix { OnErr result (IsPrefix (outlet_of outlet.new).sent
        (all_notes (parts_of jobs.now task.now) (outlet_of outlet.old).sender)) }
{
    let planner = outlet.sender();
    let mut count = 0;
    for number in 0..jobs.len() {
        if number % task.sizes.planners != planner {
            continue;
        }
        if let Some(job) = jobs.get(number) {
            count = send_job(rt, alloc, task, number as u32, job, count, outlet)?;
        }
        if count > task.sizes.limit {
            return Ok(());
        }
    }
    send(rt, outlet, Note::Last);
    Ok(())
}

// Sends the pieces of a job, after `count` starts were sent before. Stops after a piece with which more starts
// were sent than the limit. Returns how many were sent by then.
fn send_job<R: Wait>(
    rt: &R,
    alloc: Global,
    task: &Task,
    number: u32,
    job: &Job,
    count: u64,
    outlet: &mut Outlet<Note>,
) -> Result<u64, NoMemory>
    requires few { count ≤ task.now.sizes.limit }
    ensures sender { (outlet_of outlet.new).sender ≡ (outlet_of outlet.old).sender }
    ensures ring { (outlet_of outlet.new).ring ≡ (outlet_of outlet.old).ring }

    // For any messages that come after the job's.
    ensures all { let span = task.now.span in IfOk result (λ reached. (rest : List Note) →
        (outlet_of outlet.old).sent ++ cut_rest task.now.sizes.limit count
        (map (Note.Part number) (pieces job.now.rule (first_second span job.now.delay) span.upto) ++ rest)
        ≡ (outlet_of outlet.new).sent ++ cut_rest task.now.sizes.limit reached rest) }
    ensures prefix { let span = task.now.span in OnErr result ((rest : List Note) → IsPrefix (outlet_of outlet.new).sent
        ((outlet_of outlet.old).sent ++ cut_rest task.now.sizes.limit count
        (map (Note.Part number) (pieces job.now.rule (first_second span job.now.delay) span.upto) ++ rest))) }
{
    let upto = task.span.upto();
    let mut since = first_second(task.span, job.delay());
    let mut reached = count;
    loop {
        let piece = next_piece(alloc, job.rule(), since, upto, PIECE_STARTS)?;
        since = piece.upto();
        reached += piece.starts().len() as u64;
        send(rt, outlet, Note::Part(number, piece));
        if reached > task.sizes.limit || since >= upto {
            return Ok(reached);
        }
    }
}

// Sends the message. While the outlet is full, backs off and tries again.
fn send<R: Wait>(rt: &R, outlet: &mut Outlet<Note>, note: Note)
    ensures { outlet_of outlet.new ≡ after_send (outlet_of outlet.old) note }
{
    let mut pause = Pause::new();
    let mut note = note;
    for _ in rt.forever() {
        match outlet.try_send(note) {
            Ok(()) => return,
            Err(back) => note = back,
        }
        pause.step_back(rt);
    }
}
