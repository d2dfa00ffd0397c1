//! Tests of `run_planner`: the messages that a planner sends, and when it arrives at the gate.

ghost use Rattle.std.specs.Prelude.{◌≡◌, ◌<◌, []};
ghost use Rattle.plan_mailbox.specs.Ends.{outlet_of};

use crate::collector::user_jobs;
use crate::ends::ends_of_one;
use plan_collect::{Note, Sizes, Span};
use plan_mailbox::{Inlet, Receipt};
use plan_threads::{Gate, Task, run_planner};
use std::process::Abort;
use std::sync::atomic::AtomicBool;
use std::sync::atomic::Ordering::SeqCst;
use std::test::Fail;
use std::thread;

// A gate that knows whether a planner has arrived.
#[derive(Drop)]
struct Arrival(AtomicBool);

impl Gate for Arrival {
    fn arrive(&self, _planner: usize) {
        self.0.store(true, SeqCst);
    }
}

// Returns whether this is the message with this number: a piece of two minutes of each of two jobs, and then the
// last message.
fn is_message(note: &Note, number: u32) -> bool {
    match note {
        Note::Part(job, piece) => {
            number < 2 && *job == number && piece.since() == 0 && piece.upto() == 120
        }
        Note::Last => number == 2,
    }
}

// Waits for a while for a message, and checks that it is the one with this number, of sender 0.
fn assert_sent(rt: &impl Abort, inlet: &mut Inlet<Note>, number: u32) {
    for _ in 0..10_000_000 {
        if let Some((sender, note)) = inlet.try_take() {
            assert!(rt;
                sender == 0 && is_message(&note, number),
                "message {number}"
            );
            return;
        }
        thread::yield_now();
    }
    panic!(rt; "no message {number}");
}

// Waits for a while until a planner arrives. Takes three messages only after that.
fn take_three(rt: &impl Abort, gate: &Arrival, inlet: &mut Inlet<Note>) {
    for _ in 0..10_000_000 {
        if gate.0.load(SeqCst) {
            break;
        }
        thread::yield_now();
    }
    assert!(rt; gate.0.load(SeqCst), "no planner arrived");
    for number in 0..3 {
        assert_sent(rt, inlet, number);
    }
}

// With a capacity of one message, a planner can't send its three messages before it arrives.
#[test]
fn a_planner_arrives_before_it_sends_pieces_and_its_last_note(rt: HostRuntime) -> Result<(), Fail> {
    let sizes = Sizes {
        planners: 1,
        room: 1,
        limit: 2,
    };
    let task = Task::new(Span::new(0, 120)?, sizes)?;
    let jobs = user_jobs(rt.alloc(), "@daily a\n@daily b\n").expect(&rt, "jobs");
    let (outlet, mut inlet) = ends_of_one(rt.alloc(), 1)?;
    let (gate, rt) = (&Arrival(AtomicBool::new(false)), &rt);
    let ((_, is_out_of_memory), ()) = thread::join(
        rt,
        || -> (Receipt<Note>, bool)
            requires planner { (outlet_of outlet).sender < task.sizes.planners }
            requires fresh { (outlet_of outlet).sent ≡ [] }
        { run_planner(rt, rt.alloc(), &jobs, &task, gate, outlet) },
        || take_three(rt, gate, &mut inlet),
    );
    assert!(rt; !is_out_of_memory && inlet.try_take().is_none());
    Ok(())
}
