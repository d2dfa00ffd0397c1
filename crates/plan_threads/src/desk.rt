//! The calling thread's desk: the inlet that the planners' messages come from, and the collector that they go
//! to.

ghost use Rattle.std.specs.Prelude.{◌≡◌, ◌≢◌, ◌<◌, ℕ, List, false, Some, slice_get, IsOk, OnOk, IfErr, vec_len};
ghost use Rattle.plan_collect.specs.declared.note.Note.{Note};
ghost use Rattle.plan_collect.specs.Planning.{Gives};
ghost use Rattle.plan_mailbox.specs.Ends.{inlet_of, receipt_of, NothingKnown};
ghost use Rattle.plan_threads.specs.Gathering.{ArePlanners, IsAccounted, IsGathering, IsThreadFault, IsWhole, Steps};
ghost use Rattle.plan_threads.specs.Task.{TaskParts, all_notes, answer_of, task_of};

use crate::pause::Pause;
use crate::promise::PlannerPromise;
use plan_collect::{Agenda, CollectFault, Collector, Note, PlanFault, accepts_every_merging};
use plan_mailbox::{Inlet, Receipt, takes_what_outlets_sent};
use std::sync::Wait;
use std::sync::atomic::AtomicBool;
use std::sync::atomic::Ordering::SeqCst;
use std::thread::{PromisedHandle, Threads};

/// The thread of a planner.
pub(crate) type Planner = PromisedHandle<(Receipt<Note>, bool), PlannerPromise>;

/// Where the planners' messages arrive.
#[derive(Drop)]
pub(crate) struct Desk {
    pub(crate) inlet: Inlet<Note>,
    pub(crate) collector: Collector,

    /// The first error of the collector, if it rejected a message. The messages after that one are dropped.
    pub(crate) first_fault: Option<CollectFault>,
}

impl Desk {
    /// Collects the messages of these planners, and makes the agenda of them. Each planner raises its flag
    /// when it ends.
    ///
    /// # Errors
    ///
    /// `NoMemory` if an allocation failed, or if there are fewer threads than planners; else
    /// `Collect(TooMany)` if the agenda has more entries than the limit.
    pub(crate) fn collect<R: Threads + Wait>(
        self,
        rt: &R,
        flags: &[AtomicBool],
        threads: Vec<Planner>,
        planners: usize,
    ) -> Result<Agenda, PlanFault>
        requires planners { planners ≡ (task_of self.collector).planners }
        requires gathers { IsGathering (task_of self.collector) self }
        requires threads { ArePlanners (task_of self.collector) (inlet_of self.inlet).rings 0 threads.items }
        ensures { Gives result (answer_of (task_of self.collector)) }
    {
        accepts_every_merging();
        let mut desk = self;
        let started = threads.len();
        desk.take_until(rt, flags);
        let settled = desk.settle_all(rt, threads);
        desk.take_rest(rt);
        if started < planners {
            return Err(PlanFault::NoMemory);
        }
        desk.finish(settled)
    }

    // Takes messages until all these flags are raised. Backs off while no message waits.
    fn take_until<R: Wait>(&mut self, rt: &R, flags: &[AtomicBool])
        ensures gathers { (task : TaskParts) → IsGathering task self.old → IsGathering task self.new }
        ensures rings { (inlet_of self.new.inlet).rings ≡ (inlet_of self.old.inlet).rings }
    {
        let mut pause = Pause::new();
        for _ in rt.forever() {
            if flags.iter().all(|flag| flag.load(SeqCst)) {
                return;
            }
            if self.take() {
                pause.end();
            } else {
                pause.step_back(rt);
            }
        }
    }

    // Joins the planners' threads and settles their receipts.
    //
    // `NoMemory` if an allocation of a planner failed.
    fn settle_all<R: Threads>(&mut self, rt: &R, planners: Vec<Planner>) -> Result<(), PlanFault>
        requires { ArePlanners (task_of self.old.collector) (inlet_of self.old.inlet).rings 0 planners.items }
        ensures collector { self.new.collector ≡ self.old.collector }
        ensures first_fault { self.new.first_fault ≡ self.old.first_fault }
        ensures rings { (inlet_of self.new.inlet).rings ≡ (inlet_of self.old.inlet).rings }
        ensures taken { (inlet_of self.new.inlet).taken ≡ (inlet_of self.old.inlet).taken }
        ensures accounts { OnOk result ((k : ℕ) → k < vec_len planners →
            IsAccounted (inlet_of self.new.inlet) k (all_notes (task_of self.old.collector) k)) }
        ensures fault { IfErr result IsThreadFault }
    {
        let mut settled = Ok(());
        for planner in planners {
            let (receipt, is_out_of_memory) = planner.join(rt);
            settled = settled.and(self.settle(receipt));
            if is_out_of_memory {
                settled = Err(PlanFault::NoMemory);
            }
        }
        settled
    }

    // Settles the receipt of a planner.
    fn settle(&mut self, receipt: Receipt<Note>) -> Result<(), PlanFault>
        requires { slice_get (inlet_of self.old.inlet).rings (receipt_of receipt).sender ≡ Some (receipt_of receipt).ring }
        ensures collector { self.new.collector ≡ self.old.collector }
        ensures first_fault { self.new.first_fault ≡ self.old.first_fault }
        ensures rings { (inlet_of self.new.inlet).rings ≡ (inlet_of self.old.inlet).rings }
        ensures taken { (inlet_of self.new.inlet).taken ≡ (inlet_of self.old.inlet).taken }
        ensures succeeds { IsOk result }
        ensures accounts { IsAccounted (inlet_of self.new.inlet) (receipt_of receipt).sender (receipt_of receipt).sent }
        ensures others { (s : ℕ) (sent : List Note) → s ≢ (receipt_of receipt).sender →
            IsAccounted (inlet_of self.old.inlet) s sent → IsAccounted (inlet_of self.new.inlet) s sent }
    {
        Ok(self.inlet.settle(receipt.sender(), receipt)?)
    }

    // Takes all messages that wait.
    fn take_rest<R: Wait>(&mut self, rt: &R)
        ensures gathers { (task : TaskParts) → IsGathering task self.old → IsGathering task self.new }
        ensures rings { (inlet_of self.new.inlet).rings ≡ (inlet_of self.old.inlet).rings }
        ensures accounts { (s : ℕ) (sent : List Note) →
            IsAccounted (inlet_of self.old.inlet) s sent → IsAccounted (inlet_of self.new.inlet) s sent }
        ensures none { NothingKnown (inlet_of self.new.inlet) }
    {
        for _ in rt.forever() {
            if !self.take() {
                return;
            }
        }
    }

    // Returns the agenda, or the first error. `settled` is the result of settling the receipts.
    fn finish(self, settled: Result<(), PlanFault>) -> Result<Agenda, PlanFault>
        requires fault { IfErr settled IsThreadFault }
        requires whole { OnOk settled (IsWhole self.collector self.first_fault) }
        ensures { Gives result (answer_of (task_of self.collector)) }
    {
        let first_fault = self.first_fault;
        if first_fault == Some(CollectFault::NoMemory) {
            return Err(PlanFault::NoMemory);
        }
        settled?;
        match first_fault {
            Some(fault) => Err(PlanFault::Collect(fault)),
            None => Ok(self.collector.finish()?),
        }
    }

    // Takes a message, and returns whether there was one.
    fn take(&mut self) -> bool
        ensures gathers { (task : TaskParts) → IsGathering task self.old → IsGathering task self.new }
        ensures rings { (inlet_of self.new.inlet).rings ≡ (inlet_of self.old.inlet).rings }
        ensures accounts { (s : ℕ) (sent : List Note) →
            IsAccounted (inlet_of self.old.inlet) s sent → IsAccounted (inlet_of self.new.inlet) s sent }
        ensures none { result ≡ false → NothingKnown (inlet_of self.new.inlet) }
    {
        takes_what_outlets_sent::<Note>();
        let Some((planner, note)) = self.inlet.try_take() else {
            return false;
        };
        self.accept(planner, note);
        true
    }

    // Gives the message to the collector, unless that rejected one before.
    fn accept(&mut self, planner: usize, note: Note)
        ensures steps { Steps self.old.collector self.old.first_fault planner note self.new.collector self.new.first_fault }
        ensures inlet { self.new.inlet ≡ self.old.inlet }
    {
        if self.first_fault.is_some() {
            return;
        }
        if let Err(fault) = self.collector.accept(planner, note) {
            self.first_fault = Some(fault);
        }
    }
}
