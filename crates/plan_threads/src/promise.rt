//! The promise of a planner's thread.

ghost use Rattle.std.specs.Prelude.{◌≡◌, false};

use crate::task::Task;
use plan_collect::Note;
use plan_mailbox::{Outlet, Receipt};
use plan_rules::Jobs;
use std::snapshot::Snapshot;
use std::thread::Promise;

/// The promise that the planner of this outlet sends all its messages of the plan, unless an allocation
/// fails.
#[derive(Drop)]
pub(crate) struct PlannerPromise {
    pub(crate) outlet: Snapshot<Outlet<Note>>,
    pub(crate) jobs: Snapshot<Jobs>,
    pub(crate) task: Snapshot<Task>,
}

impl Promise<(Receipt<Note>, bool)> for PlannerPromise {
    ghost use Rattle.plan_threads.specs.Promise.{Keeps};

    ghost kept_by = { Keeps };
}
