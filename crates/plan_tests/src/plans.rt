//! Tests of `plan`: its planners run at the same time, and each one arrives at the gate once.

use crate::collector::user_jobs;
use plan_collect::{CollectFault, PlanFault, Sizes, Span};
use plan_rules::Jobs;
use plan_threads::{Gate, plan};
use std::process::Abort;
use std::sync::Wait;
use std::sync::atomic::AtomicU64;
use std::sync::atomic::Ordering::SeqCst;
use std::thread;
use std::thread::Threads;

// A gate at which each planner waits for a while until all have arrived once.
#[derive(Drop)]
struct Meeting {
    // How often each planner arrived, as the hexadecimal digit at its number.
    arrived: AtomicU64,
    // Those digits if all have arrived once.
    all: u64,
    // How many planners saw that.
    met: AtomicU64,
}

impl Gate for Meeting {
    fn arrive(&self, planner: usize) {
        self.arrived.fetch_add(1 << (4 * planner.min(15)), SeqCst);
        for _ in 0..10_000_000 {
            if self.arrived.load(SeqCst) == self.all {
                self.met.fetch_add(1, SeqCst);
                return;
            }
            thread::yield_now();
        }
    }
}

// Ten jobs that start at midnight.
const TEN: &str =
    "@daily a\n@daily b\n@daily c\n@daily d\n@daily e\n@daily f\n@daily g\n@daily h\n@daily i\n@daily j\n";

// Checks what planners, each with a capacity of one message, make of a day of ten jobs. Checks that all of them run
// at the same time, and that each arrives once. `all` has the digit 1 for each planner.
fn assert_planned(
    rt: &(impl Abort + AllocGlobal + Threads + Wait + Sync),
    jobs: &Jobs,
    all: u64,
    limit: u64,
    wanted: Result<usize, PlanFault>,
) {
    let first_day = Span::new(1_704_067_200, 1_704_153_600).expect(rt, "a span");
    let gate = Meeting {
        arrived: AtomicU64::new(0),
        all,
        met: AtomicU64::new(0),
    };
    let sizes = Sizes {
        planners: all.count_ones() as usize,
        room: 1,
        limit,
    };
    let len = match plan(rt, rt.alloc(), jobs, first_day, sizes, &gate) {
        Ok(agenda) => Ok(agenda.len()),
        Err(fault) => Err(fault),
    };
    assert!(rt; len == wanted);
    assert!(rt; gate.arrived.load(SeqCst) == all);
    assert!(rt; gate.met.load(SeqCst) == u64::from(all.count_ones()));
}

// If a message has one start too many, the plan fails, but planners whose rings are full are still heard until
// they end.
#[test]
fn planners_run_at_the_same_time_and_an_error_ends_the_plan(rt: HostRuntime) {
    let jobs = user_jobs(rt.alloc(), TEN).expect(&rt, "jobs");
    let too_many = Err(PlanFault::Collect(CollectFault::TooMany));
    for all in [0x1, 0x11, 0x1111_1111] {
        assert_planned(&rt, &jobs, all, 10, Ok(10));
        assert_planned(&rt, &jobs, all, 9, too_many);
        assert_planned(&rt, &jobs, all, 1, too_many);
    }
}
