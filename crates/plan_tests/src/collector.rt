//! Tests of `Collector`: pieces that come in another order than planners send them. Other modules use its jobs
//! and pieces.

use plan_collect::*;
use plan_next::next_piece;
use plan_rules::{Jobs, Kind, cron_rule, crontab};
use std::alloc::Global;
use std::process::Abort;
use std::sync::Arc;

// Adds the jobs of a user's crontab. Returns whether that succeeds.
fn add_user_jobs(alloc: Global, jobs: &mut Jobs, text: &str) -> bool {
    let Ok(user_jobs) = crontab(alloc, "cron", text.as_bytes(), Kind::User) else {
        return false;
    };
    let mut are_added = true;
    for job in user_jobs {
        are_added = are_added && jobs.add(job).is_ok();
    }
    are_added
}

/// Returns the jobs of a user's crontab.
pub fn user_jobs(alloc: Global, text: &str) -> Option<Jobs> {
    let mut jobs = Jobs::new(alloc);
    if add_user_jobs(alloc, &mut jobs, text) {
        Some(jobs)
    } else {
        None
    }
}

/// A crontab of one job that starts each minute.
pub const EVERY_MINUTE: &str = "* * * * * x";

/// The rule of that job.
pub const EVERY: &str = "* * * * *";

/// Returns a message with a piece of a job, made by a cron rule between two seconds.
pub fn part(alloc: Global, job: u32, rule: &str, since: u64, upto: u64) -> Option<Note> {
    let span = Span::new(since, upto).ok()?;
    let rule = Arc::new(alloc, cron_rule(alloc, rule).ok()?).ok()?;
    let piece = next_piece(alloc, &rule, span.since(), span.upto(), PIECE_STARTS).ok()?;
    Some(Note::Part(job, piece))
}

// Makes a collector of one job that starts each minute, over two minutes and with a limit of two starts.
fn new_collector(rt: &(impl Abort + AllocGlobal)) -> Collector {
    let span = Span::new(0, 120).expect(rt, "a span");
    let jobs = user_jobs(rt.alloc(), EVERY_MINUTE).expect(rt, "jobs");
    Collector::new(rt.alloc(), &jobs, span, 1, 2).expect(rt, "a collector")
}

// Checks what the collector answers to a piece of the first job, between these seconds.
fn assert_answer(
    rt: &(impl Abort + AllocGlobal),
    collector: &mut Collector,
    since: u64,
    upto: u64,
    wanted: Result<(), CollectFault>,
) {
    let piece = part(rt.alloc(), 0, EVERY, since, upto).expect(rt, "a piece");
    assert!(rt; collector.accept(0, piece) == wanted);
}

// A piece that starts late, one that ends late, the whole, the same again, and one after the last message.
#[test]
fn pieces_in_another_order(rt: HostRuntime) {
    let mut collector = new_collector(&rt);
    let gap = Err(CollectFault::Gap);
    assert_answer(&rt, &mut collector, 60, 120, gap);
    assert_answer(&rt, &mut collector, 0, 180, gap);
    assert_answer(&rt, &mut collector, 0, 120, Ok(()));
    assert_answer(&rt, &mut collector, 0, 120, gap);
    assert!(rt; collector.accept(0, Note::Last) == Ok(()));
    assert_answer(&rt, &mut collector, 60, 120, Err(CollectFault::AfterLast));
    let agenda = collector.finish().expect(&rt, "an agenda");
    assert!(rt; agenda.entry(0) == Some((0, 0)) && agenda.entry(1) == Some((60, 0)));
    assert!(rt; agenda.entry(2).is_none());
}
