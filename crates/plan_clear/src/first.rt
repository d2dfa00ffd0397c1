//! The first entry of an agenda of windows.

ghost use Rattle.std.specs.Prelude.{◌≡◌, ◌<◌, [], length, Some, IfSome};
ghost use Rattle.std.specs.List.{cons_option};
ghost use Rattle.plan_collect.specs.Agenda.{IsInYears};
ghost use Rattle.plan_next.specs.Starts.{IsFirstIn};
ghost use Rattle.plan_collect.specs.Windows.{has_window};
ghost use Rattle.plan_clear.specs.First.{FirstIsLeast, NoneWithoutWindows, NothingStartsIfClear, earlier_of, first_of, whole_minute};

use plan_collect::{Start, first_second};
use plan_next::{Span, next_from};
use plan_rules::{Job, Jobs, Rule};

// The cron daemon wakes once a minute, and may start a job as late as at this second of it.
const LAST_SECOND: u64 = 59;

/// Returns the first entry of the agenda of jobs over a span: a second, and the number of the job that may start from
/// then on. `None` if no job may start in the span.
///
/// A job may start up to its delay later than at a time of its rule, and a cron job at any second of its minute. So the
/// entry may be earlier than the span, by the job's delay or by 59 seconds at most. If several jobs have an entry at the
/// first second, the one with the lowest number is returned.
///
/// Only one start of each job is searched for, and no memory is requested.
pub fn first_entry(jobs: &Jobs, span: Span) -> Option<Start>
    ensures first { result ≡ first_of jobs.now span }
    ensures before_end { IfSome result (λ entry. entry.0 < span.upto) }
    ensures of_job { IfSome result (λ entry. entry.1 < length jobs.now) }
    ensures years { IsInYears (cons_option result []) }
{
    let (upto, count) = (span.upto(), jobs.len());
    let mut first = None;
    for number in 0..count {
        if let Some(job) = jobs.get(number) {
            first = earlier(first, first_window(job, span, upto), number as u32);
        }
    }
    let (second, number) = first?;
    Some(Start::new(second, number))
}

// Returns the first start of a job whose window meets a span, which ends at `upto`.
fn first_window(job: &Job, span: Span, upto: u64) -> Option<u64>
    requires { upto ≡ span.upto }
    ensures { IsFirstIn (has_window (Some (whole_minute job.now)) span) 0 span.upto result }
{
    let second = next_from(job.rule(), first_second(span, lateness_of(job)))?;
    if second < upto { Some(second) } else { None }
}

// Returns how much later than at a time of its rule a job may start, in seconds.
fn lateness_of(job: &Job) -> u64
    ensures { result ≡ (whole_minute job.now).delay }
{
    match &**job.rule() {
        Rule::Cron(_) => job.delay().max(LAST_SECOND),
        Rule::Events(_) | Rule::Never => job.delay(),
    }
}

// Returns the earlier one of the first entry so far and of the entry that a job with a higher number has at `second`.
fn earlier(first: Option<(u64, u32)>, second: Option<u64>, number: u32) -> Option<(u64, u32)>
    ensures { result ≡ earlier_of first second number }
{
    let Some(second) = second else {
        return first;
    };
    match first {
        Some(entry) if entry.0 <= second => first,
        _ => Some((second, number)),
    }
}

/// States the law of the first entry: it is that of a start whose window meets the span, and no other such start comes
/// before it. Starts come in the order of their seconds, and at the same second in that of their jobs.
///
/// The function does nothing: its contract is the law.
pub fn first_entry_is_least()
    ensures { FirstIsLeast }
{}

/// States the law of clear spans: an agenda has no first entry exactly if no job has a start whose window meets the
/// span. The window of a start reaches from the start to the job's delay later, both included; that of a cron job's start
/// to the end of its minute, or to its delay if that is longer.
///
/// The function does nothing: its contract is the law.
pub fn none_without_windows()
    ensures { NoneWithoutWindows }
{}

/// States the law of jobs in a clear span: if an agenda has no first entry, no job may start at any second of the span.
/// A job may start at each second from a time of its rule to that time and its delay, a cron job at each of its minute.
///
/// The function does nothing: its contract is the law.
pub fn nothing_starts_if_clear()
    ensures { NothingStartsIfClear }
{}
