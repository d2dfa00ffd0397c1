//! When a job may start: its rule and its delay.

ghost use Rattle.std.specs.Prelude.{◌≡◌, ◌≤◌, length, IfOk};
ghost use Rattle.plan_rules.specs.Limits.{most_jobs};
ghost use Rattle.plan_collect.specs.Collecting.{firsts_of};
ghost use Rattle.plan_collect.specs.Windows.{first_second, timing_of, timings_of};

use plan_match::Rule;
use plan_next::Span;
use plan_rules::{Job, Jobs};
use std::alloc::{AllocError, Global};
use std::marker::Model;
use std::sync::Arc;

// When a job may start: at the times of its rule, and up to its delay later, in seconds.
#[derive(Drop)]
pub(crate) struct JobTiming {
    rule: Arc<Rule>,
    delay: u64,
}

impl Model for JobTiming {
    ghost use Rattle.std.specs.Arc.{arc_value};
    ghost use Rattle.plan_collect.specs.Windows.{Timing, timing_code};

    ghost Value = { Timing };

    ghost coded = { timing_code };

    ghost view = { λ timing. record { rule = arc_value timing.rule; delay = timing.delay } };
}

impl JobTiming {
    // Returns the timing of a job.
    fn of(job: &Job) -> Result<JobTiming, AllocError>
        ensures { IfOk result (λ timing. timing ≡ timing_of job.now) }
    {
        let rule = Arc::try_clone(job.rule())?;
        Ok(JobTiming {
            rule,
            delay: job.delay(),
        })
    }

    // Returns the job's rule.
    pub(crate) fn rule(&self) -> &Rule
        ensures { result.now ≡ self.now.rule }
    {
        &self.rule
    }

    // Returns the job's delay.
    fn delay(&self) -> u64
        ensures { result ≡ self.now.delay }
    {
        self.delay
    }
}

/// Returns the second from which on the starts of a job with this delay, in seconds, are planned for a span. A
/// job may start up to its delay later than at a time of its rule. So it is earlier than the span's start by the
/// delay, but not before 1970. If the span is empty, it is the span's start.
pub fn first_second(span: Span, delay: u64) -> u64
    ensures value { result ≡ first_second span delay }
    ensures within { result ≤ span.upto }
{
    if span.since() < span.upto() {
        span.since().saturating_sub(delay)
    } else {
        span.since()
    }
}

// Returns the timings of jobs, in their order.
pub(crate) fn timings_in(alloc: Global, jobs: &Jobs) -> Result<Vec<JobTiming>, AllocError>
    ensures timings { IfOk result (λ timings. timings.items ≡ timings_of jobs.now) }
    ensures few { IfOk result (λ timings. length timings.items ≤ most_jobs) }
{
    let mut timings = Vec::with_capacity(alloc, jobs.len())?;
    for number in 0..jobs.len() {
        if let Some(job) = jobs.get(number) {
            timings.push(JobTiming::of(job)?)?;
        }
    }
    Ok(timings)
}

// Returns for each job the second from which on its starts are planned for a span.
pub(crate) fn firsts_in(
    alloc: Global,
    timings: &[JobTiming],
    span: Span,
) -> Result<Vec<u64>, AllocError>
    ensures { IfOk result (λ firsts. firsts.items ≡ firsts_of span timings.now) }
{
    timings
        .iter()
        .map(|timing| first_second(span, timing.delay()))
        .collect(alloc)
}
