//! Reads the times and the length of what is asked about the jobs of a machine.

ghost use Rattle.std.specs.Prelude.{◌≡◌, ◌≤◌, IfOk};
ghost use Rattle.plan_sets.specs.Limits.{end_second};
ghost use Rattle.plan_times.specs.Forms.{length_of};
ghost use Rattle.agenda_answers.specs.MachineGoal.{after_at, filled_by, goal_at, least_of, number_in, present, since_at, sizes_in, span_at, until_at};

use crate::changes::changes_since;
use agenda_arguments::{MachineGoal, MachineJobs, SpanRequest};
use agenda_commands::{Goal, Planning};
use agenda_faults::{Failure, MachineFault, NumberOption, TimeOption};
use agenda_inputs::{Files, copy_of, read_baseline};
use plan_clock::Clock;
use plan_collect::{PlanView, Sizes, Span};
use plan_rules::Text;
use plan_sets::END_SECOND;
use plan_times::{length, since_time, until_time};
use plan_write::LocalStamp;
use std::alloc::Global;

/// Returns what is made of the jobs of a machine. The system clock shows this time, and the machine's clock shows local
/// times.
///
/// # Errors
///
/// `Machine(Clock)` if the time is after the planner's years. Else those of `read_baseline`, or `Machine(Time)` if a text isn't a time, then
/// `Machine(Backwards)` if a span ends before its start, then `Machine(EmptySpan)` if one that is to be clear ends at its start, then
/// `Machine(Length)` if a text isn't a length, and then
/// `Machine(Number)` if a size of a plan is out of its range.
pub(crate) fn goal_at<F: Files>(
    alloc: Global,
    files: &mut F,
    time: u64,
    clock: &Clock,
    jobs: &MachineJobs,
) -> Result<Goal, Failure>
    ensures read { goal_at (F.held files.old) time clock.now jobs.now result }
    ensures same { F.held files.new ≡ F.held files.old }
{
    let now = present(time)?;
    let delays = jobs.delays;
    match &jobs.goal {
        MachineGoal::Upcoming { after } => {
            let after = since_at(alloc, TimeOption::After, after, now, clock)?;
            Ok(Goal::Upcoming { after, delays })
        }
        MachineGoal::Scripts { after } => {
            let after = since_at(alloc, TimeOption::After, after, now, clock)?;
            Ok(Goal::Scripts { after })
        }
        MachineGoal::Plan { span, sizes, view } => {
            let span = span_at(alloc, span, now, clock)?;
            let span = filled_by(*view, clock, span)?;
            let sizes = sizes_in(*sizes)?;
            let planning = Planning {
                span,
                sizes,
                delays,
            };
            let view = *view;
            Ok(Goal::Plan { planning, view })
        }
        MachineGoal::Quiet { span, sizes, least } => {
            let span = span_at(alloc, span, now, clock)?;
            let least = least_of(alloc, least)?;
            let sizes = sizes_in(*sizes)?;
            let planning = Planning {
                span,
                sizes,
                delays,
            };
            Ok(Goal::Quiet { planning, least })
        }
        MachineGoal::Changes { before, sizes } => {
            let before = read_baseline(alloc, files, before.as_str())?;
            let sizes = sizes_in(*sizes)?;
            let goal = changes_since(alloc, before, sizes, delays)?;
            Ok(goal)
        }
    }
}

// Returns the time that the system clock shows, if it isn't after the planner's years.
fn present(time: u64) -> Result<u64, Failure>
    ensures value { present time result }
    ensures years { IfOk result (λ now. now ≤ end_second) }
{
    if time <= END_SECOND {
        Ok(time)
    } else {
        Err(Failure::Machine(MachineFault::Clock))
    }
}

/// Returns the time after which starts are listed.
///
/// # Errors
///
/// `Machine(Clock)` if the time of the system clock is after the planner's years, and `Machine(Time)` if the text isn't a
/// time.
pub(crate) fn after_at(
    alloc: Global,
    time: u64,
    clock: &Clock,
    after: &Text,
) -> Result<u64, Failure>
    ensures { after_at time clock.now after.now result }
{
    let now = present(time)?;
    since_at(alloc, TimeOption::After, after, now, clock)
}

// Returns the span of a plan.
fn span_at(alloc: Global, span: &SpanRequest, now: u64, clock: &Clock) -> Result<Span, Failure>
    requires { now ≤ end_second }
    ensures { span_at now clock.now span.now result }
{
    let since = since_at(alloc, TimeOption::Since, &span.since, now, clock)?;
    let until = until_at(alloc, &span.until, since, now, clock)?;
    match Span::new(since, until) {
        Ok(span) => Ok(span),
        Err(_) => {
            let mut start = LocalStamp::new();
            start.show(clock, since);
            Err(Failure::Machine(MachineFault::Backwards(start)))
        }
    }
}

// Returns the span of a view of a plan, if it isn't empty or may be: one that is to be clear may not.
fn filled_by(view: PlanView, clock: &Clock, span: Span) -> Result<Span, Failure>
    ensures { filled_by view clock.now span result }
{
    let (since, upto) = (span.since(), span.upto());
    if view != PlanView::First || since != upto {
        return Ok(span);
    }
    let mut start = LocalStamp::new();
    start.show(clock, since);
    Err(Failure::Machine(MachineFault::EmptySpan(start)))
}

// Returns the time of an option, at which a span starts or after which starts are listed.
fn since_at(
    alloc: Global,
    option: TimeOption,
    text: &Text,
    now: u64,
    clock: &Clock,
) -> Result<u64, Failure>
    requires { now ≤ end_second }
    ensures read { since_at option now clock.now text.now result }
    ensures years { IfOk result (λ since. since ≤ end_second) }
{
    match since_time(text.as_str(), now, clock) {
        Ok(time) => Ok(time),
        Err(fault) => Err(Failure::Machine(MachineFault::Time(
            option,
            fault,
            copy_of(alloc, text.as_str())?,
        ))),
    }
}

// Returns the end of a span that starts at a time.
fn until_at(alloc: Global, text: &Text, since: u64, now: u64, clock: &Clock) -> Result<u64, Failure>
    requires since { since ≤ end_second }
    requires now { now ≤ end_second }
    ensures read { until_at since now clock.now text.now result }
    ensures years { IfOk result (λ until. until ≤ end_second) }
{
    match until_time(text.as_str(), since, now, clock) {
        Ok(time) => Ok(time),
        Err(fault) => Err(Failure::Machine(MachineFault::Time(
            TimeOption::Until,
            fault,
            copy_of(alloc, text.as_str())?,
        ))),
    }
}

// Returns the minimum length of a gap, in seconds.
fn least_of(alloc: Global, text: &Text) -> Result<u32, Failure>
    ensures { least_of text.now (length_of text.now) result }
{
    match length(text.as_str()) {
        Some(least) => Ok(least),
        None => Err(Failure::Machine(MachineFault::Length(copy_of(alloc, text.as_str())?))),
    }
}

// Returns the sizes of a plan, if each is in its range.
fn sizes_in(sizes: Sizes) -> Result<Sizes, Failure>
    ensures { sizes_in sizes result }
{
    number_in(NumberOption::Planners, sizes.planners as u64)?;
    number_in(NumberOption::Room, sizes.room as u64)?;
    number_in(NumberOption::Limit, sizes.limit)?;
    Ok(sizes)
}

/// Returns the number of an option, if it is in its range.
///
/// # Errors
///
/// `Machine(Number)` if it isn't.
pub(crate) fn number_in(option: NumberOption, number: u64) -> Result<u64, Failure>
    ensures { number_in option number result }
{
    if number >= 1 && number <= option.most() {
        Ok(number)
    } else {
        Err(Failure::Machine(MachineFault::Number(option, number)))
    }
}
