//! Prepares the answer for jobs in a form, with what is said about it: why there is no gap that is long enough.

ghost use Rattle.std.specs.Prelude.{◌≡◌, Err, IfErr, IfOk, Ok, false, option_map};
ghost use Rattle.agenda_commands.specs.Form.{AnswersForm};
ghost use Rattle.agenda_commands.specs.Goal.{AnswersWithFiles, Makes, checked_goal, checked_jobs, checked_sizes, finds_any, sized_goal};
ghost use Rattle.agenda_commands.specs.Remark.{IsOfGaps, remark_of, unremarked};
ghost use Rattle.agenda_commands.specs.declared.goal.Goal.TheVariants.{Quiet};
ghost use Rattle.agenda_cover.specs.Cover.{AreInOrder};
ghost use Rattle.agenda_cover.specs.Remark.{remark};

use crate::agenda_of::make_agenda;
use crate::goal::{Goal, Made, Planning, counted, make};
use crate::prepare::{Form, Prepared, PreparedAnswer, RemarkedAnswer};
use crate::table::{make_table, quiet_table};
use agenda_cover::remark_on;
use agenda_faults::RunFault;
use plan_collect::Agenda;
use plan_rules::{Jobs, Text};
use plan_write::{Format, JobFile};
use std::alloc::{AllocError, Global};
use std::sync::Wait;
use std::thread::Threads;

/// Prepares the answer that `goal` requests of these jobs in a form, with what is said about it: where gaps are
/// requested and none is long enough, the length of the longest gap and the jobs that cover most of the span. If the
/// files of the jobs are given, in the order of the jobs, they are shown: lines in JSON have them, tables of an agenda and of
/// next starts have the names of the scripts in them, and the scripts of jobs are those of their files. Other lines in text,
/// other tables, gaps and changes are the same without them.
///
/// # Errors
///
/// The first of these is returned: `BadLeast` if the minimum length of a gap is 0; `Plan(BadSize)` if the number of
/// planners or their capacity is out of range; `Plan(BadLimit)` if the limit is; `Plan(Collect(TooMany))` if the agenda has
/// more entries than the limit. `NoMemory` may come in place of the last if an allocation failed, but not in place of the
/// others.
pub fn prepare_remarked<R: Threads + Wait + Sync>(
    rt: &R,
    alloc: Global,
    jobs: Jobs,
    goal: &Goal,
    form: Form,
    files: Option<&[JobFile]>,
) -> Result<RemarkedAnswer, RunFault>
    ensures answer { Makes (AnswersForm (option_map (λ files. files.now) files.entry) form goal.now (checked_jobs goal.now (Ok jobs)))
        (λ made. made.answer) result }
    ensures remark { IfOk result (λ made. made.remark ≡ remark_of goal.now jobs) }
    ensures finds { IfOk result (λ made. made.finds_any ≡ finds_any goal.now jobs) }

    // These errors are found before any memory is requested.
    ensures at_once { IfErr (checked_goal goal.now) (λ fault. result ≡ Err fault) }
{
    goal.check()?;
    let remarked = make_remarked(rt, alloc, jobs, goal, form, files)?;
    Ok(remarked)
}

// Makes what `goal` requests of jobs in a form, with what is said about it.
fn make_remarked<R: Threads + Wait + Sync>(
    rt: &R,
    alloc: Global,
    jobs: Jobs,
    goal: &Goal,
    form: Form,
    files: Option<&[JobFile]>,
) -> Result<RemarkedAnswer, RunFault>
    ensures answer { Makes (AnswersForm (option_map (λ files. files.now) files.entry) form goal.now (Ok jobs)) (λ made. made.answer) result }
    ensures remark { IfOk result (λ made. made.remark ≡ remark_of goal.now jobs) }
    ensures finds { IfOk result (λ made. made.finds_any ≡ finds_any goal.now jobs) }
    ensures at_once { IfErr (sized_goal goal.now) (λ fault. result ≡ Err fault) }
{
    match goal {
        Goal::Quiet { planning, least } => make_quiet(rt, alloc, jobs, planning, *least, form),
        Goal::Plan { .. } => unremarked(make_in_form(rt, alloc, jobs, goal, form, files)),
        Goal::Changes { .. } => unremarked(make_in_form(rt, alloc, jobs, goal, form, files)),
        Goal::Upcoming { .. } => unremarked(make_in_form(rt, alloc, jobs, goal, form, files)),
        Goal::Scripts { .. } => unremarked(make_in_form(rt, alloc, jobs, goal, form, files)),
    }
}

// Makes what `goal` requests of jobs, in a form, and says whether it is a first entry or a change.
fn make_in_form<R: Threads + Wait + Sync>(
    rt: &R,
    alloc: Global,
    jobs: Jobs,
    goal: &Goal,
    form: Form,
    files: Option<&[JobFile]>,
) -> Result<(PreparedAnswer, bool), RunFault>
    ensures answer { Makes (AnswersForm (option_map (λ files. files.now) files.entry) form goal.now (Ok jobs)) (λ made. made.0) result }
    ensures finds { IfOk result (λ made. made.1 ≡ finds_any goal.now jobs) }
    ensures at_once { IfErr (sized_goal goal.now) (λ fault. result ≡ Err fault) }
{
    match form {
        Form::Lines(format) => make_lines(rt, alloc, jobs, goal, format, files),
        Form::Table(form) if goal.has_table() => {
            let made = make_table(rt, alloc, jobs, goal, &form, files)?;
            let finds_any = made.finds_any;
            Ok((PreparedAnswer::new(Prepared::Table(made, form)), finds_any))
        }
        Form::Table(form) => {
            let format = Format {
                json: false,
                local: Some(form.zone),
            };
            make_lines(rt, alloc, jobs, goal, format, files)
        }
    }
}

// Makes what `goal` requests of jobs, as lines, and says whether it is a first entry or a change.
fn make_lines<R: Threads + Wait + Sync>(
    rt: &R,
    alloc: Global,
    jobs: Jobs,
    goal: &Goal,
    format: Format,
    files: Option<&[JobFile]>,
) -> Result<(PreparedAnswer, bool), RunFault>
    ensures made { Makes (AnswersWithFiles (option_map (λ files. files.now) files.entry) format goal.now (Ok jobs)) (λ made. made.0) result }
    ensures finds { IfOk result (λ made. made.1 ≡ finds_any goal.now jobs) }
    ensures at_once { IfErr (sized_goal goal.now) (λ fault. result ≡ Err fault) }
{
    let made = make(rt, alloc, jobs, goal, &format, files)?;
    let finds_any = made.finds_any();
    Ok((
        PreparedAnswer::new(Prepared::Lines(made, format)),
        finds_any,
    ))
}

// Returns the same answer, about which nothing else is said.
fn unremarked(answer: Result<(PreparedAnswer, bool), RunFault>) -> Result<RemarkedAnswer, RunFault>
    ensures { result ≡ unremarked answer }
{
    match answer {
        Ok((answer, finds_any)) => Ok(RemarkedAnswer {
            answer,
            remark: None,
            finds_any,
        }),
        Err(fault) => Err(fault),
    }
}

// Makes the gaps of the agenda of jobs, and says why there is none.
fn make_quiet<R: Threads + Wait + Sync>(
    rt: &R,
    alloc: Global,
    jobs: Jobs,
    planning: &Planning,
    least: u32,
    form: Form,
) -> Result<RemarkedAnswer, RunFault>
    ensures answer { Makes (AnswersForm None form (Quiet planning.now least) (Ok jobs)) (λ made. made.answer) result }
    ensures remark { IfOk result (λ made. made.remark ≡ remark_of (Quiet planning.now least) jobs) }
    ensures finds { IfOk result (λ made. made.finds_any ≡ false) }
    ensures at_once { IfErr (checked_sizes planning.now) (λ fault. result ≡ Err fault) }
{
    let jobs = counted(jobs, planning.delays);
    let agenda = make_agenda(rt, alloc, &jobs, planning)?;
    let remarked = remarked(alloc, agenda, jobs, least, form)?;
    Ok(remarked)
}

// Returns the gaps of an agenda of jobs, and why there is none.
fn remarked(
    alloc: Global,
    agenda: Agenda,
    jobs: Jobs,
    least: u32,
    form: Form,
) -> Result<RemarkedAnswer, AllocError>
    requires { AreInOrder agenda.entries }
    ensures answer { IfOk result (λ made. IsOfGaps form least agenda jobs made.answer) }
    ensures remark { IfOk result (λ made. made.remark ≡ remark least agenda jobs) }
    ensures finds { IfOk result (λ made. made.finds_any ≡ false) }
{
    let remark = remark_on(alloc, &agenda, &jobs, u64::from(least))?;
    let answer = gaps_in_form(alloc, agenda, jobs, least, form)?;
    Ok(RemarkedAnswer {
        answer,
        remark,
        finds_any: false,
    })
}

// Returns the gaps of an agenda of jobs, in a form.
fn gaps_in_form(
    alloc: Global,
    agenda: Agenda,
    jobs: Jobs,
    least: u32,
    form: Form,
) -> Result<PreparedAnswer, AllocError>
    ensures { IfOk result (λ answer. IsOfGaps form least agenda jobs answer) }
{
    match form {
        Form::Lines(format) => {
            let made = Made::Quiet(agenda, jobs, least);
            Ok(PreparedAnswer::new(Prepared::Lines(made, format)))
        }
        Form::Table(form) => {
            let made = quiet_table(alloc, &agenda, &jobs, u64::from(least), &form)?;
            Ok(PreparedAnswer::new(Prepared::Table(made, form)))
        }
    }
}
