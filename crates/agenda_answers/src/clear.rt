//! Whether a span is clear: the exit status of that answer, and what is said about it.

ghost use Rattle.std.specs.Prelude.{◌≡◌, [], IfOk, string_bytes, unwrap_or};
ghost use Rattle.agenda_answers.specs.Machine.{is_clear, is_clear_question, is_too_large, jobs_status, jobs_words, remark_with, unanswered_status, with_unknown};

use crate::jobs::found_status;
use agenda_arguments::{MachineGoal, MachineQuestion};
use agenda_commands::Goal;
use agenda_faults::Failure;
use agenda_faults::status::{DONE, REJECTED, UNKNOWN, USAGE};
use itoa::Buffer as Digits;
use plan_collect::PlanView;
use plan_rules::Text;
use std::alloc::{AllocError, Global};

// Returns whether an answer failed since the machine has too many units.
pub(crate) fn is_too_large(failure: &Failure) -> bool
    ensures { result ≡ is_too_large failure.now }
{
    match failure {
        Failure::TooManyUnits(_) => true,
        _ => false,
    }
}

// Returns whether a question is whether a span is clear.
pub(crate) fn is_clear_question(question: &MachineQuestion) -> bool
    ensures { result ≡ is_clear_question question.now }
{
    match question {
        MachineQuestion::Jobs(jobs) => matches!(
            jobs.goal,
            MachineGoal::Plan {
                view: PlanView::First,
                ..
            }
        ),
        _ => false,
    }
}

// Returns the exit status without an answer, by that of the error. If it was asked whether a span is clear, 1 says that a job may
// start: what is rejected ends with 2, and a machine that is too large with 4.
pub(crate) fn unanswered_status(is_clear: bool, is_too_large: bool, status: u8) -> u8
    ensures value { result ≡ unanswered_status is_clear is_too_large status }
    ensures failed { result ≡ 0 → status ≡ 0 }
{
    if !is_clear || status != REJECTED {
        status
    } else if is_too_large {
        UNKNOWN
    } else {
        USAGE
    }
}

// Returns whether the goal is whether a span is clear.
pub(crate) fn is_clear(goal: &Goal) -> bool
    ensures { result ≡ is_clear goal.now }
{
    matches!(
        goal,
        Goal::Plan {
            view: PlanView::First,
            ..
        }
    )
}

// Returns the exit status of an answer, by that without what it finds. If it was asked whether a span is clear, it is 1 if a job may
// start there, 4 if none is known to, but something is unknown, and 0 otherwise.
pub(crate) fn jobs_status(goal: &Goal, finds_any: bool, status: u8, unknown: usize) -> u8
    ensures { result ≡ jobs_status (is_clear goal.now) finds_any status unknown }
{
    if !is_clear(goal) {
        return found_status(finds_any, status);
    }
    if finds_any {
        REJECTED
    } else if unknown > 0 {
        UNKNOWN
    } else {
        DONE
    }
}

// Returns what is said about an answer with this exit status: what was said before, and that a span isn't known to be clear, or gaps
// to be quiet, if so many things are unknown.
pub(crate) fn remark_of(
    alloc: Global,
    goal: &Goal,
    is_answer: bool,
    status: u8,
    remark: Option<Text>,
    unknown: usize,
) -> Result<Option<Text>, AllocError>
    ensures { IfOk result (λ said. said ≡ remark_with goal.now is_answer status remark unknown) }
{
    match goal {
        Goal::Plan {
            view: PlanView::First,
            ..
        } if is_answer && status == UNKNOWN => {
            Ok(Some(with_unknown(alloc, remark, "clear", unknown)?))
        }
        Goal::Quiet { .. } if is_answer && unknown > 0 => {
            Ok(Some(with_unknown(alloc, remark, "quiet", unknown)?))
        }
        _ => Ok(remark),
    }
}

// Returns what was said, which is nothing if nothing was.
fn said_before(alloc: Global, remark: Option<Text>) -> Result<String, AllocError>
    ensures { IfOk result (λ text. string_bytes text ≡ unwrap_or remark []) }
{
    match remark {
        Some(said) => String::from_str(alloc, said.as_str()),
        None => Ok(String::new(alloc)),
    }
}

// Returns the words for so many jobs.
fn jobs_words(unknown: usize) -> &'static str
    ensures { result.now ≡ jobs_words unknown }
{
    if unknown == 1 {
        " job may start"
    } else {
        " jobs may start"
    }
}

// Returns what is said, and then that so many things are unknown, so that what was asked for isn't known.
fn with_unknown(
    alloc: Global,
    remark: Option<Text>,
    what: &str,
    unknown: usize,
) -> Result<Text, AllocError>
    ensures { IfOk result (λ text. text ≡ with_unknown remark what.now unknown) }
{
    let mut text = said_before(alloc, remark)?;
    text.push_str("agenda: not known to be ")?;
    text.push_str(what)?;
    text.push_str(": ")?;
    text.push_str(Digits::new().format(unknown))?;
    text.push_str(jobs_words(unknown))?;
    text.push_str(" at times that files don't tell; --except NAME leaves one out\n")?;
    Ok(Text::new(text))
}
