//! Prepares the answer for the jobs of crontabs and timer files, before a byte of it is written.

ghost use Rattle.std.specs.Prelude.{◌≡◌, [], None, Err, IfErr, IfOk, IfSome, IsOk, IsTrue, OnOk, false};
ghost use Rattle.agenda_sources.specs.AtOnce.{fault_at_once};
ghost use Rattle.agenda_faults.specs.Faults.{fault_of_sources};
ghost use Rattle.agenda_faults.specs.declared.faults.RunFault.TheVariants.{NoMemory};
ghost use Rattle.agenda_commands.specs.Goal.{AnswersGoal, Makes, checked_goal, checked_jobs, finds_in, valid_goal};
ghost use Rattle.agenda_commands.specs.Prepare.{HasJobs, IsReady, errors_if, jobs_if, jobs_or, prepared_text};
ghost use Rattle.plan_texts.specs.Steps.{GivesUnless};
ghost use Rattle.plan_streams.specs.Stream.{Puts};

use crate::goal::{Goal, Made, make};
use crate::table::{MadeTable, TableForm};
use agenda_describe::{Descriptions, write_description_table, write_descriptions};
use agenda_faults::RunFault;
use agenda_sources::{Found, Sources, TimeZones, jobs_of_sources, kept_of_sources};
use agenda_table::Frame;
use plan_rules::{Jobs, Text};
use plan_streams::{Stream, WriteFault};
use plan_write::Format;
use std::alloc::{AllocError, Global};
use std::marker::Model;
use std::sync::Wait;
use std::thread::Threads;

/// An answer before it is written. Contracts see this value as its text.
#[derive(Drop)]
pub struct PreparedAnswer {
    answer: Prepared,
}

// An answer, and how it is written.
#[derive(Drop)]
pub(crate) enum Prepared {
    // Lines of text, or an object for each line.
    Lines(Made, Format),
    // A table.
    Table(MadeTable, TableForm),
    // Descriptions of jobs as lines, and whether each line is an object.
    Descriptions(Descriptions, bool),
    // Descriptions of jobs as a table, with its last line, and where it is shown.
    DescriptionTable(Descriptions, Text, Frame),
}

impl Model for PreparedAnswer {
    ghost use Rattle.std.specs.Prelude.{ℕ, List};
    ghost use Rattle.agenda_commands.specs.Prepare.{IsReady, prepared_text};

    ghost Value = { List ℕ };

    ghost view = { λ answer. prepared_text answer.answer };

    ghost invariant = { λ answer. IsReady answer.answer };
}

/// An answer before it is written, and what is said about it.
#[derive(Drop)]
pub struct RemarkedAnswer {
    /// The answer.
    pub answer: PreparedAnswer,
    /// A line for people, if there is something to say.
    pub remark: Option<Text>,
    /// Whether the answer has a start in a span that was to be clear, or a change.
    pub finds_any: bool,
}

/// Returns the errors of sources and the jobs that are left without them, if a request keeps going. If it doesn't,
/// returns neither.
///
/// # Errors
///
/// `AllocError` if an allocation failed, which can only happen if the request keeps going.
pub fn kept_if(
    alloc: Global,
    keep_going: bool,
    sources: &Sources,
    zones: &TimeZones,
) -> Result<(Vec<Found>, Option<Jobs>), AllocError>
    ensures errors { IfOk result (λ kept. kept.0.items ≡ errors_if keep_going zones.now sources.now) }
    ensures jobs { IfOk result (λ kept. kept.1 ≡ jobs_if keep_going zones.now sources.now) }
    ensures spared { keep_going ≡ false → IsOk result }
{
    if !keep_going {
        return Ok((Vec::new(alloc), None));
    }
    let kept = kept_of_sources(alloc, sources, zones)?;
    Ok((kept.errors, Some(kept.jobs)))
}

/// Prepares the answer that `goal` requests, in a format. Its jobs are those that were kept, or else all jobs of the
/// sources. Nothing is said about the answer, but whether it is a first entry or a change. Nothing is written. The function waits for
/// the planners of a plan.
///
/// The planners of the goal's sizes search for the starts, each in its own thread.
///
/// # Errors
///
/// The first of these is returned: `BadLeast` if the minimum length of a gap is 0; `InSource`, `SameName` or `Full` if
/// no jobs were kept and the sources make no list of jobs, whichever comes first in them; `Plan(BadSize)` if the number
/// of planners or their capacity is out of range; `Plan(BadLimit)` if the limit is; `Plan(Collect(TooMany))` if the
/// agenda has more entries than the limit.
///
/// `NoMemory` may come in place of each of them if an allocation failed, but never in place of `BadLeast` or of an error
/// of the first source that `jobs_of_sources` finds at once, nor, for jobs that were kept or without any source, in
/// place of `Plan(BadSize)` and `Plan(BadLimit)`.
pub fn prepare_answer<R: Threads + Wait + Sync>(
    rt: &R,
    alloc: Global,
    kept: Option<Jobs>,
    sources: &Sources,
    zones: &TimeZones,
    goal: &Goal,
    format: Format,
) -> Result<RemarkedAnswer, RunFault>
    ensures answer { Makes (AnswersGoal format goal.now (checked_jobs goal.now (jobs_or kept zones.now sources.now))) (λ made. made.answer) result }
    ensures finds { IfOk result (λ made. made.finds_any ≡ finds_in goal.now (jobs_or kept zones.now sources.now)) }

    // These errors are found before any memory is requested.
    ensures bad_least { IfErr (valid_goal goal.now) (λ fault. result ≡ Err fault) }
    ensures at_once { IsOk (valid_goal goal.now) → kept ≡ None → IfSome (fault_at_once sources.now) (λ fault. result ≡ Err (fault_of_sources fault)) }
    ensures no_source { HasJobs kept sources.now → IfErr (checked_goal goal.now) (λ fault. result ≡ Err fault) }
{
    goal.check()?;
    let jobs = jobs_or(alloc, kept, sources, zones)?;
    let made = make(rt, alloc, jobs, goal, &format, None)?;
    let finds_any = made.finds_any();
    let answer = PreparedAnswer {
        answer: Prepared::Lines(made, format),
    };
    Ok(RemarkedAnswer {
        answer,
        remark: None,
        finds_any,
    })
}

// Returns the jobs that were kept, or else all jobs of the sources.
pub(crate) fn jobs_or(
    alloc: Global,
    kept: Option<Jobs>,
    sources: &Sources,
    zones: &TimeZones,
) -> Result<Jobs, RunFault>
    ensures jobs { GivesUnless NoMemory (λ jobs. jobs) result (jobs_or kept zones.now sources.now) }
    ensures at_once { kept ≡ None → IfSome (fault_at_once sources.now) (λ fault. result ≡ Err (fault_of_sources fault)) }
    ensures has { HasJobs kept sources.now → IsOk result }
{
    match kept {
        Some(jobs) => Ok(jobs),
        None => Ok(jobs_of_sources(alloc, sources, zones)?),
    }
}

impl PreparedAnswer {
    // Returns an answer that can be written.
    pub(crate) fn new(answer: Prepared) -> PreparedAnswer
        requires { IsReady answer }
        ensures { result ≡ prepared_text answer }
    {
        PreparedAnswer { answer }
    }

    /// Writes the answer.
    ///
    /// # Errors
    ///
    /// The error of the stream, which then accepted the first bytes of the text.
    pub fn write<S: Stream>(&self, out: &mut S) -> Result<(), WriteFault>
        ensures text { Puts S.takes_all result (S.holds out.old) (S.holds out.new) self.now }
        ensures flushed { OnOk result (IsTrue (S.is_flushed out.new)) }
    {
        match &self.answer {
            Prepared::Lines(made, format) => made.write(format, out),
            Prepared::Table(made, form) => made.write(form, out),
            Prepared::Descriptions(jobs, json) => write_descriptions(jobs, *json, out),
            Prepared::DescriptionTable(jobs, last, frame) => {
                write_description_table(jobs, last.as_str(), *frame, out)
            }
        }
    }
}

/// How an answer is written.
#[derive(Drop)]
pub enum Form {
    /// As lines of text, or as an object for each line.
    Lines(Format),
    /// As a table.
    Table(TableForm),
}
