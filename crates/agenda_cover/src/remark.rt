//! What is said where an agenda has no gap that is long enough.

ghost use Rattle.std.specs.Prelude.{◌≡◌, ◌++◌, IfOk, OnOk, codes, string_bytes};
ghost use Rattle.std.specs.List.{flat_map};
ghost use Rattle.agenda_cover.specs.Cover.{AreInOrder};
ghost use Rattle.agenda_cover.specs.Remark.{job_text, jobs_text, line_text, longest, longest_gap, no_gap_line, remark};

use crate::cover::covers_of;
use crate::lengths::push_length;
use crate::ranking::most_covering;
use agenda_table::Gaps;
use plan_collect::Agenda;
use plan_rules::{Jobs, Text};
use plan_write::push_shown;
use std::alloc::{AllocError, Global};

/// Returns why an agenda of jobs has no gap of at least `least` seconds, as a line for people. `None` if it has one.
///
/// The line has the length of the longest gap, and the at most three jobs that cover most of the span, with how much they
/// cover.
///
/// # Errors
///
/// `AllocError` if an allocation fails.
pub fn remark_on(
    alloc: Global,
    agenda: &Agenda,
    jobs: &Jobs,
    least: u64,
) -> Result<Option<Text>, AllocError>
    requires { AreInOrder agenda.now.entries }
    ensures { IfOk result (λ said. said ≡ remark least agenda.now jobs.now) }
{
    let found = Gaps::new(alloc, agenda, jobs, least)?;
    if !found.as_slice().is_empty() {
        return Ok(None);
    }
    let line = no_gap_line(alloc, agenda, jobs, least)?;
    Ok(Some(line))
}

// Returns the line that an agenda of jobs has no gap of at least `least` seconds.
fn no_gap_line(alloc: Global, agenda: &Agenda, jobs: &Jobs, least: u64) -> Result<Text, AllocError>
    requires { AreInOrder agenda.now.entries }
    ensures { IfOk result (λ line. line ≡ no_gap_line least agenda.now jobs.now) }
{
    let longest = longest_gap(alloc, agenda, jobs)?;
    let covers = covers_of(alloc, agenda, jobs)?;
    let most = most_covering(alloc, &covers)?;
    let line = line_text(alloc, least, longest, jobs, &most)?;
    Ok(line)
}

// Returns the line of a minimum length, the length of the longest gap, and the jobs that cover most.
fn line_text(
    alloc: Global,
    least: u64,
    longest: u64,
    jobs: &Jobs,
    most: &[(usize, u64)],
) -> Result<Text, AllocError>
    ensures { IfOk result (λ line. line ≡ line_text least longest jobs.now most.now) }
{
    let mut line = String::from_str(alloc, "agenda: no gap of ")?;
    push_length(&mut line, least)?;
    line.push_str(": the longest is ")?;
    push_length(&mut line, longest)?;
    push_jobs(&mut line, jobs, most)?;
    line.push_str("\n")?;
    Ok(Text::new(line))
}

/// Returns the length of the longest gap of an agenda of jobs, in seconds, or 0 if it has no gap.
///
/// # Errors
///
/// `AllocError` if an allocation fails.
pub fn longest_gap(alloc: Global, agenda: &Agenda, jobs: &Jobs) -> Result<u64, AllocError>
    ensures { IfOk result (λ seconds. seconds ≡ longest_gap agenda.now jobs.now) }
{
    let gaps = Gaps::new(alloc, agenda, jobs, 1)?;
    Ok(longest(gaps.as_slice()))
}

// Returns the length of the longest of gaps, or 0 if there is none.
fn longest(gaps: &[(u64, u64)]) -> u64
    ensures { result ≡ longest gaps.now }
{
    let mut longest = 0u64;
    for (from, to) in gaps {
        longest = longest.max(to.saturating_sub(*from));
    }
    longest
}

// Appends the jobs that cover most.
fn push_jobs(line: &mut String, jobs: &Jobs, most: &[(usize, u64)]) -> Result<(), AllocError>
    ensures { OnOk result (string_bytes line.new ≡ string_bytes line.old ++ jobs_text jobs.now most.now) }
{
    let Some(((number, seconds), others)) = most.split_first() else {
        return Ok(());
    };
    line.push_str(", and these cover the most: ")?;
    push_job(line, jobs, *number, *seconds)?;
    push_others(line, jobs, others)
}

// Appends jobs, each after a comma.
fn push_others(line: &mut String, jobs: &Jobs, others: &[(usize, u64)]) -> Result<(), AllocError>
    ensures { OnOk result (string_bytes line.new ≡ string_bytes line.old
        ++ flat_map (λ other. codes ", " ++ job_text jobs.now other.0 other.1) others.now) }
{
    for (number, seconds) in others {
        line.push_str(", ")?;
        push_job(line, jobs, *number, *seconds)?;
    }
    Ok(())
}

// Appends the name of the job with a number, and how much it covers.
fn push_job(line: &mut String, jobs: &Jobs, number: usize, seconds: u64) -> Result<(), AllocError>
    ensures { OnOk result (string_bytes line.new ≡ string_bytes line.old ++ job_text jobs.now number seconds) }
{
    if let Some(job) = jobs.get(number) {
        push_shown(line, job.name())?;
    }
    line.push_str(" (")?;
    push_length(line, seconds)?;
    line.push_str(")")
}
