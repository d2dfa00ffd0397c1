//! Which jobs of a machine an answer is about, by patterns of their names.

ghost use Rattle.std.specs.Prelude.{◌≡◌, ◌&&◌, ◌||◌, ◌==◌, if◌then◌else◌, [], IfOk, filter, length, map, nat_eq};
ghost use Rattle.std.specs.List.{list_all, list_any, starts_with};
ghost use Rattle.std.specs.Option.{option_map, option_map_or};
ghost use Rattle.agenda_machine.specs.Choice.{is_excluded, label_in, left_unknown, names_of_machine, unchosen, unexcepted};
ghost use Rattle.agenda_patterns.specs.Pattern.{fits};

use crate::job_files::{cut_name, has_only_digits, label_of};
use crate::unknown::{Name, Unknown};
use agenda_patterns::fits;
use agenda_sources::file_name;
use plan_machine::{Machine, Unplanned};
use plan_rules::Jobs;
use plan_texts::Text;
use std::alloc::{AllocError, Global};

/// Which jobs an answer is about, by patterns of the names of jobs, timers and crontabs.
#[derive(Clone, Copy)]
pub struct Choice<'a> {
    /// What the paths of the machine begin with, as they are printed: the path of its root, with a `/` at its end. A pattern that begins
    /// so is for paths.
    pub front: &'a str,
    /// What is left out.
    pub except: &'a [Text],
    /// All other jobs are left out, unless this is empty.
    pub only: &'a [Text],
}

/// Returns the names of jobs, in order.
///
/// # Errors
///
/// `AllocError` if an allocation fails.
pub fn names_of(alloc: Global, jobs: &Jobs) -> Result<Vec<Text>, AllocError>
    ensures { IfOk result (λ names. names.items ≡ map (λ job. job.name) jobs.now) }
{
    let mut names = Vec::with_capacity(alloc, jobs.len())?;
    for number in 0..jobs.len() {
        if let Some(job) = jobs.get(number) {
            names.push(Text::new(String::from_str(alloc, job.name())?))?;
        }
    }
    Ok(names)
}

/// Returns all names that a machine has: of its jobs, also of idle ones, of its timers and crontabs, of the files of what is off, and of
/// the jobs of what is unknown of it.
///
/// # Errors
///
/// `AllocError` if an allocation fails.
pub fn names_of_machine(
    alloc: Global,
    machine: &Machine,
    jobs: &Jobs,
    unknown: &[Unknown],
) -> Result<Vec<Text>, AllocError>
    ensures { IfOk result (λ names. names.items ≡ names_of_machine machine.now.sources.items machine.now.skipped.items
        machine.now.unplanned.items jobs.now unknown.now) }
{
    let mut names = names_of(alloc, jobs)?;
    for source in machine.sources.as_slice() {
        let label = label_of(source.kind(), source.name());
        names.push(Text::new(String::from_str(alloc, label)?))?;
    }
    for job in machine.unplanned.as_slice() {
        if let Unplanned::UnitMissing(_)
        | Unplanned::UnitMasked(_)
        | Unplanned::UnitIdle(_) = &job.why
        {
            let name = file_name(job.path.as_str());
            names.push(Text::new(String::from_str(alloc, name)?))?;
        }
    }
    for file in machine.skipped.as_slice() {
        if !file.why.is_unknown() {
            let name = file_name(file.path.as_str());
            names.push(Text::new(String::from_str(alloc, name)?))?;
        }
    }
    for one in unknown {
        for name in one.names.as_slice() {
            if let Some(job) = &name.job {
                names.push(Text::new(String::from_str(alloc, job.as_str())?))?;
            }
        }
    }
    Ok(names)
}

/// Returns those of these names of jobs that are left out.
pub fn left_out(choice: Choice<'_>, names: Vec<Text>) -> Vec<Text>
    ensures { result.items ≡ filter (λ name. is_excluded choice.entry.except.now choice.entry.only.now (label_in name) name) names.items }
{
    let mut left = names;
    left.retain(|name| {
        let job = name.as_str();
        leaves_out(choice.except, choice.only, label_in(job), job)
    });
    left
}

/// Returns how many unknown things aren't left out.
pub fn count_left(choice: Choice<'_>, unknown: &[Unknown]) -> usize
    ensures { result ≡ left_unknown choice.entry.front.now choice.entry.except.now choice.entry.only.now unknown.now }
{
    unknown
        .iter()
        .filter(|one| !leaves_out_unknown(choice, one))
        .count()
}

/// Returns the first pattern of `--only` that fits none of the names of a machine.
pub fn unchosen<'a>(patterns: &'a [Text], names: &[Text]) -> Option<&'a Text>
    ensures { option_map (λ pattern. pattern.now) result ≡ unchosen names.now patterns.now }
{
    patterns
        .iter()
        .find(|pattern| !fits_one(pattern.as_str(), names))
}

/// Returns the first pattern of `--except` that fits none of the names of a machine, unless it is for paths: what these have may come
/// and go.
pub fn unexcepted<'a>(patterns: &'a [Text], front: &str, names: &[Text]) -> Option<&'a Text>
    ensures { option_map (λ pattern. pattern.now) result ≡ unexcepted front.now names.now patterns.now }
{
    patterns.iter().find(|pattern| !pattern.as_str().as_bytes().starts_with(front.as_bytes())
        && !fits_one(pattern.as_str(), names))
}

// Returns whether a pattern fits one of these names.
fn fits_one(pattern: &str, names: &[Text]) -> bool
    ensures { result ≡ list_any (fits pattern.now) names.now }
{
    names.iter().any(|name| fits(pattern, name.as_str()))
}

// Returns whether something unknown is left out.
fn leaves_out_unknown(choice: Choice<'_>, one: &Unknown) -> bool
    ensures { result ≡ (if length one.now.names == 0
        then list_any (λ pattern. starts_with nat_eq pattern choice.entry.front.now && fits pattern one.now.path) choice.entry.except.now
        else list_all (λ name. option_map_or (is_excluded choice.entry.except.now choice.entry.only.now name.label) name.job
        (is_excluded choice.entry.except.now [] name.label name.label)) one.now.names) }
{
    if one.names.is_empty() {
        leaves_out_path(choice, one.path.as_str())
    } else {
        leaves_out_all(choice, one.names.as_slice())
    }
}

// Returns whether a path is left out.
fn leaves_out_path(choice: Choice<'_>, path: &str) -> bool
    ensures { result ≡ list_any (λ pattern. starts_with nat_eq pattern choice.entry.front.now && fits pattern path.now) choice.entry.except.now }
{
    choice.except.iter().any(|pattern| pattern
        .as_str()
        .as_bytes()
        .starts_with(choice.front.as_bytes())
        && fits(pattern.as_str(), path))
}

// Returns whether all of these names are left out. That of a whole crontab isn't left out by the name of another job.
fn leaves_out_all(choice: Choice<'_>, names: &[Name]) -> bool
    ensures { result ≡ list_all (λ name. option_map_or (is_excluded choice.entry.except.now choice.entry.only.now name.label) name.job
        (is_excluded choice.entry.except.now [] name.label name.label)) names.now }
{
    names.iter().all(|name| {
        let label = name.label.as_str();
        match &name.job {
            Some(job) => leaves_out(choice.except, choice.only, label, job.as_str()),
            None => leaves_out(choice.except, &[], label, label),
        }
    })
}

// Returns whether a job of a timer or a crontab with this label is left out.
fn leaves_out(except: &[Text], only: &[Text], label: &str, job: &str) -> bool
    ensures { result ≡ is_excluded except.now only.now label.now job.now }
{
    has_pattern(except, label, job) || !only.is_empty() && !has_pattern(only, label, job)
}

// Returns whether one of these patterns fits the name of a job or its label.
fn has_pattern(patterns: &[Text], label: &str, job: &str) -> bool
    ensures { result ≡ list_any (λ pattern. fits pattern label.now || fits pattern job.now) patterns.now }
{
    patterns.iter().any(|pattern| fits(pattern.as_str(), label) || fits(pattern.as_str(), job))
}

// Returns the label of a job: of a crontab's job what its name has before the number of its line, and of a timer its name.
fn label_in(job: &str) -> &str
    ensures { result.now ≡ label_in job.now }
{
    match cut_name(job) {
        Some((label, line)) if has_only_digits(line) => label,
        _ => job,
    }
}
