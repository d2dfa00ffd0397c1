//! Crontabs, and the jobs of their lines (crontab(5)).

ghost use Rattle.std.specs.Prelude.{◌≡◌, ◌≢◌, ◌≤◌, ◌↔◌, Bool, false, Err, IfErr, IfOk, IsTrue, length, map, option_map, string_bytes};
ghost use Rattle.std.specs.Result.{result_map_both};
ghost use Rattle.std.specs.Str.{is_utf8};
ghost use Rattle.plan_texts.specs.Limits.{most_bytes};
ghost use Rattle.plan_texts.specs.Steps.{GivesUnless};
ghost use Rattle.plan_texts.specs.Lines.{after_blanks, is_too_large};
ghost use Rattle.plan_rules.specs.LineFaults.{of_whole, want_of_memory, GivesLine, IsOwnCause};
ghost use Rattle.plan_rules.specs.Entries.{entry_on, meant_by};
ghost use Rattle.plan_rules.specs.Crontab.{command_reading, what_reading, job_name, job_reading, begins_setting, setting_reading, line_reading, entries_of_lines, crontab_reading};

use crate::entry::Entry;
use crate::file_text::text_of;
use crate::job::Job;
use crate::line_fault::{LineCause, LineFault};
use plan_grammar::rule_in_front;
use plan_texts::lines::{after_blanks, cut_word, lines};
use std::alloc::{AllocError, Global};
use std::sync::Arc;

/// Whose crontab it is, which decides what follows the rule of a line.
#[derive(Clone, Copy, Debug, PartialEq, Eq)]
pub enum Kind {
    /// A user's crontab: the command follows the rule.
    User,
    /// The system's crontab: the user who runs the command comes between the rule and the command.
    System,
}

/// Returns the jobs of a crontab, in the order of their lines (crontab(5)).
///
/// A line is one of these:
///
/// - empty
/// - a comment, which begins with `#`
/// - a setting, which begins with a letter, `_` or a quote
/// - a job: a word that begins with `@`, or five fields, as `cron_rule` reads them; then in the system's
///   crontab a user; then the command, to the end of the line
///
/// The job of line n, from 1, is named `LABEL:n`, with the given label.
///
/// # Errors
///
/// `TooLarge` for more than 1,048,576 bytes, then `NotUtf8`, both with line 0; then the error of the first
/// bad line: `BadSetting` if a setting has no `=`; `Rule` if a job's rule is invalid; `NoCommand` if no
/// command or, in the system's crontab, no user follows the rule. `NoMemory`, with line 0, if an allocation
/// fails.
pub fn crontab(alloc: Global, label: &str, bytes: &[u8], kind: Kind) -> Result<Vec<Job>, LineFault>
    ensures meaning { GivesUnless want_of_memory (λ jobs. jobs.items) result
        (crontab_reading label.now kind bytes.now) }
    // These two are found before the first allocation.
    ensures too_large { (result ≡ Err (of_whole LineCause.TooLarge)) ↔ IsTrue (is_too_large bytes.now) }
    ensures not_utf8 { (result ≡ Err (of_whole LineCause.NotUtf8))
        ↔ ((is_too_large bytes.now ≡ false) × (is_utf8 bytes.now ≡ false)) }
    ensures memory { IfErr result (λ fault. fault.cause ≡ LineCause.NoMemory → fault.line ≡ 0) }
    ensures own_cause { IfErr result (λ fault. IsOwnCause fault.cause) }
    // The name of a file is not checked here.
    ensures no_name { IfErr result (λ fault. fault.cause ≢ LineCause.BadTabName) }
{
    let text = text_of(bytes)?;
    let lines = lines(alloc, text)?;
    jobs_of_lines(alloc, label, kind, lines.as_slice())
}

/// Returns the entry of one line of a crontab, whose number counts from 1 (crontab(5)): its job, or the error
/// for which it is rejected. Returns `None` if the line is neither a job nor an error.
///
/// The line is read as by `crontab`, which makes the same job of it, no matter what is wrong with other lines.
///
/// # Errors
///
/// Fails if an allocation fails.
pub fn crontab_entry(
    alloc: Global,
    label: &str,
    kind: Kind,
    number: u32,
    line: &str,
) -> Result<Option<Entry<Job>>, AllocError>
    ensures { IfOk result (λ entry. entry ≡ entry_on number (line_reading label.now kind number line.now)) }
{
    let read = match job_of_line(alloc, label, kind, number, line) {
        Ok(None) => return Ok(None),
        Ok(Some(job)) => Ok(job),
        Err(LineCause::NoMemory) => return Err(AllocError),
        Err(cause) => Err(cause),
    };
    Ok(Some(Entry { line: number, read }))
}

// Returns the jobs of lines, in order, or the error of the first rejected line.
fn jobs_of_lines(
    alloc: Global,
    label: &str,
    kind: Kind,
    lines: &[&str],
) -> Result<Vec<Job>, LineFault>
    requires { length lines.now ≤ most_bytes }
    ensures { GivesUnless want_of_memory (λ jobs. jobs.items) result
        (meant_by (entries_of_lines label.now kind (map (λ line. line.now) lines.now))) }
{
    let mut jobs = Vec::new(alloc);
    for (place, line) in lines.iter().enumerate() {
        if let Some(entry) = crontab_entry(alloc, label, kind, place as u32 + 1, line)? {
            jobs.push(entry.accepted()?)?;
        }
    }
    Ok(jobs)
}

// Returns the job of a line, if it has one. The first character decides what the line is.
#[tactic(auto, unfolding(crate::specs::Crontab::line_reading))]
fn job_of_line(
    alloc: Global,
    label: &str,
    kind: Kind,
    number: u32,
    line: &str,
) -> Result<Option<Job>, LineCause>
    ensures { GivesLine result (line_reading label.now kind number line.now) }
{
    let line = after_blanks(line);
    match line.as_bytes().first() {
        None | Some(b'#') => Ok(None),
        Some(first) if begins_setting(*first) => setting(line),
        Some(_) => Ok(Some(job(alloc, label, kind, number, line)?)),
    }
}

// Returns whether a line that begins with this byte is a setting.
fn begins_setting(first: u8) -> bool
    ensures { result ≡ begins_setting first }
{
    first.is_ascii_alphabetic() || matches!(first, b'_' | b'"' | b'\'')
}

// A setting has no effect, but must have an `=`.
fn setting(line: &str) -> Result<Option<Job>, LineCause>
    ensures { result ≡ setting_reading line.now }
{
    if !line.as_bytes().contains(&b'=') {
        return Err(LineCause::BadSetting);
    }
    Ok(None)
}

// Returns the job of a line without leading blanks.
#[tactic(auto, unfolding(crate::specs::Crontab::job_reading))]
fn job(alloc: Global, label: &str, kind: Kind, number: u32, line: &str) -> Result<Job, LineCause>
    ensures { GivesLine result (job_reading label.now kind number line.now) }
{
    let (rule, rest) = rule_in_front(alloc, line)?;
    let (user, command) = what(alloc, kind, rest)?;
    let name = job_name(alloc, label, number)?;
    let rule = Arc::new(alloc, rule)?;
    Ok(Job::new(name, user, command, rule, 0, false))
}

// Returns what the job of a line runs, from the text that follows its rule: the user, if the line names one,
// and the command.
#[tactic(auto, unfolding(crate::specs::Crontab::what_reading))]
fn what(alloc: Global, kind: Kind, text: &str) -> Result<(Option<String>, String), LineCause>
    ensures { GivesUnless LineCause.NoMemory (λ run. (option_map (λ user. string_bytes user) run.0, string_bytes run.1)) result
        (what_reading kind text.now) }
{
    match kind {
        Kind::User => Ok((None, String::from_str(alloc, command(text)?)?)),
        Kind::System => {
            let (user, rest) = cut_word(text).ok_or(LineCause::NoCommand)?;
            let command = command(rest)?;
            let user = String::from_str(alloc, user)?;
            Ok((Some(user), String::from_str(alloc, command)?))
        }
    }
}

// Returns the command: the text without leading blanks, to the end of the line.
#[tactic(auto, using(crate::proofs::CrontabLemmas::no_command, crate::proofs::CrontabLemmas::a_command))]
fn command(text: &str) -> Result<&str, LineCause>
    ensures { result_map_both (λ command. command.now) (λ cause. cause) result
        ≡ command_reading (after_blanks text.now) }
{
    let command = after_blanks(text);
    if command.is_empty() {
        return Err(LineCause::NoCommand);
    }
    Ok(command)
}

/// Returns the name of the job of a crontab's line, `LABEL:n` for line n.
///
/// # Errors
///
/// `AllocError` if an allocation fails.
pub fn job_name(alloc: Global, label: &str, number: u32) -> Result<String, AllocError>
    ensures { IfOk result (λ name. string_bytes name ≡ job_name label.now number) }
{
    format!(in alloc; "{label}:{number}")
}
