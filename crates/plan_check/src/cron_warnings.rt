//! The warnings on lines of a crontab that cron ignores with the whole crontab, or reads otherwise (cron 3.0pl1).

ghost use Rattle.std.specs.Prelude.{◌≡◌, ◌++◌, IsOk, None, OnOk, length, option_map, string_bytes};
ghost use Rattle.plan_texts.specs.Lines.{lines};
ghost use Rattle.plan_check.specs.CronWarnings.{cron_warnings, end_warnings, fault_warnings, ignored_job, is_first, other_job, place_warnings, placed, user_warnings};

use crate::finding::{Finding, FindingKind, Warning};
use crate::report::{add_detailed, add_detailed_if, add_quoting_if};
use plan_clock::Clock;
use plan_cron::{
    begins_with_star, ends_at_nul, has_two_backslashes, is_no_user, is_setting_of_word,
    is_too_long, is_unended, setting_fault,
};
use plan_rules::{Job, Kind};
use std::alloc::{AllocError, Global};

const IGNORES: FindingKind = FindingKind::Warned(Warning::CronIgnores);

const DIFFERS: FindingKind = FindingKind::Warned(Warning::CronDiffers);

// Adds the warnings on the job of a line with a text, by how cron reads it.
pub(crate) fn add_cron_warnings(
    alloc: Global,
    found: &mut Vec<Finding>,
    kind: Kind,
    line: u32,
    text: &str,
    job: &Job,
) -> Result<(), AllocError>
    ensures { OnOk result (found.new.items ≡ found.old.items ++ cron_warnings kind line text.now job.now) }
{
    add_ignored_job(alloc, found, kind, line, text, job.command())?;
    add_other_job(alloc, found, line, text, job.command())?;
    add_user_warnings(alloc, found, line, job.user())
}

// Adds the warnings on a line of a job for which cron ignores the crontab.
fn add_ignored_job(
    alloc: Global,
    found: &mut Vec<Finding>,
    kind: Kind,
    line: u32,
    text: &str,
    command: &str,
) -> Result<(), AllocError>
    ensures { OnOk result (found.new.items ≡ found.old.items ++ ignored_job kind line text.now command.now) }
{
    let star = "the command begins with *";
    add_detailed_if(
        alloc,
        found,
        begins_with_star(kind, command),
        line,
        IGNORES,
        star,
    )?;
    let long = "command over 998 bytes";
    add_detailed_if(alloc, found, is_too_long(kind, text), line, IGNORES, long)
}

// Adds the warnings on a line of a job that cron reads otherwise.
fn add_other_job(
    alloc: Global,
    found: &mut Vec<Finding>,
    line: u32,
    text: &str,
    command: &str,
) -> Result<(), AllocError>
    ensures { OnOk result (found.new.items ≡ found.old.items ++ other_job line text.now command.now) }
{
    let setting = "cron reads this as a setting: the command begins with =";
    add_detailed_if(
        alloc,
        found,
        is_setting_of_word(text),
        line,
        DIFFERS,
        setting,
    )?;
    let is_so = has_two_backslashes(command.as_bytes());
    let removed = "cron removes one of two backslashes";
    add_detailed_if(alloc, found, is_so, line, DIFFERS, removed)
}

// Adds the warning on the user of a line, if it has one.
fn add_user_warnings(
    alloc: Global,
    found: &mut Vec<Finding>,
    line: u32,
    user: Option<&str>,
) -> Result<(), AllocError>
    ensures { OnOk result (found.new.items ≡ found.old.items ++ user_warnings line (option_map (λ user. user.now) user.entry)) }
{
    match user {
        Some(user) => {
            let kind = FindingKind::Warned(Warning::NoUser);
            add_quoting_if(alloc, found, is_no_user(user), line, kind, user)
        }
        None => Ok(()),
    }
}

// Adds the warnings on a line by its place and its bytes, if there is a clock.
pub(crate) fn add_place_warnings(
    alloc: Global,
    found: &mut Vec<Finding>,
    clock: &Option<Clock>,
    is_beyond: bool,
    line: u32,
    text: &str,
) -> Result<(), AllocError>
    ensures warnings { OnOk result (found.new.items ≡ found.old.items ++ place_warnings clock.now is_beyond line text.now) }
    ensures at_once { clock.now ≡ None → IsOk result }
{
    match clock {
        Some(_) => add_placed(alloc, found, is_beyond, line, text),
        None => Ok(()),
    }
}

// Adds the warnings on a line by its place and its bytes.
fn add_placed(
    alloc: Global,
    found: &mut Vec<Finding>,
    is_beyond: bool,
    line: u32,
    text: &str,
) -> Result<(), AllocError>
    ensures { OnOk result (found.new.items ≡ found.old.items ++ placed is_beyond line text.now) }
{
    let many = "more than 10003 lines";
    add_detailed_if(alloc, found, is_beyond, line, IGNORES, many)?;
    let nul = "cron ends the line at a NUL byte";
    add_detailed_if(alloc, found, ends_at_nul(text), line, DIFFERS, nul)
}

// Adds the warning on a line that makes no job, if there is a clock.
pub(crate) fn add_fault_warnings(
    alloc: Global,
    found: &mut Vec<Finding>,
    clock: &Option<Clock>,
    line: u32,
    text: &str,
) -> Result<(), AllocError>
    ensures { OnOk result (found.new.items ≡ found.old.items ++ fault_warnings clock.now line text.now) }
{
    if clock.is_none() {
        return Ok(());
    }
    let fault = setting_fault(alloc, text)?;
    add_detailed(found, line, IGNORES, None, fault)
}

// Adds the warning on the end of a crontab's text with this number of lines, if there is a clock.
pub(crate) fn add_end_warnings(
    alloc: Global,
    found: &mut Vec<Finding>,
    clock: &Option<Clock>,
    text: &str,
    count: u32,
) -> Result<(), AllocError>
    requires { count ≡ length (lines text.now) }
    ensures { OnOk result (found.new.items ≡ found.old.items ++ end_warnings clock.now text.now) }
{
    if clock.is_none() {
        return Ok(());
    }
    let unended = "no newline at its end";
    add_detailed_if(alloc, found, is_unended(text), count, IGNORES, unended)
}

// Returns whether a line is the first one below the last line that cron accepts.
pub(crate) fn is_first(beyond: Option<u32>, line: u32) -> bool
    ensures { result ≡ is_first beyond line }
{
    match beyond {
        Some(first) => first == line,
        None => false,
    }
}
