//! The command of a line's job, as sh(1) reads it.

ghost use Rattle.std.specs.Prelude.{◌≡◌, [], IfOk, option_map};
ghost use Rattle.plan_rules.specs.Crontab.{line_reading};
ghost use Rattle.plan_runs.specs.Commands.{is_roots_job, job_command, line_command};

use crate::settings::Settings;
use plan_cron::shell_command;
use plan_rules::{Kind, crontab_entry};
use plan_shell::ShellList;
use std::alloc::{AllocError, Global};

/// The command of a job.
#[derive(Drop)]
pub(crate) struct LineCommand {
    /// Whether root runs it.
    pub(crate) is_root: bool,
    /// What it runs.
    pub(crate) list: ShellList,
}

/// Returns the command of the job of a line with this number, if commands are read there. Returns `None` without a job, and
/// if its command isn't read.
///
/// # Errors
///
/// `AllocError` if an allocation fails.
pub(crate) fn line_command(
    alloc: Global,
    kind: Kind,
    settings: &Settings<'_>,
    number: u32,
    line: &str,
) -> Result<Option<LineCommand>, AllocError>
    ensures { IfOk result (λ command. command ≡ line_command kind settings.now number line.now) }
{
    if !settings.is_read() {
        return Ok(None);
    }
    job_command(alloc, kind, settings.is_roots(), number, line)
}

// Returns the same where commands are read.
fn job_command(
    alloc: Global,
    kind: Kind,
    is_roots: bool,
    number: u32,
    line: &str,
) -> Result<Option<LineCommand>, AllocError>
    ensures { IfOk result (λ command. command ≡ job_command is_roots (line_reading [] kind number line.now)) }
{
    let Some(entry) = crontab_entry(alloc, "", kind, number, line)? else {
        return Ok(None);
    };
    let Ok(job) = entry.read else {
        return Ok(None);
    };
    let command = shell_command(alloc, job.command().as_bytes())?;
    match ShellList::read(alloc, command.as_slice())? {
        Some(list) => Ok(Some(LineCommand {
            is_root: is_roots_job(is_roots, job.user()),
            list,
        })),
        None => Ok(None),
    }
}

// Returns whether the user of a job is root.
fn is_roots_job(is_roots: bool, user: Option<&str>) -> bool
    ensures { result ≡ is_roots_job is_roots (option_map (λ user. user.now) user.entry) }
{
    match user {
        None => is_roots,
        Some(user) => user == "root",
    }
}
