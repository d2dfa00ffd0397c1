//! The jobs of a crontab that run nothing with an effect on a machine.

ghost use Rattle.std.specs.Prelude.{◌≡◌, ◌≤◌, ◌++◌, true, ◌∷◌, [], IfOk, OnOk, length, map};
ghost use Rattle.std.specs.List.{cons_option};
ghost use Rattle.std.specs.Str.{byte};
ghost use Rattle.plan_rules.specs.FileText.{text_reading};
ghost use Rattle.plan_texts.specs.Limits.{most_bytes};
ghost use Rattle.plan_idle.specs.Known.{places_of};
ghost use Rattle.plan_runs.specs.Idle.{ActiveTextIsRead, IdleJobsAreLeftOut, active_crontab, active_lines, all_active, command_why, idle_on, kept_line};

use crate::commands::{LineCommand, line_command};
use crate::settings::Settings;
use plan_idle::{KnownPlaces, TreeLooks, idle_reason};
use plan_rules::{Kind, text_of};
use plan_texts::Text;
use plan_texts::lines::lines;
use plan_tree::Tree;
use std::alloc::{AllocError, Global};
use std::marker::Model;

/// A job of a crontab whose command runs nothing that has an effect.
#[derive(Debug, Drop)]
pub struct IdleJob {
    /// The number of its line, from 1.
    pub line: u32,
    /// Why it is idle.
    pub why: Text,
}

/// What a crontab starts on a machine.
#[derive(Debug, Drop)]
pub struct ActiveCrontab {
    /// The text of the crontab, with an empty line in place of each line of an idle job.
    pub text: Vec<u8>,
    /// The idle jobs, in the order of their lines.
    pub idle: Vec<IdleJob>,
}

impl Model for ActiveCrontab {
    ghost use Rattle.plan_runs.specs.Texts.{KnownActive};

    ghost Value = { KnownActive };

    ghost view = { λ active. record { text = active.text.items; idle = active.idle.items } };
}

/// Returns what a crontab starts on a machine with these files: its text without the lines of idle jobs, and these jobs.
///
/// A job is idle if nothing with an effect can run on the machine, such as in `test -x /usr/sbin/anacron || run-parts DIR`
/// with anacron. Its command is read as by sh(1), up to the first `%` (crontab(5)). Programs are where the last `PATH=`
/// above its line says. If the last `SHELL=` above it isn't sh, dash or bash in /bin or /usr/bin, the job isn't idle; nor if it is
/// bash, and `BASH_ENV=` is above the line.
///
/// `owner` is the name of the user who owns the crontab. A crontab of the system has a user in each line.
///
/// The other lines keep their numbers. If no job is idle, or the bytes are no text of a crontab, they are unchanged.
///
/// # Errors
///
/// `AllocError` if an allocation fails.
pub fn active_crontab<T: Tree>(
    alloc: Global,
    tree: &T,
    kind: Kind,
    owner: &str,
    bytes: &[u8],
) -> Result<ActiveCrontab, AllocError>
    ensures { T.is_known ≡ true → IfOk result (λ active.
        active ≡ active_crontab (T.held tree.now) kind owner.now bytes.now (text_reading bytes.now)) }
{
    let Ok(text) = text_of(bytes) else {
        return all_active(alloc, bytes);
    };
    let lines = lines(alloc, text)?;
    let places = KnownPlaces::of_tree(alloc, tree)?;
    let active = active_lines(alloc, tree, &places, kind, owner, lines.as_slice())?;
    if active.idle.is_empty() {
        return all_active(alloc, bytes);
    }
    Ok(active)
}

// Returns that nothing is idle.
fn all_active(alloc: Global, bytes: &[u8]) -> Result<ActiveCrontab, AllocError>
    ensures { IfOk result (λ active. active ≡ all_active bytes.now) }
{
    Ok(ActiveCrontab {
        text: Vec::from_slice(alloc, bytes)?,
        idle: Vec::new(alloc),
    })
}

// Returns lines with an empty line in place of each line of an idle job, and these jobs.
fn active_lines<T: Tree>(
    alloc: Global,
    tree: &T,
    places: &KnownPlaces,
    kind: Kind,
    owner: &str,
    lines: &[&str],
) -> Result<ActiveCrontab, AllocError>
    requires { length lines.now ≤ most_bytes }
    ensures { T.is_known ≡ true → places.now ≡ places_of (T.held tree.now) → IfOk result (λ active.
        active ≡ active_lines (T.held tree.now) kind owner.now (map (λ line. line.now) lines.now)) }
{
    let mut text = Vec::new(alloc);
    let mut idle = Vec::new(alloc);
    let mut settings = Settings::new(owner);
    let mut number = 1;
    for line in lines {
        let command = line_command(alloc, kind, &settings, number, line)?;
        let why = command_why(alloc, tree, places, &settings, command)?;
        add_line(&mut text, &why, line)?;
        add_idle(&mut idle, number, why)?;
        settings = settings.after(line);
        number = number.saturating_add(1);
    }
    Ok(ActiveCrontab { text, idle })
}

// Returns why a command is idle, if it is.
fn command_why<T: Tree>(
    alloc: Global,
    tree: &T,
    places: &KnownPlaces,
    settings: &Settings<'_>,
    command: Option<LineCommand>,
) -> Result<Option<Text>, AllocError>
    ensures { T.is_known ≡ true → places.now ≡ places_of (T.held tree.now) → IfOk result (λ why.
        why ≡ command_why (T.held tree.now) settings.now command) }
{
    match command {
        Some(command) => {
            let looks = TreeLooks::new(tree, places, settings.asker(command.is_root));
            idle_reason(alloc, &command.list, &looks)
        }
        None => Ok(None),
    }
}

// Adds a line to a text, or an empty one in its place.
fn add_line(text: &mut Vec<u8>, why: &Option<Text>, line: &str) -> Result<(), AllocError>
    ensures { OnOk result (text.new.items ≡ text.old.items ++ kept_line why.now line.now ++ byte "\n" ∷ []) }
{
    if why.is_none() {
        text.extend_from_slice(line.as_bytes())?;
    }
    text.push(b'\n')?;
    Ok(())
}

// Adds a job that is idle for this reason.
fn add_idle(idle: &mut Vec<IdleJob>, line: u32, why: Option<Text>) -> Result<(), AllocError>
    ensures { OnOk result (idle.new.items ≡ idle.old.items ++ cons_option (idle_on line why) []) }
{
    match why {
        Some(why) => {
            idle.push(IdleJob { line, why })?;
            Ok(())
        }
        None => Ok(()),
    }
}

/// The text of a crontab without its idle jobs makes the entries of the other lines, with the same numbers.
#[tactic(auto, using(crate::proofs::IdleLemmas::idle_jobs_are_left_out))]
pub fn idle_jobs_are_left_out()
    ensures { IdleJobsAreLeftOut }
{}

/// The text of a crontab without its idle jobs is a text of a crontab too: neither too large nor other than UTF-8.
#[tactic(auto, using(crate::proofs::TextLemmas::active_text_is_read))]
pub fn active_text_is_read()
    ensures { ActiveTextIsRead }
{}
