//! The scripts that the jobs of a crontab may run by run-parts on a machine (run-parts(8) of Debian).

ghost use Rattle.std.specs.Prelude.{◌≡◌, ◌≤◌, ◌++◌, true, [], IfOk, OnOk, length, map};
ghost use Rattle.std.specs.List.{cons_option};
ghost use Rattle.plan_rules.specs.FileText.{text_reading};
ghost use Rattle.plan_texts.specs.Limits.{most_bytes};
ghost use Rattle.plan_idle.specs.Known.{places_of};
ghost use Rattle.plan_runs.specs.Scripts.{command_scripts, scripts_from, scripts_of_lines, scripts_on};
ghost use Rattle.plan_runs.specs.Settings.{first_settings};

use crate::commands::{LineCommand, line_command};
use crate::settings::Settings;
use plan_idle::{KnownPlaces, scripts_run};
use plan_rules::{Kind, text_of};
use plan_texts::Text;
use plan_texts::lines::lines;
use plan_tree::Tree;
use std::alloc::{AllocError, Global};
use std::marker::Model;

/// The scripts that the job of a line may run.
#[derive(Debug, Drop)]
pub struct LineScripts {
    /// The number of the line, from 1.
    pub line: u32,
    /// The paths of the scripts, in the order in which they are run.
    pub scripts: Vec<Text>,
}

impl Model for LineScripts {
    ghost use Rattle.plan_runs.specs.Texts.{KnownScripts};

    ghost Value = { KnownScripts };

    ghost view = { λ one. record { line = one.line; scripts = one.scripts.items } };
}

/// Returns the scripts that the jobs of a crontab may run by `run-parts DIR` on a machine with these files. Only lines that
/// have some are in the list, in order.
///
/// A command is read as by `active_crontab`. Bytes that are no text of a crontab have no jobs.
///
/// # Errors
///
/// `AllocError` if an allocation fails.
pub fn scripts_of_lines<T: Tree>(
    alloc: Global,
    tree: &T,
    kind: Kind,
    owner: &str,
    bytes: &[u8],
) -> Result<Vec<LineScripts>, AllocError>
    ensures { T.is_known ≡ true → IfOk result (λ lines.
        lines.items ≡ scripts_of_lines (T.held tree.now) kind owner.now (text_reading bytes.now)) }
{
    let Ok(text) = text_of(bytes) else {
        return Ok(Vec::new(alloc));
    };
    let lines = lines(alloc, text)?;
    let places = KnownPlaces::of_tree(alloc, tree)?;
    scripts_from(alloc, tree, &places, kind, owner, lines.as_slice())
}

// Returns the scripts of the jobs of lines.
fn scripts_from<T: Tree>(
    alloc: Global,
    tree: &T,
    places: &KnownPlaces,
    kind: Kind,
    owner: &str,
    lines: &[&str],
) -> Result<Vec<LineScripts>, AllocError>
    requires { length lines.now ≤ most_bytes }
    ensures { T.is_known ≡ true → places.now ≡ places_of (T.held tree.now) → IfOk result (λ found.
        found.items ≡ scripts_from (T.held tree.now) kind (first_settings owner.now) 1 (map (λ line. line.now) lines.now)) }
{
    let mut found = Vec::new(alloc);
    let mut settings = Settings::new(owner);
    let mut number = 1;
    for line in lines {
        let command = line_command(alloc, kind, &settings, number, line)?;
        let scripts = command_scripts(alloc, tree, places, &settings, command)?;
        add_scripts(&mut found, number, scripts)?;
        settings = settings.after(line);
        number = number.saturating_add(1);
    }
    Ok(found)
}

// Returns the scripts of a command.
fn command_scripts<T: Tree>(
    alloc: Global,
    tree: &T,
    places: &KnownPlaces,
    settings: &Settings<'_>,
    command: Option<LineCommand>,
) -> Result<Vec<Text>, AllocError>
    ensures { T.is_known ≡ true → places.now ≡ places_of (T.held tree.now) → IfOk result (λ scripts.
        scripts.items ≡ command_scripts (T.held tree.now) settings.now command) }
{
    match command {
        Some(command) => {
            let asker = settings.asker(command.is_root);
            scripts_run(alloc, &command.list, tree, places, asker)
        }
        None => Ok(Vec::new(alloc)),
    }
}

// Adds the scripts of a line, if it has some.
fn add_scripts(
    found: &mut Vec<LineScripts>,
    line: u32,
    scripts: Vec<Text>,
) -> Result<(), AllocError>
    ensures { OnOk result (found.new.items ≡ found.old.items ++ cons_option (scripts_on line scripts.items) []) }
{
    if !scripts.is_empty() {
        found.push(LineScripts { line, scripts })?;
    }
    Ok(())
}
