//! The settings of a crontab that say how its commands are read and where programs are (crontab(5), environment settings).

ghost use Rattle.std.specs.Prelude.{◌≡◌};
ghost use Rattle.std.specs.List.{list_any};
ghost use Rattle.std.specs.Str.{bytes_eq};
ghost use Rattle.plan_runs.specs.Idle.{asker_of};
ghost use Rattle.plan_runs.specs.Settings.{bash_shells, first_settings, is_quoted, is_read, path_names, read_shells, settings_after, shell_names, start_file_names, unquoted};

use plan_idle::Asker;
use plan_rules::setting_of;
use std::marker::Model;

// The PATH of cron(8), where a crontab doesn't set it.
const DEFAULT_PATH: &str = "/usr/bin:/bin";

/// The settings that are in force at a line.
#[derive(Drop)]
pub(crate) struct Settings<'a> {
    // Whether root owns the crontab.
    is_roots: bool,
    // The PATH.
    path: &'a str,
    // Whether the commands of the shell are read.
    is_shell_read: bool,
    // Whether the shell is bash.
    is_bash: bool,
    // Whether bash reads a file first.
    has_start_file: bool,
}

impl<'a> Model for Settings<'a> {
    ghost use Rattle.plan_runs.specs.Settings.{Settings};

    ghost Value = { Settings };

    ghost view = { λ settings. record {
      is_roots = settings.is_roots;
      path = settings.path.now;
      is_shell_read = settings.is_shell_read;
      is_bash = settings.is_bash;
      has_start_file = settings.has_start_file;
    } };
}

impl<'a> Settings<'a> {
    /// Returns those at the first line of a crontab that this user owns.
    pub(crate) fn new(owner: &str) -> Settings<'a>
        ensures { result ≡ first_settings owner.now }
    {
        Settings {
            is_roots: owner == "root",
            path: DEFAULT_PATH,
            is_shell_read: true,
            is_bash: false,
            has_start_file: false,
        }
    }

    /// Returns those below a line.
    pub(crate) fn after(self, line: &'a str) -> Settings<'a>
        ensures { result ≡ settings_after self.entry line.now }
    {
        let Some((name, value)) = setting_of(line) else {
            return self;
        };
        let value = unquoted(value);
        let mut settings = self;
        if is_path(name) {
            settings.path = value;
        } else if is_shell(name) {
            settings.is_shell_read = is_read_shell(value);
            settings.is_bash = is_bash(value);
        } else if is_start_file(name) {
            settings.has_start_file = true;
        }
        settings
    }

    /// Returns whether commands are read.
    pub(crate) fn is_read(&self) -> bool
        ensures { result ≡ is_read self.now }
    {
        self.is_shell_read && !(self.is_bash && self.has_start_file)
    }

    /// Returns whether root owns the crontab.
    pub(crate) fn is_roots(&self) -> bool
        ensures { result ≡ self.now.is_roots }
    {
        self.is_roots
    }

    /// Returns who looks, if root or another user runs a command.
    pub(crate) fn asker(&self, is_root: bool) -> Asker<'a>
        ensures { result ≡ asker_of self.now is_root }
    {
        Asker {
            is_root,
            is_bash: self.is_bash,
            path: self.path,
        }
    }
}

// Returns whether this is the name of the setting PATH, in quotes or without.
fn is_path(name: &str) -> bool
    ensures { result ≡ list_any (bytes_eq name.now) path_names }
{
    matches!(name, "PATH" | "\"PATH\"" | "'PATH'")
}

// Returns whether this is the name of the setting SHELL, in quotes or without.
fn is_shell(name: &str) -> bool
    ensures { result ≡ list_any (bytes_eq name.now) shell_names }
{
    matches!(name, "SHELL" | "\"SHELL\"" | "'SHELL'")
}

// Returns whether this is the name of the setting BASH_ENV, in quotes or without.
fn is_start_file(name: &str) -> bool
    ensures { result ≡ list_any (bytes_eq name.now) start_file_names }
{
    matches!(name, "BASH_ENV" | "\"BASH_ENV\"" | "'BASH_ENV'")
}

// Returns whether the commands of a shell are read.
fn is_read_shell(shell: &str) -> bool
    ensures { result ≡ list_any (bytes_eq shell.now) read_shells }
{
    matches!(
        shell,
        "/bin/sh" | "/bin/dash" | "/bin/bash" | "/usr/bin/sh" | "/usr/bin/dash" | "/usr/bin/bash"
    )
}

// Returns whether a shell is bash.
fn is_bash(shell: &str) -> bool
    ensures { result ≡ list_any (bytes_eq shell.now) bash_shells }
{
    matches!(shell, "/bin/bash" | "/usr/bin/bash")
}

// Returns a value without the quotes around it.
#[tactic(auto, using(crate::proofs::SettingsLemmas::boundary_after_quote, crate::proofs::SettingsLemmas::boundary_before_quote))]
fn unquoted(value: &str) -> &str
    ensures { result.now ≡ unquoted value.now }
{
    if is_quoted(b'"', value.as_bytes()) || is_quoted(b'\'', value.as_bytes()) {
        &value[1..value.len() - 1]
    } else {
        value
    }
}

// Returns whether a value has these quotes around it.
fn is_quoted(quote: u8, value: &[u8]) -> bool
    ensures { result ≡ is_quoted quote value.now }
{
    match value {
        [first, .., last] => *first == quote && *last == quote,
        _ => false,
    }
}
