//! What the daemons of a machine load of a source, and what is said of the rest.

ghost use Rattle.std.specs.Prelude.{◌≡◌, IfOk};
ghost use Rattle.plan_parts.specs.Parts.{text_of};
ghost use Rattle.plan_loads.specs.Loading.{all_loaded, crontab_loading, is_ignored, is_of_file, is_whole, kind_loading, loading_of, nothing_loaded};

use crate::cron_lines::cron_loading;
use crate::timer_lines::timer_loading;
use crate::zone_lines::zone_loading;
use plan_owners::CronDaemon;
use plan_parts::Parts;
use plan_rules::{Kind, SourceKind};
use plan_timers::{NotPlanned, Unplanned};
use std::alloc::{AllocError, Global};
use std::marker::Model;

/// What the daemons of a machine load of a source.
#[derive(Debug, Drop)]
pub struct Loading {
    /// The text that they load, or `None` if they load nothing.
    pub text: Option<Vec<u8>>,
    /// What isn't planned of the source.
    pub reports: Vec<NotPlanned>,
}

impl Model for Loading {
    ghost use Rattle.std.specs.Option.{option_map};
    ghost use Rattle.plan_loads.specs.Texts.{KnownLoading};

    ghost Value = { KnownLoading };

    ghost view = { λ loading. record {
      text = option_map (λ text. text.items) loading.text;
      reports = loading.reports.items;
    } };
}

/// Returns what the daemons of a machine load of a source of this kind, with these parts, by its text. `unplanned` is what
/// isn't planned on the machine already: a file in it that cron ignores isn't loaded.
///
/// Debian's cron loads all of a crontab or nothing: it ignores the whole file for a line that it can't read, for a line below line
/// 10,003, and without a newline at its end (cron 3.0pl1).
///
/// Of a crontab cronie loads the lines up to a setting `CRON_TZ`. It starts the jobs below that in the zone of the setting, which
/// agenda doesn't read.
///
/// systemd loads nothing of a timer with a bad header of a section or without a valid trigger, and of other timers all but the
/// events that it rejects (systemd 252).
///
/// # Errors
///
/// `AllocError` if an allocation fails.
pub fn loading_of(
    alloc: Global,
    unplanned: &[NotPlanned],
    daemon: CronDaemon,
    kind: SourceKind,
    parts: &Parts,
) -> Result<Loading, AllocError>
    ensures { IfOk result (λ loading. loading ≡ loading_of unplanned.now daemon kind parts.now) }
{
    match parts.files().first() {
        Some(file) => {
            if is_ignored(unplanned, file.path()) {
                return Ok(nothing_loaded(alloc));
            }
            kind_loading(alloc, daemon, kind, parts, file.path())
        }
        None => kind_loading(alloc, daemon, kind, parts, ""),
    }
}

// Returns what is loaded of a source, whose first file has this path.
fn kind_loading(
    alloc: Global,
    daemon: CronDaemon,
    kind: SourceKind,
    parts: &Parts,
    path: &str,
) -> Result<Loading, AllocError>
    ensures { IfOk result (λ loading. loading ≡ kind_loading daemon kind parts.now path.now (text_of parts.now)) }
{
    let text = parts.text();
    match kind {
        SourceKind::Crontab | SourceKind::Spool => {
            crontab_loading(alloc, daemon, Kind::User, path, text)
        }
        SourceKind::System | SourceKind::CronD => {
            crontab_loading(alloc, daemon, Kind::System, path, text)
        }
        SourceKind::Timer => timer_loading(alloc, parts, path, text),
    }
}

// Returns what is loaded of a crontab.
fn crontab_loading(
    alloc: Global,
    daemon: CronDaemon,
    kind: Kind,
    path: &str,
    text: &[u8],
) -> Result<Loading, AllocError>
    ensures { IfOk result (λ loading. loading ≡ crontab_loading daemon kind path.now text.now) }
{
    match daemon {
        CronDaemon::Debian => cron_loading(alloc, kind, path, text),
        CronDaemon::Cronie => zone_loading(alloc, kind, path, text),
        CronDaemon::Other => all_loaded(alloc, text),
    }
}

// Returns that nothing is loaded.
fn nothing_loaded(alloc: Global) -> Loading
    ensures { result ≡ nothing_loaded }
{
    Loading {
        text: None,
        reports: Vec::new(alloc),
    }
}

// Returns that all of a text is loaded.
pub(crate) fn all_loaded(alloc: Global, text: &[u8]) -> Result<Loading, AllocError>
    ensures { IfOk result (λ loading. loading ≡ all_loaded text.now) }
{
    Ok(Loading {
        text: Some(Vec::from_slice(alloc, text)?),
        reports: Vec::new(alloc),
    })
}

// Returns whether a file isn't loaded at all, by what isn't planned.
fn is_ignored(unplanned: &[NotPlanned], path: &str) -> bool
    ensures { result ≡ is_ignored unplanned.now path.now }
{
    unplanned.iter().any(|one| is_of_file(path, one))
}

// Returns whether something that isn't planned is the whole file with this path.
fn is_of_file(path: &str, one: &NotPlanned) -> bool
    ensures { result ≡ is_of_file path.now one.now }
{
    is_whole(&one.why) && one.path.as_str() == path
}

// Returns whether a file isn't loaded at all for this reason.
fn is_whole(why: &Unplanned) -> bool
    ensures { result ≡ is_whole why.now }
{
    matches!(why, Unplanned::NotLoaded(_) | Unplanned::LineNotLoaded(..))
}
