//! Whether a cron daemon is there.

ghost use Rattle.std.specs.Prelude.{◌≡◌, true, IfOk, map};
ghost use Rattle.plan_machine.specs.Files.{lead_of};
ghost use Rattle.plan_machine.specs.Daemon.{daemon_paths, has_cron_daemon, has_crontab, is_crontab_kind, lacks_cron_daemon, may_be_file};

use crate::files::{is_file, lead_of};
use crate::source::MachineSource;
use plan_rules::SourceKind;
use plan_tree::{End, Tree};
use std::alloc::{AllocError, Global};

/// Returns whether crontabs are among the sources, but no program that reads crontabs is there.
///
/// # Errors
///
/// `AllocError` if an allocation fails.
pub fn lacks_cron_daemon<T: Tree>(
    alloc: Global,
    tree: &T,
    sources: &[MachineSource],
) -> Result<bool, AllocError>
    ensures { T.is_known ≡ true → IfOk result (λ lacks.
        lacks ≡ lacks_cron_daemon (T.held tree.now).node sources.now) }
{
    if !has_crontab(sources) {
        return Ok(false);
    }
    Ok(!has_cron_daemon(alloc, tree)?)
}

/// Returns whether a program that reads crontabs is there. One that may be there counts.
///
/// # Errors
///
/// `AllocError` if an allocation fails.
#[tactic(auto, unfolding(crate::specs::Daemon::has_cron_daemon))]
pub fn has_cron_daemon<T: Tree>(alloc: Global, tree: &T) -> Result<bool, AllocError>
    ensures { T.is_known ≡ true → IfOk result (λ has. has ≡ has_cron_daemon (T.held tree.now).node) }
{
    for path in &daemon_paths() {
        if may_be_file(alloc, tree, path)? {
            return Ok(true);
        }
    }
    Ok(false)
}

// Returns the paths of the programs that read crontabs.
fn daemon_paths() -> [&'static str; 8]
    ensures { map (λ path. path.now) result ≡ daemon_paths }
{
    [
        "usr/sbin/cron",
        "usr/sbin/crond",
        "usr/bin/crond",
        "usr/sbin/cronie",
        "usr/sbin/fcron",
        "usr/sbin/bcron-sched",
        "usr/lib/systemd/system-generators/systemd-crontab-generator",
        "lib/systemd/system-generators/systemd-crontab-generator",
    ]
}

// Returns whether a path leads to a regular file, or may lead to one.
fn may_be_file<T: Tree>(alloc: Global, tree: &T, path: &str) -> Result<bool, AllocError>
    ensures { T.is_known ≡ true → IfOk result (λ may.
        may ≡ may_be_file (T.held tree.now).node (lead_of (T.held tree.now).node path.now)) }
{
    match lead_of(alloc, tree, path)? {
        End::Found(real) => Ok(is_file(&tree.node(alloc, real.as_str())?)),
        End::Nothing => Ok(false),
        End::Unknown => Ok(true),
    }
}

// Returns whether a crontab is among the sources.
fn has_crontab(sources: &[MachineSource]) -> bool
    ensures { result ≡ has_crontab sources.now }
{
    sources.iter().any(|source| is_crontab_kind(source.kind()))
}

// Returns whether a source of this kind is a crontab.
fn is_crontab_kind(kind: SourceKind) -> bool
    ensures { result ≡ is_crontab_kind kind }
{
    match kind {
        SourceKind::Crontab | SourceKind::System | SourceKind::CronD | SourceKind::Spool => true,
        SourceKind::Timer => false,
    }
}
