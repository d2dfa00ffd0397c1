//! The crontabs of a machine that the program which reads them ignores, for what their texts don't say.

ghost use Rattle.std.specs.Prelude.{◌≡◌, true, IfOk};
ghost use Rattle.plan_machine.specs.Ignored.{cron_of, ignored_among, ignored_source};

use crate::daemon::lacks_cron_daemon;
use crate::source::MachineSource;
use plan_owners::{CronDaemon, Daemon, file_why};
use plan_timers::{NotPlanned, Unplanned, copy_of};
use plan_tree::Tree;
use std::alloc::{AllocError, Global};
use std::marker::Model;

// Which program reads the crontabs of a machine, and which of them it ignores.
#[derive(Debug, Drop)]
pub(crate) struct CronState {
    // The crontabs that it ignores.
    pub(crate) ignored: Vec<NotPlanned>,
    // Whether there are crontabs, but no program that reads them.
    pub(crate) lacks_daemon: bool,
    // Which program it is.
    pub(crate) daemon: CronDaemon,
}

impl Model for CronState {
    ghost use Rattle.plan_machine.specs.Ignored.{KnownCron};

    ghost Value = { KnownCron };

    ghost view = { λ cron. record {
      ignored = cron.ignored.items;
      lacks_daemon = cron.lacks_daemon;
      daemon = cron.daemon;
    } };
}

// Returns which program reads these crontabs of a machine, and which of them it ignores.
pub(crate) fn cron_of<T: Tree>(
    alloc: Global,
    tree: &T,
    sources: &[MachineSource],
) -> Result<CronState, AllocError>
    ensures { T.is_known ≡ true → IfOk result (λ cron. cron ≡ cron_of (T.held tree.now) sources.now) }
{
    let daemon = Daemon::of_machine(alloc, tree)?;
    let ignored = ignored_among(alloc, tree, &daemon, sources)?;
    let lacks_daemon = lacks_cron_daemon(alloc, tree, sources)?;
    Ok(CronState {
        ignored,
        lacks_daemon,
        daemon: daemon.program(),
    })
}

// Returns those of some sources that are ignored.
fn ignored_among<T: Tree>(
    alloc: Global,
    tree: &T,
    daemon: &Daemon,
    sources: &[MachineSource],
) -> Result<Vec<NotPlanned>, AllocError>
    ensures { T.is_known ≡ true → IfOk result (λ ignored.
        ignored.items ≡ ignored_among (T.held tree.now) daemon.now sources.now) }
{
    let mut ignored = Vec::new(alloc);
    for source in sources {
        if let Some(one) = ignored_source(alloc, tree, daemon, source)? {
            ignored.push(one)?;
        }
    }
    Ok(ignored)
}

// Returns a source, if its file is ignored.
fn ignored_source<T: Tree>(
    alloc: Global,
    tree: &T,
    daemon: &Daemon,
    source: &MachineSource,
) -> Result<Option<NotPlanned>, AllocError>
    ensures { T.is_known ≡ true → IfOk result (λ ignored.
        ignored ≡ ignored_source (T.held tree.now) daemon.now source.now) }
{
    let Some(file) = source.parts().files().first() else {
        return Ok(None);
    };
    let Some(ignored) = file_why(alloc, tree, daemon, source.kind(), file)? else {
        return Ok(None);
    };
    let path = copy_of(alloc, file.path())?;
    let why = match ignored.line {
        Some(line) => Unplanned::LineNotLoaded(line, ignored.why),
        None => Unplanned::NotLoaded(ignored.why),
    };
    Ok(Some(NotPlanned { path, why }))
}
