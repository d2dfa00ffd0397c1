//! The crontabs of a machine (cron(8)).

ghost use Rattle.std.specs.Prelude.{◌≡◌, true, IfOk};
ghost use Rattle.plan_machine.specs.Collection.{IsEachNameOnce};
ghost use Rattle.plan_machine.specs.Cron.{crontabs_of, with_cron_d, with_package, with_packages, with_system};

use crate::collection::MachineSources;
use crate::directories::{is_missing, look, read_directory};
use crate::files::{file_at, lead_of};
use crate::source::is_bad_name;
use crate::spool::with_spool;
use plan_rules::SourceKind;
use plan_timers::Why;
use plan_tree::{Name, Place, Tree};
use std::alloc::{AllocError, Global};

/// Returns the crontabs of a machine, and what is skipped of them: etc/crontab, then those of packages in etc/cron.d,
/// then those of users, each group in the order of the names.
///
/// A crontab that is a source can be read, and has its first `most` bytes, or all if there are fewer. With `most` 0
/// it is opened and not read.
///
/// # Errors
///
/// `AllocError` if an allocation fails.
pub fn crontabs<T: Tree>(alloc: Global, tree: &T, most: u64) -> Result<MachineSources, AllocError>
    ensures value { T.is_known ≡ true → IfOk result (λ all. all ≡ crontabs_of (T.held tree.now) most) }
    ensures names { T.is_known ≡ true → IfOk result (λ all. IsEachNameOnce all.found) }
{
    let system = with_system(alloc, tree, most, MachineSources::new(alloc))?;
    let packages = with_cron_d(alloc, tree, most, system)?;
    with_spool(alloc, tree, most, packages)
}

// Adds the system's crontab.
fn with_system<T: Tree>(
    alloc: Global,
    tree: &T,
    most: u64,
    all: MachineSources,
) -> Result<MachineSources, AllocError>
    ensures { T.is_known ≡ true → IfOk result (λ new. new ≡ with_system (T.held tree.now) most all) }
{
    let end = look(alloc, tree, "etc", "crontab")?;
    if is_missing(&end) {
        return Ok(all);
    }
    let file = file_at(alloc, tree, most, "etc/crontab", &end)?;
    all.with_file(alloc, SourceKind::System, "etc/crontab", "crontab", file)
}

// Adds the crontabs of packages.
fn with_cron_d<T: Tree>(
    alloc: Global,
    tree: &T,
    most: u64,
    all: MachineSources,
) -> Result<MachineSources, AllocError>
    ensures { T.is_known ≡ true → IfOk result (λ new. new ≡ with_cron_d (T.held tree.now) most all) }
{
    let end = look(alloc, tree, "etc", "cron.d")?;
    let (all, names) = read_directory(alloc, tree, all, "etc/cron.d", &end)?;
    with_packages(alloc, tree, most, "etc/cron.d", all, names.as_slice())
}

// Adds the crontabs of packages with these names.
fn with_packages<T: Tree>(
    alloc: Global,
    tree: &T,
    most: u64,
    dir: &str,
    all: MachineSources,
    names: &[Name],
) -> Result<MachineSources, AllocError>
    ensures { T.is_known ≡ true → IfOk result (λ new. new ≡ with_packages (T.held tree.now) most dir.now all names.now) }
{
    let mut all = all;
    for name in names {
        all = with_package(alloc, tree, most, dir, all, name.as_str())?;
    }
    Ok(all)
}

// Adds the crontab of a package.
fn with_package<T: Tree>(
    alloc: Global,
    tree: &T,
    most: u64,
    dir: &str,
    all: MachineSources,
    name: &str,
) -> Result<MachineSources, AllocError>
    ensures { T.is_known ≡ true → IfOk result (λ new. new ≡ with_package (T.held tree.now) most dir.now all name.now) }
{
    let path = Place::at(alloc, dir)?.child(alloc, name)?;
    if is_bad_name(SourceKind::CronD, name) {
        return all.with_skipped(alloc, path.as_str(), Why::BadName);
    }
    let end = lead_of(alloc, tree, path.as_str())?;
    let file = file_at(alloc, tree, most, path.as_str(), &end)?;
    all.with_file(alloc, SourceKind::CronD, path.as_str(), name, file)
}
