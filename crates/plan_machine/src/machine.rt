//! All that is found on a machine: its sources, what is skipped, and what isn't planned.

ghost use Rattle.std.specs.Prelude.{◌≡◌, ◌++◌, true, IfOk, IfNone, IfSome, OnOk, map, string_bytes};
ghost use Rattle.plan_timers.specs.Timers.{found_view};
ghost use Rattle.plan_timers.specs.declared.reports.Why.TheVariants.{NotReadable};
ghost use Rattle.plan_users.specs.Found.{users_view};
ghost use Rattle.plan_machine.specs.Machine.{AreTooManyBootUnits, AreTooManyUnits, IsMachine, IsMachineWith, distinct, machine_of, machine_view, machine_with, option_list, said, timer_source, unplanned_of, with_new};

use crate::cron::crontabs;
use crate::ignored::{CronState, cron_of};
use crate::others::{anacron_jobs, at_jobs, homeless_timers};
use crate::source::MachineSource;
use plan_owners::CronDaemon;
use plan_rules::{Names, SourceKind};
use plan_services::{PlannedTimers, planned_timers};
use plan_texts::Text;
use plan_timers::{NotPlanned, Skipped, TimerSource, TimersFound, Why, copy_of, machine_timers};
use plan_tree::{Complete, Listed, Tree};
use plan_units::{UnitDir, search_path};
use plan_users::{UserTimers, user_timers};
use std::alloc::{AllocError, Global};

/// What is found on a machine.
#[derive(Debug, Drop)]
pub struct Machine {
    /// The sources: crontabs, then the timers that are planned, those of the system and then those of users who linger.
    pub sources: Vec<MachineSource>,
    /// What is skipped: of crontabs, then of timers, then of users' timers, and then other paths that can't be read.
    pub skipped: Vec<Skipped>,
    /// What starts jobs but isn't planned: anacron, crontabs among the sources that cron ignores, timers whose unit can't start,
    /// at, timers of users: those of users in etc/passwd, and then directories of other homes.
    pub unplanned: Vec<NotPlanned>,
    /// Whether crontabs are among the sources, but no program that reads crontabs is there.
    pub lacks_cron_daemon: bool,
    /// The program that reads the crontabs.
    pub cron_daemon: CronDaemon,
}

/// Returns what is found on a machine: its crontabs, those of its timers that the boot reaches, or with `all` each one that has a
/// file, and the timers of users who linger. Returns `None` if the boot, or the manager of a user, reaches more than 10,000 units.
///
/// Of each file the first `most` bytes are read, or all if there are fewer. Read at least 1,048,577, one more than a text may
/// have: the unit that a timer starts is found in the bytes that were read.
///
/// # Errors
///
/// `AllocError` if an allocation fails.
pub fn find_machine<T: Complete>(
    alloc: Global,
    tree: &T,
    all: bool,
    most: u64,
) -> Result<Option<Machine>, AllocError>
    ensures found { T.is_known ≡ true → IfOk result (λ found.
        IfSome found (λ machine. IsMachine (T.held tree.now) all most machine)) }
    ensures too_many { T.is_known ≡ true → IfOk result (λ found.
        IfNone found (AreTooManyUnits (T.held tree.now))) }
{
    match user_timers(alloc, tree, most)? {
        None => Ok(None),
        Some(users) => {
            let listed = listed(alloc, tree)?;
            find_in_tree(alloc, &listed, all, most, users)
        }
    }
}

// Returns a tree that holds what `tree` does, and knows what is in the directories of units.
fn listed<'a, T: Complete>(alloc: Global, tree: &'a T) -> Result<Listed<'a, T>, AllocError>
    ensures { IfOk result (λ listed. ⟦<Listed<'a, T> as Tree>⟧.held listed ≡ T.held tree.now) }
{
    let dirs = search_path(alloc, tree)?;
    let mut paths = Vec::new(alloc);
    for dir in dirs.as_slice() {
        paths.push(dir.path.as_str())?;
        paths.push(dir.real.as_str())?;
    }
    Listed::new(alloc, tree, paths.as_slice())
}

// Does the same for a tree that is read at each path, with these timers of users.
fn find_in_tree<T: Tree>(
    alloc: Global,
    tree: &T,
    all: bool,
    most: u64,
    users: UserTimers,
) -> Result<Option<Machine>, AllocError>
    ensures found { T.is_known ≡ true → IfOk result (λ found.
        IfSome found (λ machine. IsMachineWith (T.held tree.now) all most (users_view users) machine)) }
    ensures too_many { T.is_known ≡ true → IfOk result (λ found.
        IfNone found (AreTooManyBootUnits (T.held tree.now))) }
{
    let dirs = search_path(alloc, tree)?;
    match machine_timers(alloc, tree, dirs.as_slice(), all, most)? {
        None => Ok(None),
        Some(timers) => {
            let machine = machine_of(alloc, tree, dirs.as_slice(), most, timers, users)?;
            Ok(Some(machine))
        }
    }
}

// Returns what is found on a machine with these timers, and these of users.
fn machine_of<T: Tree>(
    alloc: Global,
    tree: &T,
    dirs: &[UnitDir],
    most: u64,
    timers: TimersFound,
    users: UserTimers,
) -> Result<Machine, AllocError>
    ensures { T.is_known ≡ true → IfOk result (λ machine.
        machine_view machine ≡ machine_of (T.held tree.now) dirs.now most (found_view timers) (users_view users)) }
{
    let crontabs = crontabs(alloc, tree, most)?;
    let cron = cron_of(alloc, tree, crontabs.found())?;
    let (sources, skipped) = crontabs.into_lists();
    let TimersFound {
        sources: timers,
        skipped: more,
    } = timers;
    let UserTimers {
        timers: of_users,
        skipped: last,
        unplanned,
    } = users;
    let skipped = all_skipped(alloc, skipped, more, last)?;
    let timers = planned_timers(alloc, tree, dirs, timers)?;
    let timers = with_users(timers, of_users)?;
    let machine = machine_with(alloc, tree, sources, skipped, timers, unplanned, cron)?;
    with_failures(alloc, tree, machine)
}

// Returns a machine on which the paths at which errors occurred in its tree are skipped, too.
fn with_failures<T: Tree>(alloc: Global, tree: &T, machine: Machine) -> Result<Machine, AllocError>
    ensures { T.is_known ≡ true → IfOk result (λ all. all ≡ machine) }
{
    let failures = tree.failures(alloc, "")?;
    if failures.is_empty() {
        return Ok(machine);
    }
    with_skipped(alloc, machine, failures)
}

// Returns a machine on which these paths are skipped, too, since they can't be read.
fn with_skipped(alloc: Global, machine: Machine, paths: Vec<Text>) -> Result<Machine, AllocError>
    ensures skipped { IfOk result (λ all. all.skipped.items
        ≡ distinct (machine.skipped.items ++ map (λ path. record { path = path; why = NotReadable }) paths.items)) }
    ensures others { IfOk result (λ all. all ≡ record machine { skipped = all.skipped }) }
{
    let Machine {
        sources,
        mut skipped,
        unplanned,
        lacks_cron_daemon,
        cron_daemon,
    } = machine;
    for path in paths {
        let why = Why::NotReadable;
        skipped.push(Skipped { path, why })?;
    }
    let skipped = distinct(alloc, skipped)?;
    Ok(Machine {
        sources,
        skipped,
        unplanned,
        lacks_cron_daemon,
        cron_daemon,
    })
}

// Returns some timers, and then those of users.
fn with_users(timers: PlannedTimers, users: Vec<TimerSource>) -> Result<PlannedTimers, AllocError>
    ensures planned { IfOk result (λ all. all.planned.items ≡ timers.planned.items ++ users.items) }
    ensures others { IfOk result (λ all. all.others.items ≡ timers.others.items) }
{
    let PlannedTimers { planned, others } = timers;
    let mut planned = planned;
    let mut users = users;
    planned.append(&mut users)?;
    Ok(PlannedTimers { planned, others })
}

// Returns what is found on a machine with these sources in crontabs, these timers, and what isn't planned of users.
fn machine_with<T: Tree>(
    alloc: Global,
    tree: &T,
    sources: Vec<MachineSource>,
    skipped: Vec<Skipped>,
    timers: PlannedTimers,
    users: Vec<NotPlanned>,
    cron: CronState,
) -> Result<Machine, AllocError>
    ensures { T.is_known ≡ true → IfOk result (λ machine. machine_view machine
        ≡ machine_with (T.held tree.now) sources.items skipped.items timers.planned.items timers.others.items users.items cron) }
{
    let PlannedTimers { planned, others } = timers;
    let CronState {
        ignored,
        lacks_daemon,
        daemon,
    } = cron;
    let sources = with_timers(alloc, sources, planned)?;
    let unplanned = unplanned_of(alloc, tree, ignored, others, users)?;
    Ok(Machine {
        sources,
        skipped,
        unplanned,
        lacks_cron_daemon: lacks_daemon,
        cron_daemon: daemon,
    })
}

// Returns what is skipped in three lists, without what is said twice.
fn all_skipped(
    alloc: Global,
    skipped: Vec<Skipped>,
    more: Vec<Skipped>,
    last: Vec<Skipped>,
) -> Result<Vec<Skipped>, AllocError>
    ensures { IfOk result (λ once. once.items ≡ distinct ((skipped.items ++ more.items) ++ last.items)) }
{
    let mut skipped = skipped;
    let mut more = more;
    let mut last = last;
    skipped.append(&mut more)?;
    skipped.append(&mut last)?;
    distinct(alloc, skipped)
}

// Returns some sources, and those that some timers are.
fn with_timers(
    alloc: Global,
    sources: Vec<MachineSource>,
    timers: Vec<TimerSource>,
) -> Result<Vec<MachineSource>, AllocError>
    ensures { IfOk result (λ all. all.items ≡ sources.items ++ map timer_source timers.items) }
{
    let mut sources = sources;
    let mut more = timer_sources(alloc, timers)?;
    sources.append(&mut more)?;
    Ok(sources)
}

// Returns the sources that some timers are.
fn timer_sources(alloc: Global, timers: Vec<TimerSource>) -> Result<Vec<MachineSource>, AllocError>
    ensures { IfOk result (λ sources. sources.items ≡ map timer_source timers.items) }
{
    let mut sources = Vec::new(alloc);
    for timer in timers {
        sources.push(timer_source(alloc, timer)?)?;
    }
    Ok(sources)
}

// Returns the source that a timer is.
fn timer_source(alloc: Global, timer: TimerSource) -> Result<MachineSource, AllocError>
    ensures { IfOk result (λ source. source ≡ timer_source timer) }
{
    let name = copy_of(alloc, timer.name.as_str())?;
    let parts = timer.into_parts(alloc)?;
    Ok(MachineSource::new(SourceKind::Timer, name, parts))
}

// Returns what isn't planned on a machine, with these crontabs, these timers and these of users.
fn unplanned_of<T: Tree>(
    alloc: Global,
    tree: &T,
    crontabs: Vec<NotPlanned>,
    timers: Vec<NotPlanned>,
    users: Vec<NotPlanned>,
) -> Result<Vec<NotPlanned>, AllocError>
    ensures { T.is_known ≡ true → IfOk result (λ unplanned.
        unplanned.items ≡ unplanned_of (T.held tree.now) crontabs.items timers.items users.items) }
{
    let mut crontabs = crontabs;
    let mut timers = timers;
    let mut users = users;
    let mut unplanned = list_of(alloc, anacron_jobs(alloc, tree)?)?;
    unplanned.append(&mut crontabs)?;
    unplanned.append(&mut timers)?;
    let mut at = at_jobs(alloc, tree)?;
    unplanned.append(&mut at)?;
    unplanned.append(&mut users)?;
    let mut homeless = homeless_timers(alloc, tree)?;
    unplanned.append(&mut homeless)?;
    Ok(unplanned)
}

// Returns a list of what there is, if there is anything.
fn list_of(alloc: Global, found: Option<NotPlanned>) -> Result<Vec<NotPlanned>, AllocError>
    ensures { IfOk result (λ list. list.items ≡ option_list found) }
{
    let mut list = Vec::new(alloc);
    if let Some(found) = found {
        list.push(found)?;
    }
    Ok(list)
}

// Returns what is skipped, without what is said twice.
fn distinct(alloc: Global, skipped: Vec<Skipped>) -> Result<Vec<Skipped>, AllocError>
    ensures { IfOk result (λ once. once.items ≡ distinct skipped.items) }
{
    let mut once = Vec::new(alloc);
    let mut told = Names::new(alloc);
    for one in skipped {
        let text = said(alloc, &one)?;
        let is_new = !told.contains(text.as_str());
        told.add(alloc, text.as_str())?;
        add_if_new(&mut once, one, is_new)?;
    }
    Ok(once)
}

// Adds something that is skipped if it is new.
fn add_if_new(once: &mut Vec<Skipped>, one: Skipped, is_new: bool) -> Result<(), AllocError>
    ensures { OnOk result (once.new.items ≡ with_new once.old.items one is_new) }
{
    if is_new {
        once.push(one)?;
    }
    Ok(())
}

// Returns what is said of something that is skipped.
fn said(alloc: Global, one: &Skipped) -> Result<String, AllocError>
    ensures { IfOk result (λ text. string_bytes text ≡ said one.now) }
{
    let why = one.why.text(alloc)?;
    let mut text = String::from_str(alloc, one.path.as_str())?;
    text.push_str(": ")?;
    text.push_str(why.as_str())?;
    Ok(text)
}
