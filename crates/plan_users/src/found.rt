//! What is found of the timers of a user.

ghost use Rattle.std.specs.Prelude.{◌≡◌, [], true, IfOk, OnOk, map};
ghost use Rattle.std.specs.Option.{option_map};
ghost use Rattle.plan_timers.specs.Timers.{found_view};
ghost use Rattle.plan_users.specs.Found.{first_at_home, found_for, is_at_home, job_of, joined, lingerless_by, lingerless_of};
ghost use Rattle.plan_users.specs.Found.{nothing, planned_of, user_timer, users_view};

use crate::dirs::{config_dir, data_dir};
use crate::lingering::lingers;
use crate::managers::Manager;
use plan_services::{PlannedTimers, planned_timers};
use plan_texts::Text;
use plan_timers::{NotPlanned, Skipped, TimerSource, TimersFound, Unplanned, copy_of};
use plan_tree::{Place, Tree};
use plan_units::{UnitDir, is_below};
use std::alloc::{AllocError, Global};

/// What is found of the timers of users.
#[derive(Debug, Drop)]
pub struct UserTimers {
    /// The timers that are planned. The name of the job of each is the user's name, a slash, and the name that it would have as a
    /// timer of the system.
    pub timers: Vec<TimerSource>,
    /// What is skipped, in the order in which it was found. Directories that several users read may come more than once.
    pub skipped: Vec<Skipped>,
    /// What isn't planned: of a user who lingers the timers whose unit can't start, and of another one the first timer whose file
    /// is in the user's home directory.
    pub unplanned: Vec<NotPlanned>,
}

// Returns that nothing is found.
pub(crate) fn nothing(alloc: Global) -> UserTimers
    ensures { users_view result ≡ nothing }
{
    UserTimers {
        timers: Vec::new(alloc),
        skipped: Vec::new(alloc),
        unplanned: Vec::new(alloc),
    }
}

// Returns what is found, and then what else is.
pub(crate) fn joined(found: UserTimers, more: UserTimers) -> Result<UserTimers, AllocError>
    ensures { IfOk result (λ all. users_view all ≡ joined (users_view found) (users_view more)) }
{
    let mut found = found;
    let mut more = more;
    found.timers.append(&mut more.timers)?;
    found.skipped.append(&mut more.skipped)?;
    found.unplanned.append(&mut more.unplanned)?;
    Ok(found)
}

// Returns what is found for a user with these timers, by whether the user lingers.
pub(crate) fn found_for<T: Tree>(
    alloc: Global,
    tree: &T,
    dirs: &[UnitDir],
    manager: &Manager,
    timers: TimersFound,
) -> Result<UserTimers, AllocError>
    ensures { T.is_known ≡ true → IfOk result (λ found.
        users_view found ≡ found_for (T.held tree.now) dirs.now manager.now (found_view timers)) }
{
    if lingers(alloc, tree, manager.user.as_str())? {
        planned_of(alloc, tree, dirs, manager.user.as_str(), timers)
    } else {
        lingerless_of(alloc, manager, timers)
    }
}

// Returns what is found for a user who lingers.
fn planned_of<T: Tree>(
    alloc: Global,
    tree: &T,
    dirs: &[UnitDir],
    user: &str,
    timers: TimersFound,
) -> Result<UserTimers, AllocError>
    ensures { T.is_known ≡ true → IfOk result (λ found.
        users_view found ≡ planned_of (T.held tree.now) dirs.now user.now (found_view timers)) }
{
    let TimersFound { sources, skipped } = timers;
    let PlannedTimers { planned, others } = planned_timers(alloc, tree, dirs, sources)?;
    Ok(UserTimers {
        timers: timers_of(alloc, user, planned)?,
        skipped,
        unplanned: others,
    })
}

// Returns some timers as those of a user.
fn timers_of(
    alloc: Global,
    user: &str,
    sources: Vec<TimerSource>,
) -> Result<Vec<TimerSource>, AllocError>
    ensures { IfOk result (λ timers. timers.items ≡ map (user_timer user.now) sources.items) }
{
    let mut timers = Vec::new(alloc);
    for source in sources {
        timers.push(user_timer(alloc, user, source)?)?;
    }
    Ok(timers)
}

// Returns a timer as that of a user.
fn user_timer(alloc: Global, user: &str, source: TimerSource) -> Result<TimerSource, AllocError>
    ensures { IfOk result (λ timer. timer ≡ user_timer user.now source) }
{
    let TimerSource {
        unit,
        name,
        file,
        drop_ins,
    } = source;
    let name = job_of(alloc, user, name.as_str())?;
    Ok(TimerSource {
        unit,
        name,
        file,
        drop_ins,
    })
}

// Returns the name of a user's job.
fn job_of(alloc: Global, user: &str, name: &str) -> Result<Text, AllocError>
    ensures { IfOk result (λ job. job ≡ job_of user.now name.now) }
{
    let mut job = String::from_str(alloc, user)?;
    job.push_str("/")?;
    job.push_str(name)?;
    Ok(Text::new(job))
}

// Returns what is found for a user who doesn't linger.
fn lingerless_of(
    alloc: Global,
    manager: &Manager,
    timers: TimersFound,
) -> Result<UserTimers, AllocError>
    ensures { IfOk result (λ found. users_view found ≡ lingerless_of manager.now (found_view timers)) }
{
    let path = first_at_home(alloc, &manager.home, timers.sources.as_slice())?;
    let mut found = nothing(alloc);
    found.unplanned = lingerless_by(alloc, manager.user.as_str(), path)?;
    Ok(found)
}

// Returns that a user doesn't linger, by the path of a timer, if there is one.
fn lingerless_by(
    alloc: Global,
    user: &str,
    path: Option<Text>,
) -> Result<Vec<NotPlanned>, AllocError>
    ensures { IfOk result (λ found. found.items ≡ lingerless_by user.now path) }
{
    let mut found = Vec::new(alloc);
    if let Some(path) = path {
        let why = Unplanned::NotLingering(copy_of(alloc, user)?);
        found.push(NotPlanned { path, why })?;
    }
    Ok(found)
}

// Returns the file of the first of some timers whose file is in a home directory.
fn first_at_home(
    alloc: Global,
    home: &Place,
    sources: &[TimerSource],
) -> Result<Option<Text>, AllocError>
    ensures { IfOk result (λ path. path ≡ first_at_home home.now sources.now) }
{
    for source in sources {
        if is_at_home(alloc, home, source.file.path())? {
            return Ok(Some(copy_of(alloc, source.file.path())?));
        }
    }
    Ok(None)
}

// Returns whether a path is in one of the directories of units in a home directory.
fn is_at_home(alloc: Global, home: &Place, path: &str) -> Result<bool, AllocError>
    ensures { IfOk result (λ is. is ≡ is_at_home home.now path.now) }
{
    let config = config_dir(alloc, home)?;
    let share = data_dir(alloc, home)?;
    Ok(is_below(alloc, path, config.as_str())? || is_below(alloc, path, share.as_str())?)
}
