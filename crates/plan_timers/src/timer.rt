//! One timer: its files, or why it is no source.

ghost use Rattle.std.specs.Prelude.{◌≡◌, true, IfOk};
ghost use Rattle.plan_timers.specs.Names.{job_of};
ghost use Rattle.plan_timers.specs.Timers.{found_view, is_alias, is_taken, timer_file, with_file, with_job, with_skipped, with_source, with_timer, with_wish};
ghost use Rattle.plan_timers.specs.Wishes.{units_view};

use crate::files::{FoundFiles, found_file, found_files};
use crate::names::{job_name, name_fault};
use crate::reports::{Skipped, Why, copy_of};
use crate::source::TimerSource;
use crate::timers::TimersFound;
use crate::units::Units;
use crate::wish::wish_of;
use plan_parts::Part;
use plan_texts::Text;
use plan_tree::{Name, Tree};
use plan_units::{Unit, drop_in_entries, unit_of};
use std::alloc::{AllocError, Global};

// Why a timer has no file that can be read.
#[derive(Debug, Drop)]
pub(crate) enum NoFile {
    // What enables it is skipped.
    Wish(Why),
    // Its file is skipped.
    File(Skipped),
}

/// Returns what was found so far, and one more timer. An alias is the timer that it names, so it adds nothing.
///
/// # Errors
///
/// `AllocError` if an allocation fails.
pub fn with_timer<T: Tree>(
    alloc: Global,
    tree: &T,
    units: &Units<'_>,
    found: TimersFound,
    name: Name,
) -> Result<TimersFound, AllocError>
    ensures { T.is_known ≡ true → IfOk result (λ after. found_view after
        ≡ with_timer (T.held tree.now) (units_view units.now) (found_view found) name) }
{
    let unit = unit_of(alloc, tree, units.dirs, name.as_str())?;
    if is_alias(&name, &unit) {
        return Ok(found);
    }
    with_own_name(alloc, tree, units, found, name, &unit)
}

// Returns what was found so far, and one more timer, whose name isn't an alias.
fn with_own_name<T: Tree>(
    alloc: Global,
    tree: &T,
    units: &Units<'_>,
    found: TimersFound,
    name: Name,
    unit: &Option<Unit>,
) -> Result<TimersFound, AllocError>
    ensures { T.is_known ≡ true → IfOk result (λ after. found_view after
        ≡ with_job (T.held tree.now) (units_view units.now) (found_view found) name (job_of name)
        (timer_file (T.held tree.now) units.now.most name unit.now)) }
{
    let job = job_name(alloc, name.as_str())?;
    let file = timer_file(alloc, tree, units.most, name.as_str(), unit)?;
    with_job(alloc, tree, units, found, name, job, file)
}

// Returns whether a name is an alias of its unit.
fn is_alias(name: &Name, unit: &Option<Unit>) -> bool
    ensures { result ≡ is_alias name.now unit.now }
{
    match unit {
        None => false,
        Some(unit) => unit.name != *name,
    }
}

// Returns the file of a timer by its unit, or why it has none that can be read. The outer error is a failed allocation.
fn timer_file<T: Tree>(
    alloc: Global,
    tree: &T,
    most: u64,
    name: &str,
    unit: &Option<Unit>,
) -> Result<Result<Part, NoFile>, AllocError>
    ensures { T.is_known ≡ true → IfOk result (λ file.
        file ≡ timer_file (T.held tree.now) most name.now unit.now) }
{
    if let Some(why) = name_fault(name) {
        return Ok(Err(NoFile::Wish(why)));
    }
    let Some(unit) = unit else {
        return Ok(Err(NoFile::Wish(Why::NoSuchTimer)));
    };
    match found_file(
        alloc,
        tree,
        most,
        unit.file.path.as_str(),
        unit.file.real.as_str(),
    )? {
        Ok(file) => Ok(Ok(file)),
        Err(skipped) => Ok(Err(NoFile::File(skipped))),
    }
}

// Returns what was found, and a timer whose job has this name, by its file.
fn with_job<T: Tree>(
    alloc: Global,
    tree: &T,
    units: &Units<'_>,
    found: TimersFound,
    name: Name,
    job: Text,
    file: Result<Part, NoFile>,
) -> Result<TimersFound, AllocError>
    ensures { T.is_known ≡ true → IfOk result (λ after. found_view after
        ≡ with_job (T.held tree.now) (units_view units.now) (found_view found) name job file) }
{
    match file {
        Err(NoFile::Wish(why)) => with_wish(alloc, tree, units, found, name.as_str(), why),
        Err(NoFile::File(skipped)) => with_skipped(found, skipped),
        Ok(file) => {
            if is_taken(found.sources.as_slice(), job.as_str()) {
                return with_wish(alloc, tree, units, found, name.as_str(), Why::NameTaken);
            }
            with_file(alloc, tree, units, found, name, job, file)
        }
    }
}

// Returns whether one of some sources has this name.
fn is_taken(sources: &[TimerSource], job: &str) -> bool
    ensures { result ≡ is_taken sources.now job.now }
{
    sources.iter().any(|source| source.name.as_str() == job)
}

// Returns what was found, and a timer that is a source.
fn with_file<T: Tree>(
    alloc: Global,
    tree: &T,
    units: &Units<'_>,
    found: TimersFound,
    unit: Name,
    name: Text,
    file: Part,
) -> Result<TimersFound, AllocError>
    ensures { T.is_known ≡ true → IfOk result (λ after. found_view after
        ≡ with_file (T.held tree.now) (units_view units.now) (found_view found) unit name file) }
{
    let entries = drop_in_entries(alloc, tree, units.dirs, unit.as_str())?;
    let FoundFiles {
        files: drop_ins,
        skipped,
    } = found_files(alloc, tree, units.most, entries.as_slice())?;
    let source = TimerSource {
        unit,
        name,
        file,
        drop_ins,
    };
    with_source(found, source, skipped)
}

// Returns what was found, one more source, and what else is skipped.
fn with_source(
    found: TimersFound,
    source: TimerSource,
    more: Vec<Skipped>,
) -> Result<TimersFound, AllocError>
    ensures { IfOk result (λ after. found_view after ≡ with_source (found_view found) source more.items) }
{
    let mut found = found;
    let mut more = more;
    found.sources.push(source)?;
    found.skipped.append(&mut more)?;
    Ok(found)
}

// Returns what was found, and what enables a timer as skipped.
fn with_wish<T: Tree>(
    alloc: Global,
    tree: &T,
    units: &Units<'_>,
    found: TimersFound,
    name: &str,
    why: Why,
) -> Result<TimersFound, AllocError>
    ensures { T.is_known ≡ true → IfOk result (λ after. found_view after
        ≡ with_wish (T.held tree.now) (units_view units.now) (found_view found) name.now why) }
{
    let wish = wish_of(alloc, tree, units, name)?;
    let path = copy_of(alloc, wish.as_str())?;
    with_skipped(found, Skipped { path, why })
}

// Returns what was found, and one thing more that is skipped.
fn with_skipped(found: TimersFound, more: Skipped) -> Result<TimersFound, AllocError>
    ensures { IfOk result (λ after. found_view after ≡ with_skipped (found_view found) more) }
{
    let mut found = found;
    found.skipped.push(more)?;
    Ok(found)
}
