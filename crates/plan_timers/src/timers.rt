//! The timers of a machine, one after the other.

ghost use Rattle.std.specs.Prelude.{◌≡◌, true, IfOk, IfNone, IfSome, filter};
ghost use Rattle.plan_units.specs.Reach.{AreTooMany};
ghost use Rattle.plan_units.specs.Timers.{first_unit, is_timer};
ghost use Rattle.plan_units.specs.Wants.{wants_of};
ghost use Rattle.plan_timers.specs.Timers.{AreMachineTimers, file_timers, found_view, has_file, skipped_of_dirs, timer_names, timers_among, timers_of_units, with_drop_in_dirs, with_more, with_timers};
ghost use Rattle.plan_timers.specs.Unwanted.{unwanted_timers};
ghost use Rattle.plan_timers.specs.Wishes.{units_view};

use crate::dirs::{skipped_dirs, skipped_drop_in_dirs};
use crate::links::link_dirs;
use crate::order::in_timer_order;
use crate::read_dirs::skipped_links;
use crate::reports::Skipped;
use crate::source::TimerSource;
use crate::timer::with_timer;
use crate::units::Units;
use crate::unwanted::unwanted_timers;
use plan_tree::{Name, Tree, in_order};
use plan_units::{UnitDir, add_new, entries_among, is_timer, reached_units, unit_of};
use std::alloc::{AllocError, Global};

/// The timers that are sources, and what is skipped.
#[derive(Debug, Drop)]
pub struct TimersFound {
    /// The timers that are sources, in their order.
    pub sources: Vec<TimerSource>,
    /// What is skipped, in the order in which it was found.
    pub skipped: Vec<Skipped>,
}

/// Returns the timers of a machine that are sources, and what is skipped: those that the boot reaches, and with `all` each
/// one that has a file. Returns `None` if the boot reaches more than 10,000 units.
///
/// Of each file the first `most` bytes are read, or all if there are fewer.
///
/// # Errors
///
/// `AllocError` if an allocation fails.
pub fn machine_timers<T: Tree>(
    alloc: Global,
    tree: &T,
    dirs: &[UnitDir],
    all: bool,
    most: u64,
) -> Result<Option<TimersFound>, AllocError>
    ensures all { T.is_known ≡ true → IfOk result (λ found.
        IfSome found (λ timers. AreMachineTimers (T.held tree.now) dirs.now all most (found_view timers))) }
    ensures too_many { T.is_known ≡ true → IfOk result (λ found.
        IfNone found (AreTooMany (wants_of (T.held tree.now) dirs.now) first_unit)) }
{
    let first = Name::at(alloc, "default.target")?;
    match reached_units(alloc, tree, dirs, first)? {
        None => Ok(None),
        Some(reached) => Ok(Some(timers_among(alloc, tree, dirs, reached, all, most)?)),
    }
}

// Returns the timers of a machine whose boot reaches these names.
fn timers_among<T: Tree>(
    alloc: Global,
    tree: &T,
    dirs: &[UnitDir],
    reached: Vec<Name>,
    all: bool,
    most: u64,
) -> Result<TimersFound, AllocError>
    ensures { T.is_known ≡ true → IfOk result (λ found. found_view found
        ≡ timers_among (T.held tree.now) dirs.now all most reached.items) }
{
    let reached = in_order(reached);
    let links = link_dirs(alloc, tree, dirs)?;
    let units = Units {
        dirs,
        links: links.as_slice(),
        reached: reached.as_slice(),
        most,
    };
    timers_of_units(alloc, tree, &units, all)
}

// Returns the timers of the machine that has these units, and what is skipped.
fn timers_of_units<T: Tree>(
    alloc: Global,
    tree: &T,
    units: &Units<'_>,
    all: bool,
) -> Result<TimersFound, AllocError>
    ensures { T.is_known ≡ true → IfOk result (λ found. found_view found
        ≡ timers_of_units (T.held tree.now) (units_view units.now) all) }
{
    let names = timer_names(alloc, tree, units.dirs, units.reached, all)?;
    let names = in_timer_order(alloc, names)?;
    let found = TimersFound {
        sources: Vec::new(alloc),
        skipped: skipped_of_dirs(alloc, tree, units)?,
    };
    let found = with_timers(alloc, tree, units, found, names)?;
    let found = with_drop_in_dirs(alloc, tree, units, found)?;
    if all {
        return Ok(found);
    }
    let more = unwanted_timers(alloc, tree, units)?;
    with_more(found, more)
}

// Returns what was found, and what is skipped of the directories of the drop-ins of its timers.
fn with_drop_in_dirs<T: Tree>(
    alloc: Global,
    tree: &T,
    units: &Units<'_>,
    found: TimersFound,
) -> Result<TimersFound, AllocError>
    ensures { T.is_known ≡ true → IfOk result (λ after. found_view after
        ≡ with_drop_in_dirs (T.held tree.now) (units_view units.now) (found_view found)) }
{
    let more = skipped_drop_in_dirs(alloc, tree, units.dirs, found.sources.as_slice())?;
    with_more(found, more)
}

// Returns what is skipped of the directories of units, and of those of links.
fn skipped_of_dirs<T: Tree>(
    alloc: Global,
    tree: &T,
    units: &Units<'_>,
) -> Result<Vec<Skipped>, AllocError>
    ensures { T.is_known ≡ true → IfOk result (λ skipped.
        skipped.items ≡ skipped_of_dirs (T.held tree.now) (units_view units.now)) }
{
    let mut skipped = skipped_dirs(alloc, tree, units.dirs)?;
    let mut more = skipped_links(alloc, tree, units.dirs, units.reached, units.links)?;
    skipped.append(&mut more)?;
    Ok(skipped)
}

// Returns what was found, and what else is skipped.
fn with_more(found: TimersFound, more: Vec<Skipped>) -> Result<TimersFound, AllocError>
    ensures { IfOk result (λ after. found_view after ≡ with_more (found_view found) more.items) }
{
    let mut more = more;
    let mut found = found;
    found.skipped.append(&mut more)?;
    Ok(found)
}

// Returns what was found, and what is found of some timers, first to last.
fn with_timers<T: Tree>(
    alloc: Global,
    tree: &T,
    units: &Units<'_>,
    found: TimersFound,
    names: Vec<Name>,
) -> Result<TimersFound, AllocError>
    ensures { T.is_known ≡ true → IfOk result (λ after. found_view after
        ≡ with_timers (T.held tree.now) (units_view units.now) (found_view found) names.items) }
{
    let mut found = found;
    for name in names {
        found = with_timer(alloc, tree, units, found, name)?;
    }
    Ok(found)
}

/// Returns the names of timers among those that the boot reaches, and with `all` also those that have a file.
///
/// # Errors
///
/// `AllocError` if an allocation fails.
pub fn timer_names<T: Tree>(
    alloc: Global,
    tree: &T,
    dirs: &[UnitDir],
    reached: &[Name],
    all: bool,
) -> Result<Vec<Name>, AllocError>
    ensures { T.is_known ≡ true → IfOk result (λ names.
        names.items ≡ timer_names (T.held tree.now) dirs.now all reached.now) }
{
    let mut names = timers_in(alloc, reached)?;
    if all {
        let more = file_timers(alloc, tree, dirs)?;
        add_new(&mut names, more)?;
    }
    Ok(names)
}

// Returns copies of the names that are those of timers.
fn timers_in(alloc: Global, names: &[Name]) -> Result<Vec<Name>, AllocError>
    ensures { IfOk result (λ timers. timers.items ≡ filter is_timer names.now) }
{
    let mut timers = Vec::new(alloc);
    for name in names {
        if is_timer(name) {
            timers.push(Name::at(alloc, name.as_str())?)?;
        }
    }
    Ok(timers)
}

// Returns the names of timers that have a file, in byte order.
fn file_timers<T: Tree>(alloc: Global, tree: &T, dirs: &[UnitDir]) -> Result<Vec<Name>, AllocError>
    ensures { T.is_known ≡ true → IfOk result (λ names.
        names.items ≡ file_timers (T.held tree.now) dirs.now) }
{
    let found = entries_among(alloc, tree, dirs)?;
    let mut names = Vec::new(alloc);
    for entry in found.as_slice() {
        if has_file(alloc, tree, dirs, &entry.name)? {
            names.push(Name::at(alloc, entry.name.as_str())?)?;
        }
    }
    Ok(names)
}

// Returns whether a name is that of a timer that has a file.
fn has_file<T: Tree>(
    alloc: Global,
    tree: &T,
    dirs: &[UnitDir],
    name: &Name,
) -> Result<bool, AllocError>
    ensures { T.is_known ≡ true → IfOk result (λ has.
        has ≡ has_file (T.held tree.now).node dirs.now name.now) }
{
    if !is_timer(name) {
        return Ok(false);
    }
    let unit = unit_of(alloc, tree, dirs, name.as_str())?;
    Ok(unit.is_some())
}
