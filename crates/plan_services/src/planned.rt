//! The timers whose units can start, and why the others aren't planned (systemd.timer(5)).

ghost use Rattle.std.specs.Prelude.{◌≡◌, ◌++◌, [], true, IfOk, OnOk};
ghost use Rattle.plan_services.specs.Planned.{fault_by_unit, not_planned, other_by, planned, unit_fault, why_not, with_other, with_planned};

use crate::commands::is_idle;
use crate::started::started_unit;
use plan_timers::{NotPlanned, TimerSource, Unplanned, copy_of};
use plan_tree::Tree;
use plan_units::{Unit, UnitDir, is_mask, unit_of};
use std::alloc::{AllocError, Global};

/// Timers that are planned, and why others aren't.
#[derive(Debug, Drop)]
pub struct PlannedTimers {
    /// The timers that are planned.
    pub planned: Vec<TimerSource>,
    /// The others.
    pub others: Vec<NotPlanned>,
}

// What is wrong with a unit.
#[derive(Clone, Copy, Debug, PartialEq, Eq)]
pub(crate) enum UnitFault {
    // No file counts for it.
    Missing,
    // Its file is a mask.
    Masked,
    // It is a service without a command.
    Idle,
}

/// Returns which of some timers are planned, in their order: those whose unit has a file, isn't masked and can
/// start.
///
/// # Errors
///
/// `AllocError` if an allocation fails.
pub fn planned_timers<T: Tree>(
    alloc: Global,
    tree: &T,
    dirs: &[UnitDir],
    sources: Vec<TimerSource>,
) -> Result<PlannedTimers, AllocError>
    ensures planned { T.is_known ≡ true → IfOk result (λ found.
        found.planned.items ≡ planned (T.held tree.now) dirs.now sources.items) }
    ensures others { T.is_known ≡ true → IfOk result (λ found.
        found.others.items ≡ not_planned (T.held tree.now) dirs.now sources.items) }
{
    let mut planned = Vec::new(alloc);
    let mut others = Vec::new(alloc);
    for source in sources {
        let other = why_not(alloc, tree, dirs, &source)?;
        add(&mut planned, &mut others, source, other)?;
    }
    Ok(PlannedTimers { planned, others })
}

// Adds a timer to those that are planned, or to the others if there is a reason.
fn add(
    planned: &mut Vec<TimerSource>,
    others: &mut Vec<NotPlanned>,
    source: TimerSource,
    other: Option<NotPlanned>,
) -> Result<(), AllocError>
    ensures planned { OnOk result (planned.new.items ≡ planned.old.items ++ with_planned other source []) }
    ensures others { OnOk result (others.new.items ≡ others.old.items ++ with_other other []) }
{
    match other {
        None => planned.push(source)?,
        Some(other) => others.push(other)?,
    }
    Ok(())
}

// Returns why a timer isn't planned, or `None` if it is.
fn why_not<T: Tree>(
    alloc: Global,
    tree: &T,
    dirs: &[UnitDir],
    source: &TimerSource,
) -> Result<Option<NotPlanned>, AllocError>
    ensures { T.is_known ≡ true → IfOk result (λ other.
        other ≡ why_not (T.held tree.now) dirs.now source.now) }
{
    let unit = started_unit(alloc, source)?;
    let fault = unit_fault(alloc, tree, dirs, unit.as_str())?;
    other_by(alloc, source.file.path(), unit.as_str(), fault)
}

// Returns why a timer whose file has this path isn't planned, by what is wrong with its unit.
fn other_by(
    alloc: Global,
    path: &str,
    unit: &str,
    fault: Option<UnitFault>,
) -> Result<Option<NotPlanned>, AllocError>
    ensures { IfOk result (λ other. other ≡ other_by path.now unit.now fault) }
{
    let Some(fault) = fault else {
        return Ok(None);
    };
    let path = copy_of(alloc, path)?;
    let unit = copy_of(alloc, unit)?;
    let why = match fault {
        UnitFault::Missing => Unplanned::UnitMissing(unit),
        UnitFault::Masked => Unplanned::UnitMasked(unit),
        UnitFault::Idle => Unplanned::UnitIdle(unit),
    };
    Ok(Some(NotPlanned { path, why }))
}

// Returns what is wrong with the unit of a name.
fn unit_fault<T: Tree>(
    alloc: Global,
    tree: &T,
    dirs: &[UnitDir],
    name: &str,
) -> Result<Option<UnitFault>, AllocError>
    ensures { T.is_known ≡ true → IfOk result (λ fault.
        fault ≡ unit_fault (T.held tree.now) dirs.now name.now) }
{
    let unit = unit_of(alloc, tree, dirs, name)?;
    fault_by_unit(alloc, tree, dirs, &unit)
}

// Returns what is wrong with a unit, if there is one.
fn fault_by_unit<T: Tree>(
    alloc: Global,
    tree: &T,
    dirs: &[UnitDir],
    unit: &Option<Unit>,
) -> Result<Option<UnitFault>, AllocError>
    ensures { T.is_known ≡ true → IfOk result (λ fault.
        fault ≡ fault_by_unit (T.held tree.now) dirs.now unit.now) }
{
    let Some(unit) = unit else {
        return Ok(Some(UnitFault::Missing));
    };
    if is_mask(alloc, tree, unit.file.real.as_str())? {
        return Ok(Some(UnitFault::Masked));
    }
    if is_idle(alloc, tree, dirs, unit)? {
        return Ok(Some(UnitFault::Idle));
    }
    Ok(None)
}
