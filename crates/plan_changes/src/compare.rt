//! The starts that only one of two agendas has.

ghost use Rattle.std.specs.Prelude.{IfOk};
ghost use Rattle.plan_changes.specs.Changes.{AreAscending, AreChanges};
ghost use Rattle.plan_changes.specs.Lines.{lines_of};

use crate::change::{Change, ChangeKind};
use crate::earlier_keys::EarlierKeys;
use crate::job_lines::JobLines;
use crate::keys::{Keys, RunTexts};
use crate::lacking::push_lacking;
use crate::new_keys::NewKeys;
use plan_baseline::Baseline;
use plan_collect::Agenda;
use std::alloc::{AllocError, Global};

/// Returns what changed between an agenda that was written earlier and one that was made now, whose jobs have these lines, in
/// order.
///
/// Two starts are the same if their seconds and what they run are: the names of their jobs may differ. A start that is in one of
/// the agendas more often than in the other is a change as often as that. Of equal starts the last ones are changes.
///
/// # Errors
///
/// `AllocError` if an allocation fails.
pub fn changes(
    alloc: Global,
    before: &Baseline,
    now: &Agenda,
    jobs: &JobLines,
) -> Result<Vec<Change>, AllocError>
    requires { AreAscending (lines_of jobs.now now.now.entries) }
    ensures { IfOk result (λ changes. AreChanges before.now.lines (lines_of jobs.now now.now.entries) changes.items) }
{
    let mut texts = RunTexts::new(alloc);
    let before = EarlierKeys::new(alloc, before, &mut texts)?;
    let now = NewKeys::new(alloc, now.entries(), jobs, &mut texts)?;
    let count = texts.len();
    // There are at least as many changes.
    let mut changes = Vec::with_capacity(alloc, before.len().abs_diff(now.len()))?;
    push_lacking(
        alloc,
        ChangeKind::Removed,
        &before,
        &now,
        count,
        &mut changes,
    )?;
    push_lacking(alloc, ChangeKind::Added, &now, &before, count, &mut changes)?;
    changes.sort_unstable();
    Ok(changes)
}
