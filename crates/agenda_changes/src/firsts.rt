//! What changed starts run, and when each of it changed first.

ghost use Rattle.std.specs.Prelude.{◌≡◌, ◌≤◌, IfOk, IfSome, OnOk, length, map, option_map, slice_get};
ghost use Rattle.std.specs.List.{IsDistinct};
ghost use Rattle.std.specs.Str.{bytes_eq};
ghost use Rattle.plan_baseline.specs.Line.{line_of};
ghost use Rattle.plan_changes.specs.Texts.{start_in};
ghost use Rattle.plan_sets.specs.Limits.{end_second};
ghost use Rattle.agenda_changes.specs.Counts.{row_of, with_first, with_line};
ghost use Rattle.agenda_changes.specs.Rows.{changed_lines, firsts};

use indexmap::IndexMap;
use plan_baseline::{Baseline, Listed};
use plan_changes::{Change, ChangeKind, NewLines};
use std::alloc::{AllocError, Global};
use std::marker::Model;

/// What changed starts run, each once, in the order of first changes. Contracts see this value as a list: what is run, and the
/// second of its first change.
#[derive(Drop)]
pub(crate) struct Firsts {
    seconds: IndexMap<Vec<u8>, u64>,
}

impl Model for Firsts {
    ghost use Rattle.std.specs.Prelude.{ℕ, List, map};
    ghost use Rattle.indexmap.specs.IndexMap.{values};
    ghost use Rattle.agenda_table.specs.Dates.{AreInYears};

    ghost Value = { List (List ℕ × ℕ) };

    ghost view = { λ firsts. map (λ entry. (entry.0.items, entry.1)) firsts.seconds.entries };

    ghost invariant = { λ firsts. AreInYears (values firsts.seconds) };
}

impl Firsts {
    /// Finds what changed starts run: a removed one is of the earlier agenda, and an added one of the new agenda.
    ///
    /// # Errors
    ///
    /// `AllocError` if an allocation fails.
    pub(crate) fn new(
        alloc: Global,
        changes: &[Change],
        before: &Baseline,
        now: &NewLines<'_>,
    ) -> Result<Firsts, AllocError>
        ensures { IfOk result (λ found. found ≡ firsts (changed_lines before.now.lines now.now changes.now)) }
    {
        let mut firsts = Firsts {
            seconds: IndexMap::new(alloc),
        };
        for change in changes {
            firsts.add_change(alloc, *change, before, now)?;
        }
        Ok(firsts)
    }

    // Adds what the start of a change runs.
    fn add_change(
        &mut self,
        alloc: Global,
        change: Change,
        before: &Baseline,
        now: &NewLines<'_>,
    ) -> Result<(), AllocError>
        ensures { OnOk result (self.new
            ≡ with_line self.old (start_in before.now.lines now.now change.kind change.place)) }
    {
        match change.kind {
            ChangeKind::Removed => self.add_if(alloc, before.get(change.place)),
            ChangeKind::Added => self.add_if(alloc, now.get(change.place)),
        }
    }

    // Adds what a start runs, if there is one.
    fn add_if(&mut self, alloc: Global, line: Option<Listed<'_>>) -> Result<(), AllocError>
        requires { IfSome line (λ listed. listed.second ≤ end_second) }
        ensures { OnOk result (self.new ≡ with_line self.old (option_map line_of line.entry)) }
    {
        if let Some(line) = line {
            self.add(alloc, line.runs, line.second)?;
        }
        Ok(())
    }

    // Adds what a start runs, unless it is there.
    fn add(&mut self, alloc: Global, runs: &[u8], second: u64) -> Result<(), AllocError>
        requires { second ≤ end_second }
        ensures { OnOk result (self.new ≡ with_first self.old runs.now second) }
    {
        if self.row(runs).is_none() {
            let runs = Vec::from_slice(alloc, runs)?;
            self.seconds.insert(runs, second)?;
        }
        Ok(())
    }

    /// Returns the number of texts that changed starts run.
    pub(crate) fn len(&self) -> usize
        ensures len { result ≡ length self.now }
        ensures distinct { IsDistinct bytes_eq (map (λ first. first.0) self.now) }
    {
        self.seconds.len()
    }

    /// Returns the number of what is run, if a changed start runs it.
    pub(crate) fn row(&self, runs: &[u8]) -> Option<usize>
        ensures { result ≡ row_of runs.now self.now }
    {
        self.seconds.get_index_of(runs)
    }

    /// Returns what is run with a number, from 0, and the second of its first change.
    pub(crate) fn get(&self, row: usize) -> Option<(&[u8], u64)>
        ensures first { option_map (λ first. (first.0.now, first.1)) result ≡ slice_get self.now row }
        ensures years { IfSome result (λ first. first.1 ≤ end_second) }
    {
        let (runs, second) = self.seconds.get_index(row)?;
        Some((runs.as_slice(), *second))
    }
}
