//! The starts of a new agenda, as its lines have them.

ghost use Rattle.std.specs.Prelude.{◌≡◌, ◌≤◌, length, option_map, slice_get, IfSome};
ghost use Rattle.plan_baseline.specs.Line.{line_of};
ghost use Rattle.plan_sets.specs.Limits.{end_second};
ghost use Rattle.plan_changes.specs.Lines.{lines_of};

use crate::job_lines::JobLines;
use plan_baseline::Listed;
use plan_collect::{Agenda, Start};
use std::marker::Model;

/// The starts of an agenda, with the lines of its jobs.
#[derive(Drop)]
pub struct NewLines<'a> {
    entries: &'a [Start],
    jobs: &'a JobLines,
}

impl<'a> Model for NewLines<'a> {
    ghost use Rattle.std.specs.Prelude.{List};
    ghost use Rattle.std.specs.Coded.{coded_list};
    ghost use Rattle.plan_baseline.specs.Line.{Line, line_code};
    ghost use Rattle.plan_collect.specs.Agenda.{IsInYears};
    ghost use Rattle.plan_changes.specs.Lines.{lines_of};

    ghost Value = { List Line };

    ghost coded = { coded_list line_code };

    ghost view = { λ lines. lines_of lines.jobs.now lines.entries.now };

    ghost invariant = { λ lines. IsInYears lines.entries.now };
}

impl<'a> NewLines<'a> {
    /// Returns the starts of an agenda.
    pub fn new(agenda: &'a Agenda, jobs: &'a JobLines) -> NewLines<'a>
        ensures { result ≡ lines_of jobs.now agenda.now.entries }
    {
        NewLines {
            entries: agenda.entries(),
            jobs,
        }
    }

    /// Returns the number of starts.
    pub fn len(&self) -> usize
        ensures { result ≡ length self.now }
    {
        self.entries.len()
    }

    /// Returns the start at a place, from 0.
    pub fn get(&self, place: usize) -> Option<Listed<'_>>
        ensures line { option_map line_of result ≡ slice_get self.now place }
        ensures years { IfSome result (λ listed. listed.second ≤ end_second) }
    {
        let entry = self.entries.get(place)?;
        let (job, runs) = self.jobs.get(entry.job() as usize);
        let second = entry.second();
        Some(Listed { second, job, runs })
    }
}
