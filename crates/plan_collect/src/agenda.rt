//! The agenda: which job starts when.

ghost use Rattle.std.specs.Prelude.{◌≡◌, ◌≤◌, ◌↔◌, [], length, slice_get, IsTrue};
ghost use Rattle.plan_collect.specs.Agenda.{IsInYears};

use crate::start::Start;
use plan_next::Span;
use plan_sets::END_SECOND;
use std::marker::Model;

/// The starts of jobs in a span, and earlier ones if the job's delay reaches into the span. Each is a second and
/// a job's number; they ascend by second and then by job.
#[derive(Debug, Drop)]
pub struct Agenda {
    span: Span,
    entries: Vec<Start>,
}

impl Model for Agenda {
    ghost use Rattle.plan_collect.specs.Agenda.{Planned, planned_code, IsInYears};

    ghost Value = { Planned };

    ghost coded = { planned_code };

    ghost view = { λ agenda. record { span = agenda.span; entries = agenda.entries.items } };

    ghost invariant = { λ agenda. IsInYears agenda.entries.items };
}

impl Agenda {
    // Makes the agenda of these entries, over a span.
    pub(crate) fn new(span: Span, entries: Vec<Start>) -> Agenda
        requires { IsInYears entries.items }
        ensures { result ≡ record { span = span; entries = entries.items } }
    {
        Agenda { span, entries }
    }

    /// Returns the second at which the agenda's span starts.
    pub fn since(&self) -> u64
        ensures value { result ≡ self.now.span.since }
        ensures ordered { result ≤ self.now.span.upto }
    {
        self.span.since()
    }

    /// Returns the second before which the agenda's span ends.
    pub fn upto(&self) -> u64
        ensures value { result ≡ self.now.span.upto }
        ensures ordered { self.now.span.since ≤ result }
        ensures years { result ≤ END_SECOND }
    {
        self.span.upto()
    }

    /// Returns the number of entries.
    pub fn len(&self) -> usize
        ensures { result ≡ length self.now.entries }
    {
        self.entries.len()
    }

    /// Returns whether there are no entries.
    pub fn is_empty(&self) -> bool
        ensures { IsTrue result ↔ (self.now.entries ≡ []) }
    {
        self.entries.is_empty()
    }

    /// Returns the entry at a place, from 0: a second, and the number of the job that starts then. `None` if
    /// there is no such entry.
    pub fn entry(&self, place: usize) -> Option<(u64, u32)>
        ensures { result ≡ slice_get self.now.entries place }
    {
        let entry = self.entries.get(place)?;
        Some((entry.second(), entry.job()))
    }

    /// Returns the entries, in order.
    pub fn entries(&self) -> &[Start]
        ensures entries { result.now ≡ self.now.entries }
        ensures years { IsInYears self.now.entries }
    {
        &self.entries
    }
}
