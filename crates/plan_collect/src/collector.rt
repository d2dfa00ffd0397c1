//! The collector, which checks what planners send, keeps the starts, and makes the agenda of them.

ghost use Rattle.std.specs.Prelude.{◌≡◌, ◌≢◌, ℕ, ◌+◌, ◌%◌, ◌<◌, ◌≤◌, ◌↔◌, [], ◌++◌, Bool, true, false, ◌&&◌, ◌==◌, nat_lt, nat_le, IsTrue, length, map, slice_get, slice_index, slice_set, IfOk, IfErr, IsOk, OnOk, OnErr, Some};
ghost use Rattle.std.specs.List.{list_all};
ghost use Rattle.plan_sets.specs.Limits.{end_second};
ghost use Rattle.plan_next.specs.Starts.{starts};
ghost use Rattle.plan_collect.specs.Start.{job_numbers};
ghost use Rattle.plan_collect.specs.Agenda.{IsOfJobs};
ghost use Rattle.plan_collect.specs.Limits.{is_limit, is_size};
ghost use Rattle.plan_collect.specs.Collecting.{begun, is_rule_of, belongs, has_ended, adjoins, has_room, fault_of_note, AddsNothing, Answers, after, finished, is_complete};
ghost use Rattle.plan_collect.specs.Windows.{agenda_of_windows, timings_of};

use crate::agenda::Agenda;
use crate::note::Note;
use crate::sorting::sort_starts;
use crate::start::Start;
use crate::timing::{JobTiming, firsts_in, timings_in};
use plan_match::Rule;
use plan_next::{Piece, Span};
use plan_rules::Jobs;
use std::alloc::{AllocError, Global};
use std::error::Error;
use std::fmt::{self, Display, Formatter};
use std::marker::Model;

/// The maximum limit of an agenda, in entries.
pub const MOST_ENTRIES: u64 = 1_000_000;

/// The maximum number of planners.
pub const MOST_PLANNERS: usize = 8;

/// Why a collector can't be made.
#[derive(Clone, Copy, Debug, PartialEq, Eq)]
pub enum CollectorFault {
    /// An allocation failed.
    NoMemory,
    /// The limit isn't 1 to 1,000,000.
    BadLimit,
    /// The number of planners isn't 1 to 8.
    BadSize,
}

impl CollectorFault {
    ghost use Rattle.std.specs.Prelude.{◌≡◌};
    ghost use Rattle.plan_collect.specs.Causes.{collector_cause};

    /// Returns the name of the error.
    pub fn name(&self) -> &'static str
        ensures { result.now ≡ collector_cause self.now }
    {
        match self {
            CollectorFault::NoMemory => "NoMemory",
            CollectorFault::BadLimit => "BadLimit",
            CollectorFault::BadSize => "BadSize",
        }
    }
}

impl Display for CollectorFault {
    ghost use Rattle.std.specs.Prelude.{Some};
    ghost use Rattle.plan_collect.specs.Causes.{collector_cause};

    ghost output = { λ fault. Some (collector_cause fault) };

    fn fmt<W: fmt::Write>(&self, f: &mut Formatter<W>) -> fmt::Result {
        f.write_str(self.name())
    }
}

impl Error for CollectorFault {}

/// Why a collector rejects a message, or can't finish.
#[derive(Clone, Copy, Debug, PartialEq, Eq)]
pub enum CollectFault {
    /// An allocation failed.
    NoMemory,
    /// There is no such planner, or no such job, or the job is another planner's, or its rule isn't the
    /// piece's.
    Stranger,
    /// The piece doesn't start at the second to which its job is covered, or it ends after the span.
    Gap,
    /// There are more starts than the limit.
    TooMany,
    /// The planner's last message was accepted before.
    AfterLast,
    /// A job isn't covered to the end of the span, or a planner's last message is missing.
    Missing,
}

impl CollectFault {
    ghost use Rattle.std.specs.Prelude.{◌≡◌};
    ghost use Rattle.plan_collect.specs.Causes.{collect_cause};

    /// Returns the name of the error, as error lines show it.
    pub fn name(&self) -> &'static str
        ensures { result.now ≡ collect_cause self.now }
    {
        match self {
            CollectFault::NoMemory => "NoMemory",
            CollectFault::Stranger => "Stranger",
            CollectFault::Gap => "Gap",
            CollectFault::TooMany => "TooMany",
            CollectFault::AfterLast => "AfterLast",
            CollectFault::Missing => "Missing",
        }
    }
}

impl Display for CollectFault {
    ghost use Rattle.std.specs.Prelude.{Some};
    ghost use Rattle.plan_collect.specs.Causes.{collect_cause};

    ghost output = { λ fault. Some (collect_cause fault) };

    fn fmt<W: fmt::Write>(&self, f: &mut Formatter<W>) -> fmt::Result {
        f.write_str(self.name())
    }
}

impl Error for CollectFault {}

impl From<AllocError> for CollectorFault {
    ghost use Rattle.std.specs.Prelude.{◌≡◌};
    ghost use Rattle.plan_collect.specs.declared.collector.CollectorFault.{CollectorFault};
    ghost use Rattle.plan_collect.specs.declared.collector.CollectorFault.TheVariants.{NoMemory};

    ghost from_gives = { λ _ fault. fault ≡ NoMemory };

    fn from(_error: AllocError) -> CollectorFault {
        CollectorFault::NoMemory
    }
}

impl From<AllocError> for CollectFault {
    ghost use Rattle.std.specs.Prelude.{◌≡◌};
    ghost use Rattle.plan_collect.specs.declared.collector.CollectFault.{CollectFault};
    ghost use Rattle.plan_collect.specs.declared.collector.CollectFault.TheVariants.{NoMemory};

    ghost from_gives = { λ _ fault. fault ≡ NoMemory };

    fn from(_error: AllocError) -> CollectFault {
        CollectFault::NoMemory
    }
}

/// Keeps the starts of jobs in a span, which planners send piece by piece.
///
/// The planner of a job is the job's number modulo the number of planners. For each job, the collector holds
/// all starts from the start of the span, or earlier by the job's delay, to the second to which the job is
/// covered.
#[derive(Drop)]
pub struct Collector {
    timings: Vec<JobTiming>,
    span: Span,
    limit: u64,
    covered: Vec<u64>,
    ended: Vec<bool>,
    entries: Vec<Start>,
}

impl Model for Collector {
    ghost use Rattle.plan_collect.specs.Collecting.{Collected, Holds, collected_code};

    ghost Value = { Collected };

    ghost coded = { collected_code };

    ghost view = { λ c. record {
      timings = c.timings.items;
      span = c.span;
      limit = c.limit;
      covered = c.covered.items;
      ended = c.ended.items;
    } };

    ghost invariant = { λ c. Holds (record {
      timings = c.timings.items;
      span = c.span;
      limit = c.limit;
      covered = c.covered.items;
      ended = c.ended.items;
    }) c.entries.items };
}

impl Collector {
    /// Makes a collector for the starts of these jobs in a span. It takes messages from this many planners,
    /// and at most `limit` starts. It holds none yet.
    ///
    /// # Errors
    ///
    /// The first that applies: `BadSize` if the number of planners isn't 1 to 8; `BadLimit` if the limit
    /// isn't 1 to 1,000,000; `NoMemory` if an allocation failed.
    pub fn new(
        alloc: Global,
        jobs: &Jobs,
        span: Span,
        planners: usize,
        limit: u64,
    ) -> Result<Collector, CollectorFault>
        ensures new { IfOk result (λ c. c ≡ begun (timings_of jobs.now) span planners limit) }
        ensures bad_size { (result ≡ Err CollectorFault.BadSize) ↔ (is_size planners ≡ false) }
        ensures bad_limit { (result ≡ Err CollectorFault.BadLimit)
            ↔ ((is_size planners ≡ true) × (is_limit limit ≡ false)) }
    {
        if planners < 1 || planners > MOST_PLANNERS {
            return Err(CollectorFault::BadSize);
        }
        if !is_limit(limit) {
            return Err(CollectorFault::BadLimit);
        }
        let timings = timings_in(alloc, jobs)?;
        Ok(Collector {
            covered: firsts_in(alloc, &timings, span)?,
            ended: Vec::from_elem(alloc, false, planners)?,
            timings,
            span,
            limit,
            entries: Vec::new(alloc),
        })
    }

    /// Accepts a message from a planner.
    ///
    /// # Errors
    ///
    /// The first of these that applies: `Stranger` if there is no such planner or no such job, or the job is
    /// another planner's, or has another rule; `AfterLast` if this planner's last message was accepted
    /// before; `Gap` if the piece doesn't start at the second to which its job is covered, or ends after the
    /// span; `TooMany` if its starts and those held are more than the limit; `NoMemory` if the message adds
    /// starts and an allocation failed. The message is then dropped as a whole, and the collector stays as it
    /// was.
    pub fn accept(&mut self, planner: usize, note: Note) -> Result<(), CollectFault>
        ensures answer { Answers result (fault_of_note self.old planner note) }
        ensures accepted { OnOk result (self.new ≡ after self.old planner note) }
        ensures unchanged { OnErr result (self.new ≡ self.old) }

        // A message that adds no starts requests no memory.
        ensures spared { AddsNothing note → result ≢ Err CollectFault.NoMemory }

        // `TooMany` comes only if the agenda has more entries than the limit.
        ensures too_many { result ≡ Err CollectFault.TooMany
            → self.old.limit < length (agenda_of_windows self.old.timings self.old.span) }
    {
        if let Some(fault) = self.fault_of_note(planner, &note) {
            return Err(fault);
        }
        match note {
            Note::Part(job, piece) => self.keep(job, &piece),
            Note::Last => {
                self.end(planner);
                Ok(())
            }
        }
    }

    /// Makes the agenda, once each job is covered to the end of the span and each planner's last message was
    /// accepted. Requests no memory.
    ///
    /// # Errors
    ///
    /// `Missing` if a job isn't covered, or a last message is missing.
    pub fn finish(self) -> Result<Agenda, CollectFault>
        ensures agenda { result ≡ finished self }
        ensures few { IfOk result (λ made. length made.entries ≤ self.limit) }
        ensures jobs { IfOk result (λ made. IsOfJobs (length self.timings) made.entries) }
    {
        if !self.is_complete() {
            return Err(CollectFault::Missing);
        }
        let span = self.span;
        let mut entries = self.entries;
        sort_starts(&mut entries);
        Ok(Agenda::new(span, entries))
    }

    // Returns why a message is rejected, unless an allocation fails.
    fn fault_of_note(&self, planner: usize, note: &Note) -> Option<CollectFault>
        ensures value { result ≡ fault_of_note self.now planner note.now }
        ensures own { result ≢ Some CollectFault.NoMemory }
        ensures too_many { result ≡ Some CollectFault.TooMany
            → self.now.limit < length (agenda_of_windows self.now.timings self.now.span) }
    {
        if !self.belongs(planner, note) {
            Some(CollectFault::Stranger)
        } else if self.has_ended(planner) {
            Some(CollectFault::AfterLast)
        } else if !self.adjoins(note) {
            Some(CollectFault::Gap)
        } else if !self.has_room(note) {
            Some(CollectFault::TooMany)
        } else {
            None
        }
    }

    // Returns whether this planner may send the message.
    fn belongs(&self, planner: usize, note: &Note) -> bool
        ensures { result ≡ belongs self.now planner note.now }
    {
        if planner >= self.ended.len() {
            return false;
        }
        match note {
            Note::Part(job, piece) => {
                let job = *job as usize;
                job % self.ended.len() == planner && self.has_rule(job, piece.rule())
            }
            Note::Last => true,
        }
    }

    // Returns whether there is a job with this number and this rule.
    fn has_rule(&self, job: usize, rule: &Rule) -> bool
        ensures { result ≡ is_rule_of (slice_get self.now.timings job) rule.now }
    {
        match self.timings.get(job) {
            Some(timing) => *timing.rule() == *rule,
            None => false,
        }
    }

    // Returns whether this planner's last message was accepted.
    fn has_ended(&self, planner: usize) -> bool
        ensures { result ≡ has_ended self.now planner }
    {
        self.ended.get(planner).copied().unwrap_or(false)
    }

    // Returns whether a piece starts at the second to which its job is covered, and ends within the span.
    fn adjoins(&self, note: &Note) -> bool
        ensures { result ≡ adjoins self.now note.now }
    {
        match note {
            Note::Part(job, piece) => {
                let covered = self.covered.get(*job as usize).copied().unwrap_or(0);
                covered == piece.since() && piece.upto() <= self.span.upto()
            }
            Note::Last => true,
        }
    }

    // Returns whether a piece's starts and those held are at most as many as the limit.
    fn has_room(&self, note: &Note) -> bool
        ensures value { result ≡ has_room self.now note.now }

        // If not, and the piece belongs to its planner and adjoins, the agenda has more entries than the
        // limit.
        ensures too_many { (planner : ℕ) → belongs self.now planner note.now ≡ true → adjoins self.now note.now ≡ true
            → result ≡ false → self.now.limit < length (agenda_of_windows self.now.timings self.now.span) }
    {
        match note {
            Note::Part(_, piece) => piece.starts().len() as u64
                <= self.limit - self.entries.len() as u64,
            Note::Last => true,
        }
    }

    // Keeps the starts of a piece of a job.
    fn keep(&mut self, job: u32, piece: &Piece) -> Result<(), CollectFault>
        requires known { is_rule_of (slice_get self.old.timings job) piece.now.rule ≡ true }
        requires adjoins { adjoins self.old (Note.Part job piece.now) ≡ true }
        requires room { has_room self.old (Note.Part job piece.now) ≡ true }
        ensures accepted { OnOk result (self.new ≡ record self.old { covered = slice_set self.old.covered job piece.now.upto }) }
        ensures unchanged { OnErr result (self.new ≡ self.old) }
        ensures memory { IfErr result (λ fault. fault ≡ CollectFault.NoMemory) }
        ensures spared { starts piece.now.rule piece.now.since piece.now.upto ≡ [] → IsOk result }
    {
        append(&mut self.entries, job, piece.starts())?;
        self.covered[job as usize] = piece.upto();
        Ok(())
    }

    // Records that this planner's last message was accepted.
    fn end(&mut self, planner: usize)
        requires { planner < length self.old.ended }
        ensures { self.new ≡ record self.old { ended = slice_set self.old.ended planner true } }
    {
        self.ended[planner] = true;
    }

    // Returns whether each job is covered to the end of the span, and each planner's last message was
    // accepted.
    fn is_complete(&self) -> bool
        ensures { result ≡ is_complete self.now }
    {
        self.is_covered() && self.has_all_last()
    }

    // Returns whether each job is covered to the end of the span.
    fn is_covered(&self) -> bool
        ensures { result ≡ list_all (λ upto. upto == self.now.span.upto) self.now.covered }
    {
        let upto = self.span.upto();
        self.covered.iter().all(|covered| *covered == upto)
    }

    // Returns whether each planner's last message was accepted.
    fn has_all_last(&self) -> bool
        ensures { result ≡ list_all (λ has_sent_last. has_sent_last) self.now.ended }
    {
        self.ended.iter().all(|ended| *ended)
    }
}

// Returns whether an agenda may have this limit.
fn is_limit(limit: u64) -> bool
    ensures { result ≡ is_limit limit }
{
    (1..=MOST_ENTRIES).contains(&limit)
}

// Appends an entry for each start of a job. Memory is allocated first; if that fails, nothing is appended.
fn append(entries: &mut Vec<Start>, job: u32, starts: &[u64]) -> Result<(), AllocError>
    requires job { job < job_numbers }
    requires years { IsTrue (list_all (λ second. nat_lt second end_second) starts.now) }
    ensures all { OnOk result (entries.new.items ≡ entries.old.items ++ map (λ second. (second, job)) starts.now) }
    ensures none { OnErr result (entries.new.items ≡ entries.old.items) }
    ensures spared { starts.now ≡ [] → IsOk result }
{
    entries.reserve(starts.len())?;
    for start in starts {
        entries.push_reserved(Start::new(*start, job));
    }
    Ok(())
}
