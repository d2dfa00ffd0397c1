//! What is known from file to file: the jobs that are kept, and the names that no later job may have.

ghost use Rattle.std.specs.Prelude.{◌≡◌, ◌++◌, ◌∷◌, [], IfSome, IsOk, OnOk, true, false};
ghost use Rattle.std.specs.List.{list_any};
ghost use Rattle.std.specs.Str.{bytes_eq};
ghost use Rattle.plan_check.specs.Known.{after_job, after_other, has_room, is_taken, name_fault, no_jobs, with_jobs};

use crate::finding::FindingKind;
use plan_clock::Clock;
use plan_rules::{Job, Jobs, MOST_JOBS, Names};
use std::alloc::{AllocError, Global};
use std::marker::Model;

/// What is known from file to file: the jobs so far of which nothing was rejected, the names of the timers that were
/// rejected as a whole, at most 1,000 together, whether `Full` was reported, whether the file that is checked makes
/// jobs, and the clock of the zone in which the jobs start, if there are to be warnings.
#[derive(Drop)]
pub struct Known {
    jobs: Jobs,
    // The names of the timers that make no job, and that no later job may have.
    others: Names,
    // Whether `Full` was reported.
    is_told: bool,
    // Whether the file makes jobs: not if its name is bad.
    makes_jobs: bool,
    // Without a clock there are no warnings.
    clock: Option<Clock>,
}

impl Model for Known {
    ghost use Rattle.std.specs.Coded.{codes};
    ghost use Rattle.plan_rules.specs.Job.{job_code};
    ghost use Rattle.plan_check.specs.Known.{KnownJobs};

    ghost Value = { KnownJobs };

    ghost coded = { Prim.hlevel (codes, job_code) };

    ghost view = { λ known. record {
      jobs = known.jobs;
      others = known.others;
      told = known.is_told;
      makes_jobs = known.makes_jobs;
      clock = known.clock;
    } };
}

impl Known {
    /// Returns what is known before the first file: no jobs. With the clock of the zone in which jobs start, there are
    /// warnings too; without one, there are only errors. This requests no memory.
    pub fn new(alloc: Global, clock: Option<Clock>) -> Known
        ensures { result ≡ no_jobs clock }
    {
        Known {
            jobs: Jobs::new(alloc),
            others: Names::new(alloc),
            is_told: false,
            makes_jobs: true,
            clock,
        }
    }

    /// Returns the jobs of which nothing was rejected, in the order of the files and of their lines.
    pub fn into_jobs(self) -> Jobs
        ensures { result ≡ self.jobs }
    {
        self.jobs
    }

    // Returns the clock of the zone in which the jobs start, if there are to be warnings.
    pub(crate) fn clock(&self) -> &Option<Clock>
        ensures { result.now ≡ self.now.clock }
    {
        &self.clock
    }

    // Begins a file, which makes jobs unless its name is bad.
    pub(crate) fn begin_file(&mut self, makes_jobs: bool)
        ensures { self.new ≡ with_jobs self.old makes_jobs }
    {
        self.makes_jobs = makes_jobs;
    }

    // Returns what is wrong with the name of a job, if the file makes jobs.
    pub(crate) fn name_fault(&self, name: &str) -> Option<FindingKind>
        ensures { result ≡ name_fault self.now name.now }
    {
        if !self.makes_jobs {
            return None;
        }
        if self.is_taken(name) {
            return Some(FindingKind::SameName);
        }
        if self.has_room() || self.is_told {
            return None;
        }
        Some(FindingKind::Full)
    }

    // Adds a job, if the file makes jobs and nothing is wrong with the job's name.
    pub(crate) fn add(&mut self, job: Job) -> Result<(), AllocError>
        ensures added { OnOk result (self.new ≡ after_job self.old job) }
        // If something is wrong with its name, no memory is requested.
        ensures at_once { IfSome (name_fault self.old job.name) (λ _. IsOk result) }
    {
        if !self.makes_jobs || self.is_taken(job.name()) {
            return Ok(());
        }
        if self.has_room() {
            return self.push(job);
        }
        self.is_told = true;
        Ok(())
    }

    // Adds the name of a timer that makes no job, as if it made one.
    pub(crate) fn add_other(&mut self, alloc: Global, name: &str) -> Result<(), AllocError>
        ensures { OnOk result (self.new ≡ after_other self.old name.now) }
    {
        if !self.makes_jobs || self.is_taken(name) {
            return Ok(());
        }
        if self.has_room() {
            return self.push_other(alloc, name);
        }
        self.is_told = true;
        Ok(())
    }

    // Appends a job. An error is that an allocation failed, since no job has its name and there is room.
    fn push(&mut self, job: Job) -> Result<(), AllocError>
        ensures { OnOk result (self.new ≡ record self.old { jobs = self.old.jobs ++ job ∷ [] }) }
    {
        if self.jobs.add(job).is_err() {
            return Err(AllocError);
        }
        Ok(())
    }

    // Appends the name of a timer that makes no job.
    fn push_other(&mut self, alloc: Global, name: &str) -> Result<(), AllocError>
        requires { list_any (bytes_eq name.now) self.old.others ≡ false }
        ensures { OnOk result (self.new ≡ record self.old { others = self.old.others ++ name.now ∷ [] }) }
    {
        self.others.add(alloc, name)
    }

    // Returns whether a job, or a timer that makes none, has this name.
    fn is_taken(&self, name: &str) -> bool
        ensures { result ≡ is_taken name.now self.now }
    {
        self.has_other(name) || self.jobs.number_of(name).is_some()
    }

    // Returns whether a timer that makes no job has this name.
    fn has_other(&self, name: &str) -> bool
        ensures { result ≡ list_any (bytes_eq name.now) self.now.others }
    {
        self.others.contains(name)
    }

    // Returns whether there are fewer than 1,000 names.
    fn has_room(&self) -> bool
        ensures { result ≡ has_room self.now }
    {
        self.others.len() < MOST_JOBS - self.jobs.len()
    }
}
