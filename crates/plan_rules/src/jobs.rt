//! The jobs of a plan, by name and in the order in which they were added.

ghost use Rattle.std.specs.Prelude.{◌≡◌, ◌↔◌, ◌≤◌, ◌<◌, ◌+◌, ◌++◌, List, [], ◌∷◌, length, map, slice_get, IsTrue, IsNone, IsSome, IfOk, IfErr, OnOk, OnErr};
ghost use Rattle.std.specs.Option.{option_copied};
ghost use Rattle.plan_rules.specs.Limits.{most_jobs};
ghost use Rattle.plan_rules.specs.Job.{JobParts};
ghost use Rattle.plan_rules.specs.Delays.{first_changed, nominal};
ghost use Rattle.plan_rules.specs.Zone.{first_in, jobs_in};
ghost use Rattle.std.specs.List.{list_any};
ghost use Rattle.std.specs.Str.{bytes_eq};
ghost use Rattle.plan_rules.specs.Jobs.{number_of, HaveDistinctNames, is_other, job_of, without};

use crate::job::Job;
use indexmap::IndexMap;
use plan_clock::Clock;
use plan_texts::Text;
use std::alloc::{AllocError, AllocFailed, Global};
use std::marker::Model;
use thiserror::Error;

/// The maximum number of jobs.
pub const MOST_JOBS: usize = 1_000;

/// Why a job was not added. Each variant gives the job back.
#[derive(Debug, Drop, Error)]
pub enum AddFault {
    /// An allocation failed.
    #[error("NoMemory")]
    NoMemory(Job),
    /// There already is a job with this name.
    #[error("SameName")]
    SameName(Job),
    /// There already are 1,000 jobs.
    #[error("Full")]
    Full(Job),
}

/// Jobs in the order in which they were added. No two have the same name. A job's number is its position, from 0.
#[derive(Drop)]
pub struct Jobs {
    by_name: IndexMap<String, Job>,
}

impl Model for Jobs {
    ghost use Rattle.std.specs.Prelude.{List, ◌≡◌, ◌≤◌, map, string_bytes};
    ghost use Rattle.indexmap.specs.IndexMap.{keys, values, index_map_len};
    ghost use Rattle.std.specs.Coded.{coded_list};
    ghost use Rattle.plan_rules.specs.Job.{JobParts, job_code};

    ghost Value = { List JobParts };

    ghost coded = { coded_list job_code };

    ghost use Rattle.plan_rules.specs.Limits.{most_jobs};

    ghost view = { λ jobs. values jobs.by_name };

    ghost invariant = { λ jobs.
        (map (λ key. string_bytes key) (keys jobs.by_name) ≡ map (λ job. job.name) (values jobs.by_name))
        × (index_map_len jobs.by_name ≤ most_jobs) };
}

impl Jobs {
    /// Returns an empty list of jobs. This allocates nothing; `add` allocates from `alloc`.
    pub fn new(alloc: Global) -> Jobs
        ensures { result ≡ [] }
    {
        Jobs {
            by_name: IndexMap::new(alloc),
        }
    }

    /// Returns the number of jobs, at most 1,000.
    pub fn len(&self) -> usize
        ensures len { result ≡ length self.now }
        ensures few { length self.now ≤ most_jobs }
        ensures distinct { HaveDistinctNames self.now }
    {
        self.by_name.len()
    }

    /// Returns whether there are no jobs.
    pub fn is_empty(&self) -> bool
        ensures { IsTrue result ↔ (self.now ≡ []) }
    {
        self.by_name.is_empty()
    }

    /// Returns the job with a number, from 0.
    pub fn get(&self, number: usize) -> Option<&Job>
        ensures { option_copied result ≡ slice_get self.now number }
    {
        let (_, job) = self.by_name.get_index(number)?;
        Some(job)
    }

    /// Returns the number of the job with a name, from 0.
    pub fn number_of(&self, name: &str) -> Option<usize>
        ensures { result ≡ number_of name.now self.now }
    {
        self.by_name.get_index_of(name)
    }

    /// Returns the same jobs, with the rule of each in the zone of a clock.
    ///
    /// # Errors
    ///
    /// Fails if an allocation fails.
    pub fn in_zone(self, alloc: Global, clock: &Clock) -> Result<Jobs, AllocError>
        ensures { IfOk result (λ jobs. jobs ≡ jobs_in clock.now self) }
    {
        let mut jobs = self;
        for number in 0..jobs.len() {
            jobs.put_in_zone(alloc, clock, number)?;
        }
        Ok(jobs)
    }

    // Puts the job with a number in the zone of a clock.
    fn put_in_zone(&mut self, alloc: Global, clock: &Clock, number: usize) -> Result<(), AllocError>
        requires { number < length self.old }
        ensures { OnOk result ((jobs : List JobParts) → self.old ≡ first_in clock.now number jobs
            → self.new ≡ first_in clock.now (number + 1) jobs) }
    {
        let Some(job) = self.by_name.get_index_mut(number) else {
            return Ok(());
        };
        job.put_in_zone(alloc, clock)
    }

    /// Returns the same jobs without delays: each starts at the times of its rule.
    pub fn without_delays(self) -> Jobs
        ensures { result ≡ map nominal self }
    {
        let mut undelayed = self;
        for number in 0..undelayed.len() {
            undelayed.drop_delay(number);
        }
        undelayed
    }

    // Sets the delay of the job with a number to 0.
    fn drop_delay(&mut self, number: usize)
        requires { number < length self.old }
        ensures { (jobs : List JobParts) → self.old ≡ first_changed nominal number jobs
            → self.new ≡ first_changed nominal (number + 1) jobs }
    {
        let Some(job) = self.by_name.get_index_mut(number) else {
            return;
        };
        job.drop_delay();
    }

    /// Returns the jobs that have none of these names, in the same order.
    pub fn without(self, names: &[Text]) -> Jobs
        ensures { result ≡ without names.now self }
    {
        let mut jobs = self;
        jobs.by_name.retain(
            |_name: &String, job: &mut Job| -> bool
                ensures { (result ≡ is_other names.entry.now job.old) × (job.new ≡ job.old) }
            { !is_among(job.name(), names) },
        );
        jobs
    }

    /// Adds a job after the others, and returns its number.
    ///
    /// # Errors
    ///
    /// The first of these that applies: `SameName` if there already is a job with its name, `Full` if there
    /// already are 1,000 jobs, `NoMemory` if an allocation fails. The error gives the job back, and the list
    /// is unchanged.
    pub fn add(&mut self, job: Job) -> Result<usize, AddFault>
        ensures number { IfOk result (λ number. number ≡ length self.old) }
        ensures added { OnOk result (self.new ≡ self.old ++ job ∷ []) }
        ensures same_name { (result ≡ Err (AddFault.SameName job)) ↔ IsSome (number_of job.name self.old) }
        ensures full { (result ≡ Err (AddFault.Full job))
            ↔ (IsNone (number_of job.name self.old) × (length self.old ≡ most_jobs)) }
        ensures handed_back { IfErr result (λ fault. job_of fault ≡ job) }
        ensures unchanged { OnErr result (self.new ≡ self.old) }
    {
        if self.number_of(job.name()).is_some() {
            return Err(AddFault::SameName(job));
        }
        let number = self.len();
        if number == MOST_JOBS {
            return Err(AddFault::Full(job));
        }
        let Ok(name) = String::from_str(*self.by_name.allocator(), job.name()) else {
            return Err(AddFault::NoMemory(job));
        };
        match self.by_name.insert(name, job) {
            Ok(_) => Ok(number),
            Err(AllocFailed { value: (_, job) }) => Err(AddFault::NoMemory(job)),
        }
    }
}

// Returns whether a name is one of these.
fn is_among(name: &str, names: &[Text]) -> bool
    ensures { result ≡ list_any (λ other. bytes_eq other name.now) names.now }
{
    names.iter().any(|other| other.as_str() == name)
}
