//! Starts of an agenda: a second and a job.

ghost use Rattle.std.specs.Prelude.{◌≡◌, ◌<◌, ◌≤◌, ◌&&◌, nat_eq};
ghost use Rattle.std.specs.Cmp.{partial_order_from_own_ties};
ghost use Rattle.std.specs.Cmp.Rules.{comparing};
ghost use Rattle.std.specs.Ordering.{as_partial_cmp, nat_cmp, ordering_then};
ghost use Rattle.std.proofs.Common.{refl, rules};
ghost use Rattle.plan_sets.specs.Limits.{end_second};
ghost use Rattle.plan_collect.specs.Start.{job_numbers};

use std::cmp::Ordering;
use std::marker::Model;

// Job numbers are below this.
const JOB_NUMBERS: u64 = 1_048_576;

/// A second, and the number of the job that starts then. Starts are ordered by second and then by job.
///
/// One number holds both, with the second in its upper part. So a start takes 8 bytes, and two starts are
/// compared at once.
#[derive(Clone, Copy, Debug)]
pub struct Start {
    number: u64,
}

impl Model for Start {
    ghost use Rattle.std.specs.Prelude.{ℕ};
    ghost use Rattle.plan_collect.specs.Start.{start_of, unpacked_back, packed};

    ghost Value = { ℕ × ℕ };

    ghost view = { λ start. start_of start.number };

    ghost inverse = { λ start. record { number = packed start } };

    ghost inverse_ok = { λ start h i. record { number = unpacked_back start.number i } };
}

impl Start {
    /// Makes the start of a second and the number of a job.
    pub fn new(second: u64, job: u32) -> Start
        requires second { second ≤ end_second }
        requires job { job < job_numbers }
        ensures { result ≡ (second, job) }
    {
        Start {
            number: second * JOB_NUMBERS + u64::from(job),
        }
    }

    /// Returns the second, counted from 1970-01-01T00:00:00Z.
    pub fn second(self) -> u64
        ensures { result ≡ self.0 }
    {
        self.number / JOB_NUMBERS
    }

    /// Returns the job's number.
    pub fn job(self) -> u32
        ensures { result ≡ self.1 }
    {
        (self.number % JOB_NUMBERS) as u32
    }
}

impl PartialEq for Start {
    ghost eq = { λ one other. nat_eq one.0 other.0 && nat_eq one.1 other.1 };

    ghost laws = { Prim.search (comparing, rules) };

    fn eq(&self, other: &Start) -> bool {
        self.number == other.number
    }
}

impl Eq for Start {
    ghost laws = { Prim.search (comparing, rules) };
}

impl Ord for Start {
    ghost cmp = { λ one other. ordering_then (nat_cmp one.0 other.0) (nat_cmp one.1 other.1) };

    ghost total = { Prim.search (comparing, rules) };

    ghost matches_partial_cmp = { λ one other. refl };

    ghost matches_eq = { Prim.search (comparing, rules) };

    fn cmp(&self, other: &Start) -> Ordering {
        self.number.cmp(&other.number)
    }
}

impl PartialOrd for Start {
    ghost partial_cmp = { as_partial_cmp (λ one other. ordering_then (nat_cmp one.0 other.0) (nat_cmp one.1 other.1)) };

    ghost laws = { partial_order_from_own_ties (Prim.search (comparing, rules)) (Prim.search (comparing, rules)) };

    fn partial_cmp(&self, other: &Start) -> Option<Ordering> {
        Some(self.cmp(other))
    }
}
