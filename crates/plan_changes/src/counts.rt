//! How many starts are left of each that was counted.

ghost use Rattle.std.specs.Prelude.{◌≡◌, ◌+◌, ◌-◌, ◌<◌, if◌then◌else◌, nat_lt, IfOk, length, replicate, slice_set};
ghost use Rattle.std.below.core.specs.declared.int.usize.TheConstants.{MAX};
ghost use Rattle.plan_changes.specs.Counts.{left, no_count};

use crate::keys::Key;
use std::alloc::{AllocError, Global};

/// How many starts of a second are left.
#[derive(Clone, Copy)]
pub(crate) struct Count {
    pub(crate) second: u64,
    pub(crate) left: usize,
}

/// For each text that starts run, by its number, how many starts that run it are left of the last second that has some.
#[derive(Drop)]
pub(crate) struct Counts {
    pub(crate) counts: Vec<Count>,
}

impl Counts {
    /// Returns that no starts of so many texts are left.
    ///
    /// # Errors
    ///
    /// `AllocError` if an allocation fails.
    pub(crate) fn new(alloc: Global, texts: usize) -> Result<Counts, AllocError>
        ensures { IfOk result (λ counts. counts.counts.items ≡ replicate texts no_count) }
    {
        let counts = vec![in alloc; Count { second: 0, left: 0 }; texts]?;
        Ok(Counts { counts })
    }

    /// Adds a start.
    pub(crate) fn add(&mut self, key: Key)
        requires within { key.runs < length self.old.counts.items }
        requires room { left self.old.counts.items key < MAX }
        ensures { self.new.counts.items ≡ slice_set self.old.counts.items key.runs
            (record { second = key.second; left = left self.old.counts.items key + 1 }) }
    {
        let left = self.left(key);
        self.counts[key.runs] = Count {
            second: key.second,
            left: left + 1,
        };
    }

    /// Takes a start away, if one like it is left, and returns whether there was one.
    pub(crate) fn take(&mut self, key: Key) -> bool
        requires within { key.runs < length self.old.counts.items }
        ensures taken { result ≡ nat_lt 0 (left self.old.counts.items key) }
        ensures counts { self.new.counts.items ≡ (if result then slice_set self.old.counts.items key.runs
            (record { second = key.second; left = left self.old.counts.items key - 1 }) else self.old.counts.items) }
    {
        let left = self.left(key);
        if left == 0 {
            return false;
        }
        self.counts[key.runs] = Count {
            second: key.second,
            left: left - 1,
        };
        true
    }

    // Returns how many starts like one are left.
    fn left(&self, key: Key) -> usize
        requires within { key.runs < length self.now.counts.items }
        ensures { result ≡ left self.now.counts.items key }
    {
        let count = self.counts[key.runs];
        if count.second == key.second {
            count.left
        } else {
            0
        }
    }
}
