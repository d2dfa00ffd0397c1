//! How starts are sorted.
//!
//! No contract says where the buckets of time lie to which starts are moved. So each place is checked before
//! it is used, and sums wrap; in practice neither matters. Moving starts to buckets only has to keep the same
//! starts, since the last sort is one of all starts.

ghost use Rattle.std.specs.Prelude.{◌≡◌, ◌<◌, IsPermutation, vec_len};
ghost use Rattle.std.specs.List.Sorted.{IsSorted};
ghost use Rattle.std.specs.Ordering.{nat_cmp, ordering_then};

use crate::start::Start;

// The minimum number of starts that are distributed over buckets of time before they are sorted.
const FEWEST_DISTRIBUTED: usize = 32_768;

// The maximum number of buckets: as many as there are numbers of `BUCKET_BITS` bits.
const MOST_BUCKETS: usize = 2_048;

const BUCKET_BITS: u32 = 11;

// One in this many starts is sampled to find the time that the starts cover. It is a prime, so that it
// isn't always the same start of each job.
const SAMPLE_STEP: usize = 61;

// The maximum number of rounds. In a round, the starts of each bucket are checked, and moved to their buckets.
// A round closes at least half of the places that are open when it starts: each place that it checks closes
// one, and each that it skips was closed in the same round. So with a million starts, none is open after 20
// rounds.
const MOST_ROUNDS: u32 = 24;

/// Sorts starts by second and then by job. Requests no memory.
///
/// Starts arrive job by job. If there are many, they are distributed over buckets of time, and each bucket is
/// sorted by itself. After that, the sort of all starts finds them in order.
pub(crate) fn sort_starts(starts: &mut Vec<Start>)
    ensures permutation { IsPermutation starts.old.items starts.new.items }
    ensures len { vec_len starts.new ≡ vec_len starts.old }
    ensures sorted { IsSorted (λ x y. ordering_then (nat_cmp x.0 y.0) (nat_cmp x.1 y.1)) starts.new.items }
{
    sort_buckets(starts);
    starts.sort_unstable();
}

// Sorts each bucket of time by itself. Leaves the starts as they are if there are few, or if they are in order
// already, such as those of a single job. Also does so if one bucket has more than half of them: then the sort
// of all is as good.
fn sort_buckets(starts: &mut [Start])
    ensures { IsPermutation starts.old starts.new }
{
    if starts.len() < FEWEST_DISTRIBUTED || starts.is_sorted() {
        return;
    }
    let buckets = Buckets::of(starts);
    let ends = buckets.ends(starts);
    if longest(&ends) > starts.len() / 2 {
        return;
    }
    buckets.distribute(starts, &ends);
    sort_each(starts, &ends);
}

// Buckets of time of equal length.
#[derive(Clone, Copy)]
struct Buckets {
    // The second at which the first bucket starts.
    first: u64,
    // The length of a bucket is two to the power of this, in seconds.
    shift: u32,
}

impl Buckets {
    // Returns the shortest such buckets that cover the time of these starts, as far as a sample of them shows
    // it. Starts before that time belong to the first bucket, and starts after it to the last.
    fn of(starts: &[Start]) -> Buckets {
        let mut first = u64::MAX;
        let mut last = 0;
        for start in starts.iter().step_by(SAMPLE_STEP) {
            first = first.min(start.second());
            last = last.max(start.second());
        }
        let bits = u64::BITS - last.saturating_sub(first).leading_zeros();
        let shift = bits.saturating_sub(BUCKET_BITS);
        Buckets { first, shift }
    }

    // Returns the bucket that a start belongs to.
    #[inline(always)]
    fn bucket_of(self, start: Start) -> usize
        ensures { result < MOST_BUCKETS }
    {
        let seconds = start.second().saturating_sub(self.first);
        (seconds.wrapping_shr(self.shift) as usize).min(MOST_BUCKETS - 1)
    }

    // Returns the place at which each bucket ends once the starts are distributed.
    fn ends(self, starts: &[Start]) -> [u32; MOST_BUCKETS] {
        let mut ends = [0_u32; MOST_BUCKETS];
        for start in starts {
            let bucket = self.bucket_of(*start);
            ends[bucket] = ends[bucket].wrapping_add(1);
        }
        let mut end = 0_u32;
        for bucket in 0..MOST_BUCKETS {
            end = end.wrapping_add(ends[bucket]);
            ends[bucket] = end;
        }
        ends
    }

    // Moves each start to its bucket.
    fn distribute(self, starts: &mut [Start], ends: &[u32; MOST_BUCKETS])
        ensures { IsPermutation starts.old starts.new }
    {
        // The first open place of each bucket. The places before it are closed, as each has a start of the
        // bucket.
        let mut open = [0_u32; MOST_BUCKETS];
        open[1..].copy_from_slice(&ends[..MOST_BUCKETS - 1]);
        for _ in 0..MOST_ROUNDS {
            let mut is_done = true;
            for bucket in 0..MOST_BUCKETS {
                let (begin, end) = (open[bucket], ends[bucket]);
                is_done &= begin == end;
                self.place(starts, begin, end, &mut open);
            }
            if is_done {
                return;
            }
        }
    }

    // Moves each start at these places to its bucket.
    fn place(self, starts: &mut [Start], begin: u32, end: u32, open: &mut [u32; MOST_BUCKETS])
        ensures { IsPermutation starts.old starts.new }
    {
        for from in begin..end {
            self.place_one(starts, from as usize, open);
        }
    }

    // Swaps the start at a place with the start at the first open place of its bucket, which closes that place.
    // The start that comes back is checked in a later round, so that swaps rarely wait for the one before.
    #[inline(always)]
    fn place_one(self, starts: &mut [Start], from: usize, open: &mut [u32; MOST_BUCKETS])
        ensures { IsPermutation starts.old starts.new }
    {
        let Some(start) = starts.get(from) else {
            return;
        };
        let bucket = self.bucket_of(*start);
        let to = open[bucket] as usize;
        open[bucket] = open[bucket].wrapping_add(1);
        if to < starts.len() {
            starts.swap(from, to);
        }
    }
}

// Returns the number of starts of the largest bucket.
fn longest(ends: &[u32; MOST_BUCKETS]) -> usize {
    let mut longest = 0;
    let mut begin = 0;
    for end in ends {
        longest = end.wrapping_sub(begin).max(longest);
        begin = *end;
    }
    longest as usize
}

// Sorts each bucket by itself.
fn sort_each(starts: &mut [Start], ends: &[u32; MOST_BUCKETS])
    ensures { IsPermutation starts.old starts.new }
{
    let mut begin = 0;
    for end in ends {
        sort_bucket(starts, begin, *end);
        begin = *end;
    }
}

// Sorts the starts from `begin` to `end`, which is excluded.
fn sort_bucket(starts: &mut [Start], begin: u32, end: u32)
    ensures { IsPermutation starts.old starts.new }
{
    let (begin, end) = (begin as usize, end as usize);
    if begin < end && end <= starts.len() {
        starts[begin..end].sort_unstable();
    }
}
