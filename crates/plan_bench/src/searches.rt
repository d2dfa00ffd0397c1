//! Searches for starts, one at a time and by pieces.

use crate::sources::job_of;
use plan_next::{next_piece, next_start};
use plan_sets::END_SECOND;
use std::alloc::Global;

// The maximum number of starts in a piece.
const MOST: usize = 1_024;

/// Returns the last of `count` starts from second 0 on, each searched for after the one before. If there are no
/// more, the next one counts as second 0. Repeats the whole search `times` times.
pub fn next(alloc: Global, source: &[u8], times: u64, count: u64) -> Option<u64> {
    let job = job_of(alloc, source)?;
    let mut last = 0;
    for _ in 0..times {
        last = 0;
        for _ in 0..count {
            last = next_start(job.rule(), last).unwrap_or(0);
        }
    }
    Some(last)
}

/// Returns how many starts the piece has that starts at second 0 and ends before `upto`. Searches for it
/// `times` times.
pub fn piece(alloc: Global, source: &[u8], times: u64, upto: u64) -> Option<u64> {
    let job = job_of(alloc, source)?;
    let mut found = 0;
    for _ in 0..times {
        let piece = next_piece(alloc, job.rule(), 0, upto.min(END_SECOND), MOST).ok()?;
        found = piece.starts().len() as u64;
    }
    Some(found)
}
