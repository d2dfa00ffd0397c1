//! Plans in one thread.

use crate::sources::jobs_of;
use plan_collect::{CollectFault, PlanFault, Span};
use plan_serial::plan_serial;
use std::alloc::Global;

// The start of 2024.
const NEW_YEAR: u64 = 1_704_067_200;

/// Returns how many starts the jobs have in this many seconds, without their delays. Returns 0 if there are more
/// than the limit: then they were found and collected, but not sorted.
pub fn plan(alloc: Global, source: &[u8], limit: u64, seconds: u64) -> Option<u64> {
    let jobs = jobs_of(alloc, source)?.without_delays();
    let span = Span::new(NEW_YEAR, NEW_YEAR.saturating_add(seconds)).ok()?;
    match plan_serial(alloc, &jobs, span, limit) {
        Ok(agenda) => Some(agenda.len() as u64),
        Err(PlanFault::Collect(CollectFault::TooMany)) => Some(0),
        Err(_) => None,
    }
}
