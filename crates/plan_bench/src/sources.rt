//! The jobs of a source.

use plan_rules::{EventZones, Job, Jobs, Kind, crontab, timer};
use std::alloc::Global;

// The names of the jobs that a timer file makes.
const NAMES: [&str; 8] = [
    "a.timer", "b.timer", "c.timer", "d.timer", "e.timer", "f.timer", "g.timer", "h.timer",
];

/// Makes the jobs of a source `times` times, and returns how many there are.
pub fn read(alloc: Global, source: &[u8], times: u64) -> Option<u64> {
    let mut found = 0;
    for _ in 0..times {
        found = jobs_of(alloc, source)?.len() as u64;
    }
    Some(found)
}

/// Returns the jobs of a crontab, or 8 jobs of a timer file, which have the same rule.
pub fn jobs_of(alloc: Global, source: &[u8]) -> Option<Jobs> {
    let mut jobs = Jobs::new(alloc);
    if is_timer(source) {
        let zones = EventZones::utc_alone();
        for name in &NAMES {
            jobs.add(timer(alloc, name, source, &zones).ok()?).ok()?;
        }
    } else {
        for job in crontab(alloc, "cron", source, Kind::User).ok()? {
            jobs.add(job).ok()?;
        }
    }
    Some(jobs)
}

/// Returns the last job of a crontab, or the job of a timer file.
pub fn job_of(alloc: Global, source: &[u8]) -> Option<Job> {
    if is_timer(source) {
        return timer(alloc, NAMES[0], source, &EventZones::utc_alone()).ok();
    }
    crontab(alloc, "cron", source, Kind::User).ok()?.pop()
}

// Returns whether a source is a timer file, which starts with a section.
fn is_timer(source: &[u8]) -> bool {
    matches!(source, [b'[', ..])
}
