//! The findings of all sources, in the order of the sources, and the jobs that are left without what is rejected.

ghost use Rattle.std.specs.Prelude.{◌≡◌, List, [], ◌++◌, IfOk, Ok, OnOk, is_ok, map};
ghost use Rattle.plan_check.specs.Files.{after_file, file_findings};
ghost use Rattle.plan_check.specs.Known.{no_jobs};
ghost use Rattle.agenda_sources.specs.declared.sources.Source.{Source};
ghost use Rattle.agenda_sources.specs.declared.time_zones.TimeZones.{TimeZones};
ghost use Rattle.agenda_sources.specs.Findings.{after_sources, found_at, found_from, is_all_clean, kept_jobs, source_file, sources_errors, sources_findings};
ghost use Rattle.agenda_sources.specs.Sources.{jobs_reading, sources_reading};

use crate::reading::in_zone;
use crate::sources::{Source, Sources};
use crate::time_zones::TimeZones;
use plan_check::{
    Finding, Known, TimerContext, a_file_means_its_reading, errors_need_no_clock, file_findings,
};
use plan_clock::Clock;
use plan_rules::Jobs;
use std::alloc::{AllocError, Global};

/// A finding in one of several sources.
#[derive(Debug, Drop)]
pub struct Found {
    /// The place of the source, from 0.
    pub place: usize,
    /// The finding in that source.
    pub finding: Finding,
}

/// What is left of sources if all that is rejected is left out.
#[derive(Drop)]
pub struct Kept {
    /// The errors, in the order of the sources, without any warnings.
    pub errors: Vec<Found>,
    /// The jobs of which nothing is rejected, in the order of the sources.
    pub jobs: Jobs,
}

/// Returns all findings of the sources, in the order of the sources, each with the text that its message quotes.
///
/// The findings of a source are those of `file_findings` of plan_check. Rules start in these time zones.
///
/// # Errors
///
/// `AllocError` if an allocation fails.
pub fn findings_of_sources(
    alloc: Global,
    sources: &Sources,
    zones: &TimeZones,
) -> Result<Vec<Found>, AllocError>
    ensures found { IfOk result (λ found. found.items ≡ sources_findings zones.now sources.now) }
    // There is no error among the findings exactly if `jobs_of_sources` makes a list of jobs of the sources.
    ensures clean { IfOk result (λ found. is_all_clean found.items ≡ is_ok (sources_reading zones.now.timers sources.now)) }
{
    a_file_means_its_reading();
    errors_need_no_clock();
    let clock = zones.clock.try_clone()?;
    let (found, _) = read_sources(alloc, sources, Some(clock), &zones.timers)?;
    Ok(found)
}

/// Returns the errors of the sources, as `findings_of_sources` finds them, and the jobs that are left if all that is
/// rejected is left out. Rules start in these time zones.
///
/// The jobs are those that `findings` of plan_check's `Form` adds: of a crontab each valid line, and each timer that
/// isn't rejected as a whole, with its valid events; but no job that is rejected as `SameName` or `Full`.
///
/// No warnings are looked for, since to find that a rule never starts can take longer than to read it.
///
/// # Errors
///
/// `AllocError` if an allocation fails.
pub fn kept_of_sources(
    alloc: Global,
    sources: &Sources,
    zones: &TimeZones,
) -> Result<Kept, AllocError>
    ensures errors { IfOk result (λ kept. kept.errors.items ≡ sources_errors zones.now sources.now) }
    ensures jobs { IfOk result (λ kept. kept.jobs ≡ kept_jobs zones.now sources.now) }
    // If there is no error, the jobs are those of `jobs_of_sources`.
    ensures same { IfOk result (λ kept. kept.errors.items ≡ [] → jobs_reading zones.now sources.now ≡ Ok kept.jobs) }
{
    errors_need_no_clock();
    without_errors_all_is_kept();
    let (errors, known) = read_sources(alloc, sources, None, &zones.timers)?;
    let jobs = in_zone(alloc, known.into_jobs(), &zones.clock)?;
    Ok(Kept { errors, jobs })
}

/// States the law of keeping: if the sources have no errors, all their jobs are kept. The jobs that
/// `kept_of_sources` returns are then those of `jobs_of_sources`.
///
/// The function does nothing: its contract is the law.
pub fn without_errors_all_is_kept()
    ensures { (zones : TimeZones) → (sources : List Source) → sources_errors zones sources ≡ [] → jobs_reading zones sources ≡ Ok (kept_jobs zones sources) }
{
    a_file_means_its_reading();
    errors_need_no_clock();
}

// Returns the findings of the sources, and what is known after the last one. Timers are read in this context. Without a clock
// there are no warnings.
fn read_sources(
    alloc: Global,
    sources: &Sources,
    clock: Option<Clock>,
    context: &TimerContext,
) -> Result<(Vec<Found>, Known), AllocError>
    ensures found { IfOk result (λ read. read.0.items ≡ found_from context.now 0 (no_jobs clock) sources.now) }
    ensures known { IfOk result (λ read. read.1 ≡ after_sources context.now (no_jobs clock) sources.now) }
{
    let mut known = Known::new(alloc, clock);
    let mut found = Vec::new(alloc);
    let sources = sources.as_slice();
    for (place, source) in sources.iter().enumerate() {
        add_source(alloc, &mut known, &mut found, place, source, context)?;
    }
    Ok((found, known))
}

// Adds the findings of the source at a place.
fn add_source(
    alloc: Global,
    known: &mut Known,
    found: &mut Vec<Found>,
    place: usize,
    source: &Source,
    context: &TimerContext,
) -> Result<(), AllocError>
    ensures found { OnOk result (found.new.items ≡ found.old.items
        ++ map (found_at place) (file_findings context.now known.old (source_file source.now))) }
    ensures known { OnOk result (known.new ≡ after_file context.now known.old (source_file source.now)) }
{
    let (name, bytes) = (source.name.as_str(), source.bytes.as_slice());
    let mut more = file_findings(alloc, known, source.kind, name, bytes, context)?;
    more.shrink_to_fit();
    add_all(found, place, more)
}

// Adds findings of the source at a place.
fn add_all(found: &mut Vec<Found>, place: usize, more: Vec<Finding>) -> Result<(), AllocError>
    ensures { OnOk result (found.new.items ≡ found.old.items ++ map (found_at place) more.items) }
{
    found.reserve(more.len())?;
    for finding in more {
        found.push(Found { place, finding })?;
    }
    Ok(())
}
