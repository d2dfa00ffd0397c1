//! The jobs of all sources of a plan, read one source after another.

ghost use Rattle.std.specs.Prelude.{◌≡◌, [], IfErr, IfOk, IfSome, Ok, Err};
ghost use Rattle.plan_texts.specs.Steps.{GivesUnless};
ghost use Rattle.plan_check.specs.Deciding.{strictly};
ghost use Rattle.agenda_sources.specs.AtOnce.{fault_at_once, source_at_once};
ghost use Rattle.agenda_sources.specs.Faults.{IsOwnFault, in_source};
ghost use Rattle.agenda_sources.specs.Findings.{source_file};
ghost use Rattle.agenda_sources.specs.Sources.{jobs_reading, sources_reading, zoned};

use crate::fault::SourceFault;
use crate::sources::{Source, Sources};
use crate::time_zones::TimeZones;
use plan_check::{
    Known, TimerContext, a_file_means_its_reading, cause_at_once, deciding_fault, file_findings,
};
use plan_clock::Clock;
use plan_rules::{Jobs, LineFault};
use std::alloc::{AllocError, Global};

/// Returns the jobs of the sources, in the order of the sources: one for each command line of a crontab, and
/// one for each timer. Their rules start in these time zones.
///
/// The jobs of a source are added before the next source is read.
///
/// # Errors
///
/// The first error is returned:
///
/// - `InSource`: a source is invalid. This is the error of its name, else its first error, as `crontab` or `timer` of
///   plan_rules returns it.
/// - `SameName`: two jobs have the same name.
/// - `Full`: there are more than 1,000 jobs.
/// - `NoMemory`: an allocation failed, also while a source was read. It never replaces an error of the first
///   source that is found before its lines are read: `BadTabName`, `BadTimerName`, `TooLarge` or `NotUtf8`.
pub fn jobs_of_sources(
    alloc: Global,
    sources: &Sources,
    zones: &TimeZones,
) -> Result<Jobs, SourceFault>
    ensures meaning { GivesUnless SourceFault.NoMemory (λ jobs. jobs) result (jobs_reading zones.now sources.now) }
    ensures own_fault { IfErr result IsOwnFault }

    // These errors are found before any memory is requested.
    ensures at_once { IfSome (fault_at_once sources.now) (λ fault. result ≡ Err fault) }
    ensures no_source { sources.now ≡ [] → result ≡ Ok [] }
{
    if let Some(fault) = fault_at_once(sources) {
        return Err(fault);
    }
    let jobs = read_jobs(alloc, sources, &zones.timers)?;
    match in_zone(alloc, jobs, &zones.clock) {
        Ok(jobs) => Ok(jobs),
        Err(_) => Err(SourceFault::NoMemory),
    }
}

// Returns jobs with the rule of each in the zone of a clock. In UTC, and without jobs, this allocates nothing.
pub(crate) fn in_zone(alloc: Global, jobs: Jobs, clock: &Clock) -> Result<Jobs, AllocError>
    ensures zone { IfOk result (λ placed. placed ≡ zoned clock.now jobs) }
    ensures none { jobs ≡ [] → result ≡ Ok [] }
{
    if clock.is_utc() || jobs.is_empty() {
        return Ok(jobs);
    }
    jobs.in_zone(alloc, clock)
}

// Returns the same jobs, all in UTC but for events that name a zone. Timers are read in this context.
fn read_jobs(alloc: Global, sources: &Sources, context: &TimerContext) -> Result<Jobs, SourceFault>
    ensures meaning { GivesUnless SourceFault.NoMemory (λ jobs. jobs) result (sources_reading context.now sources.now) }
    ensures own_fault { IfErr result IsOwnFault }
    ensures no_source { sources.now ≡ [] → result ≡ Ok [] }
{
    a_file_means_its_reading();
    let mut known = Known::new(alloc, None);
    let sources = sources.as_slice();
    for (place, source) in sources.iter().enumerate() {
        add_jobs(alloc, &mut known, place, source, context)?;
    }
    Ok(known.into_jobs())
}

// Adds the jobs of the source at a place, or returns the error that decides in it.
fn add_jobs(
    alloc: Global,
    known: &mut Known,
    place: usize,
    source: &Source,
    context: &TimerContext,
) -> Result<(), SourceFault>
    ensures meaning { GivesUnless SourceFault.NoMemory (λ _. known.new) result
        (in_source place (strictly context.now known.old (source_file source.now))) }
    ensures own_fault { IfErr result IsOwnFault }

    // These errors are found before any memory is requested.
    ensures at_once { IfSome (source_at_once place source.now) (λ fault. result ≡ Err fault) }
{
    if let Some(fault) = source_at_once(place, source) {
        return Err(fault);
    }
    let (name, bytes) = (source.name.as_str(), source.bytes.as_slice());
    let Ok(found) = file_findings(alloc, known, source.kind, name, bytes, context) else {
        return Err(SourceFault::NoMemory);
    };
    match deciding_fault(alloc, found) {
        Some(fault) => Err(SourceFault::of_file(place, fault)),
        None => Ok(()),
    }
}

// Returns the error of the first source that is found before any memory is requested.
fn fault_at_once(sources: &Sources) -> Option<SourceFault>
    ensures fault { result ≡ fault_at_once sources.now }
    ensures own { IfSome result IsOwnFault }
{
    source_at_once(0, sources.as_slice().first()?)
}

// Returns the error of the source at a place that is found before any memory is requested.
fn source_at_once(place: usize, source: &Source) -> Option<SourceFault>
    ensures fault { result ≡ source_at_once place source.now }
    ensures own { IfSome result IsOwnFault }
{
    let (name, bytes) = (source.name.as_str(), source.bytes.as_slice());
    let cause = cause_at_once(source.kind, name, bytes)?;
    Some(SourceFault::in_source(place, LineFault { line: 0, cause }))
}
