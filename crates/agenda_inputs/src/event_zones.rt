//! Reads the time zones that calendar events end with.

ghost use Rattle.std.specs.Prelude.{◌≡◌, ◌<◌, [], None, Some, IfErr, IfOk, OnOk, get_or, length, ◌++◌};
ghost use Rattle.std.specs.List.{cons_option};
ghost use Rattle.agenda_inputs.specs.EventZones.{found_zone, is_given, looked_up, time_zones, zones_by, zones_found};
ghost use Rattle.agenda_inputs.specs.Opened.{OpensFirst, event_files, files_of_names, files_unless, followed_by, zone_files};
ghost use Rattle.agenda_faults.specs.declared.faults.Failure.TheVariants.{Run};
ghost use Rattle.agenda_faults.specs.declared.faults.RunFault.TheVariants.{NoMemory};
ghost use Rattle.agenda_sources.specs.ZoneNames.{asked_zones, zone_names};
ghost use Rattle.plan_check.specs.Context.{context_of};
ghost use Rattle.plan_zones.specs.ZoneTexts.{source_of};

use crate::files::Files;
use crate::zone::{clock_of_text, named_zone};
use agenda_arguments::ZonesRequest;
use agenda_faults::{Failure, RunFault};
use agenda_sources::{Asked, Sources, TimeZones, asked_zones, zone_names};
use plan_check::TimerContext;
use plan_clock::Clock;
use plan_rules::{EventZones, NamedZone, Names, Text};
use plan_zones::zone_path;
use std::alloc::{AllocError, Global};

/// Returns the time zones of rules whose clock is given. If that is requested, reads the zones that the events of these
/// sources end with, each once.
///
/// # Errors
///
/// `Run(NoMemory)` if an allocation failed.
pub(crate) fn zones_of_sources<F: Files>(
    alloc: Global,
    files: &mut F,
    request: &ZonesRequest,
    clock: Clock,
    sources: &Sources,
) -> Result<TimeZones, Failure>
    ensures read { time_zones (F.held files.old) request.now clock (zone_names sources.now) result }
    ensures opens { OnOk result (F.opened files.new ≡ followed_by (F.opened files.old) (event_files request.now (zone_names sources.now))) }
    ensures first { OpensFirst (event_files request.now (zone_names sources.now)) (F.opened files.old) (F.opened files.new) }
{
    if request.event_zones {
        let names = zone_names(alloc, sources)?;
        return read_zones(alloc, files, &request.zone, clock, &names);
    }
    Ok(in_utc(clock))
}

/// Does the same for a rule that is given by itself, and may end with a zone.
///
/// # Errors
///
/// `Run(NoMemory)` if an allocation failed.
pub fn zones_of_rule<F: Files>(
    alloc: Global,
    files: &mut F,
    request: &ZonesRequest,
    clock: Clock,
    rule: &Asked,
) -> Result<TimeZones, Failure>
    ensures read { time_zones (F.held files.old) request.now clock (asked_zones rule.now) result }
    ensures opens { OnOk result (F.opened files.new ≡ followed_by (F.opened files.old) (event_files request.now (asked_zones rule.now))) }
    ensures first { OpensFirst (event_files request.now (asked_zones rule.now)) (F.opened files.old) (F.opened files.new) }
{
    if request.event_zones {
        let names = asked_zones(alloc, rule)?;
        return read_zones(alloc, files, &request.zone, clock, &names);
    }
    Ok(in_utc(clock))
}

// Returns the time zones of rules with this clock whose events may only name UTC.
fn in_utc(clock: Clock) -> TimeZones
    ensures { result ≡ record { clock = clock; timers = context_of None } }
{
    TimeZones {
        clock,
        timers: TimerContext::new(EventZones::utc_alone()),
    }
}

/// Reads the zones with these names, each once. The zone of the rules, `given`, is not read again: its clock is given
/// too. A zone that can't be read is left out, and so is a file that isn't a zone's.
///
/// # Errors
///
/// `Run(NoMemory)` if an allocation failed.
pub fn read_zones<F: Files>(
    alloc: Global,
    files: &mut F,
    given: &Option<Text>,
    clock: Clock,
    names: &Names,
) -> Result<TimeZones, Failure>
    ensures read { zones_by (F.held files.old) given.now clock (Some names.now) result }
    ensures opens { OnOk result (F.opened files.new ≡ followed_by (F.opened files.old) (files_of_names given.now names.now)) }
    ensures first { OpensFirst (files_of_names given.now names.now) (F.opened files.old) (F.opened files.new) }
{
    let zones = find_zones(alloc, files, given, &clock, names)?;
    Ok(TimeZones {
        clock,
        timers: TimerContext::new(zones),
    })
}

// Reads the zones with these names, in order.
fn find_zones<F: Files>(
    alloc: Global,
    files: &mut F,
    given: &Option<Text>,
    clock: &Clock,
    names: &Names,
) -> Result<EventZones, Failure>
    ensures read { zones_found (F.held files.old) given.now clock.now names.now result }
    ensures opens { OnOk result (F.opened files.new ≡ followed_by (F.opened files.old) (files_of_names given.now names.now)) }
    ensures first { OpensFirst (files_of_names given.now names.now) (F.opened files.old) (F.opened files.new) }
{
    let mut known = Vec::new(alloc);
    for place in 0..names.len() {
        let zone = zone_at(alloc, files, given, clock, names, place)?;
        add_zone(&mut known, zone)?;
    }
    Ok(EventZones::new(known))
}

// Adds a zone that was found.
fn add_zone(known: &mut Vec<NamedZone>, zone: Option<NamedZone>) -> Result<(), Failure>
    ensures added { OnOk result (known.new.items ≡ known.old.items ++ cons_option zone []) }
    ensures memory { IfErr result (λ failure. failure ≡ Run NoMemory) }
{
    match zone {
        Some(zone) => {
            known.push(zone)?;
            Ok(())
        }
        None => Ok(()),
    }
}

// Reads the zone with the name at a place, unless it is the zone of the rules.
fn zone_at<F: Files>(
    alloc: Global,
    files: &mut F,
    given: &Option<Text>,
    clock: &Clock,
    names: &Names,
    place: usize,
) -> Result<Option<NamedZone>, Failure>
    requires { place < length names.now }
    ensures read { found_zone (F.held files.old) given.now clock.now (get_or names.now place []) result }
    ensures same { F.held files.new ≡ F.held files.old }
    ensures opens { OnOk result (F.opened files.new ≡ followed_by (F.opened files.old)
        (files_unless (is_given given.now (get_or names.now place [])) (get_or names.now place []))) }
    ensures first { OpensFirst (files_unless (is_given given.now (get_or names.now place [])) (get_or names.now place []))
        (F.opened files.old) (F.opened files.new) }
{
    match names.get(place) {
        Some(name) => find_zone(alloc, files, given, clock, name),
        None => Ok(None),
    }
}

// Reads the zone with a name, unless it is the zone of the rules.
fn find_zone<F: Files>(
    alloc: Global,
    files: &mut F,
    given: &Option<Text>,
    clock: &Clock,
    name: &str,
) -> Result<Option<NamedZone>, Failure>
    ensures read { found_zone (F.held files.old) given.now clock.now name.now result }
    ensures same { F.held files.new ≡ F.held files.old }
    ensures opens { OnOk result (F.opened files.new ≡ followed_by (F.opened files.old) (files_unless (is_given given.now name.now) name.now)) }
    ensures first { OpensFirst (files_unless (is_given given.now name.now) name.now) (F.opened files.old) (F.opened files.new) }
{
    if !is_given(alloc, given, name)? {
        return look_up(alloc, files, name);
    }
    Ok(Some(named_zone(alloc, name, clock)?))
}

// Returns whether the zone of the rules is given by this name, or by the path of the name's file.
fn is_given(alloc: Global, given: &Option<Text>, name: &str) -> Result<bool, AllocError>
    ensures { IfOk result (λ is. is ≡ is_given given.now name.now) }
{
    let Some(text) = given else {
        return Ok(false);
    };
    if text.as_str() == name {
        return Ok(true);
    }
    let path = zone_path(alloc, name)?;
    Ok(text.as_str() == path.as_str())
}

// Looks up the zone with a name.
pub(crate) fn look_up<F: Files>(
    alloc: Global,
    files: &mut F,
    name: &str,
) -> Result<Option<NamedZone>, Failure>
    ensures read { looked_up (F.held files.old) name.now result }
    ensures same { F.held files.new ≡ F.held files.old }
    ensures opens { OnOk result (F.opened files.new ≡ followed_by (F.opened files.old) (zone_files (source_of name.now))) }
    ensures first { OpensFirst (zone_files (source_of name.now)) (F.opened files.old) (F.opened files.new) }
{
    match clock_of_text(alloc, files, name) {
        Ok(clock) => {
            let name = Text::new(String::from_str(alloc, name)?);
            Ok(Some(NamedZone { name, clock }))
        }
        Err(Failure::Run(RunFault::NoMemory)) => Err(Failure::Run(RunFault::NoMemory)),
        Err(_) => Ok(None),
    }
}
