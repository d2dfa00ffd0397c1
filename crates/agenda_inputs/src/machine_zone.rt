//! Reads the clock of a machine's time zone (localtime(5)).

ghost use Rattle.std.specs.Prelude.{◌≡◌, IfOk, Ok, option_map};
ghost use Rattle.agenda_inputs.specs.MachineZone.{clock_by_name, clock_by_zone, clock_if_found, fails_for_zone, given_clock, machine_clock, named_clock, names_zone, zone_of_file, suggestion_for, utc_clock};
ghost use Rattle.plan_machine.specs.Zone.{zone_shown};
ghost use Rattle.plan_zones.specs.ZoneTexts.{source_of};

use crate::event_zones::look_up;
use crate::files::{Files, MOST_READ};
use crate::suggestion::suggestion;
use crate::zone::{clock_of_bytes, clock_of_text};
use agenda_faults::{Failure, MachineFault};
use plan_clock::Clock;
use plan_machine::{MachineZone, machine_zone};
use plan_rules::{NamedZone, Text};
use plan_tree::Tree;
use plan_zones::{ZoneFault, ZoneSource, zone_source};
use std::alloc::{AllocError, Global};

/// The clock of a machine's time zone.
#[derive(Drop)]
pub struct ZoneClock {
    /// The name of the zone, if it has one.
    pub name: Option<Text>,
    /// Whether the zone is that of a file. Without a name it is called `local` then, and otherwise `UTC`.
    pub is_of_file: bool,
    /// The clock.
    pub clock: Clock,
    /// Whether the zone is unknown. The clock is that of UTC then.
    pub is_unknown: bool,
}

/// Reads the clock of the zone that is given, or else of the zone of the machine with this tree. What can't be read there, or is no
/// TZif file, tells no zone.
///
/// # Errors
///
/// `Machine(Zone)` if the zone that is given can't be used, with its text.
pub fn machine_clock<F: Files, T: Tree>(
    alloc: Global,
    files: &mut F,
    tree: &T,
    given: &Option<Text>,
) -> Result<ZoneClock, Failure>
    ensures read { machine_clock (F.held files.old) (record { is_known = T.is_known; held = T.held tree.now }) given.now result }
    ensures same { F.held files.new ≡ F.held files.old }
{
    if let Some(text) = given {
        return given_clock(alloc, files, text.as_str());
    }
    let zone = machine_zone(alloc, tree, MOST_READ)?;
    clock_by_zone(alloc, files, zone)
}

// Reads the clock of the zone that a text gives.
fn given_clock<F: Files>(alloc: Global, files: &mut F, text: &str) -> Result<ZoneClock, Failure>
    ensures read { given_clock (F.held files.old) text.now result }
    ensures same { F.held files.new ≡ F.held files.old }
{
    let found = clock_of_text(alloc, files, text);
    let clock = naming_zone(alloc, files, found, text)?;
    let name = copy_of(alloc, text)?;
    Ok(ZoneClock {
        name: Some(name),
        is_of_file: false,
        clock,
        is_unknown: false,
    })
}

// Returns the clock of a zone. If the zone can't be used, the error has its text.
fn naming_zone<F: Files>(
    alloc: Global,
    files: &mut F,
    clock: Result<Clock, Failure>,
    text: &str,
) -> Result<Clock, Failure>
    ensures read { names_zone (F.held files.old) text.now clock result }
    ensures same { F.held files.new ≡ F.held files.old }
{
    match clock {
        Ok(clock) => Ok(clock),
        Err(Failure::Zone(fault)) => no_zone(alloc, files, text, fault),
        Err(failure) => Err(failure),
    }
}

// Returns the failure of a zone that can't be used, with its text.
fn no_zone<F: Files>(
    alloc: Global,
    files: &mut F,
    text: &str,
    fault: ZoneFault,
) -> Result<Clock, Failure>
    ensures read { fails_for_zone (F.held files.old) text.now fault result }
    ensures same { F.held files.new ≡ F.held files.old }
{
    let like = suggestion_for(alloc, files, text, fault)?;
    let text = copy_of(alloc, text)?;
    Err(Failure::Machine(MachineFault::Zone(text, fault, like)))
}

// Returns the name of the zone that may be meant by a text, if there is no zone with this one.
fn suggestion_for<F: Files>(
    alloc: Global,
    files: &mut F,
    text: &str,
    fault: ZoneFault,
) -> Result<Option<Text>, Failure>
    ensures read { suggestion_for (F.held files.old) text.now fault result }
    ensures same { F.held files.new ≡ F.held files.old }
{
    match fault {
        ZoneFault::NoSuchZone => suggestion(alloc, files, text),
        _ => Ok(None),
    }
}

// Reads the clock of a machine's own zone.
fn clock_by_zone<F: Files>(
    alloc: Global,
    files: &mut F,
    zone: MachineZone,
) -> Result<ZoneClock, Failure>
    ensures read { clock_by_zone (F.held files.old) (zone_shown zone) result }
    ensures same { F.held files.new ≡ F.held files.old }
{
    match zone {
        MachineZone::Utc => Ok(utc_clock(false)),
        MachineZone::Named { name, bytes } => clock_by_name(alloc, files, name, bytes),
        MachineZone::Local { bytes: Some(bytes) } => zone_of_file(alloc, None, bytes.as_slice()),
        MachineZone::Local { bytes: None } | MachineZone::Unknown => Ok(utc_clock(true)),
    }
}

// Reads the clock of the zone with a name. These are the bytes of its file below the root, if there is one.
fn clock_by_name<F: Files>(
    alloc: Global,
    files: &mut F,
    name: Text,
    bytes: Option<Vec<u8>>,
) -> Result<ZoneClock, Failure>
    ensures read { clock_by_name (F.held files.old) name (option_map (λ bytes. bytes.items) bytes) (source_of name) result }
    ensures same { F.held files.new ≡ F.held files.old }
{
    match zone_source(name.as_str()) {
        Ok(ZoneSource::Utc) => Ok(utc_clock(false)),
        Ok(ZoneSource::Name(_)) => named_clock(alloc, files, name, bytes),
        Ok(ZoneSource::Path(_)) | Err(_) => Ok(utc_clock(true)),
    }
}

// Reads the clock of the zone with a valid name.
fn named_clock<F: Files>(
    alloc: Global,
    files: &mut F,
    name: Text,
    bytes: Option<Vec<u8>>,
) -> Result<ZoneClock, Failure>
    ensures read { named_clock (F.held files.old) name (option_map (λ bytes. bytes.items) bytes) result }
    ensures same { F.held files.new ≡ F.held files.old }
{
    let Some(bytes) = bytes else {
        let zone = look_up(alloc, files, name.as_str())?;
        return Ok(clock_if_found(zone));
    };
    zone_of_file(alloc, Some(name), bytes.as_slice())
}

// Returns the clock of a zone that the running machine has, or else that of an unknown zone.
fn clock_if_found(zone: Option<NamedZone>) -> ZoneClock
    ensures { clock_if_found zone (Ok result) }
{
    match zone {
        Some(NamedZone { name, clock }) => ZoneClock {
            name: Some(name),
            is_of_file: false,
            clock,
            is_unknown: false,
        },
        None => utc_clock(true),
    }
}

// Returns the clock of UTC.
fn utc_clock(is_unknown: bool) -> ZoneClock
    ensures { result ≡ utc_clock is_unknown }
{
    ZoneClock {
        name: None,
        is_of_file: false,
        clock: Clock::utc(),
        is_unknown,
    }
}

// Returns the zone of a file with these bytes, with this name if it has one. What is no TZif file tells no zone.
fn zone_of_file(alloc: Global, name: Option<Text>, bytes: &[u8]) -> Result<ZoneClock, Failure>
    ensures { zone_of_file name bytes.now result }
{
    match clock_of_bytes(alloc, bytes) {
        Ok(clock) => Ok(ZoneClock {
            name,
            is_of_file: true,
            clock,
            is_unknown: false,
        }),
        Err(Failure::Zone(_)) => Ok(utc_clock(true)),
        Err(failure) => Err(failure),
    }
}

/// Returns a copy of a text.
///
/// # Errors
///
/// An allocation failed.
pub fn copy_of(alloc: Global, text: &str) -> Result<Text, AllocError>
    ensures { IfOk result (λ copy. copy ≡ text.now) }
{
    Ok(Text::new(String::from_str(alloc, text)?))
}
