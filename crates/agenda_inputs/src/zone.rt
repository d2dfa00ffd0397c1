//! Reads the clock of the time zone of the rules.

ghost use Rattle.std.specs.Prelude.{◌≡◌, ◌≢◌, [], ◌∷◌, Err, IfOk};
ghost use Rattle.agenda_inputs.specs.Opened.{OpensFirst, clock_files, followed_by, zone_files};
ghost use Rattle.agenda_inputs.specs.Zone.{clock_from, clock_of, clock_of_bytes, clock_of_file};
ghost use Rattle.agenda_faults.specs.declared.faults.Failure.TheVariants.{File, Run, Zone};
ghost use Rattle.agenda_faults.specs.declared.faults.RunFault.TheVariants.{NoMemory};
ghost use Rattle.plan_zones.specs.declared.zone_fault.ZoneFault.TheVariants.{NoSuchZone};
ghost use Rattle.plan_zones.specs.ZoneTexts.{source_of, zone_path};

use crate::files::{Files, read_file, read_path};
use agenda_faults::Failure;
use plan_clock::Clock;
use plan_rules::{NamedZone, Text};
use plan_zones::{ZoneFault, ZoneSource, read_zone, zone_path, zone_source};
use std::alloc::{AllocError, Global};

/// Reads the clock of the zone that a text gives. Without a text it is the clock of UTC, and no file is read.
///
/// # Errors
///
/// `Zone` if the text gives no zone, if there is no file for the name, or if the file isn't a zone's; `File`
/// if a path can't be opened or read; `Run(NoMemory)` if an allocation failed.
pub(crate) fn read_clock<F: Files>(
    alloc: Global,
    files: &mut F,
    zone: &Option<Text>,
) -> Result<Clock, Failure>
    ensures read { clock_of (F.held files.old) zone.now result }
    ensures same { F.held files.new ≡ F.held files.old }
    ensures opens { result ≢ Err (Run NoMemory) → F.opened files.new ≡ followed_by (F.opened files.old) (clock_files zone.now) }
    ensures first { OpensFirst (clock_files zone.now) (F.opened files.old) (F.opened files.new) }
{
    match zone {
        Some(text) => clock_of_text(alloc, files, text.as_str()),
        None => Ok(Clock::utc()),
    }
}

// Reads the clock of the zone that a text gives.
pub(crate) fn clock_of_text<F: Files>(
    alloc: Global,
    files: &mut F,
    text: &str,
) -> Result<Clock, Failure>
    ensures read { clock_from (F.held files.old) (source_of text.now) result }
    ensures same { F.held files.new ≡ F.held files.old }
    ensures opens { result ≢ Err (Run NoMemory) → F.opened files.new ≡ followed_by (F.opened files.old) (zone_files (source_of text.now)) }
    ensures first { OpensFirst (zone_files (source_of text.now)) (F.opened files.old) (F.opened files.new) }
{
    match zone_source(text) {
        Ok(ZoneSource::Utc) => Ok(Clock::utc()),
        Ok(ZoneSource::Path(path)) => clock_of_path(alloc, files, path),
        Ok(ZoneSource::Name(name)) => clock_of_name(alloc, files, name),
        Err(fault) => Err(Failure::Zone(fault)),
    }
}

// Reads the clock of the zone whose file has this path.
fn clock_of_path<F: Files>(alloc: Global, files: &mut F, path: &str) -> Result<Clock, Failure>
    ensures read { clock_of_file (F.held files.old path.now) (File path.now) result }
    ensures same { F.held files.new ≡ F.held files.old }
    ensures opens { result ≢ Err (Run NoMemory) → F.opened files.new ≡ followed_by (F.opened files.old) (path.now ∷ []) }
    ensures first { OpensFirst (path.now ∷ []) (F.opened files.old) (F.opened files.new) }
{
    let bytes = read_path(alloc, files, path)?;
    clock_of_bytes(alloc, bytes.as_slice())
}

// Reads the clock of the system's zone with this name.
fn clock_of_name<F: Files>(alloc: Global, files: &mut F, name: &str) -> Result<Clock, Failure>
    ensures read { clock_of_file (F.held files.old (zone_path name.now)) (Zone NoSuchZone) result }
    ensures same { F.held files.new ≡ F.held files.old }
    ensures opens { result ≢ Err (Run NoMemory) → F.opened files.new ≡ followed_by (F.opened files.old) (zone_path name.now ∷ []) }
    ensures first { OpensFirst (zone_path name.now ∷ []) (F.opened files.old) (F.opened files.new) }
{
    let path = zone_path(alloc, name)?;
    let unread = Failure::Zone(ZoneFault::NoSuchZone);
    let bytes = read_file(alloc, files, path.as_str(), unread)?;
    clock_of_bytes(alloc, bytes.as_slice())
}

// Reads the clock of the zone whose file has these bytes.
pub(crate) fn clock_of_bytes(alloc: Global, bytes: &[u8]) -> Result<Clock, Failure>
    ensures { clock_of_bytes bytes.now result }
{
    match read_zone(alloc, bytes) {
        Ok(clock) => Ok(clock),
        Err(fault) => Err(Failure::from(fault)),
    }
}

/// Returns the zone with this name and this clock.
///
/// # Errors
///
/// `AllocError` if an allocation failed.
pub fn named_zone(alloc: Global, name: &str, clock: &Clock) -> Result<NamedZone, AllocError>
    ensures { IfOk result (λ zone. zone ≡ record { name = name.now; clock = clock.now }) }
{
    Ok(NamedZone {
        name: Text::new(String::from_str(alloc, name)?),
        clock: clock.try_clone()?,
    })
}
