//! The clock of a zone, from the zone's file.

ghost use Rattle.std.specs.Prelude.{◌≡◌, ◌↔◌, false, Err, IfErr, IfOk, IsTrue};
ghost use Rattle.jiff_tz.specs.TzifReader.{read_tzif};
ghost use Rattle.plan_texts.specs.Lines.{is_too_large};
ghost use Rattle.plan_zones.specs.Zones.{IsBadZone, IsClockOf, IsRejected, Rejects};

use crate::changes::changes_of;
use crate::zone_fault::ZoneFault;
use jiff_core::Error;
use jiff_tz::Tzif;
use plan_clock::Clock;
use plan_texts::lines::is_too_large;
use std::alloc::Global;

/// Reads the clock of a zone from the bytes of its TZif file (RFC 9636).
///
/// At each second from 1970 through 2999 the clock has the offset of the zone. Leap seconds are ignored.
///
/// # Errors
///
/// - `TooLarge`: there are more than 1,048,576 bytes (agenda). This is found before the first allocation.
/// - `BadZone`: the bytes are not a TZif file, or its rule disagrees with its table (RFC 9636).
/// - `NoMemory`: an allocation failed.
pub fn read_zone(alloc: Global, bytes: &[u8]) -> Result<Clock, ZoneFault>
    ensures clock { IfOk result (λ clock. IsClockOf bytes.now clock) }
    ensures good { IfOk result (λ _. ¬ (IsBadZone bytes.now)) }
    ensures too_large { (result ≡ Err ZoneFault.TooLarge) ↔ IsTrue (is_too_large bytes.now) }
    ensures error { IfErr result (λ fault. Rejects fault bytes.now) }
    ensures rejected { is_too_large bytes.now ≡ false → IsRejected (read_tzif bytes.now) result }
{
    if is_too_large(bytes) {
        return Err(ZoneFault::TooLarge);
    }
    let zone = match Tzif::parse(alloc, None, bytes) {
        Ok(zone) => zone,
        Err(Error::OutOfMemory) => return Err(ZoneFault::NoMemory),
        Err(_) => return Err(ZoneFault::BadZone),
    };
    let changes = changes_of(alloc, &zone)?;
    let clock = Clock::new(alloc, changes)?;
    Ok(clock)
}
