//! The texts that give a zone: `UTC`, the path of a file, or a name such as `Europe/Oslo`.

ghost use Rattle.std.specs.Prelude.{◌≡◌, IfOk};
ghost use Rattle.std.specs.List.{list_all};
ghost use Rattle.plan_zones.specs.ZoneTexts.{is_name_byte, is_name_part, is_zone_name, result_shown, source_of, zone_path};

use crate::zone_fault::ZoneFault;
use plan_texts::{Text, begins_with};
use std::alloc::{AllocError, Global};

/// Where the changes of a zone come from.
#[derive(Clone, Copy, Debug, PartialEq, Eq)]
pub enum ZoneSource<'t> {
    /// UTC, which has no changes and needs no file.
    Utc,
    /// The TZif file with this path.
    Path(&'t str),
    /// The zone of the system with this name, such as `Europe/Oslo`.
    Name(&'t str),
}

// The directory of the system's zones, with a slash at its end (tzfile(5)).
const ZONE_DIRECTORY: &str = "/usr/share/zoneinfo/";

/// Returns the source that a text gives.
///
/// `UTC` is UTC, and a text that begins with `/` or `.` is a path. Anything else is the name of a zone: one
/// or more parts with `/` between them, each of one or more ASCII letters, digits, `_`, `-` and `+` (agenda).
///
/// # Errors
///
/// `BadZoneName` if the text is none of these.
#[tactic(auto, unfolding(crate::specs::ZoneTexts::source_of))]
pub fn zone_source(text: &str) -> Result<ZoneSource<'_>, ZoneFault>
    ensures { result_shown result ≡ source_of text.now }
{
    if text == "UTC" {
        return Ok(ZoneSource::Utc);
    }
    if begins_with(text.as_bytes(), b'/') || begins_with(text.as_bytes(), b'.') {
        return Ok(ZoneSource::Path(text));
    }
    if !is_zone_name(text.as_bytes()) {
        return Err(ZoneFault::BadZoneName);
    }
    Ok(ZoneSource::Name(text))
}

/// Returns the path of the file of a zone of the system, which is in `/usr/share/zoneinfo` (tzfile(5)).
///
/// # Errors
///
/// Fails if an allocation fails.
pub fn zone_path(alloc: Global, name: &str) -> Result<Text, AllocError>
    ensures { IfOk result (λ path. path ≡ zone_path name.now) }
{
    let mut path = String::new(alloc);
    path.push_str(ZONE_DIRECTORY)?;
    path.push_str(name)?;
    Ok(Text::new(path))
}

// Returns whether a text has the form of a zone's name.
#[tactic(auto, unfolding(crate::specs::ZoneTexts::is_zone_name))]
fn is_zone_name(text: &[u8]) -> bool
    ensures { result ≡ is_zone_name text.now }
{
    text.split(|byte| *byte == b'/')
        .all(|part| is_name_part(part))
}

// Returns whether a text may be a part of a zone's name.
fn is_name_part(part: &[u8]) -> bool
    ensures { result ≡ is_name_part part.now }
{
    !part.is_empty() && are_name_bytes(part)
}

// Returns whether the name of a zone may have all these bytes.
fn are_name_bytes(bytes: &[u8]) -> bool
    ensures { result ≡ list_all is_name_byte bytes.now }
{
    bytes.iter().all(|byte| is_name_byte(*byte))
}

// Returns whether the name of a zone may have this byte.
fn is_name_byte(byte: u8) -> bool
    ensures { result ≡ is_name_byte byte }
{
    byte.is_ascii_alphanumeric() || matches!(byte, b'_' | b'-' | b'+')
}
