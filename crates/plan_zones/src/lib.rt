//! Time zones: the clock of a zone, read from its TZif file (RFC 9636), and the texts that give a zone.
//!
//! The crate uses the kit's `jiff_tz`, which reads the file, and plan_clock, for the clock. Open `read`
//! first, then `changes`, which finds the seconds at which the offset changes. `zone_text` is about the
//! texts.
#![tactic(auto)]

mod changes;
mod read;
mod zone_fault;
mod zone_text;

pub use read::read_zone;
pub use zone_fault::ZoneFault;
pub use zone_text::{ZoneSource, zone_path, zone_source};
