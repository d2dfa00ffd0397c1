//! Reads what an answer is made from: files, time zones, and the sources that a request names.
//!
//! Read `files` first, which describes what the program requires of files, then `zone` and `sources`. `machine_files`
//! and `machine_zone` do the same for a machine, whose tree is below a root. `suggestion` is for a zone that doesn't exist.
#![tactic(auto)]

mod baselines;
mod event_zones;
mod files;
mod machine_files;
mod machine_zone;
mod sources;
mod suggestion;
mod zone;

pub use baselines::read_baseline;
pub use event_zones::{read_zones, zones_of_rule};
pub use files::{Files, MOST_READ, read_front, read_path};
pub use machine_files::MachineFiles;
pub use machine_zone::{ZoneClock, copy_of, machine_clock};
pub use sources::{Tried, read_input, read_rule_zones};
pub use zone::named_zone;
