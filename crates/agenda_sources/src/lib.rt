//! The sources of a plan, the jobs that they make, and the findings of `check` in them.
//!
//! A source is a file of a kind: see `SourceKind` of plan_rules. plan_rules reads each of them, and plan_check finds
//! their errors.
//!
//! Read `sources` first, then `reading` and `findings`. `paths` are where sources are read from, and `asked` is a rule
//! that is given by itself. `time_zones` are those of the rules, and `named_zones` finds which zones the sources need.
#![tactic(auto)]

mod asked;
mod bytes;
mod fault;
mod findings;
mod name;
mod named_zones;
mod paths;
mod reading;
mod sources;
mod time_zones;

pub use asked::Asked;
pub use bytes::Bytes;
pub use fault::SourceFault;
pub use findings::{Found, Kept, findings_of_sources, kept_of_sources, without_errors_all_is_kept};
pub use name::file_name;
pub use named_zones::{asked_zones, zone_names};
pub use paths::{SourcePath, SourcePaths};
pub use reading::jobs_of_sources;
pub use sources::{Source, Sources};
pub use time_zones::TimeZones;
