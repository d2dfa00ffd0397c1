//! The arguments of the command line: what they request, or the text of help or of a usage error.
//!
//! The crate uses the kit's `clap`, agenda_options for both command lines, plan_texts for the texts that it keeps,
//! plan_rules for the table of the kinds of sources, agenda_sources for their paths, agenda_codes for the codes that can
//! be explained, and agenda_policy for the warnings that `check` denies or allows. Read `arguments` first, then `machine`
//! for the arguments of `agenda machine`.
#![tactic(auto)]

mod arguments;
mod ask;
mod codes;
mod hint;
mod machine;
mod names;
mod paths;
mod values;

pub use arguments::read_words;
pub use ask::{
    Ask, ChangesRequest, FormatRequest, JobsRequest, MachineCheck, MachineDescribe, MachineGoal,
    MachineJobs, MachineNext, MachineQuestion, MachineRequest, NextRequest, PlanRequest,
    SpanRequest, TableRequest, UsageFault, ZonesRequest,
};
pub use names::JobNames;
