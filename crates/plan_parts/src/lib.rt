//! The parts of a source: the files that its text is merged from, and where each line of the text comes from.
//!
//! This crate depends on plan_texts alone. Read `part` and `merging` first, then `origin`.
#![tactic(auto)]

mod counting;
mod merging;
mod name_parts;
mod origin;
mod part;
mod parts;
mod specifiers;

pub use merging::merged;
pub use name_parts::{parts_of, type_len, type_start};
pub use origin::{Origin, origin_of};
pub use part::Part;
pub use parts::{Parts, UnitParts};
pub use specifiers::expanded;
