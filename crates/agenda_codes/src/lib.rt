//! The codes of errors and warnings: what each of them means, and what to do about it.
//!
//! The crate uses plan_streams, to which it writes what `agenda explain` prints. A line of an error or of a
//! warning shows the name of a code; here each code has its explanation. Read `code` first, which has the
//! tables, then `write`. `warned` says which codes are those of warnings. The explanations are in the modules of `texts`.
#![tactic(auto)]

mod code;
mod texts;
mod warned;
mod write;

pub use code::Code;
pub use write::{write_codes, write_explanation};
