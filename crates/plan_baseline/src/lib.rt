//! Reads back the text of an agenda that was written earlier.
//!
//! plan_write has what such a text is. Read `baseline` first: it finds the places of the lines. `lines` reads the header, and
//! the time of a line, `tails` what follows that. `times` reads a time, in UTC or by a clock, and `known` one that is near that
//! of the line before. `laws` has the law: what is written is read back.
#![tactic(auto)]

mod baseline;
mod cuts;
mod fault;
mod known;
mod laws;
mod lines;
mod listed;
mod tails;
mod times;

pub use baseline::Baseline;
pub use fault::BaselineFault;
pub use laws::agendas_are_read_back;
pub use listed::Listed;
