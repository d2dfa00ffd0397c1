//! Cuts texts into words, pieces and lines, and reads numbers.
//!
//! This crate depends on no crate of the project, and knows nothing of rules. Read `parts` first. `lines` and
//! `whole_lines` split the text of a file: crontabs have lines, and unit files of systemd have whole lines.
#![tactic(auto)]

pub mod lines;
mod parts;
mod text;
pub mod whole_lines;

pub use parts::{begins_with, begins_with_letter, cut, number, pieces, words};
pub use text::Text;
