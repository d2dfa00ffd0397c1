//! Patterns of names, with `*` and `?`.
#![tactic(auto)]

mod pattern;
#[cfg(test)]
mod tests;

pub use pattern::fits;
