//! What is said about the codes: a sentence for each, and a text for each.
//!
//! A text says what the code means and what to do about it, in lines of at most 80 columns. For some codes an
//! example follows: lines before the correction, and the same lines after it. The manual page agenda(1) has the
//! sentence of each code below DIAGNOSTICS.

pub(crate) mod files;
pub(crate) mod requests;
pub(crate) mod rules;
pub(crate) mod sentences;
pub(crate) mod warnings;
