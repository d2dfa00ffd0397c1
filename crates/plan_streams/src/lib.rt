//! Streams, to which the program writes its texts, and a writer that collects texts for a stream. Each writer of
//! std is a stream, which may fail.
//!
//! The crate uses no other crate of the project. Everything that writes uses it: agendas, error lines, and
//! the answers of commands. Read `stream` first, then `writer`.
#![tactic(auto)]

mod buffer;
mod stream;
mod writer;

pub use stream::{Stream, WriteFault};
pub use writer::TextWriter;
