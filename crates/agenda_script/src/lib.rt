//! Scripts of steps on a mailbox: how their bytes are read.
//!
//! The steps are those of plan_mailbox. plan_texts cuts lines and reads numbers. Read `reader` first.
#![tactic(auto)]

mod fault;
mod message;
mod reader;

pub use fault::{ScriptCause, ScriptFault};
pub use message::Message;
pub use reader::{MOST_STEPS, Script, read_script};
