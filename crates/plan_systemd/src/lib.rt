//! How systemd 252 reads calendar events and timers that agenda accepts.
//!
//! Open `differences` first: it has what is known of an event. `rejected` has the events that systemd rejects, by the
//! flaws of single elements in `flaw` and `flaw_hint`, by `spacing` and by `late_days`. `from_end`, `skipped` and
//! `may_stop` have those that it reads otherwise. `merged` has starts of a timer that are close together, and `hints`
//! why agenda rejects an event.
#![tactic(auto)]

mod differences;
mod flaw;
mod flaw_hint;
mod from_end;
mod hints;
mod late_days;
mod may_stop;
mod merged;
mod rejected;
mod skipped;
mod spacing;

pub use differences::{EventDifferences, event_differences, is_read_otherwise};
pub use hints::event_hint;
pub use merged::may_merge;
pub use rejected::rejection;
