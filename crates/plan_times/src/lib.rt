//! Reads the times and lengths that people type, such as `tomorrow 02:00`, `+8h` and `90min`.
//!
//! A text is first read as a form, without any clock (`form`): a day and a time of day (`day`, `time_of_day`), a time
//! span, or a number of seconds. Then `local_time` finds the second at which a clock shows a local time, and `time` puts both
//! together. Open `time` first. None of the functions allocates memory.
#![tactic(auto)]

mod day;
mod fault;
mod form;
mod lengths;
mod local_text;
mod local_time;
mod parts;
mod time;
mod time_of_day;

pub use fault::TimeFault;
pub use lengths::length;
pub use time::{since_time, until_time};
