//! Sets of values, dates and times, and timestamps: the building blocks of the rules of cron and of systemd timers.
//!
//! The crate uses no other crate of the project, only the kit's `jiff` and `jiff_core`, for dates.
//! None of its functions allocates memory. Open `value_set` first, then `civil`. `item` makes sets from the elements
//! of a field, and `moment` reads and writes timestamps.
#![tactic(auto)]

mod civil;
mod item;
mod moment;
mod value_set;

pub use civil::{
    Civil, END_SECOND, FIRST_YEAR, LAST_YEAR, SECONDS_A_DAY, civil_of, month_length, second_of,
};
pub use item::{Item, SetFault, set_of};
pub use moment::{MomentFault, moment_text, read_moment};
pub use value_set::ValueSet;
