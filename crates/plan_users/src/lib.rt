//! The timers of the users of a machine (systemd.unit(5), loginctl(1)).
//!
//! Read `managers` first, which says which users can have a manager of units, then `timers`, which goes over them. `dirs` has the
//! directories of a user's units, `lingering` says whether the user lingers, `user_tree` how the files of the units are read, and `found` what is found
//! for one user.
#![tactic(auto)]

mod dirs;
mod found;
mod lingering;
mod managers;
mod timers;
mod user_tree;

pub use found::UserTimers;
pub use managers::user_homes;
pub use timers::user_timers;
