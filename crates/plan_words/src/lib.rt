//! Says what a rule means in English, and reads the sentence back.
//!
//! A description of a rule is a small tree (`tree`). Its sentence is a list of words (`words`), which are then spelled
//! (`spelling`). `specs/Meaning.antt` says what a description means, and `specs/Reading.antt` reads a sentence back. Open
//! `description` first.
#![tactic(auto)]

mod days;
mod description;
mod existing;
mod law;
mod lists;
mod membership;
mod names;
mod spelling;
mod time;
mod tree;
mod words;

pub use description::sentence;
pub use law::{sentences_differ, void_schedules_have_no_day};
pub use names::{Month, TimeUnit, Weekday};
pub use tree::{
    Dates, Days, Description, Hours, Lead, Months, Schedule, Span, Time, TimeOfDay, Values, Week,
    Window,
};
