//! Reads local dates and times.

ghost use Rattle.std.specs.Prelude.{◌≡◌};
ghost use Rattle.std.specs.Option.{option_map};
ghost use Rattle.plan_times.specs.Forms.{day_and_time, local_of};

use crate::day::{Day, day_of};
use crate::parts::{cut_at_t, cut_last_word};
use crate::time_of_day::time_of_day;

/// A local date and time, as it is written.
#[derive(Clone, Copy)]
pub(crate) struct Local {
    /// The day.
    pub day: Day,
    /// The seconds from midnight to the time of day.
    pub time: u32,
}

// Reads the parts of a text as a day and a time of day.
fn day_and_time(cut: Option<(&[u8], &[u8])>) -> Option<Local>
    ensures { result ≡ day_and_time (option_map (λ parts. (parts.0.now, parts.1.now)) cut.entry) }
{
    let (day, time) = cut?;
    let day = day_of(day)?;
    let time = time_of_day(time)?;
    Some(Local { day, time })
}

/// Reads a day, a time of day, or both with blanks or a T between them.
#[tactic(auto, unfolding(crate::specs::Forms::local_of))]
pub(crate) fn local_of(text: &[u8]) -> Option<Local>
    ensures { result ≡ local_of text.now }
{
    if let Some(day) = day_of(text) {
        return Some(Local { day, time: 0 });
    }
    if let Some(time) = time_of_day(text) {
        return Some(Local {
            day: Day::Unnamed,
            time,
        });
    }
    if let Some(local) = day_and_time(cut_last_word(text)) {
        return Some(local);
    }
    day_and_time(cut_at_t(text))
}
