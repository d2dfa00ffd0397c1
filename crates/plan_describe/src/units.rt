//! Times that are said by the minutes and hours, or the seconds, minutes and hours, that they have.

ghost use Rattle.std.specs.Prelude.{◌≡◌, IfOk};
ghost use Rattle.plan_words.specs.View.{hours_of, lead_of, some_values_of, time_of};
ghost use Rattle.plan_describe.specs.TimeSaid.{hour_steps, hours_said, lead_said, minutes_said, units_said};

use crate::numbers::{is_run, is_steps, is_whole, last_of, values_said};
use crate::series::{Series, series_of};
use plan_words::{Hours, Lead, Time, Values};
use std::alloc::{AllocError, Global};

/// Returns how the times with these seconds, minutes and hours are said, each unit by itself.
///
/// # Errors
///
/// `AllocError` if an allocation fails.
pub(crate) fn units_said(
    alloc: Global,
    seconds: &[u16],
    minutes: &[u16],
    hours: &[u16],
) -> Result<Time, AllocError>
    ensures { IfOk result (λ time. time_of time ≡ units_said seconds.now minutes.now hours.now) }
{
    let hours = hours_said(alloc, hours)?;
    if let [0] = seconds {
        let lead = lead_said(alloc, minutes)?;
        return Ok(Time::Minutes { lead, hours });
    }
    let lead = lead_said(alloc, seconds)?;
    let minutes = minutes_said(alloc, minutes)?;
    Ok(Time::Seconds {
        lead,
        minutes,
        hours,
    })
}

// Returns how the smallest unit is said.
fn lead_said(alloc: Global, values: &[u16]) -> Result<Lead, AllocError>
    ensures { IfOk result (λ lead. lead_of lead ≡ lead_said values.now) }
{
    if let Series::Even { first, last, step } = series_of(1, values)
        && first == 0
        && last <= 60
        && step == 60 - last
    {
        return Ok(Lead::Cycle(step as u16));
    }
    Ok(Lead::Among(values_said(alloc, values)?))
}

// Returns how the minutes after the seconds are said.
fn minutes_said(alloc: Global, minutes: &[u16]) -> Result<Option<Values>, AllocError>
    ensures { IfOk result (λ said. some_values_of said ≡ minutes_said minutes.now) }
{
    if is_whole(0, 59, minutes) {
        return Ok(None);
    }
    Ok(Some(values_said(alloc, minutes)?))
}

// Returns how the hours after the minutes are said.
fn hours_said(alloc: Global, hours: &[u16]) -> Result<Hours, AllocError>
    ensures { IfOk result (λ said. hours_of said ≡ hours_said hours.now) }
{
    if let [first, second, more @ ..] = hours {
        if is_whole(0, 23, hours) {
            return Ok(Hours::All);
        }
        if is_run(hours) || is_steps(hours) {
            return Ok(hour_steps(*first, *second, more));
        }
    }
    Ok(Hours::List(Vec::from_slice(alloc, hours)?))
}

// Returns hours from the first, by the distance of the first two, to the last.
fn hour_steps(first: u16, second: u16, more: &[u16]) -> Hours
    ensures { hours_of result ≡ hour_steps first second more.now }
{
    Hours::Steps {
        first: (first % 24) as u8,
        last: (last_of(second, more) % 24) as u8,
        step: second.saturating_sub(first),
    }
}
