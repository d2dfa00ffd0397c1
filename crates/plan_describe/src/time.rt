//! How the times of a day are said.

ghost use Rattle.std.specs.Prelude.{◌≡◌, ◌+◌, ◌*◌, ◌++◌, ◌≤◌, [], IfOk, OnOk, map};
ghost use Rattle.std.specs.List.{flat_map};
ghost use Rattle.std.specs.Option.{option_map};
ghost use Rattle.plan_words.specs.View.{time_of};
ghost use Rattle.plan_describe.specs.TimeSaid.{are_few, evenly_said, is_single, many_said, step_count, step_of_runs, step_unit, time_at_second, time_said, times_in, window, window_said, windows_after, windows_said};

use crate::numbers::{is_whole, runs};
use crate::series::{DAY, Series, series_of, series_of_span, sums};
use crate::units::units_said;
use plan_words::{Span, Time, TimeOfDay, TimeUnit, Window};
use std::alloc::{AllocError, Global};

/// The number of seconds in a minute.
const MINUTE: u16 = 60;

/// The number of seconds in an hour.
const HOUR: u16 = 3_600;

/// The largest number of times that are listed.
const FEW_TIMES: usize = 6;

/// The largest number of windows.
const MOST_WINDOWS: usize = 3;

/// Returns how the times of the day with these seconds, minutes and hours are said.
///
/// # Errors
///
/// `AllocError` if an allocation fails.
pub(crate) fn time_said(
    alloc: Global,
    seconds: &[u16],
    minutes: &[u16],
    hours: &[u16],
) -> Result<Time, AllocError>
    ensures { IfOk result (λ time. time_of time ≡ time_said seconds.now minutes.now hours.now) }
{
    let in_hour = sums(series_of(MINUTE, minutes), MINUTE, series_of(1, seconds));
    let all_hours = is_whole(0, 23, hours);
    let in_day = sums(series_of(HOUR, hours), HOUR, in_hour);
    if let Some(time) = evenly_said(alloc, all_hours, in_day)? {
        return Ok(time);
    }
    if are_few(seconds, minutes, hours) {
        return Ok(Time::Listed(times_in(alloc, seconds, minutes, hours)?));
    }
    many_said(alloc, seconds, minutes, hours, all_hours, in_hour)
}

// Returns how more than six times that aren't evenly spaced are said.
fn many_said(
    alloc: Global,
    seconds: &[u16],
    minutes: &[u16],
    hours: &[u16],
    all_hours: bool,
    in_hour: Series,
) -> Result<Time, AllocError>
    ensures { IfOk result (λ time. time_of time ≡ many_said seconds.now minutes.now hours.now all_hours in_hour) }
{
    let runs = runs(alloc, hours)?;
    if let Some(time) = windows_said(alloc, all_hours, &runs, in_hour)? {
        return Ok(time);
    }
    if !all_hours && is_single(minutes) && is_single(seconds) {
        return Ok(Time::Listed(times_in(alloc, seconds, minutes, hours)?));
    }
    units_said(alloc, seconds, minutes, hours)
}

// Returns how at least five evenly spaced times are said: over the whole day, or over a part of it if not all
// hours are among theirs.
fn evenly_said(alloc: Global, all_hours: bool, in_day: Series) -> Result<Option<Time>, AllocError>
    ensures { IfOk result (λ time. option_map time_of time ≡ evenly_said all_hours in_day) }
{
    let Series::Even { first, last, step } = in_day else {
        return Ok(None);
    };
    if last >= DAY || u64::from(first) + 4 * u64::from(step) > u64::from(last) {
        return Ok(None);
    }
    if first == 0 && last + step == DAY {
        let (count, unit) = step_of(step);
        return Ok(Some(Time::WholeDay { count, unit }));
    }
    if all_hours {
        return Ok(None);
    }
    let mut windows = Vec::new(alloc);
    windows.push(window(first, last))?;
    let (count, unit) = step_of(step);
    Ok(Some(Time::Windows {
        count,
        unit,
        windows,
    }))
}

// Returns a step by the largest unit that it is made of.
fn step_of(step: u32) -> (u16, TimeUnit)
    requires { step ≤ 65535 }
    ensures { (result.0 ≡ step_count step) × (result.1 ≡ step_unit step) }
{
    if step % 3_600 == 0 {
        ((step / 3_600) as u16, TimeUnit::Hour)
    } else if step % 60 == 0 {
        ((step / 60) as u16, TimeUnit::Minute)
    } else {
        (step as u16, TimeUnit::Second)
    }
}

// Returns how times in at most three runs of hours are said, if those of each run are evenly spaced, by at most
// an hour.
fn windows_said(
    alloc: Global,
    all_hours: bool,
    runs: &[Span],
    in_hour: Series,
) -> Result<Option<Time>, AllocError>
    ensures { IfOk result (λ time. option_map time_of time ≡ windows_said all_hours runs.now in_hour) }
{
    let step = step_of_runs(in_hour);
    if all_hours || runs.len() > MOST_WINDOWS || step > u32::from(HOUR) {
        return Ok(None);
    }
    let Some(windows) = windows_in(alloc, step, in_hour, runs)? else {
        return Ok(None);
    };
    let (count, unit) = step_of(step);
    Ok(Some(Time::Windows {
        count,
        unit,
        windows,
    }))
}

// Returns the windows of runs of hours, or `None` if the times of a run aren't evenly spaced by the step.
fn windows_in(
    alloc: Global,
    step: u32,
    in_hour: Series,
    runs: &[Span],
) -> Result<Option<Vec<Window>>, AllocError>
    ensures { IfOk result (λ found. option_map (λ windows. windows.items) found ≡ windows_after [] step in_hour runs.now) }
{
    let mut windows = Vec::new(alloc);
    for run in runs {
        match window_said(step, sums(series_of_span(HOUR, *run), HOUR, in_hour)) {
            Some(window) => windows.push(window)?,
            None => return Ok(None),
        }
    }
    Ok(Some(windows))
}

// Returns the step of the times of several hours, if they are evenly spaced.
fn step_of_runs(in_hour: Series) -> u32
    ensures { result ≡ step_of_runs in_hour }
{
    match in_hour {
        Series::One(_) => 3_600,
        Series::Even { step, .. } => step,
        Series::Uneven => 0,
    }
}

// Returns evenly spaced times of a day as a window, if their step is this one.
fn window_said(step: u32, times: Series) -> Option<Window>
    ensures { result ≡ window_said step times }
{
    match times {
        Series::Even {
            first,
            last,
            step: found,
        } if found == step && last < DAY => Some(window(first, last)),
        _ => None,
    }
}

// Returns the window from one second of the day to another.
fn window(first: u32, last: u32) -> Window
    ensures { result ≡ window first last }
{
    Window {
        first: time_at_second(first),
        last: time_at_second(last),
    }
}

// Returns a second of the day as a time of day.
fn time_at_second(second: u32) -> TimeOfDay
    ensures { result ≡ time_at_second second }
{
    TimeOfDay {
        hour: (second / 3_600 % 24) as u8,
        minute: (second / 60 % 60) as u8,
        second: (second % 60) as u8,
    }
}

// Returns whether there are at most six times.
fn are_few(seconds: &[u16], minutes: &[u16], hours: &[u16]) -> bool
    ensures { result ≡ are_few seconds.now minutes.now hours.now }
{
    seconds.len() <= FEW_TIMES
        && minutes.len() <= FEW_TIMES
        && hours.len() <= FEW_TIMES
        && seconds.len() * minutes.len() * hours.len() <= FEW_TIMES
}

// Returns whether a list has one number.
fn is_single(values: &[u16]) -> bool
    ensures { result ≡ is_single values.now }
{
    matches!(values, [_])
}

// Returns all times, in order.
fn times_in(
    alloc: Global,
    seconds: &[u16],
    minutes: &[u16],
    hours: &[u16],
) -> Result<Vec<TimeOfDay>, AllocError>
    ensures { IfOk result (λ times. times.items ≡ times_in seconds.now minutes.now hours.now) }
{
    let mut times = Vec::new(alloc);
    for hour in hours {
        add_hour(&mut times, *hour, minutes, seconds)?;
    }
    Ok(times)
}

// Adds the times of an hour.
fn add_hour(
    times: &mut Vec<TimeOfDay>,
    hour: u16,
    minutes: &[u16],
    seconds: &[u16],
) -> Result<(), AllocError>
    ensures { OnOk result (times.new.items ≡ times.old.items
        ++ flat_map (λ m. map (λ s. time_at_second (3600 * hour + (60 * m + s))) seconds.now) minutes.now) }
{
    for minute in minutes {
        add_minute(times, hour, *minute, seconds)?;
    }
    Ok(())
}

// Adds the times of a minute.
fn add_minute(
    times: &mut Vec<TimeOfDay>,
    hour: u16,
    minute: u16,
    seconds: &[u16],
) -> Result<(), AllocError>
    ensures { OnOk result (times.new.items ≡ times.old.items ++ map (λ s. time_at_second (3600 * hour + (60 * minute + s))) seconds.now) }
{
    for second in seconds {
        let time = 3_600 * u32::from(hour) + (60 * u32::from(minute) + u32::from(*second));
        times.push(time_at_second(time))?;
    }
    Ok(())
}
