//! Whether anything starts a timer (systemd.timer(5)).

ghost use Rattle.std.specs.Prelude.{◌≡◌, IfOk, not, option_map};
ghost use Rattle.std.specs.List.{list_any, suffix_len};
ghost use Rattle.plan_rules.specs.Timer.{is_reset};
ghost use Rattle.plan_triggers.specs.Triggers.{after_resets, has_trigger, is_accepted_event, is_event, is_on, is_trigger, rejected_whole};

use crate::setting::TimerSetting;
use crate::timer_file::is_elapsing_span;
use plan_rules::is_reset;
use plan_spans::boolean_after;
use plan_systemd::rejection;
use std::alloc::{AllocError, Global};

/// Returns whether anything starts a timer with these settings: an event that systemd accepts, a monotonic setting with a
/// time span, or a change of the clock or of the time zone (systemd.timer(5)). An event that agenda rejects counts as one
/// that systemd accepts.
///
/// # Errors
///
/// `AllocError` if an allocation fails.
pub fn has_trigger(alloc: Global, settings: &[TimerSetting<'_>]) -> Result<bool, AllocError>
    ensures { IfOk result (λ has. has ≡ has_trigger settings.now) }
{
    if is_on("OnClockChange", settings) || is_on("OnTimezoneChange", settings) {
        return Ok(true);
    }
    has_any(alloc, after_resets(settings))
}

// Returns whether the last boolean value of a key is true.
fn is_on(key: &str, settings: &[TimerSetting<'_>]) -> bool
    ensures { result ≡ is_on key.now settings.now }
{
    settings.iter().fold(false, |before, setting| {
        boolean_after(key, before, setting.key(), setting.value())
    })
}

// Returns the settings after the last one that empties the list of triggers.
fn after_resets<'s, 'a>(settings: &'s [TimerSetting<'a>]) -> &'s [TimerSetting<'a>]
    ensures { result.now ≡ after_resets settings.now }
{
    &settings[settings.len().saturating_sub(kept_len(settings))..]
}

// Returns how many settings at the end don't empty the list of triggers.
fn kept_len(settings: &[TimerSetting<'_>]) -> usize
    ensures { result ≡ suffix_len (λ setting. not (is_reset setting)) settings.now }
{
    settings
        .iter()
        .rev()
        .take_while(|setting| !empties(setting))
        .count()
}

// Returns whether a setting empties the list of triggers.
fn empties(setting: &TimerSetting<'_>) -> bool
    ensures { result ≡ is_reset setting.now }
{
    is_reset(setting.key(), setting.value())
}

// Returns whether one of these settings is a trigger.
fn has_any(alloc: Global, settings: &[TimerSetting<'_>]) -> Result<bool, AllocError>
    ensures { IfOk result (λ has. has ≡ list_any is_trigger settings.now) }
{
    for setting in settings {
        if is_trigger(alloc, setting)? {
            return Ok(true);
        }
    }
    Ok(false)
}

// Returns whether a setting makes the timer elapse.
fn is_trigger(alloc: Global, setting: &TimerSetting<'_>) -> Result<bool, AllocError>
    ensures { IfOk result (λ is. is ≡ is_trigger setting.now) }
{
    if is_elapsing_span(setting.key(), setting.value()) {
        return Ok(true);
    }
    is_accepted_event(alloc, setting)
}

// Returns whether a setting adds an event that systemd accepts.
fn is_accepted_event(alloc: Global, setting: &TimerSetting<'_>) -> Result<bool, AllocError>
    ensures { IfOk result (λ is. is ≡ is_accepted_event setting.now) }
{
    if !is_event(setting) {
        return Ok(false);
    }
    Ok(rejection(alloc, setting.value())?.is_none())
}

// Returns whether a setting adds an event.
fn is_event(setting: &TimerSetting<'_>) -> bool
    ensures { result ≡ is_event setting.now }
{
    setting.key() == "OnCalendar" && !setting.value().is_empty()
}

/// Returns what systemd rejects of a timer, in words, or `None`.
pub fn rejected_whole(
    has_bad_header: bool,
    has_section: bool,
    triggered: bool,
) -> Option<&'static str>
    ensures { option_map (λ why. why.now) result ≡ rejected_whole has_bad_header has_section triggered }
{
    if has_bad_header {
        return Some("file: bad section header");
    }
    if has_section && !triggered {
        return Some("timer: it has no valid trigger");
    }
    None
}
