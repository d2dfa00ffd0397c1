//! The settings in the `[Timer]` sections of a timer file, and what they say of the whole timer (systemd.timer(5)).

ghost use Rattle.std.specs.Prelude.{◌≡◌, false, option_map};
ghost use Rattle.plan_rules.specs.Timer.{is_reset};
ghost use Rattle.plan_check.specs.Context.{options_by};
ghost use Rattle.plan_check.specs.Settings.{delay_after, is_bad_delay, is_delay, is_span, is_unknown_key, standing_after, stands_after, value_of};

use plan_rules::{TimerOptions, is_monotonic_key, is_reset};
use plan_spans::time_span;

// What the settings so far say of the whole timer.
#[derive(Clone, Copy)]
pub(crate) struct Standing {
    // Whether a monotonic setting with a value comes after the last setting that empties the list.
    pub(crate) monotonic: bool,
    // The options of the timer.
    pub(crate) options: TimerOptions,
}

impl Standing {
    // Returns what stands before the first setting, with the accuracy of timers that set none.
    pub(crate) fn new(accuracy: u64) -> Standing
        ensures { result ≡ record { monotonic = false; options = options_by accuracy } }
    {
        Standing {
            monotonic: false,
            options: TimerOptions {
                accuracy,
                ..TimerOptions::new()
            },
        }
    }

    // Returns what stands after one more line, which may have a setting.
    pub(crate) fn after(self, setting: Option<(&str, &str)>) -> Standing
        ensures { result ≡ standing_after self (option_map (λ setting. (setting.0.now, setting.1.now)) setting.entry) }
    {
        Standing {
            monotonic: is_monotonic_after(self.monotonic, setting),
            options: self.options.after(setting),
        }
    }
}

// Returns whether a monotonic setting stands after one more line, by whether one stands before it.
fn is_monotonic_after(before: bool, setting: Option<(&str, &str)>) -> bool
    ensures { result ≡ stands_after is_span is_reset before (option_map (λ setting. (setting.0.now, setting.1.now)) setting.entry) }
{
    match setting {
        Some((key, value)) => is_span(key, value) || before && !is_reset(key, value),
        None => before,
    }
}

// Returns the value of a setting, or an empty text.
pub(crate) fn value_of<'a>(setting: Option<(&'a str, &'a str)>) -> &'a str
    ensures { result.now ≡ value_of (option_map (λ setting. (setting.0.now, setting.1.now)) setting.entry) }
{
    match setting {
        Some((_, value)) => value,
        None => "",
    }
}

// Returns the last value of the random delay that is a time span after one more line, by the one before it.
pub(crate) fn delay_after<'a>(before: &'a str, setting: Option<(&'a str, &'a str)>) -> &'a str
    ensures { result.now ≡ delay_after before.now (option_map (λ setting. (setting.0.now, setting.1.now)) setting.entry) }
{
    match setting {
        Some((key, value)) if is_delay(key, value) => value,
        _ => before,
    }
}

// Returns whether a key is none of those of systemd.timer(5).
pub(crate) fn is_unknown_key(key: &str) -> bool
    ensures { result ≡ is_unknown_key key.now }
{
    !is_monotonic_key(key)
        && !matches!(
            key,
            "OnCalendar"
                | "AccuracySec"
                | "RandomizedDelaySec"
                | "FixedRandomDelay"
                | "OnClockChange"
                | "OnTimezoneChange"
                | "Unit"
                | "WakeSystem"
                | "Persistent"
                | "RemainAfterElapse"
        )
}

// Returns whether a setting of a monotonic timer has a value.
fn is_span(key: &str, value: &str) -> bool
    ensures { result ≡ is_span (key.now, value.now) }
{
    is_monotonic_key(key) && !value.is_empty()
}

// Returns whether a setting is that of the random delay, and its value is a time span.
fn is_delay(key: &str, value: &str) -> bool
    ensures { result ≡ is_delay (key.now, value.now) }
{
    key == "RandomizedDelaySec" && time_span(value.as_bytes()).is_some()
}

// Returns whether a setting is that of the random delay or of the accuracy, and its value is neither empty nor a time
// span.
pub(crate) fn is_bad_delay(key: &str, value: &str) -> bool
    ensures { result ≡ is_bad_delay (key.now, value.now) }
{
    matches!(key, "RandomizedDelaySec" | "AccuracySec")
        && !value.is_empty()
        && time_span(value.as_bytes()).is_none()
}
