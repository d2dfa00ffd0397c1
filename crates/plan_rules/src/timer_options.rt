//! What the settings of a timer say beside its events (systemd.timer(5)): the delay of its job, by `RandomizedDelaySec=` and
//! `AccuracySec=`, and whether it makes up for a start that was missed, by `Persistent=`.

ghost use Rattle.std.specs.Prelude.{◌≡◌};
ghost use Rattle.std.specs.Option.{option_map};
ghost use Rattle.plan_rules.specs.TimerOptions.{default_options, delay_seconds, options_after, persistent_after, span_after};

use plan_sets::END_SECOND;
use plan_spans::{boolean_after, time_span};

/// The number of microseconds in a second.
const MICROSECONDS: u64 = 1_000_000;

/// What the settings of a timer say beside its events, up to some line (systemd.timer(5)).
#[derive(Clone, Copy, Debug, Drop)]
pub struct TimerOptions {
    /// The random delay, in microseconds. `infinity` is `u64::MAX`.
    pub random: u64,
    /// The accuracy, in microseconds. `infinity` is `u64::MAX`.
    pub accuracy: u64,
    /// Whether the timer starts its unit once when it becomes active again after a start was missed.
    pub persistent: bool,
}

impl TimerOptions {
    /// Returns the options of a timer without any setting: no random delay, an accuracy of a minute, and no persistence.
    pub fn new() -> TimerOptions
        ensures { result ≡ default_options }
    {
        TimerOptions {
            random: 0,
            accuracy: 60 * MICROSECONDS,
            persistent: false,
        }
    }

    /// Returns the options after one more line, which may have a setting in a `[Timer]` section: its key and its value.
    /// A value that is no time span, or no boolean, is ignored.
    pub fn after(self, setting: Option<(&str, &str)>) -> TimerOptions
        ensures { result ≡ options_after self (option_map (λ setting. (setting.0.now, setting.1.now)) setting.entry) }
    {
        TimerOptions {
            random: span_after("RandomizedDelaySec", self.random, setting),
            accuracy: span_after("AccuracySec", self.accuracy, setting),
            persistent: persistent_after(self.persistent, setting),
        }
    }

    /// Returns the delay of the timer's job, in seconds: the sum of both time spans, rounded up, at most `END_SECOND`.
    #[tactic(auto, using(crate::proofs::TimerLemmas::capped))]
    pub fn seconds(self) -> u64
        ensures { result ≡ delay_seconds self }
    {
        let delay = self.random.saturating_add(self.accuracy);
        delay.div_ceil(MICROSECONDS).min(END_SECOND)
    }
}

// Returns the time span of a key after one more line, by the time span before it.
#[tactic(auto, using(crate::proofs::TimerLemmas::span_given))]
fn span_after(key: &str, before: u64, setting: Option<(&str, &str)>) -> u64
    ensures { result ≡ span_after key.now before (option_map (λ setting. (setting.0.now, setting.1.now)) setting.entry) }
{
    match setting {
        Some((name, value)) if name == key => time_span(value.as_bytes()).unwrap_or(before),
        _ => before,
    }
}

// Returns whether a timer is persistent after one more line, by whether it was before it.
fn persistent_after(before: bool, setting: Option<(&str, &str)>) -> bool
    ensures { result ≡ persistent_after before (option_map (λ setting. (setting.0.now, setting.1.now)) setting.entry) }
{
    match setting {
        Some((name, value)) => boolean_after("Persistent", before, name, value),
        None => before,
    }
}
