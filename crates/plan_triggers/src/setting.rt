//! A setting of a `[Timer]` section.

ghost use Rattle.std.specs.Prelude.{◌≡◌};

use std::marker::Model;

/// A setting of a `[Timer]` section: its key and its value (systemd.syntax(7)). Contracts see it as this pair.
#[derive(Debug, Drop)]
pub struct TimerSetting<'a> {
    key: &'a str,
    value: &'a str,
}

impl<'a> Model for TimerSetting<'a> {
    ghost use Rattle.plan_rules.specs.TimerOptions.{Setting};

    ghost Value = { Setting };

    ghost view = { λ setting. (setting.key.now, setting.value.now) };
}

impl<'a> TimerSetting<'a> {
    /// Returns the setting with this key and this value.
    pub fn new(key: &'a str, value: &'a str) -> TimerSetting<'a>
        ensures { result ≡ (key.now, value.now) }
    {
        TimerSetting { key, value }
    }

    /// Returns the key.
    pub fn key(&self) -> &'a str
        ensures { result.now ≡ self.now.0 }
    {
        self.key
    }

    /// Returns the value.
    pub fn value(&self) -> &'a str
        ensures { result.now ≡ self.now.1 }
    {
        self.value
    }
}
