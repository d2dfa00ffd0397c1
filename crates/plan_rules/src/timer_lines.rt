//! What the lines of a timer file do (systemd.timer(5), systemd.syntax(7)).

ghost use Rattle.std.specs.Prelude.{◌≡◌, false, Some};
ghost use Rattle.std.specs.List.{list_any};
ghost use Rattle.std.specs.Option.{option_map};
ghost use Rattle.std.specs.Str.{bytes_eq};
ghost use Rattle.plan_texts.specs.WholeLines.{trimmed};
ghost use Rattle.plan_rules.specs.Timer.{effect_of, effect_shown, is_reset, line_effect, monotonic_keys, section_name, sections_after, setting_of, timer_setting};

use plan_texts::whole_lines::trimmed;

/// What a line does to the list of a timer's events, and to the unit that the timer starts.
#[derive(Clone, Copy)]
pub enum LineEffect<'a> {
    /// Empties the list.
    Reset,
    /// Adds the event with this text to the list.
    Event(&'a str),
    /// Names the unit that is started.
    Starts(&'a str),
    /// Does nothing.
    Nothing,
}

/// The sections of a timer file, up to some line.
#[derive(Drop)]
pub struct Sections {
    /// Whether the next line is in a `[Timer]` section.
    pub inside: bool,
    /// Whether there was a `[Timer]` section.
    pub found: bool,
}

impl Sections {
    // Returns the state before the first line.
    pub(crate) fn new() -> Sections
        ensures { result ≡ record { inside = false; found = false } }
    {
        Sections {
            inside: false,
            found: false,
        }
    }

    // Returns what the next whole line does. The line has no blanks at its ends.
    pub(crate) fn effect<'a>(&mut self, text: &'a str) -> LineEffect<'a>
        ensures effect { effect_shown result
            ≡ line_effect self.old.inside (section_name text.now) (setting_of text.now) }
        ensures sections { self.new ≡ sections_after self.old (section_name text.now) }
    {
        if let Some(section) = section_name(text.as_bytes()) {
            self.begin(section);
            return LineEffect::Nothing;
        }
        if !self.inside {
            return LineEffect::Nothing;
        }
        match setting_of(text) {
            Some((key, value)) => effect_of(key, value),
            None => LineEffect::Nothing,
        }
    }

    // Returns the key and the value of the next whole line, if it is a setting in a `[Timer]` section. The line has
    // no blanks at its ends.
    pub(crate) fn setting<'a>(&self, text: &'a str) -> Option<(&'a str, &'a str)>
        ensures { option_map (λ setting. (setting.0.now, setting.1.now)) result
            ≡ timer_setting self.now.inside text.now }
    {
        match section_name(text.as_bytes()) {
            None if self.inside => setting_of(text),
            _ => None,
        }
    }

    // Enters the section with this name.
    fn begin(&mut self, section: &[u8])
        ensures { self.new ≡ sections_after self.old (Some section.now) }
    {
        self.inside = section == b"Timer".as_slice();
        self.found |= self.inside;
    }
}

// Returns what a setting of the `[Timer]` section does.
#[tactic(auto, unfolding(crate::specs::Timer::effect_of))]
fn effect_of<'a>(key: &str, value: &'a str) -> LineEffect<'a>
    ensures { effect_shown result ≡ effect_of (key.now, value.now) }
{
    if is_reset(key, value) {
        return LineEffect::Reset;
    }
    match key {
        _ if value.is_empty() => LineEffect::Nothing,
        "OnCalendar" => LineEffect::Event(value),
        "Unit" => LineEffect::Starts(value),
        _ => LineEffect::Nothing,
    }
}

/// Returns whether a setting empties the list of the times at which a timer elapses: a time setting, such as
/// `OnCalendar=` or `OnBootSec=`, without a value (systemd.timer(5)).
pub fn is_reset(key: &str, value: &str) -> bool
    ensures { result ≡ is_reset (key.now, value.now) }
{
    (key == "OnCalendar" || is_monotonic_key(key)) && value.is_empty()
}

/// Returns whether a key is that of a monotonic timer, such as `OnBootSec` (systemd.timer(5)).
pub fn is_monotonic_key(key: &str) -> bool
    ensures { result ≡ list_any (bytes_eq key.now) monotonic_keys }
{
    matches!(
        key,
        "OnActiveSec" | "OnBootSec" | "OnStartupSec" | "OnUnitActiveSec" | "OnUnitInactiveSec"
    )
}

// Returns the name of the section, if the line begins one.
#[tactic(auto, unfolding(crate::specs::Timer::section_name))]
fn section_name(text: &[u8]) -> Option<&[u8]>
    ensures { option_map (λ name. name.now) result ≡ section_name text.now }
{
    match text {
        [b'[', name @ .., b']'] => Some(name),
        _ => None,
    }
}

/// Returns the key and the value of the setting on a whole line of a timer file: what comes before and after the first
/// `=`, without blanks at its ends (systemd.syntax(7)). Returns `None` if the line has no `=`.
#[tactic(auto, unfolding(crate::specs::Timer::setting_of))]
pub fn setting_of(text: &str) -> Option<(&str, &str)>
    ensures { option_map (λ setting. (setting.0.now, setting.1.now)) result ≡ setting_of text.now }
{
    let (key, value) = text.split_once('=')?;
    Some((trimmed(key), trimmed(value)))
}
