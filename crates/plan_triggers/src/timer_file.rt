//! What systemd 252 reads otherwise in the file of a timer that agenda accepts (systemd.syntax(7), systemd.timer(5)).

ghost use Rattle.std.specs.Prelude.{◌≡◌, map, option_map};
ghost use Rattle.std.specs.List.{list_any};
ghost use Rattle.plan_rules.specs.TimerEntries.{shown_line};
ghost use Rattle.plan_triggers.specs.TimerFile.{is_bad_boolean, is_bad_unit, line_note, has_bad_header, is_bad_header, is_cut, is_elapsing_span, is_ignored_unit, is_line_end, is_unsafe};

use plan_rules::is_monotonic_key;
use plan_spans::{boolean, time_span};
use plan_texts::whole_lines::{WholeLine, trimmed};
use plan_units::is_valid_name;

// Returns whether systemd ends a line of a file earlier: it has a carriage return that isn't at its end, or a NUL byte.
fn is_cut(line: &str) -> bool
    ensures { result ≡ is_cut line.now }
{
    match line.as_bytes() {
        [front @ .., b'\r'] => has_line_end(front),
        bytes => has_line_end(bytes),
    }
}

// Returns whether a text has a byte that ends a line for systemd, besides the newline.
fn has_line_end(text: &[u8]) -> bool
    ensures { result ≡ list_any is_line_end text.now }
{
    text.iter().any(|byte| *byte == b'\r' || *byte == 0)
}

/// Returns whether systemd rejects a file for one of its whole lines, which begins with `[` but isn't a valid header of a
/// section.
pub fn has_bad_header(lines: &[WholeLine]) -> bool
    ensures { result ≡ has_bad_header (map shown_line lines.now) }
{
    lines.iter().any(|line| begins_badly(line))
}

// Returns whether systemd rejects a file for a whole line.
fn begins_badly(line: &WholeLine) -> bool
    ensures { result ≡ is_bad_header (shown_line line.now).1 }
{
    is_bad_header(trimmed(line.text.as_str()).as_bytes())
}

// Returns whether systemd rejects a file for a whole line without blanks at its ends.
#[tactic(auto, unfolding(plan_rules::specs::Timer::section_name))]
fn is_bad_header(line: &[u8]) -> bool
    ensures { result ≡ is_bad_header line.now }
{
    match line {
        [b'[', name @ .., b']'] => is_unsafe(name),
        [b'[', ..] => true,
        _ => false,
    }
}

// Returns whether a name has a byte that the name of a section can't have.
fn is_unsafe(name: &[u8]) -> bool
    ensures { result ≡ list_any is_unsafe name.now }
{
    name.iter().any(|byte| is_unsafe_byte(*byte))
}

// Returns whether the name of a section can't have a byte: control characters, quotes and backslashes.
fn is_unsafe_byte(byte: u8) -> bool
    ensures { result ≡ is_unsafe byte }
{
    byte < 32 || matches!(byte, 127 | b'"' | b'\'' | b'\\')
}

// Returns whether systemd ignores the value of `Unit=` in the file of a timer: it isn't the name of a unit, or it is the
// timer's own name. A value with a specifier isn't judged.
fn is_ignored_unit(timer: &str, value: &str) -> bool
    ensures { result ≡ is_ignored_unit timer.now value.now }
{
    !value.as_bytes().contains(&b'%') && (!is_valid_name(value) || value == timer)
}

/// Returns whether a timer elapses by a monotonic setting, such as `OnBootSec=`, whose value is a time span.
pub fn is_elapsing_span(key: &str, value: &str) -> bool
    ensures { result ≡ is_elapsing_span (key.now, value.now) }
{
    is_monotonic_key(key) && time_span(value.as_bytes()).is_some()
}

/// Returns whether a setting has no boolean where a timer needs one (systemd.timer(5), `Persistent=`).
pub fn is_bad_boolean(key: &str, value: &str) -> bool
    ensures { result ≡ is_bad_boolean (key.now, value.now) }
{
    key == "Persistent" && boolean(value).is_none()
}

/// Returns whether a setting names a unit that can't be one (systemd.timer(5), `Unit=`).
pub fn is_bad_unit(key: &str, value: &str) -> bool
    ensures { result ≡ is_bad_unit (key.now, value.now) }
{
    key == "Unit" && !value.is_empty() && is_ignored_unit("", value)
}

/// Returns what systemd does to a line that agenda doesn't do, in words, or `None`.
pub fn line_note(line: &str) -> Option<&'static str>
    ensures { option_map (λ note. note.now) result ≡ line_note line.now }
{
    if is_cut(line) {
        return Some("ends the line at a carriage return or NUL byte");
    }
    if line.as_bytes().starts_with(b"\xEF\xBB\xBF") {
        return Some("drops the byte order mark before this line");
    }
    None
}
