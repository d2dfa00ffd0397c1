//! Short texts, which are made on the stack: times and lengths.

ghost use Rattle.std.specs.Prelude.{◌≡◌, ◌+◌, ◌≤◌, ◌<◌, ◌++◌, ◌==◌, if◌then◌else◌, [], codes, decimal, length};
ghost use Rattle.arrayvec.specs.ArrayString.{array_string_len};
ghost use Rattle.plan_sets.specs.Moment.{two_digits};
ghost use Rattle.agenda_table.specs.Times.{distance_in_units, from_now_text, length_text, with_unit};

use arrayvec::ArrayString;
use itoa::Buffer as Digits;

/// A short text: a time or a length.
pub type Short = ArrayString<160>;

/// Returns a word of a head, or `none`.
pub(crate) fn word(text: &str) -> Short
    requires { length text.now ≤ 160 }
    ensures { result.bytes ≡ text.now }
{
    let mut short = Short::new();
    short.push_str(text);
    short
}

/// Appends a number, and a unit.
fn push_number(text: &mut Short, number: u64, unit: &str)
    requires room { array_string_len text.old + length unit.now + 20 ≤ 160 }
    ensures bytes { text.new.bytes ≡ text.old.bytes ++ (decimal number ++ unit.now) }
    ensures len { array_string_len text.new ≤ array_string_len text.old + length unit.now + 20 }
{
    text.push_str(Digits::new().format(number));
    text.push_str(unit);
}

/// Appends a number below 100 as two digits.
pub(crate) fn push_two_digits(text: &mut Short, number: u64)
    requires small { number < 100 }
    requires room { array_string_len text.old + 2 ≤ 160 }
    ensures bytes { text.new.bytes ≡ text.old.bytes ++ two_digits number }
    ensures len { array_string_len text.new ≡ array_string_len text.old + 2 }
{
    text.push((b'0' + (number / 10) as u8) as char);
    text.push((b'0' + (number % 10) as u8) as char);
}

// Appends a number of some unit, with a blank before it, unless it is 0.
fn push_smaller(text: &mut Short, number: u64, unit: &str)
    requires room { array_string_len text.old + length unit.now + 21 ≤ 160 }
    ensures bytes { text.new.bytes ≡ text.old.bytes ++ (if number == 0 then [] else codes " " ++ (decimal number ++ unit.now)) }
    ensures len { array_string_len text.new ≤ array_string_len text.old + length unit.now + 21 }
{
    if number != 0 {
        text.push(' ');
        push_number(text, number, unit);
    }
}

// Appends a number of some unit, with a blank before it unless the text is empty. Appends nothing if it is 0.
fn push_unit(text: &mut Short, number: u64, unit: &str)
    requires room { array_string_len text.old + length unit.now + 21 ≤ 160 }
    ensures bytes { text.new.bytes ≡ with_unit text.old.bytes number unit.now }
    ensures len { array_string_len text.new ≤ array_string_len text.old + length unit.now + 21 }
{
    if number == 0 {
        return;
    }
    if !text.is_empty() {
        text.push(' ');
    }
    push_number(text, number, unit);
}

/// Returns a length of at least 1 second, in days, hours, minutes and seconds.
#[tactic(auto, unfolding(crate::specs::Times::length_text))]
pub(crate) fn length_of(seconds: u64) -> Short
    ensures { result.bytes ≡ length_text seconds }
{
    let mut text = Short::new();
    push_unit(&mut text, seconds / 86_400, " d");
    push_unit(&mut text, seconds % 86_400 / 3_600, " h");
    push_unit(&mut text, seconds % 3_600 / 60, " min");
    push_unit(&mut text, seconds % 60, " s");
    text
}

/// Appends how far away a time is, in seconds.
fn push_distance(text: &mut Short, seconds: u64)
    requires room { array_string_len text.old ≤ 10 }
    ensures bytes { text.new.bytes ≡ text.old.bytes ++ distance_in_units seconds }
    ensures len { array_string_len text.new ≤ 100 }
{
    if seconds < 60 {
        push_number(text, seconds, " s");
    } else if seconds < 3_600 {
        push_number(text, seconds / 60, " min");
    } else if seconds < 86_400 {
        push_number(text, seconds / 3_600, " h");
        push_smaller(text, seconds % 3_600 / 60, " min");
    } else {
        push_number(text, seconds / 86_400, " d");
        push_smaller(text, seconds % 86_400 / 3_600, " h");
    }
}

/// Returns how far away a second is from now.
#[tactic(auto, unfolding(crate::specs::Times::from_now_text))]
pub(crate) fn from_now(now: u64, second: u64) -> Short
    ensures { result.bytes ≡ from_now_text now second }
{
    let mut text = Short::new();
    if second == now {
        text.push_str("now");
    } else if now < second {
        text.push_str("in ");
        push_distance(&mut text, second - now);
    } else {
        push_distance(&mut text, now - second);
        text.push_str(" ago");
    }
    text
}
