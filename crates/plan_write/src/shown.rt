//! Texts as people are shown them: control characters by their bytes.

ghost use Rattle.std.specs.Prelude.{◌≡◌, ◌++◌, OnOk, string_bytes};
ghost use Rattle.std.specs.List.{flat_map};
ghost use Rattle.plan_streams.specs.Writer.{Takes};
ghost use Rattle.plan_write.specs.Shown.{shown, shown_byte, shown_char};

use crate::json_strings::hex_digit;
use plan_streams::{Stream, TextWriter};
use std::alloc::AllocError;

/// Puts a text as people are shown it.
pub fn put_shown<S: Stream>(text: &str, lines: &mut TextWriter<'_, S>)
    ensures { Takes S.holds S.takes_all lines.old lines.new (shown text.now) }
{
    for c in text.chars() {
        put_char(c, lines);
    }
}

// Puts a character.
#[tactic(auto, unfolding(crate::specs::Shown::shown_char))]
fn put_char<S: Stream>(c: char, lines: &mut TextWriter<'_, S>)
    ensures { Takes S.holds S.takes_all lines.old lines.new (shown_char c) }
{
    let mut buffer = [0; 4];
    let bytes = c.encode_utf8(&mut buffer).as_bytes();
    if c == '\\' {
        lines.put(b"\\\\");
    } else if c.is_control() {
        put_bytes(bytes, lines);
    } else {
        lines.put(bytes);
    }
}

// Puts bytes by their numbers.
fn put_bytes<S: Stream>(bytes: &[u8], lines: &mut TextWriter<'_, S>)
    ensures { Takes S.holds S.takes_all lines.old lines.new (flat_map shown_byte bytes.now) }
{
    for byte in bytes {
        put_byte(*byte, lines);
    }
}

// Puts a byte by its number.
fn put_byte<S: Stream>(byte: u8, lines: &mut TextWriter<'_, S>)
    ensures { Takes S.holds S.takes_all lines.old lines.new (shown_byte byte) }
{
    lines.put_both(b"\\x", &[hex_digit(byte / 16), hex_digit(byte % 16)]);
}

/// Appends a text as people are shown it.
///
/// # Errors
///
/// `AllocError` if an allocation fails.
pub fn push_shown(whole: &mut String, text: &str) -> Result<(), AllocError>
    ensures { OnOk result (string_bytes whole.new ≡ string_bytes whole.old ++ shown text.now) }
{
    for c in text.chars() {
        push_char(whole, c)?;
    }
    Ok(())
}

// Appends a character.
#[tactic(auto, unfolding(crate::specs::Shown::shown_char))]
fn push_char(whole: &mut String, c: char) -> Result<(), AllocError>
    ensures { OnOk result (string_bytes whole.new ≡ string_bytes whole.old ++ shown_char c) }
{
    if c == '\\' {
        return whole.push_str("\\\\");
    }
    if !c.is_control() {
        return whole.push(c);
    }
    let mut buffer = [0; 4];
    push_bytes(whole, c.encode_utf8(&mut buffer).as_bytes())
}

// Appends bytes by their numbers.
fn push_bytes(whole: &mut String, bytes: &[u8]) -> Result<(), AllocError>
    ensures { OnOk result (string_bytes whole.new ≡ string_bytes whole.old ++ flat_map shown_byte bytes.now) }
{
    for byte in bytes {
        push_byte(whole, *byte)?;
    }
    Ok(())
}

// Appends a byte by its number.
fn push_byte(whole: &mut String, byte: u8) -> Result<(), AllocError>
    ensures { OnOk result (string_bytes whole.new ≡ string_bytes whole.old ++ shown_byte byte) }
{
    whole.push_str("\\x")?;
    whole.push(hex_digit(byte / 16) as char)?;
    whole.push(hex_digit(byte % 16) as char)
}
