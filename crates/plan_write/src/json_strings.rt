//! Strings in JSON (RFC 8259, section 7).

ghost use Rattle.std.specs.Prelude.{◌≡◌, ◌<◌, ◌++◌, OnOk};
ghost use Rattle.std.specs.Char.{digit_char};
ghost use Rattle.std.specs.List.{list_any};
ghost use Rattle.plan_streams.specs.Writer.{Takes};
ghost use Rattle.plan_write.specs.Escapes.{escape_bytes};
ghost use Rattle.plan_write.specs.Json.{StringsReadBack, is_escaped, json_byte, json_bytes, json_string, text_in};

use plan_streams::{Stream, TextWriter};
use std::alloc::AllocError;

/// How a byte is written in a string.
#[derive(Clone, Copy)]
enum Escape {
    /// The byte itself.
    Plain([u8; 1]),
    /// A backslash and a letter.
    Short([u8; 2]),
    /// The number of a character, in four hexadecimal digits.
    Unicode([u8; 6]),
}

impl Escape {
    // Returns how a byte is written.
    #[tactic(auto, unfolding(crate::specs::Json::json_byte))]
    fn of_byte(byte: u8) -> Escape
        ensures { escape_bytes result ≡ json_byte byte }
    {
        match byte {
            b'"' | b'\\' => Escape::Short([b'\\', byte]),
            8 => Escape::Short([b'\\', b'b']),
            9 => Escape::Short([b'\\', b't']),
            10 => Escape::Short([b'\\', b'n']),
            12 => Escape::Short([b'\\', b'f']),
            13 => Escape::Short([b'\\', b'r']),
            0..=31 | 127 => {
                let [tens, ones] = [hex_digit(byte / 16), hex_digit(byte % 16)];
                Escape::Unicode([b'\\', b'u', b'0', b'0', tens, ones])
            }
            _ => Escape::Plain([byte]),
        }
    }

    // Returns the bytes.
    fn as_bytes(&self) -> &[u8]
        ensures { result.now ≡ escape_bytes self.now }
    {
        match self {
            Escape::Plain(bytes) => bytes,
            Escape::Short(bytes) => bytes,
            Escape::Unicode(bytes) => bytes,
        }
    }
}

// Returns whether a byte has an escape.
fn is_escaped(byte: u8) -> bool
    ensures { result ≡ is_escaped byte }
{
    byte < 32 || byte == b'"' || byte == b'\\' || byte == 127
}

/// Returns the hexadecimal digit of a number below 16, in lower case.
pub fn hex_digit(number: u8) -> u8
    requires { number < 16 }
    ensures { result ≡ digit_char number }
{
    if number < 10 {
        b'0' + number
    } else {
        b'a' + (number - 10)
    }
}

/// Puts a text by itself, or as a part of a string in JSON.
pub fn put_text<S: Stream>(json: bool, text: &[u8], lines: &mut TextWriter<'_, S>)
    ensures { Takes S.holds S.takes_all lines.old lines.new (text_in json text.now) }
{
    if json {
        put_bytes(text, lines);
    } else {
        lines.put(text);
    }
}

/// Puts a string.
pub fn put_string<S: Stream>(text: &str, lines: &mut TextWriter<'_, S>)
    ensures { Takes S.holds S.takes_all lines.old lines.new (json_string text.now) }
{
    lines.put(b"\"");
    put_bytes(text.as_bytes(), lines);
    lines.put(b"\"");
}

// Puts the bytes of a string. Most texts have no escapes, and are put whole.
fn put_bytes<S: Stream>(text: &[u8], lines: &mut TextWriter<'_, S>)
    ensures { Takes S.holds S.takes_all lines.old lines.new (json_bytes text.now) }
{
    if has_escapes(text) {
        put_each_byte(text, lines);
    } else {
        lines.put(text);
    }
}

// Returns whether a byte of a text has an escape.
fn has_escapes(text: &[u8]) -> bool
    ensures { result ≡ list_any is_escaped text.now }
{
    text.iter().any(|byte| is_escaped(*byte))
}

// Puts the bytes of a string, one after the other.
fn put_each_byte<S: Stream>(text: &[u8], lines: &mut TextWriter<'_, S>)
    ensures { Takes S.holds S.takes_all lines.old lines.new (json_bytes text.now) }
{
    for byte in text {
        lines.put(Escape::of_byte(*byte).as_bytes());
    }
}

/// Appends a string to a text.
///
/// # Errors
///
/// `AllocError` if an allocation fails.
pub(crate) fn push_string(text: &mut Vec<u8>, string: &str) -> Result<(), AllocError>
    ensures { OnOk result (text.new.items ≡ text.old.items ++ json_string string.now) }
{
    text.push(b'"')?;
    push_bytes(text, string.as_bytes())?;
    text.push(b'"')?;
    Ok(())
}

// Appends the bytes of a string to a text.
fn push_bytes(text: &mut Vec<u8>, string: &[u8]) -> Result<(), AllocError>
    ensures { OnOk result (text.new.items ≡ text.old.items ++ json_bytes string.now) }
{
    for byte in string {
        text.extend_from_slice(Escape::of_byte(*byte).as_bytes())?;
    }
    Ok(())
}

/// States the law of strings: each is read back as the text that it was made of, from left to right, as RFC 8259
/// reads strings.
///
/// The function does nothing: its contract is the law.
pub fn strings_read_back()
    ensures { StringsReadBack }
{}
