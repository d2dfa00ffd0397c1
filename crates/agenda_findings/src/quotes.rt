//! Texts in quotes, with their control characters escaped.

ghost use Rattle.std.specs.Prelude.{◌≡◌};
ghost use Rattle.std.specs.List.{flat_map};
ghost use Rattle.plan_streams.specs.Writer.{Takes};
ghost use Rattle.plan_write.specs.Json.{text_in};
ghost use Rattle.agenda_findings.specs.Quotes.{around, dots, escaped, quoted, shown};

use plan_streams::{Stream, TextWriter};
use plan_write::{hex_digit, put_text};

/// The maximum number of bytes of a quoted text that are shown.
const MOST_SHOWN: usize = 64;

// Puts a text in quotes, with what comes before and after it.
#[tactic(auto, using(crate::proofs::TextLemmas::text_in_both), unfolding(crate::specs::Quotes::around))]
pub(crate) fn put_around<S: Stream>(
    before: &str,
    text: &str,
    after: &str,
    json: bool,
    lines: &mut TextWriter<'_, S>,
)
    ensures { Takes S.holds S.takes_all lines.old lines.new (text_in json (around before.now text.now after.now)) }
{
    put_text(json, before.as_bytes(), lines);
    put_quoted(text, json, lines);
    put_text(json, after.as_bytes(), lines);
}

// Puts a text in quotes.
pub(crate) fn put_quoted<S: Stream>(text: &str, json: bool, lines: &mut TextWriter<'_, S>)
    ensures { Takes S.holds S.takes_all lines.old lines.new (text_in json (quoted text.now)) }
{
    put_text(json, b"'", lines);
    put_escaped(shown(text).as_bytes(), json, lines);
    put_text(json, b"'", lines);
    put_text(json, dots(text).as_bytes(), lines);
}

// Returns the first characters of a text that fit into 64 bytes.
fn shown(text: &str) -> &str
    ensures { result.now ≡ shown text.now }
{
    if text.len() <= MOST_SHOWN {
        return text;
    }
    &text[..text.floor_char_boundary(MOST_SHOWN)]
}

// Returns what follows the closing quote of a text of which not all is shown.
#[tactic(auto, unfolding(crate::specs::Quotes::dots))]
fn dots(text: &str) -> &'static str
    ensures { result.now ≡ dots text.now }
{
    if text.len() <= MOST_SHOWN { "" } else { "..." }
}

// Puts the bytes of a text in quotes.
pub(crate) fn put_escaped<S: Stream>(text: &[u8], json: bool, lines: &mut TextWriter<'_, S>)
    ensures { Takes S.holds S.takes_all lines.old lines.new (text_in json (flat_map escaped text.now)) }
{
    for byte in text {
        put_escaped_byte(*byte, json, lines);
    }
}

// Puts a byte of a text in quotes.
#[tactic(auto, using(crate::proofs::TextLemmas::text_in_both))]
fn put_escaped_byte<S: Stream>(byte: u8, json: bool, lines: &mut TextWriter<'_, S>)
    ensures { Takes S.holds S.takes_all lines.old lines.new (text_in json (escaped byte)) }
{
    if byte == b'\\' {
        put_text(json, b"\\\\", lines);
    } else if byte < 32 || byte == 127 {
        put_text(json, b"\\x", lines);
        put_text(json, &[hex_digit(byte / 16), hex_digit(byte % 16)], lines);
    } else {
        put_text(json, &[byte], lines);
    }
}
