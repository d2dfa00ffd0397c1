//! Cuts the text of a time into parts, and reads its numbers.

ghost use Rattle.std.specs.Prelude.{◌≡◌, ◌<◌, ◌≤◌, not, IfSome, length};
ghost use Rattle.std.specs.List.{suffix_len};
ghost use Rattle.std.specs.Option.{option_map};
ghost use Rattle.plan_texts.specs.Text.{is_blank};
ghost use Rattle.plan_times.specs.Parts.{before_blanks, trimmed, cut_last_word, cut_at_t, is_t, number_of};

use plan_texts::lines::after_blanks;
use plan_texts::number;

// Returns whether a byte is a space or a tab.
fn is_blank(byte: u8) -> bool
    ensures { result ≡ is_blank byte }
{
    byte == b' ' || byte == b'\t'
}

// Returns whether a byte is the letter T, in upper or lower case.
fn is_t(byte: u8) -> bool
    ensures { result ≡ is_t byte }
{
    byte == b'T' || byte == b't'
}

// Returns how many blanks a text ends with.
fn blanks_at_end(text: &[u8]) -> usize
    ensures count { result ≡ suffix_len is_blank text.now }
    ensures inside { result ≤ length text.now }
{
    text.iter()
        .rev()
        .take_while(|byte| is_blank(**byte))
        .count()
}

// Returns how many bytes are after the last blank of a text.
fn word_at_end(text: &[u8]) -> usize
    ensures count { result ≡ suffix_len (λ b. not (is_blank b)) text.now }
    ensures inside { result ≤ length text.now }
{
    text.iter()
        .rev()
        .take_while(|byte| !is_blank(**byte))
        .count()
}

// Returns how many bytes are after the last T of a text.
fn after_last_t(text: &[u8]) -> usize
    ensures count { result ≡ suffix_len (λ b. not (is_t b)) text.now }
    ensures inside { result ≤ length text.now }
{
    text.iter().rev().take_while(|byte| !is_t(**byte)).count()
}

// Returns a text without the blanks at its end.
fn before_blanks(text: &[u8]) -> &[u8]
    ensures { result.now ≡ before_blanks text.now }
{
    &text[..text.len() - blanks_at_end(text)]
}

/// Returns a text without the blanks at its ends.
pub(crate) fn trimmed(text: &str) -> &[u8]
    ensures { result.now ≡ trimmed text.now }
{
    before_blanks(after_blanks(text).as_bytes())
}

/// Returns what is before the last word of a text, without the blanks between them, and that word. Returns `None` if
/// the text has no blank.
#[tactic(auto, unfolding(crate::specs::Parts::cut_last_word))]
pub(crate) fn cut_last_word(text: &[u8]) -> Option<(&[u8], &[u8])>
    ensures { option_map (λ parts. (parts.0.now, parts.1.now)) result ≡ cut_last_word text.now }
{
    let word = word_at_end(text);
    if word == text.len() {
        return None;
    }
    let start = text.len() - word;
    Some((before_blanks(&text[..start - 1]), &text[start..]))
}

/// Returns what is before and after the last T of a text, or `None` if it has none.
#[tactic(auto, unfolding(crate::specs::Parts::cut_at_t))]
pub(crate) fn cut_at_t(text: &[u8]) -> Option<(&[u8], &[u8])>
    ensures { option_map (λ parts. (parts.0.now, parts.1.now)) result ≡ cut_at_t text.now }
{
    let after = after_last_t(text);
    if after == text.len() {
        return None;
    }
    let start = text.len() - after;
    Some((&text[..start - 1], &text[start..]))
}

/// Returns the number that a text of exactly so many digits writes, if it is less than the limit.
#[tactic(auto, unfolding(crate::specs::Parts::number_of))]
pub(crate) fn number_of(digits: usize, limit: u16, text: &[u8]) -> Option<u16>
    ensures value { result ≡ number_of digits limit text.now }
    ensures below { IfSome result (λ n. n < limit) }
{
    if text.len() != digits {
        return None;
    }
    let number = number(text)?;
    if number < limit { Some(number) } else { None }
}
