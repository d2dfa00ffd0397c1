//! Splits a text into its lines, and a line into its first word and the rest.

ghost use Rattle.std.specs.Prelude.{◌≡◌, ◌≤◌, IfOk, length, map};
ghost use Rattle.std.specs.List.{All, prefix_len, position_or_len};
ghost use Rattle.std.specs.Option.{option_map};
ghost use Rattle.plan_texts.specs.Text.{is_blank};
ghost use Rattle.plan_texts.specs.Lines.{is_too_large, lines, written, with_newline, HasNoNewline, after_blanks, cut_word};

use crate::parts::{is_blank, pieces};
use std::alloc::{AllocError, Global};

/// The maximum size of a text of lines, in bytes.
pub const MOST_BYTES: usize = 1_048_576;

/// Returns whether a text of lines is too large: it has more than 1,048,576 bytes.
pub fn is_too_large(text: &[u8]) -> bool
    ensures { result ≡ is_too_large text.now }
{
    text.len() > MOST_BYTES
}

/// Returns the lines of a text, without their newlines.
///
/// Each line ends at a newline or at the end of the text. What follows the last newline is a line only if it
/// isn't empty. A carriage return is an ordinary character.
///
/// # Errors
///
/// `AllocError` if an allocation fails.
#[tactic(auto, unfolding(crate::specs::Lines::lines))]
pub fn lines(alloc: Global, text: &str) -> Result<Vec<&str>, AllocError>
    ensures value { IfOk result (λ found. map (λ line. line.now) found.items ≡ lines text.now) }
    // With a newline after each line, the lines are the text again. If the text doesn't end with a newline, one
    // is added.
    ensures again { IfOk result (λ found.
        written (map (λ line. line.now) found.items) ≡ with_newline text.now) }
    ensures no_newline { IfOk result (λ found. All HasNoNewline (map (λ line. line.now) found.items)) }
    ensures few { IfOk result (λ found. length found.items ≤ length text.now) }
{
    let mut lines: Vec<&str> = text.split('\n').collect(alloc)?;
    if lines.last().is_some_and(|last| last.is_empty()) {
        lines.pop();
    }
    Ok(lines)
}

// Returns the lines of bytes, without their newlines.
#[tactic(auto, unfolding(crate::specs::Lines::lines))]
pub(crate) fn byte_lines(alloc: Global, text: &[u8]) -> Result<Vec<&[u8]>, AllocError>
    ensures value { IfOk result (λ found. map (λ line. line.now) found.items ≡ lines text.now) }
    ensures few { IfOk result (λ found. length found.items ≤ length text.now) }
{
    let mut lines = pieces(alloc, text, b'\n')?;
    if lines.last().is_some_and(|last| last.is_empty()) {
        lines.pop();
    }
    Ok(lines)
}

// Returns how many blanks a text begins with.
pub(crate) fn blanks_in_front(text: &[u8]) -> usize
    ensures { result ≡ prefix_len is_blank text.now }
{
    text.iter().take_while(|byte| is_blank(**byte)).count()
}

// Returns how many bytes come before the first blank of a text.
fn word_len(text: &[u8]) -> usize
    ensures { result ≡ position_or_len is_blank text.now }
{
    text.iter()
        .position(|byte| is_blank(*byte))
        .unwrap_or(text.len())
}

/// Returns a text without its leading blanks.
pub fn after_blanks(text: &str) -> &str
    ensures { result.now ≡ after_blanks text.now }
{
    &text[blanks_in_front(text.as_bytes())..]
}

/// Returns the first word of a text and what follows it, or `None` if the text has nothing but blanks.
#[tactic(auto, unfolding(crate::specs::Lines::cut_word))]
pub fn cut_word(text: &str) -> Option<(&str, &str)>
    ensures { option_map (λ parts. (parts.0.now, parts.1.now)) result ≡ cut_word text.now }
{
    let text = after_blanks(text);
    if text.is_empty() {
        return None;
    }
    Some(text.split_at(word_len(text.as_bytes())))
}
