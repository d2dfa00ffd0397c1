//! Cuts a text into words, into pieces, or in two at a mark, and reads the number that it writes.

ghost use Rattle.std.specs.Prelude.{◌≡◌, ◌==◌, ℕ, ◌<◌, ◌^◌, ◌++◌, IfOk, IfSome, IfNone, Some, length, map};
ghost use Rattle.std.specs.Char.{is_ascii_alphabetic};
ghost use Rattle.std.specs.Fmt.{decimal};
ghost use Rattle.std.specs.Option.{option_map};
ghost use Rattle.plan_texts.specs.Limits.{most_digits};
ghost use Rattle.plan_texts.specs.Text.{is_blank, words, pieces, begins_with, cut_at, StandsNowhereBefore, decimal_number};

use std::alloc::{AllocError, Global};

/// The maximum number of digits of a number.
const MOST_DIGITS: usize = 4;

/// Returns whether a byte is a space or a tab.
pub fn is_blank(byte: u8) -> bool
    ensures { result ≡ is_blank byte }
{
    byte == b' ' || byte == b'\t'
}

/// Returns the words of a text: the parts between its blanks.
///
/// # Errors
///
/// `AllocError` if an allocation fails.
pub fn words(alloc: Global, text: &[u8]) -> Result<Vec<&[u8]>, AllocError>
    ensures { IfOk result (λ found. map (λ word. word.now) found.items ≡ words text.now) }
{
    text.split(|byte| is_blank(*byte))
        .filter(|word| !word.is_empty())
        .collect(alloc)
}

/// Returns whether the first byte of a text is `byte`.
pub fn begins_with(text: &[u8], byte: u8) -> bool
    ensures { result ≡ begins_with (λ b. b == byte) text.now }
{
    matches!(text, [first, ..] if *first == byte)
}

/// Returns whether a text begins with an ASCII letter.
pub fn begins_with_letter(text: &[u8]) -> bool
    ensures { result ≡ begins_with is_ascii_alphabetic text.now }
{
    matches!(text, [first, ..] if first.is_ascii_alphabetic())
}

/// Splits a text at each `mark`: n marks give n + 1 pieces, which may be empty.
///
/// # Errors
///
/// `AllocError` if an allocation fails.
pub fn pieces(alloc: Global, text: &[u8], mark: u8) -> Result<Vec<&[u8]>, AllocError>
    ensures { IfOk result (λ found. map (λ piece. piece.now) found.items ≡ pieces mark text.now) }
{
    text.split(|byte| *byte == mark).collect(alloc)
}

/// Returns what comes before and after the first `mark` in a text, or `None` if the text doesn't contain it.
///
/// The mark must not be empty.
pub fn cut<'a>(text: &'a [u8], mark: &[u8]) -> Option<(&'a [u8], &'a [u8])>
    requires { 0 < length mark.now }
    ensures value { option_map (λ parts. (parts.0.now, parts.1.now)) result ≡ cut_at mark.now text.now }
    ensures again { IfSome result (λ parts. text.now ≡ parts.0.now ++ (mark.now ++ parts.1.now)) }
    ensures first { IfSome result (λ parts. StandsNowhereBefore mark.now text.now (length parts.0.now)) }
    ensures nowhere { IfNone result (StandsNowhereBefore mark.now text.now (length text.now)) }
{
    for at in 0..text.len() {
        let rest = &text[at..];
        if rest.starts_with(mark) {
            return Some((&text[..at], &rest[mark.len()..]));
        }
    }
    None
}

/// Returns the number that 1 to 4 decimal digits write, or `None` for any other text.
#[tactic(auto, unfolding(crate::specs::Text::decimal_number))]
pub fn number(text: &[u8]) -> Option<u16>
    ensures value { result ≡ decimal_number text.now }
    ensures small { IfSome result (λ n. n < 10 ^ most_digits) }
    // The decimal text of a number below 10,000 gives that number.
    ensures written { (n : ℕ) → n < 10 ^ most_digits → text.now ≡ decimal n → result ≡ Some n }
{
    if text.is_empty() || text.len() > MOST_DIGITS {
        return None;
    }
    let mut value = 0;
    for byte in text {
        if !byte.is_ascii_digit() {
            return None;
        }
        value = value * 10 + u16::from(*byte - b'0');
    }
    Some(value)
}
