//! The words of a command, as they are written.

ghost use Rattle.std.specs.Prelude.{◌≡◌, ◌==◌, not, IfOk};
ghost use Rattle.std.specs.List.{list_all};
ghost use Rattle.std.specs.Str.{byte, bytes_eq, IsAscii};
ghost use Rattle.plan_texts.specs.Text.{begins_with};
ghost use Rattle.plan_shell.specs.Commands.{is_name_byte, is_path_byte, name_of, path_of};

use plan_texts::{Text, begins_with};
use std::alloc::{AllocError, Global};

/// Returns whether a word is written so.
pub(crate) fn is_word(word: &[u8], text: &str) -> bool
    ensures { result ≡ bytes_eq word.now text.now }
{
    word == text.as_bytes()
}

/// Returns the PATH that a word is, or `None` if it is none.
///
/// # Errors
///
/// `AllocError` if an allocation fails.
#[tactic(auto, using(crate::proofs::WordLemmas::ascii_path), unfolding(crate::specs::Commands::path_of))]
pub(crate) fn path_of(alloc: Global, word: &[u8]) -> Result<Option<Text>, AllocError>
    ensures { IfOk result (λ path. path ≡ path_of word.now) }
{
    if begins_with(word, b'/') && has_path_bytes(word) {
        Ok(Some(text_of(alloc, word)?))
    } else {
        Ok(None)
    }
}

/// Returns the NAME that a word is, or `None` if it is none.
///
/// # Errors
///
/// `AllocError` if an allocation fails.
#[tactic(auto, using(crate::proofs::WordLemmas::ascii_name), unfolding(crate::specs::Commands::name_of))]
pub(crate) fn name_of(alloc: Global, word: &[u8]) -> Result<Option<Text>, AllocError>
    ensures { IfOk result (λ name. name ≡ name_of word.now) }
{
    if begins_as_name(word) && has_name_bytes(word) {
        Ok(Some(text_of(alloc, word)?))
    } else {
        Ok(None)
    }
}

// Returns a text of ASCII.
fn text_of(alloc: Global, word: &[u8]) -> Result<Text, AllocError>
    requires { IsAscii word.now }
    ensures { IfOk result (λ text. text ≡ word.now) }
{
    let bytes = Vec::from_slice(alloc, word)?;
    let text = String::from_utf8(bytes).unwrap();
    Ok(Text::new(text))
}

// Returns whether a word has nothing but bytes of a PATH.
fn has_path_bytes(word: &[u8]) -> bool
    ensures { result ≡ list_all is_path_byte word.now }
{
    word.iter().all(|byte| is_path_byte(*byte))
}

// Returns whether a PATH may have a byte.
fn is_path_byte(byte: u8) -> bool
    ensures { result ≡ is_path_byte byte }
{
    32 < byte && byte < 127 && !b"$*?~[]{}\\'\"`<>".contains(&byte)
}

// Returns whether a word begins like no option.
fn begins_as_name(word: &[u8]) -> bool
    ensures { result ≡ begins_with (λ b. not (b == byte "-")) word.now }
{
    match word {
        [first, ..] => *first != b'-',
        [] => false,
    }
}

// Returns whether a word has nothing but bytes of a NAME.
fn has_name_bytes(word: &[u8]) -> bool
    ensures { result ≡ list_all is_name_byte word.now }
{
    word.iter().all(|byte| is_name_byte(*byte))
}

// Returns whether a NAME may have a byte.
fn is_name_byte(byte: u8) -> bool
    ensures { result ≡ is_name_byte byte }
{
    byte.is_ascii_alphanumeric() || byte == b'_' || byte == b'-' || byte == b'.'
}
