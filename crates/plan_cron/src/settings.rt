//! Which lines cron reads as settings (load_env of cron 3.0pl1; crontab(5), environment settings).

ghost use Rattle.std.specs.Prelude.{◌≡◌, ◌≤◌, ◌==◌, ◌||◌, ℕ, Bool, IfOk, length, option_map, take};
ghost use Rattle.std.specs.List.{list_all, position_or_len, prefix_len};
ghost use Rattle.std.specs.Str.{byte};
ghost use Rattle.plan_cron.specs.Lines.{most_kept};
ghost use Rattle.plan_cron.specs.Settings.{after_byte, after_name, after_plain, after_quoted, after_spaces, deciding_part, empty_advice, has_no_value, is_closed, is_quote, is_setting, is_setting_of_word, is_space, is_value, setting_fault, value_of, written_name};

use crate::lines::{MOST_KEPT, before_nul, is_read};
use plan_texts::lines::after_blanks;
use plan_texts::whole_lines::trimmed;
use plan_texts::{Text, begins_with};
use std::alloc::{AllocError, Global};

/// Returns why cron ignores a crontab, if one of its lines that makes no job isn't a setting for cron either. Returns
/// `None` for a setting, a comment and an empty line.
///
/// # Errors
///
/// `AllocError` if an allocation fails.
#[tactic(auto, unfolding(crate::specs::Settings::setting_fault))]
pub fn setting_fault(alloc: Global, line: &str) -> Result<Option<Text>, AllocError>
    ensures { IfOk result (λ fault. fault ≡ setting_fault line.now) }
{
    if !is_read(line.as_bytes()) || is_setting(line) {
        return Ok(None);
    }
    if has_no_value(line) {
        return Ok(Some(empty_advice(alloc, written_name(line))?));
    }
    let fault = String::from_str(alloc, "not a setting")?;
    Ok(Some(Text::new(fault)))
}

/// Returns whether cron reads a line as a setting though it begins with a word such as `@daily`.
#[tactic(auto, unfolding(crate::specs::Settings::is_setting_of_word))]
pub fn is_setting_of_word(line: &str) -> bool
    ensures { result ≡ is_setting_of_word line.now }
{
    begins_with(after_blanks(line).as_bytes(), b'@') && is_setting(line)
}

// Returns whether cron reads a line as a setting.
fn is_setting(line: &str) -> bool
    ensures { result ≡ is_setting line.now }
{
    match value_of(deciding_part(line)) {
        Some(value) => is_value(value),
        None => false,
    }
}

// Returns whether a line has everything of a setting but a value.
fn has_no_value(line: &str) -> bool
    ensures { result ≡ has_no_value line.now }
{
    match value_of(deciding_part(line)) {
        Some(value) => value.is_empty(),
        None => false,
    }
}

// Returns the part of a line that decides whether it is a setting.
fn deciding_part(line: &str) -> &[u8]
    ensures { result.now ≡ deciding_part line.now }
{
    kept(before_nul(after_blanks(line).as_bytes()))
}

// Returns the bytes of a line that cron keeps.
fn kept(text: &[u8]) -> &[u8]
    ensures { result.now ≡ take most_kept text.now }
{
    if text.len() <= MOST_KEPT {
        return text;
    }
    &text[..MOST_KEPT]
}

// Returns the name of a setting as it is written.
fn written_name(line: &str) -> &str
    ensures { result.now ≡ written_name line.now }
{
    match line.split_once('=') {
        Some((name, _)) => trimmed(name),
        None => trimmed(line),
    }
}

// Returns what a setting without a value has to be.
fn empty_advice(alloc: Global, name: &str) -> Result<Text, AllocError>
    ensures { IfOk result (λ advice. advice ≡ empty_advice name.now) }
{
    let advice = format!(in alloc; "write {name}=\"\" for {name}=")?;
    Ok(Text::new(advice))
}

// Returns the value of a setting, if the text has a name, white space or none, and `=`.
fn value_of(text: &[u8]) -> Option<&[u8]>
    ensures { option_map (λ value. value.now) result ≡ value_of text.now }
{
    let rest = after_name(text)?;
    let value = after_byte(b'=', after_spaces(rest))?;
    Some(after_spaces(value))
}

// Returns what follows the name of a setting.
fn after_name(text: &[u8]) -> Option<&[u8]>
    ensures { option_map (λ rest. rest.now) result ≡ after_name text.now }
{
    match text {
        [quote, more @ ..] if is_quote(*quote) => after_quoted(*quote, more),
        _ => Some(after_plain(text)),
    }
}

// Returns what follows the quote that ends a name.
fn after_quoted(quote: u8, text: &[u8]) -> Option<&[u8]>
    ensures { option_map (λ rest. rest.now) result ≡ after_quoted quote text.now }
{
    after_byte(quote, &text[quoted_len(quote, text)..])
}

// Returns how many bytes come before the first quote or `=`.
fn quoted_len(quote: u8, text: &[u8]) -> usize
    ensures count { result ≡ position_or_len (λ b. (b == quote) || (b == byte "=")) text.now }
    ensures inside { result ≤ length text.now }
{
    text.iter()
        .take_while(|byte| !(**byte == quote || **byte == b'='))
        .count()
}

// Returns what follows a name without quotes.
fn after_plain(text: &[u8]) -> &[u8]
    ensures { result.now ≡ after_plain text.now }
{
    &text[plain_len(text)..]
}

// Returns how many bytes come before the first white space or `=`.
fn plain_len(text: &[u8]) -> usize
    ensures count { result ≡ position_or_len (λ b. is_space b || (b == byte "=")) text.now }
    ensures inside { result ≤ length text.now }
{
    text.iter()
        .take_while(|byte| !(is_space(**byte) || **byte == b'='))
        .count()
}

// Returns what follows a byte at the start of a text.
fn after_byte(mark: u8, text: &[u8]) -> Option<&[u8]>
    ensures { option_map (λ rest. rest.now) result ≡ after_byte mark text.now }
{
    match text {
        [first, rest @ ..] if *first == mark => Some(rest),
        _ => None,
    }
}

// Returns whether a value isn't empty and, if it begins with a quote, has another one, and then only white space.
fn is_value(value: &[u8]) -> bool
    ensures { result ≡ is_value value.now }
{
    match value {
        [] => false,
        [quote, more @ ..] if is_quote(*quote) => is_closed(*quote, more),
        _ => true,
    }
}

// Returns whether a text has a quote, and after the first one only white space.
fn is_closed(quote: u8, text: &[u8]) -> bool
    ensures { result ≡ is_closed quote text.now }
{
    match after_byte(quote, &text[open_len(quote, text)..]) {
        Some(rest) => are_spaces(rest),
        None => false,
    }
}

// Returns how many bytes come before the first quote.
fn open_len(quote: u8, text: &[u8]) -> usize
    ensures count { result ≡ position_or_len (λ b. b == quote) text.now }
    ensures inside { result ≤ length text.now }
{
    text.iter().take_while(|byte| **byte != quote).count()
}

// Returns whether a text has only white space.
fn are_spaces(text: &[u8]) -> bool
    ensures { result ≡ list_all is_space text.now }
{
    text.iter().all(|byte| is_space(*byte))
}

// Returns a text without the white space at its start.
fn after_spaces(text: &[u8]) -> &[u8]
    ensures { result.now ≡ after_spaces text.now }
{
    &text[spaces_in_front(text)..]
}

// Returns how much white space a text begins with.
fn spaces_in_front(text: &[u8]) -> usize
    ensures count { result ≡ prefix_len is_space text.now }
    ensures inside { result ≤ length text.now }
{
    text.iter().take_while(|byte| is_space(**byte)).count()
}

// Returns whether a byte is white space.
fn is_space(byte: u8) -> bool
    ensures { result ≡ is_space byte }
{
    byte == b' ' || (9..=13).contains(&byte)
}

// Returns whether a byte is a quote.
fn is_quote(byte: u8) -> bool
    ensures { result ≡ is_quote byte }
{
    byte == b'"' || byte == b'\''
}
