//! Blanks in a calendar event that systemd 252 doesn't read.

ghost use Rattle.std.specs.Prelude.{◌≡◌, ◌≤◌, ◌&&◌, ◌||◌, not, length};
ghost use Rattle.std.specs.List.{suffix_len};
ghost use Rattle.plan_texts.specs.Text.{is_blank};
ghost use Rattle.plan_systemd.specs.Spacing.{blanks_at_end, ends_with_time, has_bad_blanks, has_far_zone, last_word_len};

use plan_grammar::expression_of;
use plan_texts::begins_with_letter;

// Returns whether a byte is a space or a tab.
fn is_blank(byte: u8) -> bool
    ensures { result ≡ is_blank byte }
{
    byte == b' ' || byte == b'\t'
}

// Returns how many bytes the last word of a text has.
fn last_word_len(text: &[u8]) -> usize
    ensures count { result ≡ last_word_len text.now }
    ensures inside { result ≤ length text.now }
{
    text.iter()
        .rev()
        .take_while(|byte| !is_blank(**byte))
        .count()
}

// Returns how many blanks a text ends with.
fn blanks_at_end(text: &[u8]) -> usize
    ensures count { result ≡ blanks_at_end text.now }
    ensures inside { result ≤ length text.now }
{
    text.iter()
        .rev()
        .take_while(|byte| is_blank(**byte))
        .count()
}

// Returns whether a text ends with a time or is a word such as `daily`.
fn ends_with_time(text: &[u8]) -> bool
    ensures { result ≡ ends_with_time text.now }
{
    text.contains(&b':') || expression_of(text).is_some()
}

// Returns whether there are two or more blanks before the zone, and before them a time or a word such as `daily`.
fn has_far_zone(text: &[u8]) -> bool
    ensures { result ≡ has_far_zone text.now }
{
    let start = text.len() - last_word_len(text);
    let before = &text[..start];
    let blanks = blanks_at_end(before);
    blanks >= 2
        && begins_with_letter(&text[start..])
        && ends_with_time(&before[..before.len() - blanks])
}

/// Returns whether an event has a tab, or a second blank before its zone after a time.
pub(crate) fn has_bad_blanks(text: &[u8]) -> bool
    ensures { result ≡ has_bad_blanks text.now }
{
    text.contains(&b'\t') || has_far_zone(text)
}
