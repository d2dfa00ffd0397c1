//! The words of a line (crontab(5)).

ghost use Rattle.std.specs.Prelude.{◌≡◌};
ghost use Rattle.plan_cron.specs.Words.{after_word, after_words, first_word, word_at};

use plan_texts::lines::cut_word;

/// Returns the word at a place of a text, from 1. At place 0 it is the first word too.
pub fn word_at(text: &str, place: u8) -> &str
    ensures { result.now ≡ word_at text.now place }
{
    first_word(after_words(text, place.saturating_sub(1)))
}

// Returns what follows the first words of a text, of which there is this number.
pub(crate) fn after_words(text: &str, count: u8) -> &str
    ensures { result.now ≡ after_words count text.now }
{
    let mut rest = text;
    for _ in 0..count {
        rest = after_word(rest);
    }
    rest
}

// Returns what follows the first word of a text.
pub(crate) fn after_word(text: &str) -> &str
    ensures { result.now ≡ after_word text.now }
{
    match cut_word(text) {
        Some((_, rest)) => rest,
        None => "",
    }
}

// Returns the first word of a text.
fn first_word(text: &str) -> &str
    ensures { result.now ≡ first_word text.now }
{
    match cut_word(text) {
        Some((word, _)) => word,
        None => "",
    }
}
