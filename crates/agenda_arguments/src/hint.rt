//! The hint of a usage error, if a question about a machine expects a time.
ghost use Rattle.std.specs.Prelude.{◌≡◌, IfOk, map, string_bytes};
ghost use Rattle.std.specs.Option.{option_map};
ghost use Rattle.agenda_arguments.specs.Hint.{hint_between, hinted, options_of, says_word, time_options, word_end};
ghost use Rattle.plan_texts.specs.Text.{cut_at};

use crate::values::text;
use plan_texts::Text;
use std::alloc::{AllocError, Global};

// The options for a span.
const OF_SPAN: &str = "--since or --until";

// The option for the time after which starts are listed.
const OF_START: &str = "--after";

// How clap's text begins if an argument is unexpected.
const UNEXPECTED: &str = "error: unexpected argument '";

// How it begins if that argument is an option.
const UNEXPECTED_OPTION: &str = "error: unexpected argument '-";

// How the line with that argument ends.
const WORD_END: &str = "' found\n";

/// Returns the options of a question that give a time, as its hint names them, or `None` if the question expects no time.
/// The second of the words is the question.
pub(crate) fn time_options(words: &[String]) -> Option<&'static str>
    ensures { option_map (λ options. options.now) result ≡ time_options (map string_bytes words.now) }
{
    match words.get(1) {
        Some(word) => options_of(word.as_str()),
        None => None,
    }
}

// Returns the options of this question that give a time.
fn options_of(question: &str) -> Option<&'static str>
    ensures { option_map (λ options. options.now) result ≡ options_of question.now }
{
    match question {
        "plan" => Some(OF_SPAN),
        "quiet" => Some(OF_SPAN),
        "downtime" => Some(OF_SPAN),
        "clear" => Some(OF_SPAN),
        "week" => Some(OF_SPAN),
        "upcoming" => Some(OF_START),
        "scripts" => Some(OF_START),
        "next" => Some(OF_START),
        _ => None,
    }
}

/// Returns the text of a usage error with the hint that names these options, if it says that an argument is unexpected that
/// isn't an option.
///
/// # Errors
///
/// An allocation failed.
pub(crate) fn with_hint(
    alloc: Global,
    said: Text,
    options: Option<&str>,
) -> Result<Text, AllocError>
    ensures { IfOk result (λ text. text ≡ hinted (option_map (λ options. options.now) options.entry) said) }
{
    match options {
        Some(options) if says_word(said.as_str()) => hint_between(alloc, said.as_str(), options),
        _ => Ok(said),
    }
}

// Returns whether a text says that an argument is unexpected that isn't an option.
fn says_word(said: &str) -> bool
    ensures { result ≡ says_word said.now }
{
    let said = said.as_bytes();
    said.starts_with(UNEXPECTED.as_bytes()) && !said.starts_with(UNEXPECTED_OPTION.as_bytes())
}

// Returns the text with the hint after the unexpected argument.
fn hint_between(alloc: Global, said: &str, options: &str) -> Result<Text, AllocError>
    ensures { IfOk result (λ text. text ≡ hint_between options.now said.now (cut_at word_end said.now)) }
{
    match said.split_once(WORD_END) {
        Some((before, after)) => {
            let text = format!(in alloc; "{before}' (for a time, use {options})\n{after}")?;
            Ok(Text::new(text))
        }
        None => text(alloc, said),
    }
}
