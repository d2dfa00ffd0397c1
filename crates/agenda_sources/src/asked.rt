//! A rule that is given by itself, as the command `next` gets it.

ghost use Rattle.std.specs.Prelude.{◌≡◌, IfOk};
ghost use Rattle.agenda_sources.specs.Asked.{asked_in, is_of_cron};

use plan_texts::{Text, begins_with, words};
use std::alloc::{AllocError, Global};

/// The number of words of a cron rule.
const FIELDS: usize = 5;

/// A rule that is given by itself.
#[derive(Debug, Drop)]
pub enum Asked {
    /// The text of a cron rule.
    Cron(Text),
    /// The text of a calendar event.
    Event(Text),
}

impl Asked {
    /// Returns the rule with a text: a cron rule if the text has five words or begins with `@`, and otherwise a calendar
    /// event.
    ///
    /// # Errors
    ///
    /// `AllocError` if an allocation fails.
    pub fn of_text(alloc: Global, text: Text) -> Result<Asked, AllocError>
        ensures { IfOk result (λ asked. asked ≡ asked_in text) }
    {
        if is_of_cron(alloc, text.as_str())? {
            Ok(Asked::Cron(text))
        } else {
            Ok(Asked::Event(text))
        }
    }
}

// Returns whether a rule is one of cron, by its words.
fn is_of_cron(alloc: Global, text: &str) -> Result<bool, AllocError>
    ensures { IfOk result (λ is. is ≡ is_of_cron text.now) }
{
    let found = words(alloc, text.as_bytes())?;
    let is_at = match found.first() {
        Some(word) => begins_with(word, b'@'),
        None => false,
    };
    Ok(found.len() == FIELDS || is_at)
}
