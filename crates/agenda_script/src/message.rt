//! The messages of a script.

use std::marker::Model;

/// A message: the bytes of a text, borrowed from its script.
#[derive(Debug, Drop)]
pub struct Message<'a> {
    text: &'a [u8],
}

impl<'a> Model for Message<'a> {
    ghost use Rattle.std.specs.Prelude.{List, ℕ};

    ghost Value = { List ℕ };

    ghost view = { λ message. message.text.now };
}

impl<'a> Message<'a> {
    ghost use Rattle.std.specs.Prelude.{◌≡◌};

    /// Returns the message with these bytes.
    pub fn new(text: &'a [u8]) -> Message<'a>
        ensures { result ≡ text.entry.now }
    {
        Message { text }
    }

    /// Lends the bytes of the message.
    pub fn as_bytes(&self) -> &[u8]
        ensures { result.now ≡ self.now }
    {
        self.text
    }
}
