//! A text that is kept as it was given, and can be borrowed.
ghost use Rattle.std.specs.Prelude.{◌≡◌, string_bytes};

use std::marker::Model;

/// A UTF-8 text, kept exactly as it was given.
#[derive(Debug, Drop)]
pub struct Text {
    kept: String,
}

impl Model for Text {
    ghost use Rattle.std.specs.Prelude.{List, ℕ, string_bytes};

    ghost Value = { List ℕ };

    ghost view = { λ text. string_bytes text.kept };
}

impl Text {
    /// Keeps the text.
    pub fn new(text: String) -> Text
        ensures { result ≡ string_bytes text }
    {
        Text { kept: text }
    }

    /// Borrows the text.
    pub fn as_str(&self) -> &str
        ensures { result.now ≡ self.now }
    {
        self.kept.as_str()
    }
}
