//! What a piece of a command is in the grammar of sh(1).

ghost use Rattle.std.specs.Prelude.{◌≡◌};
ghost use Rattle.plan_shell.specs.Reading.{keyword, operator, token_at};

use crate::level::Inside;
use crate::reader::Place;
use crate::words::is_word;

/// A piece of a command.
#[derive(Clone, Copy)]
pub(crate) enum Token {
    /// A word of a simple command.
    Word,
    /// `;`.
    Semicolon,
    /// `&&`.
    And,
    /// `||`.
    Or,
    /// `|`.
    Pipe,
    /// `!`.
    Not,
    /// `(`, `{` or `if`.
    Opens(Inside),
    /// `)` or `}`.
    Closes(Inside),
    /// `then`.
    Then,
    /// `elif`.
    Elif,
    /// `else`.
    Else,
    /// `fi`.
    Fi,
}

/// Returns what a piece is.
pub(crate) fn token_at(place: Place, piece: &[u8]) -> Token
    ensures { result ≡ token_at place piece.now }
{
    match place {
        Place::Words => operator(piece),
        _ => match operator(piece) {
            Token::Word => keyword(piece),
            token => token,
        },
    }
}

// Returns the operator that a piece is, or `Word`.
fn operator(piece: &[u8]) -> Token
    ensures { result ≡ operator piece.now }
{
    if is_word(piece, ";") {
        return Token::Semicolon;
    }
    if is_word(piece, "&&") {
        return Token::And;
    }
    if is_word(piece, "||") {
        return Token::Or;
    }
    if is_word(piece, "|") {
        return Token::Pipe;
    }
    if is_word(piece, "(") {
        return Token::Opens(Inside::Parentheses);
    }
    if is_word(piece, ")") {
        return Token::Closes(Inside::Parentheses);
    }
    Token::Word
}

// Returns the word of the grammar that a word is, or `Word`.
fn keyword(word: &[u8]) -> Token
    ensures { result ≡ keyword word.now }
{
    if is_word(word, "!") {
        return Token::Not;
    }
    if is_word(word, "{") {
        return Token::Opens(Inside::Braces);
    }
    if is_word(word, "}") {
        return Token::Closes(Inside::Braces);
    }
    if is_word(word, "if") {
        return Token::Opens(Inside::Condition);
    }
    if is_word(word, "then") {
        return Token::Then;
    }
    if is_word(word, "elif") {
        return Token::Elif;
    }
    if is_word(word, "else") {
        return Token::Else;
    }
    if is_word(word, "fi") {
        return Token::Fi;
    }
    Token::Word
}
