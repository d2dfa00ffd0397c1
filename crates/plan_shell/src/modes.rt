//! Where words and operators begin and end in the text of a command (sh(1), Lexical Structure).

ghost use Rattle.std.specs.Prelude.{◌≡◌};
ghost use Rattle.plan_shell.specs.Modes.{after_byte, is_blank, is_mark, may_end, opened, quoted, unquoted};

/// What comes before a byte.
#[derive(Clone, Copy)]
pub(crate) enum Mode {
    /// No word, but a blank, an operator or the start of the text.
    Between,
    /// A word.
    Word,
    /// A word that ends with `$`.
    Dollar,
    /// A word that ends with `<`.
    Less,
    /// A word that ends with `>`.
    Greater,
    /// A word that ends with a backslash.
    Escaped,
    /// A word with a `'` that isn't closed.
    Single,
    /// A word with a `"` that isn't closed.
    Double,
    /// A word with a `"` that isn't closed, and that ends with `$`.
    DoubleDollar,
    /// The operator `&`.
    Ampersand,
    /// The operator `|`.
    Bar,
    /// A comment.
    Comment,
}

/// What a byte does to the pieces of a text.
#[derive(Clone, Copy)]
pub(crate) enum Action {
    /// It is in no piece.
    Skip,
    /// It begins a piece.
    Begin,
    /// It extends the last piece.
    Extend,
}

/// Returns what comes before the next byte, and what a byte does, or `None` if the text isn't read.
pub(crate) fn after_byte(mode: Mode, byte: u8) -> Option<(Mode, Action)>
    ensures { result ≡ after_byte mode byte }
{
    match mode {
        Mode::Between if byte == b'#' => Some((Mode::Comment, Action::Skip)),
        Mode::Between => unquoted(Action::Begin, byte),
        Mode::Word => unquoted(Action::Extend, byte),
        Mode::Dollar if byte == b'{' || byte == b'\'' => None,
        Mode::Dollar => unquoted(Action::Extend, byte),
        Mode::Less if byte == b'<' || byte == b'>' => None,
        Mode::Less if byte == b'&' => Some((Mode::Word, Action::Extend)),
        Mode::Less => unquoted(Action::Extend, byte),
        Mode::Greater if byte == b'|' => None,
        Mode::Greater if byte == b'&' => Some((Mode::Word, Action::Extend)),
        Mode::Greater => unquoted(Action::Extend, byte),
        Mode::Escaped => Some((Mode::Word, Action::Extend)),
        Mode::Single if byte == b'\'' => Some((Mode::Word, Action::Extend)),
        Mode::Single => Some((Mode::Single, Action::Extend)),
        Mode::Double => quoted(byte),
        Mode::DoubleDollar if byte == b'(' || byte == b'{' => None,
        Mode::DoubleDollar => quoted(byte),
        Mode::Ampersand if byte == b'&' => Some((Mode::Between, Action::Extend)),
        Mode::Ampersand => None,
        Mode::Bar if byte == b'|' => Some((Mode::Between, Action::Extend)),
        Mode::Bar if byte == b'#' => Some((Mode::Comment, Action::Skip)),
        Mode::Bar => unquoted(Action::Begin, byte),
        Mode::Comment => Some((Mode::Comment, Action::Skip)),
    }
}

/// Returns whether a text may end after what `mode` says.
pub(crate) fn may_end(mode: Mode) -> bool
    ensures { result ≡ may_end mode }
{
    match mode {
        Mode::Escaped | Mode::Single | Mode::Double | Mode::DoubleDollar | Mode::Ampersand => false,
        _ => true,
    }
}

// Returns what a byte outside quotes does; `word` is what it does if it is a byte of a word.
fn unquoted(word: Action, byte: u8) -> Option<(Mode, Action)>
    ensures { result ≡ unquoted word byte }
{
    match byte {
        b' ' | b'\t' => Some((Mode::Between, Action::Skip)),
        b';' | b'(' | b')' => Some((Mode::Between, Action::Begin)),
        b'&' => Some((Mode::Ampersand, Action::Begin)),
        b'|' => Some((Mode::Bar, Action::Begin)),
        b'`' => None,
        _ => Some((opened(byte), word)),
    }
}

// Returns what comes before the next byte after a byte of a word.
fn opened(byte: u8) -> Mode
    ensures { result ≡ opened byte }
{
    match byte {
        b'\\' => Mode::Escaped,
        b'\'' => Mode::Single,
        b'"' => Mode::Double,
        b'$' => Mode::Dollar,
        b'<' => Mode::Less,
        b'>' => Mode::Greater,
        _ => Mode::Word,
    }
}

// Returns what a byte in `".."` does.
fn quoted(byte: u8) -> Option<(Mode, Action)>
    ensures { result ≡ quoted byte }
{
    match byte {
        b'"' => Some((Mode::Word, Action::Extend)),
        b'$' => Some((Mode::DoubleDollar, Action::Extend)),
        b'\\' | b'`' => None,
        _ => Some((Mode::Double, Action::Extend)),
    }
}
