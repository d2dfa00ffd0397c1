//! The room that a line has: one that is too long for a terminal is cut.

ghost use Rattle.std.specs.Prelude.{◌≡◌, IsTrue, chars};
ghost use Rattle.std.specs.Char.{encode_utf8};
ghost use Rattle.plan_streams.specs.Writer.{Takes};
ghost use Rattle.agenda_table.specs.declared.room.Room.TheVariants.{All};
ghost use Rattle.agenda_table.specs.Room.{columns_of, is_printable, kept, kept_char, room_after, room_behind, shown_bytes, shown_char};

use plan_streams::{Stream, TextWriter};
use unicode_width::UnicodeWidthChar;

/// What may still be put of a line.
#[derive(Clone, Copy, Debug)]
pub(crate) enum Room {
    /// All of it.
    All,
    /// Characters that take at most so many columns.
    Left(u32),
    /// Nothing, since a character didn't fit.
    Full,
}

// Returns the columns that a character takes by itself.
fn columns_of(c: char) -> u32
    ensures { result ≡ columns_of c }
{
    match c.width() {
        Some(width) => width as u32,
        None => 1,
    }
}

// Returns a character as it is shown.
fn shown_char(terminal: bool, c: char) -> char
    ensures { result ≡ shown_char terminal c }
{
    if terminal && c.width().is_none() {
        '?'
    } else {
        c
    }
}

/// Puts a text as far as there is room for it, and returns the room after it.
pub(crate) fn put_text<S: Stream>(
    text: &str,
    terminal: bool,
    room: Room,
    lines: &mut TextWriter<'_, S>,
) -> Room
    ensures text { Takes S.holds S.takes_all lines.old lines.new (shown_bytes terminal (kept room (chars text.now))) }
    ensures room { result ≡ room_behind room (chars text.now) }
{
    match room {
        Room::All => {
            put_uncut(text, terminal, lines);
            Room::All
        }
        other => put_chars(text, terminal, other, lines),
    }
}

// Puts a whole text. One without control characters is put at once.
fn put_uncut<S: Stream>(text: &str, terminal: bool, lines: &mut TextWriter<'_, S>)
    ensures { Takes S.holds S.takes_all lines.old lines.new (shown_bytes terminal (kept All (chars text.now))) }
{
    if is_plain(text, terminal) {
        lines.put(text.as_bytes());
    } else {
        put_chars(text, terminal, Room::All, lines);
    }
}

// Returns whether a text is shown as it is.
fn is_plain(text: &str, terminal: bool) -> bool
    ensures { IsTrue result → IsTrue terminal → IsTrue (is_printable (chars text.now)) }
{
    !terminal || is_printable(text)
}

// Returns whether a text has no control characters.
fn is_printable(text: &str) -> bool
    ensures { IsTrue result → IsTrue (is_printable (chars text.now)) }
{
    for c in text.chars() {
        if c.width().is_none() {
            return false;
        }
    }
    true
}

// Puts the characters of a text as far as there is room for them, and returns the room after them.
fn put_chars<S: Stream>(
    text: &str,
    terminal: bool,
    room: Room,
    lines: &mut TextWriter<'_, S>,
) -> Room
    ensures text { Takes S.holds S.takes_all lines.old lines.new (shown_bytes terminal (kept room (chars text.now))) }
    ensures room { result ≡ room_behind room (chars text.now) }
{
    let mut room = room;
    for c in text.chars() {
        room = put_char(c, terminal, room, lines);
    }
    room
}

/// Puts a character if there is room for it, and returns the room after it.
#[tactic(auto, unfolding(crate::specs::Room::shown_bytes))]
pub(crate) fn put_char<S: Stream>(
    c: char,
    terminal: bool,
    room: Room,
    lines: &mut TextWriter<'_, S>,
) -> Room
    ensures text { Takes S.holds S.takes_all lines.old lines.new (shown_bytes terminal (kept_char room c)) }
    ensures room { result ≡ room_after room c }
{
    match room {
        Room::All => {
            put_shown(c, terminal, lines);
            Room::All
        }
        Room::Left(columns) => {
            let needed = columns_of(c);
            if needed > columns {
                return Room::Full;
            }
            put_shown(c, terminal, lines);
            Room::Left(columns - needed)
        }
        Room::Full => Room::Full,
    }
}

// Puts a character as it is shown.
fn put_shown<S: Stream>(c: char, terminal: bool, lines: &mut TextWriter<'_, S>)
    ensures { Takes S.holds S.takes_all lines.old lines.new (encode_utf8 (shown_char terminal c)) }
{
    let mut buffer = [0; 4];
    lines.put(shown_char(terminal, c).encode_utf8(&mut buffer).as_bytes());
}
