//! Cells of a table.

ghost use Rattle.std.specs.Prelude.{◌≡◌, chars, option_map};
ghost use Rattle.agenda_table.specs.Layout.{width};
ghost use Rattle.agenda_table.specs.Rows.{text_of};

use crate::short::Short;
use std::marker::Model;
use unicode_width::UnicodeWidthStr;

/// A cell: a text, with its width. Contracts see this value as the characters of the text.
#[derive(Drop)]
pub struct Cell<'a> {
    text: &'a str,
    columns: usize,
}

impl<'a> Model for Cell<'a> {
    ghost use Rattle.std.specs.Prelude.{◌≡◌, List, ℕ, chars};
    ghost use Rattle.agenda_table.specs.Layout.{width};

    ghost Value = { List ℕ };

    ghost view = { λ cell. chars cell.text.now };

    ghost invariant = { λ cell. cell.columns ≡ width (chars cell.text.now) };
}

impl<'a> Cell<'a> {
    /// Returns the cell of a text.
    pub fn new(text: &'a str) -> Cell<'a>
        ensures { result ≡ chars text.entry.now }
    {
        Cell {
            text,
            columns: text.width(),
        }
    }

    /// Returns the text.
    pub(crate) fn text(&self) -> &str
        ensures { chars result.now ≡ self.now }
    {
        self.text
    }

    /// Returns the columns that the text takes.
    pub(crate) fn width(&self) -> usize
        ensures { result ≡ width self.now }
    {
        self.columns
    }
}

/// Returns the cell of a text, if there is a text.
pub(crate) fn cell_if(text: &Option<Short>) -> Option<Cell<'_>>
    ensures { result ≡ option_map chars (text_of text.now) }
{
    match text {
        Some(text) => Some(Cell::new(text.as_str())),
        None => None,
    }
}
