//! The lines of a table: a row of cells as a line.

ghost use Rattle.std.specs.Prelude.{◌≡◌, ◌+◌, ◌-◌, ◌^◌, ◌≤◌, ◌++◌, None, Some, codes, length, nat_le, replicate};
ghost use Rattle.plan_streams.specs.Writer.{Takes};
ghost use Rattle.agenda_table.specs.Layout.{columns_from, cut, gap, joined, line_text};
ghost use Rattle.agenda_table.specs.Room.{kept, room_behind, shown_bytes};
ghost use Rattle.agenda_table.specs.Widths.{width_at};

use crate::cell::Cell;
use crate::room::{Room, put_char, put_text};
use crate::widths::Widths;
use plan_streams::{Stream, TextWriter};

/// Where a table is shown.
#[derive(Clone, Copy, Debug)]
pub struct Frame {
    /// The columns of the lines: longer lines are cut. `None` if no line is cut.
    pub columns: Option<u32>,
    /// Whether it is a terminal, which gets `?` for control characters.
    pub terminal: bool,
}

// Returns the number of blanks after a cell: none after the last one of a row.
fn gap(cell: &Cell<'_>, place: usize, last: usize, widths: &Widths) -> u128
    ensures value { result ≡ gap (width_at widths.now) last place cell.now }
    ensures bound { result ≤ 2 ^ 64 + 1 }
{
    if place == last {
        return 0;
    }
    widths.at(place).saturating_sub(cell.width()) as u128 + 2
}

// Returns whether a row fits into so many columns.
fn fits(row: &[Cell<'_>], widths: &Widths, columns: u32) -> bool
    ensures { result ≡ nat_le (columns_from (width_at widths.now) (length row.now - 1) 0 row.now) columns }
{
    let last = row.len().saturating_sub(1);
    let mut left = u128::from(columns);
    for (place, cell) in row.iter().enumerate() {
        let needed = cell.width() as u128 + gap(cell, place, last, widths);
        if needed > left {
            return false;
        }
        left -= needed;
    }
    true
}

// Puts blanks as far as there is room for them, and returns the room after them.
fn put_blanks<S: Stream>(
    count: u128,
    terminal: bool,
    room: Room,
    lines: &mut TextWriter<'_, S>,
) -> Room
    ensures text { Takes S.holds S.takes_all lines.old lines.new (shown_bytes terminal (kept room (replicate count 32))) }
    ensures room { result ≡ room_behind room (replicate count 32) }
{
    let mut room = room;
    for _put in 0..count {
        room = put_char(' ', terminal, room, lines);
    }
    room
}

// Puts a row as far as there is room for it.
fn put_row<S: Stream>(
    row: &[Cell<'_>],
    widths: &Widths,
    terminal: bool,
    room: Room,
    lines: &mut TextWriter<'_, S>,
)
    ensures { Takes S.holds S.takes_all lines.old lines.new
        (shown_bytes terminal (kept room (joined (width_at widths.now) (length row.now - 1) 0 row.now))) }
{
    let last = row.len().saturating_sub(1);
    let mut room = room;
    for (place, cell) in row.iter().enumerate() {
        let behind = put_text(cell.text(), terminal, room, lines);
        room = put_blanks(gap(cell, place, last, widths), terminal, behind, lines);
    }
}

/// Puts a row as a line.
pub(crate) fn put_line<S: Stream>(
    row: &[Cell<'_>],
    widths: &Widths,
    frame: Frame,
    lines: &mut TextWriter<'_, S>,
)
    ensures { Takes S.holds S.takes_all lines.old lines.new (line_text frame.columns frame.terminal (width_at widths.now) row.now) }
{
    match frame.columns {
        Some(columns) => put_fitted(row, widths, columns, frame.terminal, lines),
        None => put_whole(row, widths, frame.terminal, lines),
    }
}

// Puts a row as a line of so many columns.
fn put_fitted<S: Stream>(
    row: &[Cell<'_>],
    widths: &Widths,
    columns: u32,
    terminal: bool,
    lines: &mut TextWriter<'_, S>,
)
    ensures { Takes S.holds S.takes_all lines.old lines.new (line_text (Some columns) terminal (width_at widths.now) row.now) }
{
    if fits(row, widths, columns) {
        put_whole(row, widths, terminal, lines);
    } else {
        put_cut(row, widths, columns, terminal, lines);
    }
}

// Puts a row as a line that isn't cut.
fn put_whole<S: Stream>(
    row: &[Cell<'_>],
    widths: &Widths,
    terminal: bool,
    lines: &mut TextWriter<'_, S>,
)
    ensures { Takes S.holds S.takes_all lines.old lines.new (line_text None terminal (width_at widths.now) row.now) }
{
    put_row(row, widths, terminal, Room::All, lines);
    lines.put(b"\n");
}

// Puts a row as a line that is cut.
fn put_cut<S: Stream>(
    row: &[Cell<'_>],
    widths: &Widths,
    columns: u32,
    terminal: bool,
    lines: &mut TextWriter<'_, S>,
)
    ensures { Takes S.holds S.takes_all lines.old lines.new
        (shown_bytes terminal (cut columns (joined (width_at widths.now) (length row.now - 1) 0 row.now)) ++ codes "\n") }
{
    let room = Room::Left(columns.saturating_sub(1));
    put_row(row, widths, terminal, room, lines);
    put_char('…', terminal, Room::All, lines);
    lines.put(b"\n");
}
