//! Writes a table: all rows are read twice, for the widths of the columns and for the lines.

ghost use Rattle.std.specs.Prelude.{◌≡◌, IsTrue, OnOk, chars};
ghost use Rattle.plan_streams.specs.Stream.{Puts};
ghost use Rattle.agenda_table.specs.Layout.{AreShort, table_text};

use crate::cell::Cell;
use crate::line::{Frame, put_line};
use crate::room::{Room, put_text};
use crate::widths::Widths;
use plan_streams::{Stream, TextWriter, WriteFault};

/// What takes the rows of a table, one after the other.
pub trait RowSink {
    ghost use Rattle.std.specs.Prelude.{◌≡◌, ◌≤◌, ℕ, List, [], ◌∷◌, ◌++◌, length};

    /// Whether it took these rows.
    ghost takes: { Self → Self → List (List (List ℕ)) → Type 0 };

    /// Takes a row of at most 6 cells.
    fn row(&mut self, row: &[Cell<'_>])
        ensures { takes self.old self.new (row.now ∷ []) };

    ghost takes_none: { (a : Self) → takes a a [] };

    ghost takes_both: { (a b c : Self) → (xs ys : List (List (List ℕ))) → takes a b xs → takes b c ys → takes a c (xs ++ ys) };
}

/// The rows of a table.
pub trait Rows {
    ghost use Rattle.std.specs.Prelude.{ℕ, List};

    /// All rows, the head first. A row is a list of cells, and a cell a list of characters.
    ghost rows: { Self → List (List (List ℕ)) };

    /// Puts the rows, in order.
    fn put_rows<K: RowSink>(&self, sink: &mut K)
        ensures { K.takes sink.old sink.new (rows self.now) };
}

impl RowSink for Widths {
    ghost use Rattle.std.specs.Prelude.{◌≡◌, ℕ, List, [], ◌++◌};
    ghost use Rattle.agenda_table.specs.Widths.{AreWidest, WidensBy, widens_none, widens_both};

    ghost takes = { WidensBy };

    fn row(&mut self, row: &[Cell<'_>]) {
        self.widen(row);
    }

    ghost takes_none = { widens_none };

    ghost takes_both = { widens_both };
}

/// A writer of the lines of rows.
#[derive(Drop)]
struct Lines<'a, S> {
    lines: TextWriter<'a, S>,
    widths: Widths,
    frame: Frame,
}

impl<'a, S: Stream> RowSink for Lines<'a, S> {
    ghost use Rattle.agenda_table.specs.Lines.{TakesRows, takes_rows_none, takes_rows_both};

    ghost takes = { TakesRows S.holds S.takes_all };

    fn row(&mut self, row: &[Cell<'_>]) {
        put_line(row, &self.widths, self.frame, &mut self.lines);
    }

    ghost takes_none = { takes_rows_none S.holds S.takes_all };

    ghost takes_both = { takes_rows_both S.holds S.takes_all };
}

/// Writes a table: its rows, and a last line, which isn't cut. All rows have at most 6 cells. This requests no memory
/// but what the rows request. The stream is flushed once, at the end.
///
/// # Errors
///
/// `Device` or `Closed` if the stream fails. Then only the first bytes of the text were written.
// Not inlined: its buffer of 64 KiB takes stack only while it runs.
#[inline(never)]
pub fn write_table<T: Rows, S: Stream>(
    table: &T,
    last: &str,
    frame: Frame,
    out: &mut S,
) -> Result<(), WriteFault>
    requires { AreShort (T.rows table.now) }
    ensures text { Puts S.takes_all result (S.holds out.old) (S.holds out.new)
        (table_text frame.columns frame.terminal (T.rows table.now) (chars last.now)) }
    ensures flushed { OnOk result (IsTrue (S.is_flushed out.new)) }
{
    let mut widths = Widths::new();
    table.put_rows(&mut widths);
    let mut sink = Lines {
        lines: TextWriter::new(out),
        widths,
        frame,
    };
    table.put_rows(&mut sink);
    put_text(last, frame.terminal, Room::All, &mut sink.lines);
    sink.lines.put(b"\n");
    sink.lines.finish()
}
