//! The table of changes.

ghost use Rattle.std.specs.Prelude.{◌≡◌, ◌∷◌, [], IsTrue, OnOk, chars};
ghost use Rattle.plan_streams.specs.Stream.{Puts};
ghost use Rattle.agenda_table.specs.Layout.{table_text};
ghost use Rattle.agenda_changes.specs.Rows.{change_cells, change_row, change_rows};

use crate::rows::{ChangeRow, ChangeRows};
use agenda_table::{Cell, Frame, Look, RowSink, Rows, write_table};
use itoa::Buffer as Digits;
use plan_streams::{Stream, WriteFault};

// The table of changes.
#[derive(Drop)]
struct ChangeTable<'a> {
    rows: &'a [ChangeRow],
    look: &'a Look<'a>,
}

// Puts the cells of these texts.
fn put_cells<K: RowSink>(runs: &str, before: &str, after: &str, first: &str, sink: &mut K)
    ensures { K.takes sink.old sink.new (change_cells runs.now before.now after.now first.now ∷ []) }
{
    sink.row(&[
        Cell::new(runs),
        Cell::new(before),
        Cell::new(after),
        Cell::new(first),
    ]);
}

impl<'a> ChangeTable<'a> {
    // Puts a row. `passed` is a guess of how many changes of the clock are before its time.
    fn put_row<K: RowSink>(&self, row: &ChangeRow, passed: &mut usize, sink: &mut K)
        ensures { K.takes sink.old sink.new (change_row self.now.look.now row.now ∷ []) }
    {
        let first = self.look.start_text(row.first(), passed);
        let (mut before, mut after) = (Digits::new(), Digits::new());
        put_cells(
            row.runs(),
            before.format(row.before()),
            after.format(row.after()),
            first.as_str(),
            sink,
        );
    }
}

impl<'a> Rows for ChangeTable<'a> {
    ghost use Rattle.agenda_changes.specs.Rows.{change_rows};

    ghost rows = { λ table. change_rows table.look.now table.rows.now };

    fn put_rows<K: RowSink>(&self, sink: &mut K) {
        let mut passed = 0;
        put_cells("RUNS", "BEFORE", "NOW", "FIRST CHANGE", sink);
        for row in self.rows {
            self.put_row(row, &mut passed, sink);
        }
    }
}

/// Writes the table of changes, and a last line, which isn't cut. A row has what is run, the numbers of starts of the earlier
/// and of the new agenda that run it, and the time of its first change. This requests no memory. The stream is flushed once, at
/// the end.
///
/// # Errors
///
/// `Device` or `Closed` if the stream fails. Then only the first bytes of the text were written.
pub fn write_change_table<S: Stream>(
    rows: &ChangeRows,
    look: &Look<'_>,
    last: &str,
    frame: Frame,
    out: &mut S,
) -> Result<(), WriteFault>
    ensures text { Puts S.takes_all result (S.holds out.old) (S.holds out.new)
        (table_text frame.columns frame.terminal (change_rows look.now rows.now) (chars last.now)) }
    ensures flushed { OnOk result (IsTrue (S.is_flushed out.new)) }
{
    let table = ChangeTable {
        rows: rows.as_slice(),
        look,
    };
    write_table(&table, last, frame, out)
}
