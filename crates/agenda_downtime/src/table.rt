//! The table of what jobs miss.

ghost use Rattle.std.specs.Prelude.{◌≡◌, ◌∷◌, [], IsTrue, OnOk, chars};
ghost use Rattle.plan_streams.specs.Stream.{Puts};
ghost use Rattle.agenda_table.specs.Layout.{table_text};
ghost use Rattle.agenda_downtime.specs.Rows.{downtime_cells, downtime_row, downtime_rows};

use crate::rows::{MissedRow, MissedRows};
use agenda_table::{Cell, Frame, Look, RowSink, Rows, write_table};
use itoa::Buffer as Digits;
use plan_streams::{Stream, WriteFault};

// The table of what jobs miss.
#[derive(Drop)]
struct DowntimeTable<'a> {
    rows: &'a [MissedRow],
    look: &'a Look<'a>,
}

// Puts the cells of these texts.
fn put_cells<K: RowSink>(
    first: &str,
    last: &str,
    count: &str,
    outcome: &str,
    name: &str,
    runs: &str,
    sink: &mut K,
)
    ensures { K.takes sink.old sink.new (downtime_cells first.now last.now count.now outcome.now name.now runs.now ∷ []) }
{
    sink.row(&[
        Cell::new(first),
        Cell::new(last),
        Cell::new(count),
        Cell::new(outcome),
        Cell::new(name),
        Cell::new(runs),
    ]);
}

impl<'a> DowntimeTable<'a> {
    // Puts the row of a job. `passed` is a guess of how many changes of the clock are before its times.
    fn put_job<K: RowSink>(&self, row: &MissedRow, passed: &mut usize, sink: &mut K)
        ensures { K.takes sink.old sink.new (downtime_row self.now.look.now row.now ∷ []) }
    {
        let first = self.look.start_text(row.first(), passed);
        let last = self.look.start_text(row.last(), passed);
        let mut digits = Digits::new();
        put_cells(
            first.as_str(),
            last.as_str(),
            digits.format(row.count()),
            row.outcome().name(),
            row.name(),
            row.runs(),
            sink,
        );
    }
}

impl<'a> Rows for DowntimeTable<'a> {
    ghost use Rattle.agenda_downtime.specs.Rows.{downtime_rows};

    ghost rows = { λ table. downtime_rows table.look.now table.rows.now };

    fn put_rows<K: RowSink>(&self, sink: &mut K) {
        let mut passed = 0;
        put_cells("FIRST", "LAST", "COUNT", "THEN", "JOB", "RUNS", sink);
        for row in self.rows {
            self.put_job(row, &mut passed, sink);
        }
    }
}

/// Writes the table of what jobs miss, and a last line, which isn't cut. A row has the times of the first and the last start,
/// the number of starts, what becomes of them, the job's name, and what it runs. This requests no memory. The stream is
/// flushed once, at the end.
///
/// # Errors
///
/// `Device` or `Closed` if the stream fails. Then only the first bytes of the text were written.
pub fn write_downtime_table<S: Stream>(
    rows: &MissedRows,
    look: &Look<'_>,
    last: &str,
    frame: Frame,
    out: &mut S,
) -> Result<(), WriteFault>
    ensures text { Puts S.takes_all result (S.holds out.old) (S.holds out.new)
        (table_text frame.columns frame.terminal (downtime_rows look.now rows.now) (chars last.now)) }
    ensures flushed { OnOk result (IsTrue (S.is_flushed out.new)) }
{
    let table = DowntimeTable {
        rows: rows.as_slice(),
        look,
    };
    write_table(&table, last, frame, out)
}
