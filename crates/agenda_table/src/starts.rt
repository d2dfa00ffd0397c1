//! The table of the next starts of a rule.

ghost use Rattle.std.specs.Prelude.{◌≡◌, ◌∷◌, [], IsTrue, OnOk, chars};
ghost use Rattle.plan_streams.specs.Stream.{Puts};
ghost use Rattle.plan_write.specs.Upcoming.{start_or_none};
ghost use Rattle.agenda_table.specs.Layout.{table_text};
ghost use Rattle.agenda_table.specs.Rows.{rows_of_start, start_cells, start_rows, text_of};

use crate::cell::{Cell, cell_if};
use crate::line::Frame;
use crate::look::Look;
use crate::short::Short;
use crate::table::{RowSink, Rows, write_table};
use plan_sets::END_SECOND;
use plan_streams::{Stream, WriteFault};

/// The table of the next starts of a rule.
#[derive(Drop)]
pub struct StartRows<'a> {
    /// How times are shown.
    pub look: &'a Look<'a>,
    /// The starts, in seconds. All are before `END_SECOND`, and have a row.
    pub starts: &'a [u64],
    /// The number of starts that are requested. If there are fewer, the row `none` follows them.
    pub count: u64,
}

// Puts the cells of these texts, in the columns of starts of a rule.
fn put_cells<K: RowSink>(start: &str, distance: &Option<Short>, sink: &mut K)
    ensures { K.takes sink.old sink.new (start_cells start.now (text_of distance.now) ∷ []) }
{
    let start = Cell::new(start);
    match cell_if(distance) {
        None => sink.row(&[start]),
        Some(distance) => sink.row(&[start, distance]),
    }
}

impl<'a> StartRows<'a> {
    // Puts the row of a start.
    fn put_start<K: RowSink>(&self, second: u64, passed: &mut usize, sink: &mut K)
        ensures { K.takes sink.old sink.new (rows_of_start self.now.look.now (start_or_none second)) }
    {
        if second < END_SECOND {
            let start = self.look.start_text(second, passed);
            put_cells(start.as_str(), &self.look.distance(Some(second)), sink);
        }
    }
}

impl<'a> Rows for StartRows<'a> {
    ghost use Rattle.agenda_table.specs.Rows.{start_rows};

    ghost rows = { λ table. start_rows table.look.now table.count table.starts.now };

    fn put_rows<K: RowSink>(&self, sink: &mut K) {
        let mut passed = 0;
        put_cells("START", &self.look.distance_head(), sink);
        for start in self.starts {
            self.put_start(*start, &mut passed, sink);
        }
        if self.starts.len() as u64 >= self.count {
            return;
        }
        put_cells("none", &None, sink);
    }
}

/// Writes the table of the next starts of a rule, and a last line, which isn't cut. This requests no memory. The stream is
/// flushed once, at the end.
///
/// # Errors
///
/// `Device` or `Closed` if the stream fails. Then only the first bytes of the text were written.
pub fn write_start_table<S: Stream>(
    table: &StartRows<'_>,
    last: &str,
    frame: Frame,
    out: &mut S,
) -> Result<(), WriteFault>
    ensures text { Puts S.takes_all result (S.holds out.old) (S.holds out.new) (table_text frame.columns frame.terminal
        (start_rows table.now.look.now table.now.count table.now.starts.now) (chars last.now)) }
    ensures flushed { OnOk result (IsTrue (S.is_flushed out.new)) }
{
    write_table(table, last, frame, out)
}
