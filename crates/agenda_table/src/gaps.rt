//! The gaps of an agenda, and their table.

ghost use Rattle.std.specs.Prelude.{◌≡◌, ◌≤◌, ◌∷◌, ◌++◌, [], IfOk, IfSome, IsTrue, OnOk, None, Some, chars, codes, if◌then◌else◌, slice_get};
ghost use Rattle.plan_collect.specs.Windows.{latest_start};
ghost use Rattle.plan_sets.specs.Limits.{end_second};
ghost use Rattle.plan_streams.specs.Stream.{Puts};
ghost use Rattle.plan_write.specs.Quiet.{delay_of, gaps, is_gap};
ghost use Rattle.agenda_table.specs.Gaps.{AreGaps};
ghost use Rattle.agenda_table.specs.Layout.{table_text};
ghost use Rattle.agenda_table.specs.Rows.{distance_head, distance_if, gap_cells, gap_row, gap_rows, text_of};

use crate::cell::{Cell, cell_if};
use crate::jobs::latest_start;
use crate::line::Frame;
use crate::look::Look;
use crate::short::{Short, length_of};
use crate::table::{RowSink, Rows, write_table};
use plan_collect::{Agenda, Start};
use plan_rules::Jobs;
use plan_streams::{Stream, WriteFault};
use std::alloc::{AllocError, Global};
use std::marker::Model;

/// The gaps of an agenda in which no job may start: for each the second of its start and that of its end.
#[derive(Drop)]
pub struct Gaps {
    gaps: Vec<(u64, u64)>,
}

impl Model for Gaps {
    ghost use Rattle.std.specs.Prelude.{ℕ, List};
    ghost use Rattle.agenda_table.specs.Gaps.{AreGaps};

    ghost Value = { List (ℕ × ℕ) };

    ghost view = { λ gaps. gaps.gaps.items };

    ghost invariant = { λ gaps. AreGaps gaps.gaps.items };
}

impl Gaps {
    /// Returns the gaps of an agenda of these jobs that last at least `least` seconds.
    ///
    /// # Errors
    ///
    /// `AllocError` if an allocation fails.
    pub fn new(alloc: Global, agenda: &Agenda, jobs: &Jobs, least: u64) -> Result<Gaps, AllocError>
        ensures { IfOk result (λ found. found ≡ gaps least agenda.now jobs.now) }
    {
        let mut found = Gaps {
            gaps: Vec::new(alloc),
        };
        let mut reach = agenda.since();
        let upto = agenda.upto();
        let entries = agenda.entries();
        for entry in entries {
            found.push(reach, entry.second(), least)?;
            reach = reach.max(latest_start_of(*entry, jobs));
        }
        found.push(reach, upto, least)?;
        Ok(found)
    }

    // Appends what is between two times, if it is a gap and long enough.
    fn push(&mut self, from: u64, to: u64, least: u64) -> Result<(), AllocError>
        requires { to ≤ end_second }
        ensures { OnOk result (self.new ≡ self.old ++ (if is_gap least (from, to) then (from, to) ∷ [] else [])) }
    {
        let seconds = to.saturating_sub(from);
        if seconds == 0 || seconds < least {
            return Ok(());
        }
        self.gaps.push((from, to))?;
        Ok(())
    }

    /// Returns the gaps, in order.
    pub fn as_slice(&self) -> &[(u64, u64)]
        ensures gaps { result.now ≡ self.now }
        ensures years { AreGaps self.now }
    {
        &self.gaps
    }
}

// Returns the latest start for an entry of these jobs.
fn latest_start_of(entry: Start, jobs: &Jobs) -> u64
    ensures { result ≡ latest_start (delay_of (slice_get jobs.now entry.1)) entry.0 }
{
    let delay = match jobs.get(entry.job() as usize) {
        Some(job) => job.delay(),
        None => 0,
    };
    latest_start(delay, entry.second())
}

/// The table of gaps.
#[derive(Drop)]
pub struct GapRows<'a> {
    /// How times are shown.
    pub look: &'a Look<'a>,
    /// The gaps.
    pub gaps: &'a Gaps,
}

// Puts the cells of these texts, in the columns of gaps.
fn put_cells<K: RowSink>(start: &str, end: &str, distance: &Option<Short>, size: &str, sink: &mut K)
    ensures { K.takes sink.old sink.new (gap_cells start.now end.now (text_of distance.now) size.now ∷ []) }
{
    let (start, end, size) = (Cell::new(start), Cell::new(end), Cell::new(size));
    match cell_if(distance) {
        None => sink.row(&[start, end, size]),
        Some(distance) => sink.row(&[start, end, distance, size]),
    }
}

impl<'a> GapRows<'a> {
    // Puts the row of a gap.
    fn put_gap<K: RowSink>(&self, from: u64, to: u64, passed: &mut usize, sink: &mut K)
        requires from { from ≤ end_second }
        requires to { to ≤ end_second }
        ensures { K.takes sink.old sink.new (gap_row self.now.look.now (from, to) ∷ []) }
    {
        let start = self.look.start_text(from, passed);
        let end = self.look.later_text(from, to, passed);
        let distance = self.look.distance(Some(from));
        let size = length_of(to.saturating_sub(from));
        put_cells(start.as_str(), end.as_str(), &distance, size.as_str(), sink);
    }
}

impl<'a> Rows for GapRows<'a> {
    ghost use Rattle.agenda_table.specs.Rows.{gap_rows};

    ghost rows = { λ table. gap_rows table.look.now table.gaps.now };

    fn put_rows<K: RowSink>(&self, sink: &mut K) {
        let mut passed = 0;
        put_cells("START", "END", &self.look.distance_head(), "LENGTH", sink);
        for (from, to) in self.gaps.as_slice() {
            self.put_gap(*from, *to, &mut passed, sink);
        }
    }
}

/// Writes the table of gaps, and a last line, which isn't cut. This requests no memory. The stream is flushed once, at the
/// end.
///
/// # Errors
///
/// `Device` or `Closed` if the stream fails. Then only the first bytes of the text were written.
pub fn write_gap_table<S: Stream>(
    table: &GapRows<'_>,
    last: &str,
    frame: Frame,
    out: &mut S,
) -> Result<(), WriteFault>
    ensures text { Puts S.takes_all result (S.holds out.old) (S.holds out.new) (table_text frame.columns frame.terminal
        (gap_rows table.now.look.now table.now.gaps.now) (chars last.now)) }
    ensures flushed { OnOk result (IsTrue (S.is_flushed out.new)) }
{
    write_table(table, last, frame, out)
}
