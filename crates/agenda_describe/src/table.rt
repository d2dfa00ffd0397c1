//! The table of descriptions of jobs.

ghost use Rattle.std.specs.Prelude.{◌≡◌, ◌∷◌, [], IfOk, IsTrue, OnOk, chars, string_bytes};
ghost use Rattle.plan_streams.specs.Stream.{Puts};
ghost use Rattle.agenda_table.specs.Layout.{table_text};
ghost use Rattle.agenda_describe.specs.Texts.{description_cells, description_row, description_rows, jobs_text};

use crate::jobs::{DescribedJob, Descriptions};
use agenda_table::{Cell, Frame, RowSink, Rows, plural, write_table};
use plan_rules::Text;
use plan_streams::{Stream, WriteFault};
use std::alloc::{AllocError, Global};

// The table of descriptions.
#[derive(Drop)]
struct DescriptionRows<'a> {
    jobs: &'a [DescribedJob],
}

// Puts the cells of these texts.
fn put_cells<K: RowSink>(name: &str, rule: &str, runs: &str, sink: &mut K)
    ensures { K.takes sink.old sink.new (description_cells name.now rule.now runs.now ∷ []) }
{
    sink.row(&[Cell::new(name), Cell::new(rule), Cell::new(runs)]);
}

// Puts the row of a job.
fn put_job<K: RowSink>(job: &DescribedJob, sink: &mut K)
    ensures { K.takes sink.old sink.new (description_row job.now ∷ []) }
{
    put_cells(
        job.name.as_str(),
        job.rule.as_str(),
        job.runs.as_str(),
        sink,
    );
}

impl<'a> Rows for DescriptionRows<'a> {
    ghost use Rattle.agenda_describe.specs.Texts.{description_rows};

    ghost rows = { λ table. description_rows table.jobs.now };

    fn put_rows<K: RowSink>(&self, sink: &mut K) {
        put_cells("JOB", "STARTS", "RUNS", sink);
        for job in self.jobs {
            put_job(job, sink);
        }
    }
}

/// Writes the table of descriptions of jobs, and a last line, which isn't cut. This requests no memory. The stream is flushed
/// once, at the end.
///
/// # Errors
///
/// `Device` or `Closed` if the stream fails. Then only the first bytes of the text were written.
pub fn write_description_table<S: Stream>(
    descriptions: &Descriptions,
    last: &str,
    frame: Frame,
    out: &mut S,
) -> Result<(), WriteFault>
    ensures text { Puts S.takes_all result (S.holds out.old) (S.holds out.new)
        (table_text frame.columns frame.terminal (description_rows descriptions.now) (chars last.now)) }
    ensures flushed { OnOk result (IsTrue (S.is_flushed out.new)) }
{
    let table = DescriptionRows {
        jobs: descriptions.as_slice(),
    };
    write_table(&table, last, frame, out)
}

/// Returns the last line of a table of jobs: how many there are, and the zone of their times.
///
/// # Errors
///
/// `AllocError` if an allocation fails.
pub fn jobs_text(alloc: Global, count: usize, zone: &str) -> Result<Text, AllocError>
    ensures { IfOk result (λ text. text ≡ jobs_text count zone.now) }
{
    let s = plural(count);
    Ok(Text::new(format!(in alloc; "{count} job{s}, {zone}")?))
}
