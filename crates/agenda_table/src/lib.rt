//! The table that `agenda machine` prints of an answer: lines of cells, with blanks between them.
//!
//! `table` reads the rows of an answer twice: for the widths of the columns, and for the lines. `jobs` has the rows of an
//! agenda and those of next starts of jobs, and `scripts` the names of scripts in them. `gaps` has the rows of gaps, and
//! `starts` those of the next starts of a rule. `last` makes the last line. `line` makes a line of a row, and `room` cuts it.
//! `time` and `short` have the texts of cells: times, with what a clock shows then (`face`), and lengths. `look` says how the
//! times of a table are shown, and `dates` on which dates they have their offset. Read `table` first, then `jobs`.
#![tactic(auto)]

mod cell;
mod dates;
mod face;
mod gaps;
mod jobs;
mod last;
mod line;
mod look;
mod room;
mod scripts;
mod short;
mod starts;
mod table;
mod time;
mod widths;

pub use cell::Cell;
pub use dates::{dates_of_gaps, dates_of_jobs, dates_of_starts};
pub use gaps::{GapRows, Gaps, write_gap_table};
pub use jobs::{JobCells, JobRows, runs_of, write_job_table};
pub use last::{after_text, plural, span_text};
pub use line::Frame;
pub use look::Look;
pub use short::Short;
pub use starts::{StartRows, write_start_table};
pub use table::{RowSink, Rows, write_table};
