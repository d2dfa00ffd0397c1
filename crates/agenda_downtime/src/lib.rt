//! The table of what a machine misses while it is down.
//!
//! plan_downtime says what each job misses. `rows` adds the job's name and what it runs, `table` writes the table of them, and
//! `last` makes its last line. `dates` has the dates on which the times of the table have their offset. Read `rows` first,
//! then `table`.
#![tactic(auto)]

mod dates;
mod last;
mod laws;
mod rows;
mod table;

pub use dates::dates_of_missed;
pub use last::missed_text;
pub use laws::{each_has_row, outcomes_add_up};
pub use rows::MissedRows;
pub use table::write_downtime_table;
