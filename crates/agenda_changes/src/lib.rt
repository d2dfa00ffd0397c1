//! The table of what changed between two agendas.
//!
//! plan_changes says which starts changed. `rows` has a row for each text that these starts run: how many starts of each agenda
//! run it, and when it changed first. `firsts` has these texts and their first changes, and `counts` counts the starts. `table`
//! writes the table of the rows, and `last` makes its last line. `dates` has the dates on which the times of the table have
//! their offset. Read `rows` first, then `firsts`.
#![tactic(auto)]

mod counts;
mod dates;
mod firsts;
mod last;
mod laws;
mod rows;
mod table;

pub use dates::dates_of_changes;
pub use last::change_text;
pub use laws::each_has_row;
pub use rows::ChangeRows;
pub use table::write_change_table;
