//! The laws of the table of what jobs miss.

ghost use Rattle.agenda_downtime.specs.Laws.{EachHasRow, OutcomesAddUp};

/// States the law of rows: each job that misses something has a row, and the rows are in the same order.
///
/// The function does nothing: its contract is the law.
pub fn each_has_row()
    ensures { EachHasRow }
{}

/// States the law of the last line: the numbers of jobs with each outcome add up to the number of jobs.
///
/// The function does nothing: its contract is the law.
pub fn outcomes_add_up()
    ensures { OutcomesAddUp }
{}
