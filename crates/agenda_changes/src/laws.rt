//! The law of the table of changes.

ghost use Rattle.agenda_changes.specs.Laws.{EachHasRow};

/// States the law of rows: each text that a changed start runs has exactly one row, and no other text has one.
///
/// The function does nothing: its contract is the law.
pub fn each_has_row()
    ensures { EachHasRow }
{}
