//! The widths of the columns of a table.

ghost use Rattle.std.specs.Prelude.{◌≡◌, [], ◌∷◌, get_or, max};
ghost use Rattle.agenda_table.specs.Layout.{width};
ghost use Rattle.agenda_table.specs.Widths.{AreWidest, WidensBy, width_at};

use crate::cell::Cell;

/// The maximum number of cells in a row.
pub(crate) const MOST_CELLS: usize = 6;

/// The widths of the columns: those of the widest cells so far.
#[derive(Clone, Copy, Drop)]
pub(crate) struct Widths {
    most: [usize; MOST_CELLS],
}

impl Widths {
    /// Returns the widths of no rows.
    pub(crate) fn new() -> Widths
        ensures { AreWidest [] result }
    {
        Widths {
            most: [0; MOST_CELLS],
        }
    }

    /// Makes the columns as wide as the cells of one more row.
    pub(crate) fn widen(&mut self, row: &[Cell<'_>])
        ensures { WidensBy self.old self.new (row.now ∷ []) }
    {
        let [first, second, third, fourth, fifth, sixth] = self.most;
        self.most = [
            wider(first, row, 0),
            wider(second, row, 1),
            wider(third, row, 2),
            wider(fourth, row, 3),
            wider(fifth, row, 4),
            wider(sixth, row, 5),
        ];
    }

    /// Returns the width of the column at a place, or 0 if there is no such column.
    pub(crate) fn at(&self, place: usize) -> usize
        ensures { result ≡ width_at self.now place }
    {
        match self.most.get(place) {
            Some(width) => *width,
            None => 0,
        }
    }
}

// Returns a width, or that of the cell of a row at a place if it is wider.
fn wider(most: usize, row: &[Cell<'_>], place: usize) -> usize
    ensures { result ≡ max most (width (get_or row.now place [])) }
{
    match row.get(place) {
        Some(cell) => most.max(cell.width()),
        None => most,
    }
}
