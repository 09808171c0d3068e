//! The cells of the board.

ghost use Rattle.std.specs.Prelude.{◌≡◌, Some, slice_get, slice_set};

use crate::shared::{Cell, Shared};

impl Shared {
    /// What stands in a cell.
    pub fn cell(&self, cell: u8) -> Option<Cell>
        ensures { slice_get self.now.cells.items cell ≡ Some result }
    {
        self.cells[usize::from(cell)]
    }

    /// Puts an edge into a cell, in place of what stood there.
    pub fn set_cell(&mut self, cell: u8, new: Cell)
        ensures cells { self.new.cells.items ≡ slice_set self.old.cells.items cell (Some new) }
        ensures store { self.new.store ≡ self.old.store }
    {
        let place = usize::from(cell);
        self.cells[place] = Some(new);
    }
}
