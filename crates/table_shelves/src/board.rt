//! The cells of the board.

ghost use Rattle.std.specs.Prelude.{◌≡◌, IfOk, None, Some, replicate, slice_get, slice_set};

use edge_bits::{CELLS, Memory};
use std::alloc::Global;
use std::marker::Model;
use words_rule::cell::Cell;

/// The board: `CELLS` cells, each with an edge and its kind, or empty.
#[derive(Drop)]
pub struct Board {
    cells: Vec<Option<Cell>>,
}

impl Model for Board {
    ghost use Rattle.std.specs.Prelude.{◌≡◌, List, Option, length};
    ghost use Rattle.edge_bits.specs.declared.limits.TheConstants.{CELLS};
    ghost use Rattle.words_rule.specs.declared.cell.Cell.{Cell};

    ghost Value = { List (Option Cell) };

    ghost view = { λ b. b.cells.items };

    ghost invariant = { λ b. length b.cells.items ≡ CELLS };
}

impl Board {
    /// An empty board.
    pub fn new(alloc: Global) -> Result<Board, Memory>
        ensures { IfOk result (λ b. b ≡ replicate CELLS None) }
    {
        let mut cells = Vec::new(alloc);
        for _ in 0..CELLS {
            cells.push(None)?;
        }
        Ok(Board { cells })
    }

    /// What stands in a cell.
    pub fn cell(&self, cell: u8) -> Option<Cell>
        ensures { slice_get self.now cell ≡ Some result }
    {
        self.cells[usize::from(cell)]
    }

    /// Puts an edge into a cell, in place of what stood there.
    pub fn set_cell(&mut self, cell: u8, new: Cell)
        ensures { self.new ≡ slice_set self.old cell (Some new) }
    {
        let place = usize::from(cell);
        self.cells[place] = Some(new);
    }
}
