//! The opening, and what the rule of the seats sees.

ghost use Rattle.std.specs.Prelude.{◌≡◌, ◌+◌, ◌≤◌, IfOk, None, replicate};
ghost use Rattle.shared_store.specs.Sharing.{IsNew};

use crate::heap::HeapStore;
use crate::shared::{Cell, Shared};
use edge_bits::{CELLS, MOST_ELEMENTS, MOST_SLOTS, MOST_VARIABLES, Memory};
use seat_guard::content::Content;
use std::alloc::Global;

impl Content for Shared {
    ghost use Rattle.shared_store.specs.Sharing.{keeps, board, counts, orders, functions, due};

    ghost keeps = { keeps };

    ghost board = { board };

    ghost counts = { counts };

    ghost orders = { orders };

    ghost functions = { functions };

    ghost due = { due };
}

/// An empty board.
fn empty_board(alloc: Global) -> Result<Vec<Option<Cell>>, Memory>
    ensures { IfOk result (λ cells. cells.items ≡ replicate CELLS None) }
{
    let mut cells = Vec::new(alloc);
    for _ in 0..CELLS {
        cells.push(None)?;
    }
    Ok(cells)
}

impl Shared {
    /// A store of so many variables and elements, at most `MOST_VARIABLES` and `MOST_ELEMENTS`, with so many slots: 5 and one
    /// for each variable at least, `MOST_SLOTS` at most. The board is empty, and both orders are 0, 1, 2, ..
    pub fn new(alloc: Global, vars: u32, elements: u32, limit: u32) -> Result<Shared, Memory>
        requires vars { vars ≤ MOST_VARIABLES }
        requires elements { elements ≤ MOST_ELEMENTS }
        requires least { 5 + vars ≤ limit }
        requires most { limit ≤ MOST_SLOTS }
        ensures { IfOk result (IsNew vars elements limit) }
    {
        let store = HeapStore::new(alloc, vars, elements, limit)?;
        let cells = empty_board(alloc)?;
        Ok(Shared { store, cells })
    }
}
