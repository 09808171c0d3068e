//! The store and the board.

ghost use Rattle.std.specs.Prelude.{◌≡◌, length, false};
ghost use Rattle.edge_bits.specs.declared.limits.TheConstants.{CELLS};
ghost use Rattle.node_slots.specs.Stores.{is_held};

use crate::heap::HeapStore;
use edge_bits::{Edge, Kind};

/// What stands in a cell of the board: an edge, and the kind of what it denotes.
#[derive(Debug, Clone, Copy, PartialEq, Eq)]
pub struct Cell {
    pub kind: Kind,
    pub edge: Edge,
}

/// The store, and the cells of the board. Between two calls no sweep is on, and no slot is pinned.
#[derive(Drop)]
pub struct Shared {
    pub store: HeapStore,
    pub cells: Vec<Option<Cell>>,
    ghost as_many: { length cells.items ≡ CELLS },
    // No sweep is on, and no slot is pinned.
    ghost idle: { is_held store ≡ false },
}
