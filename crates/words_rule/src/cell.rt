//! What stands in a cell of the board.

use edge_bits::{Edge, Kind};

/// An edge, and the kind of what it denotes.
#[derive(Debug, Clone, Copy, PartialEq, Eq, Drop)]
pub struct Cell {
    pub kind: Kind,
    pub edge: Edge,
}
