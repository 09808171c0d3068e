//! Stored diagrams.

use edge_bits::{Line, List};

/// A stored diagram (DDDMP-2.0, by F. Somenzi's package CUDD). Index 1 is the constant one; a negative index is complemented.
#[derive(Drop)]
pub struct Dump {
    /// The number of variables.
    pub nvars: u32,
    /// The variables that it may depend on.
    pub ids: List<u32>,
    /// Their positions in the order of all variables.
    pub permids: List<u32>,
    /// The node lines from index 2 on.
    pub nodes: List<Line>,
    /// The indices of the roots.
    pub roots: List<i32>,
}
