//! What a store is asked for.

use edge_bits::Edge;

/// A node by its variable and its children, or a leaf by its value.
#[derive(Debug, Clone, Copy, PartialEq, Eq, Drop)]
pub enum Job {
    Node(u32, Edge, Edge),
    Leaf(i64),
}
