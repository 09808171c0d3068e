//! What an order and its blocks are called. Contracts speak of them.

/// One of the two orders.
#[derive(Debug, Clone, Copy, PartialEq, Eq)]
pub enum Order {
    /// That of the variables, by which BDDs and ADDs go.
    Variables,
    /// That of the elements, by which families go.
    Elements,
}

/// Whether what stands in a block of an order is sifted.
#[derive(Debug, Clone, Copy, PartialEq, Eq)]
pub enum Mode {
    /// It is sifted, and stays in the block.
    Default,
    /// It stays where it is.
    Fixed,
}
