//! What calls answer.

/// What a call answers, and its place: how many calls of all sessions stand before it.
#[derive(Debug, Clone, Copy, PartialEq, Eq, Drop)]
pub struct Placed<T> {
    pub place: u64,
    pub value: T,
}

/// The node table was full at the place: so many slots were in use, of so many, and so many more were needed.
#[derive(Debug, Clone, Copy, PartialEq, Eq, Drop)]
pub struct Full {
    pub place: u64,
    pub in_use: u32,
    pub limit: u32,
    pub need: u32,
}

/// Why an operation made nothing.
#[derive(Debug, Clone, Copy, PartialEq, Eq, Drop)]
pub enum Refusal {
    Memory,
    Full(Full),
}

/// There is no cover between two bounds: the lower one holds somewhere where the upper one does not.
#[derive(Debug, Clone, Copy, PartialEq, Eq, Drop)]
pub struct Apart;

/// Whether what a fetch took came from the board: the cell had a function of the kind that was asked for, or not.
#[derive(Debug, Clone, Copy, PartialEq, Eq, Drop)]
pub enum Fetched {
    Posted,
    Empty,
}

/// A walk was barred by the phase of the store, and may be tried again. No call answers it while sessions take turns.
#[derive(Debug, Clone, Copy, PartialEq, Eq, Drop)]
pub struct Again {
    pub phase: u64,
}
