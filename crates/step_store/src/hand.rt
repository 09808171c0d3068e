//! What a seat has in hand.

/// A free slot that was taken, and the word that is due there.
#[derive(Debug, Clone, Copy, PartialEq, Eq, Drop)]
pub struct Taken {
    pub slot: u32,
    pub bits: u64,
}

/// The link that was stored in a slot.
#[derive(Debug, Clone, Copy, PartialEq, Eq, Drop)]
pub struct Link {
    pub slot: u32,
    pub next: u32,
}

/// The chain of a head, loaded with a level's turn in hand.
#[derive(Debug, Clone, Copy, PartialEq, Eq, Drop)]
pub struct Chain {
    pub head: u32,
    pub level: u32,
}
