//! What a table of words with one holder is made of.

use node_store::Order;
use step_store::hand::{Chain, Link};

/// A node of one variable that became one of another, in the swap that is half made.
#[derive(Debug, Clone, Copy, PartialEq, Eq, Drop)]
pub struct Rewritten {
    pub was: u32,
    pub now: u32,
}

/// The order word that is still to be stored.
#[derive(Debug, Clone, Copy, PartialEq, Eq, Drop)]
pub struct Due {
    pub order: Order,
    pub level: u32,
}

/// A table of words with one user, who holds it, and what that has in hand. Nothing is away that the user does not have, and nobody steps beside it.
///
/// The turns of levels are taken in their order, and given back the last first. Of the computed table it has no more than whether there may be answers.
#[derive(Drop)]
pub struct HeldTable {
    pub(crate) limit: u32,
    pub(crate) variables_at: Vec<u32>,
    pub(crate) elements_at: Vec<u32>,
    pub(crate) words: Vec<u64>,
    pub(crate) nexts: Vec<u32>,
    pub(crate) heads: Vec<u32>,
    // Without the pins.
    pub(crate) counts: Vec<u64>,
    pub(crate) pins: Vec<u32>,
    // The slots from this one on were never taken; those that were freed are taken first, the last of them before the others.
    pub(crate) next_free: u32,
    pub(crate) freed: Vec<u32>,
    pub(crate) half: Option<Rewritten>,
    pub(crate) answers: bool,
    pub(crate) turns: u32,
    pub(crate) has_free: bool,
    pub(crate) has_memo: bool,
    pub(crate) loose: Option<u32>,
    pub(crate) renewed: Option<u32>,
    pub(crate) link: Option<Link>,
    pub(crate) walk: Option<Chain>,
    pub(crate) due: Option<Due>,
}
