//! What a table of words with one user is made of.

use crate::hand::{Chain, Link, Taken};
use crate::job::Job;
use computed_cache::Memo;
use node_store::Stack;
use std::alloc::Global;

/// The words, the free slots from the first one on, what is being stored, the computed table and the scratch.
#[derive(Drop)]
pub struct Core {
    pub(crate) alloc: Global,
    pub(crate) vars: u32,
    pub(crate) elements: u32,
    pub(crate) limit: u32,
    pub(crate) words: Vec<u64>,
    pub(crate) nexts: Vec<u32>,
    pub(crate) heads: Vec<u32>,
    pub(crate) first_free: u32,
    pub(crate) taken: Option<Taken>,
    pub(crate) loose: Option<u32>,
    pub(crate) link: Option<Link>,
    pub(crate) memo: Memo,
    pub(crate) fulls: u64,
    pub(crate) due: Option<Job>,
    pub(crate) scratch: Option<Stack>,
}

/// A table of words with one user, for tests and to be timed: what its seat has in hand beside what it stores, and how often it loaded a node of a walk. Nothing is away that the user does not have, and nobody steps beside it.
#[derive(Drop)]
pub struct PlainTable {
    pub(crate) core: Core,
    pub(crate) turn: Option<u32>,
    pub(crate) has_free: bool,
    pub(crate) chain: Option<Chain>,
    pub(crate) has_memo: bool,
    pub(crate) loads: u64,
}
