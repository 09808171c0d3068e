//! A store of decision diagrams in one vector of words, and what operators see of a store.
#![tactic(auto)]

mod count_table;
mod held_store;
mod node_counts;
mod node_table;
mod plain_store;

pub use held_store::HeldStore;
pub use node_store::{Grow, Key, Opened, Order, Stack, Stop, Whole};
pub use plain_store::PlainStore;
