//! A store of decision diagrams in the hands of its holder, over the single steps that the holder makes on the words of a table while others count its slots up and down.
#![tactic(auto)]

mod chains;
pub mod held_words;
pub mod holding;
pub mod holds;
mod node_counts;
mod nodes;
mod placing;
mod turns;
mod word_table;

pub use holding::{HolderRoom, Holding};
pub use holds::Holds;
