//! A seat with the order and the full hold at a table of words, as what a sweep, a swap and a sift ask of a holder.
#![tactic(auto)]

pub mod holder;
pub mod holder_shelf;
mod told_steps;

pub use holder::Holder;
pub use holder_shelf::HolderShelf;
