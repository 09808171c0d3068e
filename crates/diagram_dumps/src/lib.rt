//! Stored diagrams: the lines of some BDDs, what they denote, and how many nodes they have.
#![tactic(auto)]

mod dump;
mod listings;
mod sizes;

pub use dump::Dump;
pub use edge_bits::Line;
pub use listings::Listing;
pub use sizes::node_count;
