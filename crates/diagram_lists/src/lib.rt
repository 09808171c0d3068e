//! Listings of the nodes of BDDs.
#![tactic(auto)]

mod lister;
mod walk;

pub use lister::list;
