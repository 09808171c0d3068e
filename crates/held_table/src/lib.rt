//! A table of words with one user, who holds it: for tests, and to be timed.
#![tactic(auto)]

mod holds;
mod opening;
mod others;
pub mod table;

pub use table::HeldTable;
