//! The list of a table's free slots.
#![tactic(auto)]

mod list;

pub use list::FreeList;
