//! The unique tables: of one variable the pairs of children of its nodes, and the slot of each; of the leaves their values; of a whole store the words of all slots.
#![tactic(auto)]

mod chains;
mod leaves;
mod slot_table;
mod table;

pub use leaves::{LeafEntry, LeafTable};
pub use slot_table::SlotTable;
pub use table::{Entry, LevelTable};
