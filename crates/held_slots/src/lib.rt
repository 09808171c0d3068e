//! What the one holder of a store keeps of its slots: how many arcs lead to each of them, their marks and pins, the next slot of
//! each variable, and sets of slots in which the next member is found in constant steps.
#![tactic(auto)]

mod arcs;
mod layer;
mod links;
mod note;
mod notes;
mod slot_set;
mod variable_slots;

pub use arcs::ArcCounts;
pub use notes::{Cursor, SlotNotes};
pub use slot_set::SlotSet;
