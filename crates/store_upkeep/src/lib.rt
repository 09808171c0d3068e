//! What the one holder of a store does with it between operations: he counts what holds a slot, sweeps, swaps two levels, and sifts an order.
#![tactic(auto)]

mod counting;
mod reordering;
mod sifting;
mod sweeping;

pub use counting::{lower, raise};
pub use reordering::{Crowded, swap_levels};
pub use sifting::sift_order;
pub use sweeping::sweep_slots;
