//! The sweep over any store of decision diagrams in one holder's hands.
#![tactic(auto)]

mod frees;
mod marks;
mod sweeping;

pub use sweeping::{Swept, sweep};
