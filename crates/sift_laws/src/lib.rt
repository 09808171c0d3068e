//! Laws of sifted orders.
#![tactic(auto)]

mod alike;

pub use alike::{sifts_go_by_functions, wholes_are_alike};
