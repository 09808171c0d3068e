//! If-then-else and its kin (Brace, Rudell and Bryant 1990), over any store.
#![tactic(auto)]

mod cofactors;
mod conjunction;
mod implication;
pub mod nested;
mod operations;
mod selection;
mod triples;

pub use operations::{and, cofactor, ite, leq, not, or, xor};
