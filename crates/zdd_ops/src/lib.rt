//! Operations on families of combinations as zero-suppressed decision diagrams (Minato 1993), over any store.
#![tactic(auto)]

mod constants;
mod membership;
pub mod nested;
mod operations;
mod products;
mod quotients;
mod sets;
mod subsets;

pub use constants::{base, empty, single};
pub use membership::contains;
pub use operations::{change, diff, meet, product, quotient, subset0, subset1, union};
