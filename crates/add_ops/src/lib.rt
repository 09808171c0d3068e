//! Operations on algebraic decision diagrams (Bahar et al. 1993), over any store.
#![tactic(auto)]

mod arithmetic;
mod choices;
mod conversion;
mod leaves;
mod operations;
mod products;
mod selection;
mod summation;
mod truths;

pub use arithmetic::Overflow;
pub use choices::{max, min, threshold};
pub use operations::{
    add_ite, at_least, constant, from_bdd, minus, pattern, plus, sum_over, times,
};
