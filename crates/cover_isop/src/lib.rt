//! The functions of covers over any store. A cover is a family of products of literals (Minato 1993): element 2v is the variable v, 2v + 1 its complement.
#![tactic(auto)]

mod calls;
mod covering;
mod covers;
mod morreale;
pub mod nested;
mod operations;

pub use operations::{cover_of, isop};
