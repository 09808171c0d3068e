//! Quantification, composition and restriction of Boolean functions over any store (Bryant 1986).
#![tactic(auto)]

mod composition;
mod dependence;
pub mod nested;
mod operations;
mod products;
mod quantification;
mod quantifiers;
mod restriction;
mod substitution;

pub use operations::{and_exists, compose, exists, forall, restrict, support, vector_compose};
