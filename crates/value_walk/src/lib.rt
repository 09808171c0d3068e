//! The value of a diagram at an assignment, by a walk down any store.
#![tactic(auto)]

mod value;
mod walking;

pub use value::value_of;
