//! What operators see of a store of decision diagrams that only grows, and the evaluator of recursive operators over it.
#![tactic(auto)]

pub mod answers;
pub mod binary;
pub mod conditional;
pub mod evaluate;
pub mod grow;
pub mod numbers;
pub mod operator;
pub mod parts;
pub mod permanent;
pub mod pointwise;
pub mod remembering;
pub mod scratch;
pub mod stack;
pub mod whole;

pub use computed_cache::Key;
pub use grow::{Grow, Opened, Stop};
pub use permanent::tell_permanent;
pub use stack::Stack;
pub use whole::{Order, Whole};
