//! The words of the command line: what they ask for.
#![tactic(auto)]

mod order;
mod reading;
mod table;
mod values;

pub use order::{Options, Order};
pub use reading::read_words;
