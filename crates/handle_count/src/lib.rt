//! The rows of a session, which hold edges under names that are never given twice, and the words that count what holds a slot.
#![tactic(auto)]

mod counts;
mod rows;

pub use counts::{lower, next_generation, raise};
pub use function_laws::Name as H;
pub use rows::{Held, Row, Rows};
