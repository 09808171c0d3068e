//! A store of decision diagrams over the single steps that a seat makes on the words of a table which others use too.
#![tactic(auto)]

mod beginning;
mod finding;
pub mod growing;
pub mod hand;
pub mod job;
mod making;
mod memo;
mod opening;
mod placing;
mod plain;
pub mod steps;
pub mod table;
mod walking;
pub mod walks;

pub use beginning::head_count;
pub use growing::{Growing, Home};
pub use job::Job;
pub use steps::Steps;
pub use table::PlainTable;
pub use walking::walk;
pub use walks::Walks;
