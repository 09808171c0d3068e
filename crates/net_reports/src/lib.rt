//! Reports of networks and of stored diagrams: the classes of their outputs, and the texts that tell of them.
#![tactic(auto)]

mod classes;
mod lines;
mod patterns;
mod reports;

pub use classes::{Class, classes_of};
pub use patterns::{Evaluation, padded};
pub use reports::{dump_report, report, summary};
