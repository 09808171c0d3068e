//! The texts of stored diagrams (DDDMP-2.0): what they say, their reader, and the text that is written for a dump.
#![tactic(auto)]

mod bounds;
mod faults;
mod fields;
mod header;
mod node_lines;
mod numbers;
mod reader;
mod readings;
mod sorting;
mod writer;

pub use bounds::dumps_are_bounded;
pub use diagram_dumps::{Dump, Line, Listing, node_count};
pub use faults::{DddmpError, DddmpFault, FaultKind};
pub use reader::read;
pub use readings::{texts_have_one_reading, written_texts_are_read_again};
pub use writer::write;
