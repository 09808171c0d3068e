//! Where a program's text comes from and where it goes: what a source and a sink promise, some in memory, and the reading and
//! writing of a whole text.
#![tactic(auto)]

mod memory;
mod reading;
mod sink;
mod source;
mod writing;

pub use memory::{Bytes, Discard, Pieces, SureBytes};
pub use reading::{ReadStop, read_to_end};
pub use sink::Sink;
pub use source::{Failed, Source};
pub use writing::write_to_end;
