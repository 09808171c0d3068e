//! Stored diagrams as networks of multiplexers, in the Berkeley Logic Interchange Format.
#![tactic(auto)]

mod names;
mod stops;
mod writer;

pub use diagram_dumps::Dump;
pub use names::Name;
pub use stops::DumpStop;
pub use writer::write;
