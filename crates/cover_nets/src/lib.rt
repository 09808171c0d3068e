//! Networks of covers, each of which stands behind the signals that it reads, and the values of their signals.
#![tactic(auto)]

mod net;
mod rows;

pub use net::{Cover, Cube, Literal, Net, Output};
pub use rows::Rows;
