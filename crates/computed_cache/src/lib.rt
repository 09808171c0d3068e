//! The computed table of recursive operators (Brace, Rudell and Bryant 1990): answers that were found before, each under its operation and operands. It is lossy: an answer takes the place of another.
#![tactic(auto)]

mod entries;
mod memo;

use edge_bits::Edge;
pub use memo::Memo;

/// What an answer is kept under: the operation's number, 1 to 62, and its three operands.
#[derive(Debug, Clone, Copy, PartialEq, Eq)]
pub struct Key {
    pub op: u8,
    pub f: Edge,
    pub g: Edge,
    pub h: Edge,
}
