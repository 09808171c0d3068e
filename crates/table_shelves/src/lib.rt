//! What lies in the slots of a table that sessions share: the board, the free list with the room for what its holder notes, and the computed table.
#![tactic(auto)]

pub mod board;
pub mod opening;
pub mod shelf;

pub use board::Board;
pub use opening::open;
pub use shelf::{FreeShelf, TableShelf};
