//! What the sessions of one manager share: the store and the board.
#![tactic(auto)]

mod board;
mod counted;
mod heap;
mod opening;
mod reading;
mod reordering;
mod returning;
mod shared;
mod sifting;
mod sweeping;

pub use heap::HeapStore;
pub use reading::read_counts;
pub use reordering::Crowded;
pub use returning::put_back;
pub use shared::{Cell, Shared};
