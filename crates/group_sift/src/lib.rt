//! Sifting in blocks over any store of decision diagrams in one holder's hands (Rudell 1993).
#![tactic(auto)]

mod blocks;
mod frees;
mod lists;
mod moves;
mod pins;
mod sifting;
mod trips;
mod turns;

pub use blocks::{Blocks, sift, sift_e};
pub use function_laws::Mode;
pub use sifting::Sifted;
