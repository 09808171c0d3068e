//! What a holder does to its table in one hold, with nothing in hand before and behind it: a sweep, and the sift of an order.
#![tactic(auto)]

mod sifting;
mod sweeping;

pub use sifting::sifted;
pub use sweeping::swept;
