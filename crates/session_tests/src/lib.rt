//! Sessions of one manager: what they make, drop, post and fetch beside one another, and how a full table is mended.
#![tactic(auto)]

#[cfg(test)]
mod calls;
#[cfg(test)]
mod covers;
#[cfg(test)]
mod full_tables;
#[cfg(test)]
mod listings;
#[cfg(test)]
mod many_sessions;
#[cfg(test)]
mod sifts;
#[cfg(test)]
mod swaps;
#[cfg(test)]
mod threads;
