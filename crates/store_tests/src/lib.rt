//! Operations over a store in hand: its last slots, nodes of each kind, and bounds that no job can name; its words, its unique
//! tables, and the rows of a session.
#![tactic(auto)]

#[cfg(test)]
mod bounds;
#[cfg(test)]
mod layout;
#[cfg(test)]
mod pairs;
#[cfg(test)]
mod rows;
#[cfg(test)]
mod sifts;
#[cfg(test)]
mod slot_sets;
#[cfg(test)]
mod stores;
#[cfg(test)]
mod swaps;
#[cfg(test)]
mod unique_tables;
#[cfg(test)]
mod walks;
