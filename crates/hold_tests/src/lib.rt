//! Sweeps, swaps and sifts by the single steps of a holder at a table of words, alone and beside others who lower counts.
#![tactic(auto)]

#[cfg(test)]
mod diagrams;
#[cfg(test)]
mod holds;
#[cfg(test)]
mod kinds;
#[cfg(test)]
mod losses;
#[cfg(test)]
mod lowering;
#[cfg(test)]
mod sifts;
#[cfg(test)]
mod swaps;
#[cfg(test)]
mod tables;
