//! Seats at one table of words in threads of their own, and the widest table.
#![tactic(auto)]

#[cfg(test)]
mod rounds;
#[cfg(test)]
mod seated;
#[cfg(test)]
mod sweeps;
#[cfg(test)]
mod tables;
#[cfg(test)]
mod tokens;
#[cfg(test)]
mod widest;
