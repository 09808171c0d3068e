//! Operators and walks over the single steps of a seat, at a table with one user.
#![tactic(auto)]

#[cfg(test)]
mod seats;
