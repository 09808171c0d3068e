//! The seats of sessions in threads of their own, and what they share.
#![tactic(auto)]

#[cfg(test)]
mod boards;
#[cfg(test)]
mod tokens;
#[cfg(test)]
mod turns;
