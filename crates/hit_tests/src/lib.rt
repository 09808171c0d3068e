//! Each operation that remembers its answers, over a store that counts calls and ends a test that makes too many.
#![tactic(auto)]

#[cfg(test)]
mod covers;
#[cfg(test)]
mod diagrams;
#[cfg(test)]
mod families;
#[cfg(test)]
mod numbers;
#[cfg(test)]
mod truths;
#[cfg(test)]
mod watched;
