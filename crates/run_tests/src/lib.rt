//! What no row can tell of a run: a sink that keeps nothing, a source that is not read, two sections and two workers at work at once, and
//! which worker builds which output.
#![tactic(auto)]

#[cfg(test)]
mod dealt;
#[cfg(test)]
mod pair;
#[cfg(test)]
mod runs;
