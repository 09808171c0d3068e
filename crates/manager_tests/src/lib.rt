//! A manager of one user, played by requests: what each kind of call answers, and every kind of misuse.
#![tactic(auto)]

#[cfg(test)]
mod misuse;
#[cfg(test)]
mod nodes;
#[cfg(test)]
mod orders;
#[cfg(test)]
mod played;
#[cfg(test)]
mod requests;
#[cfg(test)]
mod values;
