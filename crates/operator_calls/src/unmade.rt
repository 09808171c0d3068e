//! Why nothing was made.

/// Why an operation that ran to its end made no function.
#[derive(Clone, Copy, PartialEq, Eq, Debug, Drop)]
pub enum Unmade {
    /// Some value of the exact result is below -2^46 or above 2^46 - 1, so that no leaf can have it.
    Overflow,
    /// The function that a cover is to reach holds somewhere where the one that it is to stay within does not, so that there is none.
    Apart,
}
