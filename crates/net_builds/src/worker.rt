//! Workers, each of which builds a share of a network's outputs.

/// Which of several workers it is, from 0 on, and how many they are: it builds the outputs of this number, of that and so many more, and
/// so on.
#[derive(Debug, Clone, Copy, PartialEq, Eq, Drop)]
pub struct Worker {
    pub number: u32,
    pub of: u32,
}
