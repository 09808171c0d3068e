//! The permanent slots, which a store has from its opening on, and where the ranges of numbers begin and end.

ghost use Rattle.std.specs.Prelude.{◌≡◌};
ghost use Rattle.edge_bits.specs.Permanent.{base_edge, empty_edge, one_edge, truth_edge, zero_edge};

use crate::edges::Edge;

/// The slot of the BDD that is true everywhere; the complement of its arc is false everywhere.
pub const TRUE_SLOT: u32 = 0;

/// The slot of the family without members.
pub const EMPTY_SLOT: u32 = 1;

/// The slot of the family whose one member has no element.
pub const BASE_SLOT: u32 = 2;

/// The slot of the ADD that is 0 everywhere.
pub const ZERO_SLOT: u32 = 3;

/// The slot of the ADD that is 1 everywhere.
pub const ONE_SLOT: u32 = 4;

/// The slot of the projection of variable 0. At the opening that of variable v stands v slots further.
pub const FIRST_PROJECTION: u32 = 5;

/// The number that stands for element 0 in a node. Element e has e more; numbers below are variables.
pub const FIRST_ELEMENT: u32 = 16_384;

/// The least value of a leaf, -2^46.
pub const LEAST_VALUE: i64 = -(1 << 46);

/// The first number beyond the values of leaves, 2^46.
pub const VALUE_END: i64 = 1 << 46;

impl Edge {
    /// The BDD that has this value everywhere.
    pub fn truth(value: bool) -> Edge
        ensures { result ≡ truth_edge value }
    {
        Edge::new(TRUE_SLOT, !value)
    }

    /// The family without members.
    pub fn empty_family() -> Edge
        ensures { result ≡ empty_edge }
    {
        Edge::new(EMPTY_SLOT, false)
    }

    /// The family whose one member has no element.
    pub fn base_family() -> Edge
        ensures { result ≡ base_edge }
    {
        Edge::new(BASE_SLOT, false)
    }

    /// The ADD that is 0 everywhere.
    pub fn number_zero() -> Edge
        ensures { result ≡ zero_edge }
    {
        Edge::new(ZERO_SLOT, false)
    }

    /// The ADD that is 1 everywhere.
    pub fn number_one() -> Edge
        ensures { result ≡ one_edge }
    {
        Edge::new(ONE_SLOT, false)
    }
}
