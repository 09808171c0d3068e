//! Which functions are pinned decides what a sift leaves.

ghost use Rattle.sift_laws.specs.Alike.{SiftsGoByFunctions, WholesAreAlike};

/// The order that a sift leaves, its sizes and its number of swaps go by which functions are pinned, up to complement: not by how often
/// or in which order they are listed.
pub fn sifts_go_by_functions()
    ensures { SiftsGoByFunctions }
{}

/// BDDs whose lists of values are equal, or one the other's complement, are one.
pub fn wholes_are_alike()
    ensures { WholesAreAlike }
{}
