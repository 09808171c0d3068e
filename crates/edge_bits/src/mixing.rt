//! Where a word is looked up among so many places.

ghost use Rattle.std.specs.Prelude.{◌≡◌, ◌<◌, ◌^◌};
ghost use Rattle.edge_bits.specs.Mixing.{scattered, spread as spread_of};

/// The product of a word and an odd number, which brings low bits up (Knuth 1973).
#[inline]
pub fn spread(bits: u64) -> u64
    ensures { result ≡ spread_of bits }
{
    bits.wrapping_mul(0x9e37_79b9_7f4a_7c15)
}

/// The place of a word among so many, 1 to 2^32 - 1: two products mix its bits (Knuth 1973), with the high half of the first added to
/// it between them, and a third takes the place from the high bits in place of a division (Lemire 2019).
#[inline]
#[tactic(auto, unfolding(crate::specs::Mixing::scattered))]
pub fn scatter(bits: u64, places: usize) -> usize
    requires some { 0 < places }
    requires few { places < 2 ^ 32 }
    ensures place { result ≡ scattered bits places }
    ensures within { result < places }
{
    let product = spread(bits);
    let mixed = product
        .wrapping_add(product >> 32)
        .wrapping_mul(0xc2b2_ae3d_27d4_eb4f);
    (((mixed >> 32) * places as u64) >> 32) as usize
}
