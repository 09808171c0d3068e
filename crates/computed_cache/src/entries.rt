//! The two words of an entry, and its place.

ghost use Rattle.std.specs.Prelude.{◌≡◌, ◌/◌, ◌%◌, ◌<◌, ◌^◌, IfSome, IfNone};
ghost use Rattle.edge_bits.specs.Words.{edge_of_word, word_of_edge};
ghost use Rattle.computed_cache.specs.Entries.{IsInRange, answer_word as answer_word_of, key_in, key_word as key_word_of, names, place_at};

use crate::Key;
use edge_bits::{Edge, scatter, spread};

/// The 24 bits of an edge: 23 to 1 are its slot, bit 0 is its complement.
pub(crate) fn pack(edge: Edge) -> u64
    requires { edge.index < 2 ^ 23 }
    ensures bits { result ≡ word_of_edge edge }
    ensures few { result < 2 ^ 24 }
{
    edge.word() as u64
}

/// The edge of 24 bits.
pub(crate) fn unpack(bits: u64) -> Edge
    requires { bits < 2 ^ 24 }
    ensures { result ≡ edge_of_word bits }
{
    Edge::from_word(bits as u32)
}

/// The first word of an entry: bits 63 to 58 are the operation, 57 to 34 and 33 to 10 the first two operands.
pub(crate) fn key_word(key: &Key) -> u64
    requires { IsInRange key.now }
    ensures { result ≡ key_word_of key.now }
{
    ((key.op as u64) << 58) + (pack(key.f) << 34) + (pack(key.g) << 10)
}

/// The second word of an entry: bits 47 to 24 are the third operand, 23 to 0 the answer.
pub(crate) fn answer_word(key: &Key, edge: Edge) -> u64
    requires key { IsInRange key.now }
    requires edge { edge.index < 2 ^ 23 }
    ensures { result ≡ answer_word_of key.now edge }
{
    (pack(key.h) << 24) + pack(edge)
}

/// The place of a first word and the bits of a third operand.
#[tactic(auto, unfolding(crate::specs::Entries::place_at))]
pub(crate) fn place(first: u64, h: u64, places: usize) -> usize
    requires some { 0 < places }
    requires few { places < 2 ^ 32 }
    ensures place { result ≡ place_at first h places }
    ensures within { result < places }
{
    scatter(first.wrapping_add(spread(h)), places)
}

/// Whether two words are those of an entry that names a slot.
pub(crate) fn is_named(first: u64, second: u64, slot: u32) -> bool
    requires { second < 2 ^ 48 }
    ensures { result ≡ names slot (record { key = key_in first second; edge = edge_of_word (second % 2 ^ 24) }) }
{
    let f = unpack((first >> 34) & 0xff_ffff);
    let g = unpack((first >> 10) & 0xff_ffff);
    let h = unpack(second >> 24);
    let edge = unpack(second & 0xff_ffff);
    f.index() == slot || g.index() == slot || h.index() == slot || edge.index() == slot
}

/// The answer in an entry's two words, if they have this first word and these bits of a third operand.
pub(crate) fn answer_in(stored: u64, second: u64, first: u64, h: u64) -> Option<Edge>
    ensures some { IfSome result (λ e. (stored ≡ first) × (second / 2 ^ 24 ≡ h) × (e ≡ edge_of_word (second % 2 ^ 24))) }
    ensures none { IfNone result (stored ≡ first → second / 2 ^ 24 ≡ h → ⊥) }
{
    if stored == first && second >> 24 == h {
        Some(unpack(second & 0xff_ffff))
    } else {
        None
    }
}
