//! The 64 bits of a slot's word.

ghost use Rattle.std.specs.Prelude.{◌≡◌, ◌<◌, ◌≤◌, ◌^◌, ◌↔◌, ◌⊎◌, IsNone, IfSome};
ghost use Rattle.edge_bits.specs.Words.{IsInRange, pack_of, unpack_of, variable_field};

use crate::edges::Edge;

/// A node of a diagram.
#[derive(Debug, Clone, Copy, PartialEq, Eq)]
pub struct Node {
    /// The variable, 0 to 16,383, or 16,384 and the number of the element. A word has room for numbers below 2^15.
    pub var: u16,
    /// The slot of the then child, below 2^23. A then arc is never complemented.
    pub hi: u32,
    /// The else arc.
    pub lo: Edge,
}

/// What the word of a slot in use says.
#[derive(Debug, Clone, Copy, PartialEq, Eq)]
pub enum Word {
    /// A node with two children.
    Inner(Node),
    /// A leaf with its value, from -2^46 to 2^46 - 1.
    Leaf(i64),
}

/// The 64 bits of a word whose fields are in range: bit 63 is set; bits 62 to 47 are the variable, or 65,535 for a leaf.
/// Of a node bits 46 to 24 are the then slot, bit 23 is the else arc's complement and bits 22 to 0 are its slot.
/// Of a leaf bits 46 to 0 are the value in two's complement.
pub fn pack(word: Word) -> u64
    requires { IsInRange word }
    ensures layout { result ≡ pack_of word }
    ensures reads_back { unpack_of result ≡ Some word }
{
    match word {
        Word::Inner(node) => {
            let complement: u64 = if node.lo.complement() { 1 << 23 } else { 0 };
            (1 << 63)
                + ((node.var as u64) << 47)
                + ((node.hi as u64) << 24)
                + complement
                + (node.lo.index() as u64)
        }
        Word::Leaf(value) => {
            let low = if value < 0 {
                (value + (1 << 47)) as u64
            } else {
                value as u64
            };
            (1 << 63) + (65535 << 47) + low
        }
    }
}

/// The word of these 64 bits. None where bit 63 is clear, since the slot isn't in use then, or the variable field is 32,768 to 65,534.
pub fn unpack(bits: u64) -> Option<Word>
    ensures value { result ≡ unpack_of bits }
    ensures none { IsNone result ↔ ((bits < 2 ^ 63) ⊎ ((32768 ≤ variable_field bits) × (variable_field bits < 65535))) }
    ensures packed { IfSome result (λ word. IsInRange word × (pack_of word ≡ bits)) }
{
    if bits < 1 << 63 {
        return None;
    }
    let var = (bits >> 47) & 0xffff;
    if var == 0xffff {
        let low = bits & 0x7fff_ffff_ffff;
        let value = if low < 1 << 46 {
            low as i64
        } else {
            low as i64 - (1 << 47)
        };
        Some(Word::Leaf(value))
    } else if var < 32768 {
        let lo = Edge::new((bits & 0x7f_ffff) as u32, (bits >> 23) & 1 == 1);
        Some(Word::Inner(Node {
            var: var as u16,
            hi: ((bits >> 24) & 0x7f_ffff) as u32,
            lo,
        }))
    } else {
        None
    }
}
