//! Words of slots and their bits.

ghost use Rattle.std.specs.Prelude.{◌≡◌, ◌<◌, ◌^◌};
ghost use Rattle.edge_bits.specs.Words.{IsInRange};

use edge_bits::{Edge, Node, Word, pack, unpack};
use std::process::Abort;

fn inner(var: u16, hi: u32, lo: u32, complement: bool) -> Word
    requires { lo < 2 ^ 31 }
    ensures { result ≡ Word.Inner (record { var = var; hi = hi; lo = record { index = lo; complement = complement } }) }
{
    Word::Inner(Node {
        var,
        hi,
        lo: Edge::new(lo, complement),
    })
}

/// A word is packed into these bits.
fn is_packed(rt: &impl Abort, word: Word, bits: u64)
    requires { IsInRange word }
{
    assert!(rt; pack(word) == bits);
}

/// These bits are read as this word, or as none.
fn is_read(rt: &impl Abort, bits: u64, word: Option<Word>) {
    assert!(rt; unpack(bits) == word);
}

/// Words and their bits, put together by hand from the layout.
#[test]
fn layout(rt: HostRuntime) {
    is_packed(&rt, inner(0, 0, 0, true), 0x8000_0000_0080_0000);
    is_packed(&rt, inner(5, 3, 7, false), 0x8002_8000_0300_0007);
    is_packed(&rt, inner(16384, 2, 1, false), 0xa000_0000_0200_0001);
    is_packed(
        &rt,
        inner(32767, 8388607, 8388607, true),
        0xbfff_ffff_ffff_ffff,
    );
    is_packed(&rt, Word::Leaf(1), 0xffff_8000_0000_0001);
    is_packed(&rt, Word::Leaf(-1), 0xffff_ffff_ffff_ffff);
    is_packed(&rt, Word::Leaf(-70368744177664), 0xffff_c000_0000_0000);
    is_packed(&rt, Word::Leaf(70368744177663), 0xffff_bfff_ffff_ffff);
    is_read(&rt, 0x8002_8000_0300_0007, Some(inner(5, 3, 7, false)));
    is_read(
        &rt,
        0xbfff_ffff_ffff_ffff,
        Some(inner(32767, 8388607, 8388607, true)),
    );
    is_read(
        &rt,
        0xffff_c000_0000_0000,
        Some(Word::Leaf(-70368744177664)),
    );
    is_read(&rt, 0xffff_8000_0000_0000, Some(Word::Leaf(0)));
    is_read(&rt, 0x7fff_ffff_ffff_ffff, None);
    is_read(&rt, 0xc000_0000_0000_0000, None);
    is_read(&rt, 0xffff_0000_0000_0000, None);
}
