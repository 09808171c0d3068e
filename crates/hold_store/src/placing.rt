//! A node is found, or comes to stand in a free slot.

ghost use Rattle.std.specs.Prelude.{◌≡◌, ◌<◌, ◌≤◌, Some};
ghost use Rattle.edge_bits.specs.Words.{unpack_of};
ghost use Rattle.edge_bits.specs.declared.words.Node.{Node as NodeOf};
ghost use Rattle.edge_bits.specs.declared.words.Word.TheVariants.{Inner};
ghost use Rattle.hold_store.specs.Held.{IsReady, level_of_word};
ghost use Rattle.hold_store.specs.Placing.{CanPlace, IsPlaced};

use crate::chains::find;
use crate::holds::Holds;
use crate::nodes::store_new;
use edge_bits::scatter;
use std::sync::Wait;

/// The slot of a node: found on its chain, or else a free one in which it is stored.
pub(crate) fn place_node<R: Wait, S: Holds>(rt: &R, seat: &mut S, bits: u64, level: u32) -> u32
    requires own { S.holds seat.old }
    requires ready { IsReady (S.known seat.old) }
    requires can { (node : NodeOf) × (unpack_of bits ≡ Some (Inner node)) × (level ≡ level_of_word (S.known seat.old) (Inner node)) × CanPlace (S.known seat.old).content node }
    ensures own { S.holds seat.new }
    ensures home { (S.table seat.new ≡ S.table seat.old) × (S.rest seat.new ≡ S.rest seat.old) }
    ensures ready { IsReady (S.known seat.new) }
    ensures named { (S.known seat.new).hand.named ≡ (S.known seat.old).hand.named }
    ensures placed { (node : NodeOf) → unpack_of bits ≡ Some (Inner node) → IsPlaced (S.known seat.old).content (S.known seat.new).content node result }
{
    let head = scatter(bits, seat.heads() as usize) as u32;
    match find(seat, bits, head, level) {
        Some(slot) => slot,
        None => store_new(rt, seat, bits, head),
    }
}
