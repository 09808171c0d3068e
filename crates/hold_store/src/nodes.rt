//! Nodes that come, change and go, each in some single steps.

ghost use Rattle.std.specs.Prelude.{◌≡◌, ℕ, ◌+◌, ◌<◌, ◌≤◌, List, [], ◌∷◌, length, None, Some};
ghost use Rattle.edge_bits.specs.Reading.{plain};
ghost use Rattle.edge_bits.specs.Words.{unpack_of};
ghost use Rattle.edge_bits.specs.declared.edges.Kind.{Kind as KindOf};
ghost use Rattle.edge_bits.specs.declared.words.Node.{Node as NodeOf};
ghost use Rattle.edge_bits.specs.declared.words.Word.TheVariants.{Inner};
ghost use Rattle.node_store.specs.Contents.{IsUsed};
ghost use Rattle.node_store.specs.Changes.{CanExchange, CanRewrite, exchanged, rewritten, with_node, without};
ghost use Rattle.step_store.specs.Chains.{head_of};
ghost use Rattle.hold_store.specs.Held.{IsDead, IsForgotten, IsNew, IsReady, ZeroStays, handed, loosened, node_function};

use crate::chains::{level_of, put_on, take_off};
use crate::holds::Holds;
use edge_bits::{scatter, unpack};
use handle_count::next_generation;
use node_store::Order;
use std::sync::Wait;

/// Takes a slot in use off its chain.
fn loosen<S: Holds>(seat: &mut S, slot: u32)
    requires own { S.holds seat.old }
    requires ready { IsReady (S.known seat.old) }
    requires used { IsUsed (S.known seat.old).content slot }
    requires high { 3 ≤ slot }
    ensures own { S.holds seat.new }
    ensures home { (S.table seat.new ≡ S.table seat.old) × (S.rest seat.new ≡ S.rest seat.old) }
    ensures off { S.known seat.new ≡ handed (S.known seat.old) (loosened slot (S.known seat.old).hand) }
{
    let bits = seat.load_node(slot);
    match unpack(bits) {
        Some(word) => {
            let level = level_of(seat, word);
            let head = scatter(bits, seat.heads() as usize) as u32;
            take_off(seat, slot, head, level);
        }
        None => unreachable!(),
    }
}

/// Frees a slot that is dead, after it has left its chain and has its next generation. No answer of the computed table names it.
pub(crate) fn free_slot<S: Holds>(seat: &mut S, slot: u32)
    requires own { S.holds seat.old }
    requires ready { IsReady (S.known seat.old) }
    requires forgotten { IsForgotten (S.known seat.old).hand slot }
    requires dead { IsDead (S.known seat.old).content slot }
    ensures own { S.holds seat.new }
    ensures home { (S.table seat.new ≡ S.table seat.old) × (S.rest seat.new ≡ S.rest seat.old) }
    ensures ready { IsReady (S.known seat.new) }
    ensures named { (S.known seat.new).hand.named ≡ (S.known seat.old).hand.named }
    ensures freed { (S.known seat.new).content ≡ record (without (S.known seat.old).content slot) { count = (S.known seat.new).content.count } }
    ensures counts { ZeroStays (S.known seat.old).content.count (S.known seat.new).content.count }
{
    loosen(seat, slot);
    let count = seat.load_count(slot);
    seat.store_generation(slot, next_generation(count));
    seat.free_node(slot);
}

/// Puts another node of the same function into a slot, which goes from its old chain to its new one.
pub(crate) fn rewrite_slot<R: Wait, S: Holds>(rt: &R, seat: &mut S, slot: u32, bits: u64)
    requires own { S.holds seat.old }
    requires ready { IsReady (S.known seat.old) }
    requires can { (k : KindOf) × (node : NodeOf) × (unpack_of bits ≡ Some (Inner node)) × CanRewrite k (S.known seat.old).content slot node.var (plain node.hi) node.lo }
    ensures own { S.holds seat.new }
    ensures home { (S.table seat.new ≡ S.table seat.old) × (S.rest seat.new ≡ S.rest seat.old) }
    ensures ready { IsReady (S.known seat.new) }
    ensures named { (S.known seat.new).hand.named ≡ (S.known seat.old).hand.named }
    ensures rewritten { (node : NodeOf) → unpack_of bits ≡ Some (Inner node) → (S.known seat.new).content ≡ rewritten (S.known seat.old).content slot node.var (plain node.hi) node.lo }
{
    loosen(seat, slot);
    seat.rewrite_node(slot, bits);
    let head = scatter(bits, seat.heads() as usize) as u32;
    put_on(rt, seat, slot, head);
}

/// Stores a new node in a free slot, and puts it on its chain.
pub(crate) fn store_new<R: Wait, S: Holds>(rt: &R, seat: &mut S, bits: u64, head: u32) -> u32
    requires own { S.holds seat.old }
    requires ready { IsReady (S.known seat.old) }
    requires some { (S.known seat.old).hand.free ≡ Some [] → ⊥ }
    requires new { (k : KindOf) × (node : NodeOf) × (unpack_of bits ≡ Some (Inner node)) × IsNew k (S.known seat.old).content node }
    requires head { head ≡ head_of (S.known seat.old).heads bits }
    requires within { head < (S.known seat.old).heads }
    ensures own { S.holds seat.new }
    ensures home { (S.table seat.new ≡ S.table seat.old) × (S.rest seat.new ≡ S.rest seat.old) }
    ensures ready { IsReady (S.known seat.new) }
    ensures named { (S.known seat.new).hand.named ≡ (S.known seat.old).hand.named }
    ensures free { (result < (S.known seat.old).content.limit) × ((S.known seat.old).content.word result ≡ None) }
    ensures stored { (k : KindOf) (node : NodeOf) → unpack_of bits ≡ Some (Inner node) → IsNew k (S.known seat.old).content node → (S.known seat.new).content ≡ with_node (S.known seat.old).content result node (node_function k (S.known seat.old).content node) }
{
    match seat.first_free() {
        Some(slot) => {
            seat.store_node(slot, bits);
            put_on(rt, seat, slot, head);
            slot
        }
        None => unreachable!(),
    }
}

/// Exchanges what stands at a level of an order and at the next, by a store of each of the two words.
pub(crate) fn exchange_levels<S: Holds>(seat: &mut S, order: Order, level: u32)
    requires own { S.holds seat.old }
    requires ready { IsReady (S.known seat.old) }
    requires can { CanExchange (S.known seat.old).content order level }
    ensures own { S.holds seat.new }
    ensures home { (S.table seat.new ≡ S.table seat.old) × (S.rest seat.new ≡ S.rest seat.old) }
    ensures ready { IsReady (S.known seat.new) }
    ensures exchanged { S.known seat.new ≡ record (S.known seat.old) { content = record (S.known seat.old).content { orders = exchanged (S.known seat.old).content.orders order level; half = None } } }
{
    let upper = seat.load_order(order, level);
    let lower = seat.load_order(order, level + 1);
    seat.store_upper(order, level, lower);
    seat.store_lower(order, level + 1, upper);
}
