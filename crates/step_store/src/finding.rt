//! The slot of a word: looked for without a turn, and along its chain with the turn in hand.

ghost use Rattle.std.specs.Prelude.{◌≡◌, ◌<◌, ◌≤◌, IfNone, IfSome, Some};
ghost use Rattle.step_store.specs.Knowing.{AllElse, HasLevel, HasWalked, IsAlong, IsFound, Learns, Walk};

use crate::steps::Steps;

/// The slot of a link, if it may be one of a chain's. The first three slots are told by their number, and on no chain.
fn slot_of(link: u32, limit: u32) -> Option<u32>
    ensures { IfSome result (λ slot. (3 ≤ slot) × (slot < limit)) }
{
    if link < 4 || link > limit {
        return None;
    }
    Some(link - 1)
}

/// A slot whose word was peeked at and has these bits, if the walk comes upon one. It makes no more steps than there are slots.
fn seek<S: Steps>(seat: &S, bits: u64, head: u32, limit: u32) -> Option<u32>
    requires own { S.shares seat.now }
    requires head { head < (S.known seat.now).heads }
    requires limit { limit ≡ (S.known seat.now).view.slots }
    ensures { IfSome result (λ slot. (3 ≤ slot) × (slot < limit)) }
{
    let mut link = seat.peek_head(head);
    for _ in 0..limit {
        let slot = slot_of(link, limit)?;
        if seat.peek_node(slot) == bits {
            return Some(slot);
        }
        link = seat.peek_next(slot);
    }
    None
}

/// The slot of a word, if it is met without the turn of its level: what was peeked at tells nothing, and one load of the slot tells all. None tells nothing.
pub fn look<S: Steps>(seat: &mut S, bits: u64, head: u32) -> Option<u32>
    requires own { S.shares seat.old }
    requires head { head < (S.known seat.old).heads }
    ensures own { S.shares seat.new }
    ensures home { (S.table seat.new ≡ S.table seat.old) × (S.rest seat.new ≡ S.rest seat.old) }
    ensures learns { Learns (S.known seat.old) (S.known seat.new) }
    ensures hand { (S.known seat.new).hand ≡ (S.known seat.old).hand }
    ensures found { IfSome result (IsFound (S.known seat.new) bits) }
{
    let limit = seat.limit();
    let Some(slot) = seek(seat, bits, head, limit) else {
        return None;
    };
    if bits == seat.load_node(slot) {
        Some(slot)
    } else {
        None
    }
}

/// The slot of a word among those of the chain that is known, from its first link on. Where it is None, each of them has other bits.
fn search<S: Steps>(seat: &mut S, bits: u64, first: u32) -> Option<u32>
    requires own { S.shares seat.old }
    requires along { IsAlong (S.known seat.old) first }
    ensures own { S.shares seat.new }
    ensures home { (S.table seat.new ≡ S.table seat.old) × (S.rest seat.new ≡ S.rest seat.old) }
    ensures learns { Learns (S.known seat.old) (S.known seat.new) }
    ensures hand { (S.known seat.new).hand ≡ (S.known seat.old).hand }
    ensures found { IfSome result (IsFound (S.known seat.new) bits) }
    ensures none { IfNone result ((n : Walk) → (S.known seat.old).hand.walk ≡ Some n → AllElse (S.known seat.new) n.rest bits) }
{
    let limit = seat.limit();
    let mut link = first;
    for _ in 0..limit {
        if link == 0 {
            return None;
        }
        let slot = link - 1;
        if seat.load_node(slot) == bits {
            return Some(slot);
        }
        link = seat.load_next(slot);
    }
    None
}

/// The slot of a word on the chain of its head, with the turn of its level in hand. Where it is None, each slot of the chain has other bits.
pub fn find<S: Steps>(seat: &mut S, bits: u64, head: u32, level: u32) -> Option<u32>
    requires own { S.shares seat.old }
    requires head { head < (S.known seat.old).heads }
    requires turn { HasLevel (S.known seat.old).hand level }
    ensures own { S.shares seat.new }
    ensures home { (S.table seat.new ≡ S.table seat.old) × (S.rest seat.new ≡ S.rest seat.old) }
    ensures learns { Learns (S.known seat.old) (S.known seat.new) }
    ensures hand { (S.known seat.new).hand ≡ record (S.known seat.old).hand { walk = (S.known seat.new).hand.walk } }
    ensures found { IfSome result (IsFound (S.known seat.new) bits) }
    ensures none { IfNone result (HasWalked (S.known seat.new) head level bits) }
{
    let first = seat.load_head(head, level);
    search(seat, bits, first)
}
