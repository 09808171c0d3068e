//! A slot leaves its chain, and comes onto one.

ghost use Rattle.std.specs.Prelude.{◌≡◌, ℕ, ◌+◌, ◌-◌, ◌<◌, ◌≤◌, ◌^◌, if◌then◌else◌, nat_lt, length, IfNone, IfSome, None, Some};
ghost use Rattle.edge_bits.specs.Permanent.{first_element};
ghost use Rattle.edge_bits.specs.Words.{unpack_of};
ghost use Rattle.edge_bits.specs.declared.words.Word.{Word as WordOf};
ghost use Rattle.step_store.specs.Chains.{head_of};
ghost use Rattle.hold_store.specs.Held.{AllElse, ComesBehind, HasLevel, HasTurnOf, IsFront, IsOfLevel, LeadsAlong, StandsBefore, handed, level_of_word, loosened, tied};

use crate::holds::Holds;
use edge_bits::{FIRST_ELEMENT, Word, scatter};
use std::sync::Wait;

/// The level of a variable or an element among the turns.
pub(crate) fn level_of_variable<S: Holds>(seat: &S, var: u32) -> u32
    requires own { S.holds seat.now }
    requires few { var < 2 ^ 16 }
    ensures { result ≡ (if nat_lt var first_element then var else length (S.known seat.now).content.orders.variables + (var - first_element)) }
{
    if var < FIRST_ELEMENT {
        var
    } else {
        seat.vars() + (var - FIRST_ELEMENT)
    }
}

/// The level of a word among the turns.
pub(crate) fn level_of<S: Holds>(seat: &S, word: Word) -> u32
    requires own { S.holds seat.now }
    ensures { result ≡ level_of_word (S.known seat.now) word }
{
    match word {
        Word::Leaf(_) => seat.vars() + seat.elements(),
        Word::Inner(node) => level_of_variable(seat, node.var as u32),
    }
}

/// The slot before one that comes later on the chain that is known.
fn slot_before<S: Holds>(seat: &mut S, first: u32, slot: u32) -> u32
    requires own { S.holds seat.old }
    requires few { slot < 2 ^ 23 }
    requires behind { ComesBehind (S.known seat.old) first slot }
    ensures own { S.holds seat.new }
    ensures home { (S.table seat.new ≡ S.table seat.old) × (S.rest seat.new ≡ S.rest seat.old) }
    ensures same { S.known seat.new ≡ S.known seat.old }
    ensures before { StandsBefore (S.known seat.old) result slot }
{
    let limit = seat.limit();
    let mut before = first;
    for _ in 0..limit {
        let link = seat.load_next(before);
        if link == slot + 1 {
            return before;
        }
        before = link - 1;
    }
    unreachable!()
}

/// Takes the first slot of the chain that is known off it.
fn unlink_front<S: Holds>(seat: &mut S, slot: u32, head: u32)
    requires own { S.holds seat.old }
    requires calm { (S.known seat.old).hand.loose ≡ None }
    requires first { IsFront (S.known seat.old) head slot }
    requires turn { HasTurnOf (S.known seat.old) slot }
    ensures own { S.holds seat.new }
    ensures home { (S.table seat.new ≡ S.table seat.old) × (S.rest seat.new ≡ S.rest seat.old) }
    ensures off { S.known seat.new ≡ handed (S.known seat.old) (loosened slot (S.known seat.old).hand) }
{
    let link = seat.load_next(slot);
    seat.unlink_first(head, slot, link);
}

/// Takes one off that comes behind the first.
fn unlink_behind<S: Holds>(seat: &mut S, slot: u32, first: u32)
    requires own { S.holds seat.old }
    requires calm { (S.known seat.old).hand.loose ≡ None }
    requires few { slot < 2 ^ 23 }
    requires behind { ComesBehind (S.known seat.old) first slot }
    requires turn { HasTurnOf (S.known seat.old) slot }
    ensures own { S.holds seat.new }
    ensures home { (S.table seat.new ≡ S.table seat.old) × (S.rest seat.new ≡ S.rest seat.old) }
    ensures off { S.known seat.new ≡ handed (S.known seat.old) (loosened slot (S.known seat.old).hand) }
{
    let before = slot_before(seat, first, slot);
    let link = seat.load_next(slot);
    seat.unlink_later(before, slot, link);
}

/// Takes a slot off its chain, with the turn of its level in hand.
pub(crate) fn take_off<S: Holds>(seat: &mut S, slot: u32, head: u32, level: u32)
    requires own { S.holds seat.old }
    requires high { 3 ≤ slot }
    requires few { slot < 2 ^ 23 }
    requires calm { (S.known seat.old).hand.loose ≡ None }
    requires word { IsOfLevel (S.known seat.old) slot level }
    requires turn { HasLevel (S.known seat.old).hand level }
    requires head { head ≡ head_of (S.known seat.old).heads ((S.known seat.old).bits slot) }
    requires within { head < (S.known seat.old).heads }
    ensures own { S.holds seat.new }
    ensures home { (S.table seat.new ≡ S.table seat.old) × (S.rest seat.new ≡ S.rest seat.old) }
    ensures off { S.known seat.new ≡ handed (S.known seat.old) (loosened slot (S.known seat.old).hand) }
{
    let first = seat.load_head(head, level);
    if first == slot + 1 {
        unlink_front(seat, slot, head);
    } else {
        unlink_behind(seat, slot, first - 1);
    }
}

/// Puts a slot that is on no chain before the others of its head. Where the head has changed since the slot's link was stored, the link is stored anew.
pub(crate) fn put_on<R: Wait, S: Holds>(rt: &R, seat: &mut S, slot: u32, head: u32)
    requires own { S.holds seat.old }
    requires loose { (S.known seat.old).hand.loose ≡ Some slot }
    requires head { head ≡ head_of (S.known seat.old).heads ((S.known seat.old).bits slot) }
    requires within { head < (S.known seat.old).heads }
    ensures own { S.holds seat.new }
    ensures home { (S.table seat.new ≡ S.table seat.old) × (S.rest seat.new ≡ S.rest seat.old) }
    ensures on { S.known seat.new ≡ handed (S.known seat.old) (tied (S.known seat.old).hand) }
{
    let mut link = seat.peek_head(head);
    for _ in rt.forever() {
        seat.store_next(slot, link);
        let found = seat.push_head(head, slot, link);
        if found == link {
            return;
        }
        link = found;
    }
    unreachable!()
}

/// The slot of a word along the chain that is known, from its first link on. Where it is None, each slot of the chain has other bits.
fn search<S: Holds>(seat: &mut S, bits: u64, first: u32) -> Option<u32>
    requires own { S.holds seat.old }
    requires along { LeadsAlong (S.known seat.old) first }
    ensures own { S.holds seat.new }
    ensures home { (S.table seat.new ≡ S.table seat.old) × (S.rest seat.new ≡ S.rest seat.old) }
    ensures same { S.known seat.new ≡ S.known seat.old }
    ensures found { IfSome result (λ s. (s < (S.known seat.old).content.limit) × ((S.known seat.old).bits s ≡ bits)) }
    ensures none { IfNone result (AllElse (S.known seat.old) bits) }
{
    let limit = seat.limit();
    let mut link = first;
    for _ in 0..limit {
        if link == 0 {
            return None;
        }
        let slot = link - 1;
        if seat.load_node(slot) == bits {
            return Some(slot);
        }
        link = seat.load_next(slot);
    }
    None
}

/// The slot that has a word, with the turn of its level in hand. Where it is None, no slot behind the three that are told by their number has it.
pub(crate) fn find<S: Holds>(seat: &mut S, bits: u64, head: u32, level: u32) -> Option<u32>
    requires own { S.holds seat.old }
    requires calm { (S.known seat.old).hand.loose ≡ None }
    requires turn { HasLevel (S.known seat.old).hand level }
    requires word { (word : WordOf) × (unpack_of bits ≡ Some word) × (level ≡ level_of_word (S.known seat.old) word) }
    requires head { head ≡ head_of (S.known seat.old).heads bits }
    requires within { head < (S.known seat.old).heads }
    ensures own { S.holds seat.new }
    ensures home { (S.table seat.new ≡ S.table seat.old) × (S.rest seat.new ≡ S.rest seat.old) }
    ensures same { S.known seat.new ≡ handed (S.known seat.old) (record (S.known seat.old).hand { walk = (S.known seat.new).hand.walk }) }
    ensures found { IfSome result (λ s. (s < (S.known seat.old).content.limit) × ((S.known seat.old).bits s ≡ bits)) }
    ensures none { IfNone result ((s : ℕ) (word : WordOf) → 3 ≤ s → unpack_of bits ≡ Some word → (S.known seat.old).content.word s ≡ Some word → ⊥) }
{
    let first = seat.load_head(head, level);
    search(seat, bits, first)
}
