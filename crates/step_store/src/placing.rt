//! A node or a leaf comes to stand in a slot, if it is not there.

ghost use Rattle.std.specs.Prelude.{◌≡◌, ℕ, ◌<◌, List, ◌∷◌, Option, Some, None};
ghost use Rattle.edge_bits.specs.Words.{unpack_of};
ghost use Rattle.step_store.specs.Chains.{head_of};
ghost use Rattle.step_store.specs.Knowing.{IsWanted, Knowledge, MayMake, MayStore, Placed, Walk, handed, idle, turn_of, turns, with_turn, word_of};

use crate::finding::{find, look};
use crate::job::Job;
use crate::steps::Steps;
use crossbeam_utils::Backoff;
use edge_bits::scatter;
use std::sync::Wait;

/// Waits for the turn of a level.
fn claim<R: Wait, S: Steps>(rt: &R, seat: &mut S, level: u32)
    requires own { S.shares seat.old }
    requires within { level < turns (S.known seat.old).view }
    ensures own { S.shares seat.new }
    ensures home { (S.table seat.new ≡ S.table seat.old) × (S.rest seat.new ≡ S.rest seat.old) }
    ensures taken { S.known seat.new ≡ handed (S.known seat.old) (record (S.known seat.old).hand { levels = level ∷ (S.known seat.old).hand.levels }) }
{
    let backoff = Backoff::new();
    for _ in rt.forever() {
        if seat.peek_turn(level) && seat.take_turn(level) {
            return;
        }
        backoff.snooze();
    }
    unreachable!()
}

/// Waits for the free list.
fn claim_free<R: Wait, S: Steps>(rt: &R, seat: &mut S)
    requires own { S.shares seat.old }
    ensures own { S.shares seat.new }
    ensures home { (S.table seat.new ≡ S.table seat.old) × (S.rest seat.new ≡ S.rest seat.old) }
    ensures taken { (list : List ℕ) × (S.known seat.new ≡ handed (S.known seat.old) (record (S.known seat.old).hand { free = Some list })) }
{
    let backoff = Backoff::new();
    for _ in rt.forever() {
        if seat.peek_free() && seat.take_free() {
            return;
        }
        backoff.snooze();
    }
    unreachable!()
}

/// Puts a slot before the others of its chain. Where the head has changed since the slot's link was stored, the link is stored anew.
fn push<R: Wait, S: Steps>(rt: &R, seat: &mut S, head: u32, slot: u32, first: u32)
    requires own { S.shares seat.old }
    requires loose { (S.known seat.old).hand.loose ≡ Some slot }
    requires linked { (S.known seat.old).hand.link ≡ Some (record { slot = slot; next = first }) }
    requires noted { (bits : ℕ) × ((S.known seat.old).word slot ≡ Some bits) × (head ≡ head_of (S.known seat.old).heads bits) }
    requires within { head < (S.known seat.old).heads }
    ensures own { S.shares seat.new }
    ensures home { (S.table seat.new ≡ S.table seat.old) × (S.rest seat.new ≡ S.rest seat.old) }
    ensures pushed { S.known seat.new ≡ handed (S.known seat.old) (record (S.known seat.old).hand { loose = None; link = None; walk = None }) }
{
    let mut link = first;
    for _ in rt.forever() {
        let found = seat.push_head(head, slot, link);
        if found == link {
            return;
        }
        link = found;
        seat.store_next(slot, link);
    }
    unreachable!()
}

/// Stores a word in the free slot that is taken for it, and puts the slot on its chain.
fn store<R: Wait, S: Steps>(rt: &R, seat: &mut S, bits: u64, head: u32, job: &Job) -> u32
    requires own { S.shares seat.old }
    requires wanted { IsWanted (S.known seat.old) bits (word_of job.now) }
    requires hand { (level : ℕ) × (walk : Option Walk) × (slot : ℕ) × (list : List ℕ) × ((S.known seat.old).hand ≡ record (with_turn level walk) { free = Some (slot ∷ list) }) }
    requires head { head ≡ head_of (S.known seat.old).heads bits }
    requires within { head < (S.known seat.old).heads }
    ensures own { S.shares seat.new }
    ensures home { (S.table seat.new ≡ S.table seat.old) × (S.rest seat.new ≡ S.rest seat.old) }
    ensures placed { Placed (S.known seat.old) (S.known seat.new) job.now (Some result) }
    ensures hand { (S.known seat.new).hand ≡ record (S.known seat.old).hand { free = None; walk = None } }
{
    let slot = seat.take_slot(bits);
    let link = seat.peek_head(head);
    seat.store_next(slot, link);
    seat.store_node(slot, bits);
    push(rt, seat, head, slot, link);
    slot
}

/// Stores a word that is absent, or tells that no slot is free.
fn add<R: Wait, S: Steps>(rt: &R, seat: &mut S, bits: u64, head: u32, job: &Job) -> Option<u32>
    requires own { S.shares seat.old }
    requires wanted { IsWanted (S.known seat.old) bits (word_of job.now) }
    requires may { MayMake (S.known seat.old).view job.now }
    requires hand { (level : ℕ) × (walk : Option Walk) × ((S.known seat.old).hand ≡ with_turn level walk) }
    requires head { head ≡ head_of (S.known seat.old).heads bits }
    requires within { head < (S.known seat.old).heads }
    ensures own { S.shares seat.new }
    ensures home { (S.table seat.new ≡ S.table seat.old) × (S.rest seat.new ≡ S.rest seat.old) }
    ensures placed { Placed (S.known seat.old) (S.known seat.new) job.now result }
    ensures hand { (S.known seat.new).hand ≡ record (S.known seat.old).hand { walk = (S.known seat.new).hand.walk } }
{
    claim_free(rt, seat);
    if seat.has_free() {
        Some(store(rt, seat, bits, head, job))
    } else {
        seat.give_empty(bits, job);
        None
    }
}

/// The slot of a word, with the turn of its level in hand: it is found on its chain, or stored.
fn find_or_add<R: Wait, S: Steps>(
    rt: &R,
    seat: &mut S,
    bits: u64,
    head: u32,
    level: u32,
    job: &Job,
) -> Option<u32>
    requires own { S.shares seat.old }
    requires reads { unpack_of bits ≡ Some (word_of job.now) }
    requires may { MayMake (S.known seat.old).view job.now × MayStore (S.known seat.old).view (word_of job.now) }
    requires level { level ≡ turn_of (S.known seat.old).view (word_of job.now) }
    requires hand { (S.known seat.old).hand ≡ with_turn level None }
    requires head { head ≡ head_of (S.known seat.old).heads bits }
    requires within { head < (S.known seat.old).heads }
    ensures own { S.shares seat.new }
    ensures home { (S.table seat.new ≡ S.table seat.old) × (S.rest seat.new ≡ S.rest seat.old) }
    ensures placed { Placed (S.known seat.old) (S.known seat.new) job.now result }
    ensures hand { (S.known seat.new).hand ≡ with_turn level (S.known seat.new).hand.walk }
{
    let found = find(seat, bits, head, level);
    match found {
        Some(slot) => Some(slot),
        None => add(rt, seat, bits, head, job),
    }
}

/// The slot of a word, if it is not there in a free one that it is stored in: looked for without a turn first, and then with it.
pub fn place<R: Wait, S: Steps>(
    rt: &R,
    seat: &mut S,
    bits: u64,
    level: u32,
    job: &Job,
) -> Option<u32>
    requires own { S.shares seat.old }
    requires reads { unpack_of bits ≡ Some (word_of job.now) }
    requires may { MayMake (S.known seat.old).view job.now × MayStore (S.known seat.old).view (word_of job.now) }
    requires level { (level ≡ turn_of (S.known seat.old).view (word_of job.now)) × (level < turns (S.known seat.old).view) }
    requires idle { (S.known seat.old).hand ≡ idle }
    ensures own { S.shares seat.new }
    ensures home { (S.table seat.new ≡ S.table seat.old) × (S.rest seat.new ≡ S.rest seat.old) }
    ensures placed { Placed (S.known seat.old) (S.known seat.new) job.now result }
    ensures idle { (S.known seat.new).hand ≡ idle }
{
    let head = scatter(bits, seat.heads() as usize) as u32;
    if let Some(slot) = look(seat, bits, head) {
        return Some(slot);
    }
    claim(rt, seat, level);
    let placed = find_or_add(rt, seat, bits, head, level, job);
    seat.give_turn(level);
    placed
}
