//! A holder at its table, as a whole store.

ghost use Rattle.std.specs.Prelude.{◌≡◌, ℕ, ◌+◌, ◌<◌, ◌≤◌, ◌^◌, IfNone, IfOk, IfSome, None, Some, length, replicate, true, false};
ghost use Rattle.edge_bits.specs.Reading.{slots_of};
ghost use Rattle.edge_bits.specs.Words.{IsInRange, unpack_of};
ghost use Rattle.edge_bits.specs.declared.words.Word.TheVariants.{Inner};
ghost use Rattle.function_laws.specs.Sizes.{in_order};
ghost use Rattle.held_slots.specs.Linked.{variable_of};
ghost use Rattle.node_slots.specs.Placing.{HasNoChild, IsChild};
ghost use Rattle.node_slots.specs.Stores.{is_set};
ghost use Rattle.node_store.specs.Changes.{var_of};
ghost use Rattle.node_store.specs.Contents.{opened_of, var_at as number_at};
ghost use Rattle.hold_store.specs.Held.{IsReady, ZeroStays, idle};

use crate::chains::level_of_variable;
use crate::held_words::HeldWords;
use crate::holds::Holds;
use crate::nodes::{exchange_levels, free_slot, rewrite_slot};
use crate::placing::place_node;
use crate::turns::{claim_no_answers, give_all, take_all};
use edge_bits::{EMPTY_SLOT, FIRST_ELEMENT, Memory, Node, Word, pack, unpack};
use held_slots::SlotNotes;
use node_store::binary::flip_if;
use node_store::whole::Edge;
use node_store::{Opened, Order, Whole};
use std::alloc::Global;
use std::marker::{Model, PhantomData};
use std::sync::Wait;
use step_store::Home;

/// What lies with the free list of a table, and is in its holder's hand: room for the words of all slots, the marks, pins and links, and for the arcs. None of its calls takes memory.
#[derive(Drop)]
pub struct HolderRoom {
    words: HeldWords,
    notes: SlotNotes,
}

impl HolderRoom {
    /// Room for so many slots.
    pub fn new(alloc: Global, limit: u32) -> Result<HolderRoom, Memory>
        requires { limit < 2 ^ 23 }
        ensures words { IfOk result (λ r. length r.words ≡ limit) }
        ensures marks { IfOk result (λ r. length r.notes.marks ≡ limit) }
        ensures pins { IfOk result (λ r. r.notes.pins ≡ replicate limit 0) }
    {
        let words = HeldWords::new(alloc, limit)?;
        let notes = SlotNotes::new(alloc, limit)?;
        Ok(HolderRoom { words, notes })
    }
}

/// What a sweep, a swap and a sift work over: a holder with the turns of all levels and the free list in hand, and the words as it loaded or stored them. Others count slots up and down meanwhile. It waits for turns, for the free list and for the computed table, which are all at home under the full hold.
pub struct Holding<'a, R: Wait, S: Holds, E: Home<S::Rest>> {
    rt: &'a R,
    seat: S,
    words: HeldWords,
    notes: SlotNotes,
    sweeping: bool,
    home: PhantomData<E>,
}

impl<'a, R: Wait, S: Holds, E: Home<S::Rest>> Model for Holding<'a, R, S, E> {
    ghost use Rattle.std.specs.Prelude.{◌≡◌, ℕ, Bool, List};
    ghost use Rattle.hold_store.specs.Noted.{IsHolding};

    ghost Value = { S × List ℕ × Bool };

    ghost view = { λ s. (s.seat, s.notes.marks, s.sweeping) };

    ghost invariant = { λ s. S.holds s.seat × (S.table s.seat ≡ E.number) × (S.rest s.seat ≡ E.rest) × IsHolding (S.known s.seat) s.words s.notes s.sweeping };
}

/// Loads the words of all slots that may be in use.
fn load_words<S: Holds>(seat: &mut S, words: &mut HeldWords)
    requires own { S.holds seat.old }
    requires ready { IsReady (S.known seat.old) }
    requires long { length words.old ≡ (S.known seat.old).content.limit }
    ensures own { S.holds seat.new }
    ensures home { (S.table seat.new ≡ S.table seat.old) × (S.rest seat.new ≡ S.rest seat.old) }
    ensures same { S.known seat.new ≡ S.known seat.old }
    ensures words { slots_of words.new ≡ (S.known seat.old).content.word }
    ensures long { length words.new ≡ length words.old }
{
    words.clear();
    let taken = seat.taken();
    for slot in 0..taken {
        let bits = seat.load_node(slot);
        words.set(slot, bits);
    }
}

/// The variable at a level of an order.
fn var_at<S: Holds>(seat: &mut S, order: Order, level: u32) -> u32
    requires own { S.holds seat.old }
    requires settled { (S.known seat.old).hand.pending ≡ None }
    requires within { level < length (in_order (S.known seat.old).content.orders order) }
    ensures own { S.holds seat.new }
    ensures home { (S.table seat.new ≡ S.table seat.old) × (S.rest seat.new ≡ S.rest seat.old) }
    ensures same { S.known seat.new ≡ S.known seat.old }
    ensures var { result ≡ number_at (S.known seat.old).content order level }
    ensures few { result < 2 ^ 15 }
{
    let number = seat.load_order(order, level);
    match order {
        Order::Variables => number,
        Order::Elements => FIRST_ELEMENT + number,
    }
}

/// The variable of the node that the bits are, if they are one.
fn variable_of(bits: u64) -> Option<u32>
    ensures { result ≡ variable_of (unpack_of bits) }
{
    match unpack(bits) {
        Some(Word::Inner(node)) => Some(node.var as u32),
        _ => None,
    }
}

/// The variable of the node that the bits are, or 0.
fn variable_in(bits: u64) -> u32
    ensures var { result ≡ var_of (unpack_of bits) }
    ensures few { result < 2 ^ 15 }
{
    match unpack(bits) {
        Some(Word::Inner(node)) => node.var as u32,
        _ => 0,
    }
}

/// A word, with the complement of the edge to it pushed to both children.
fn opened(word: Word, complement: bool) -> Opened
    requires { IsInRange word }
    ensures { result ≡ opened_of word complement }
{
    match word {
        Word::Leaf(value) => Opened::Leaf(if complement { 0 } else { value }),
        Word::Inner(node) => {
            let hi = Edge::new(node.hi, false);
            Opened::Inner(
                node.var as u32,
                flip_if(hi, complement),
                flip_if(node.lo, complement),
            )
        }
    }
}

/// The bits of a node's word.
fn node_bits(var: u32, hi: u32, lo: Edge) -> u64
    requires { (var < 2 ^ 15) × (hi < 2 ^ 23) × (lo.index < 2 ^ 23) }
    ensures { unpack_of result ≡ Some (Inner (record { var = var; hi = hi; lo = lo })) }
{
    pack(Word::Inner(Node {
        var: var as u16,
        hi,
        lo,
    }))
}

/// The child that a node would be, if it would be one.
fn only_child(var: u32, hi: Edge, lo: Edge) -> Option<Edge>
    ensures child { IfSome result (IsChild var hi lo) }
    ensures none { IfNone result (HasNoChild var hi lo) }
{
    if var < FIRST_ELEMENT {
        if hi == lo { Some(hi) } else { None }
    } else if hi.index() == EMPTY_SLOT {
        Some(lo)
    } else {
        None
    }
}

impl<'a, R: Wait, S: Holds, E: Home<S::Rest>> Holding<'a, R, S, E> {
    ghost use Rattle.hold_store.specs.Noted.{content_of};

    /// The store of a holder with nothing in hand. It takes the turns of all levels and the free list, and loads the words.
    pub fn new(rt: &'a R, seat: S, room: HolderRoom) -> Holding<'a, R, S, E>
        requires own { S.holds seat }
        requires home { (S.table seat ≡ E.number) × (S.rest seat ≡ E.rest) }
        requires idle { (S.known seat).hand ≡ idle }
        requires fits { (length room.words ≡ (S.known seat).content.limit) × (length room.notes.marks ≡ (S.known seat).content.limit) × (length room.notes.pins ≡ (S.known seat).content.limit) }
        requires pins { is_set room.notes.pins ≡ (S.known seat).content.pinned }
        ensures content { (S.known result.0).content ≡ (S.known seat).content }
        ensures idle { result.2 ≡ false }
    {
        let mut seat = seat;
        let HolderRoom {
            mut words,
            mut notes,
        } = room;
        take_all(rt, &mut seat);
        load_words(&mut seat, &mut words);
        notes.unlink();
        Holding {
            rt,
            seat,
            words,
            notes,
            sweeping: false,
            home: PhantomData,
        }
    }

    /// The holder, which is still the one that it was, with nothing in hand. No sweep is on.
    pub fn into_seat(self) -> (S, HolderRoom)
        requires idle { self.2 ≡ false }
        ensures own { S.holds result.0 }
        ensures home { (S.table result.0 ≡ E.number) × (S.rest result.0 ≡ E.rest) }
        ensures idle { (S.known result.0).hand ≡ idle }
        ensures content { (S.known result.0).content ≡ (S.known self.entry.0).content }
        ensures fits { (length result.1.words ≡ (S.known result.0).content.limit) × (length result.1.notes.marks ≡ (S.known result.0).content.limit) × (length result.1.notes.pins ≡ (S.known result.0).content.limit) }
        ensures pins { is_set result.1.notes.pins ≡ (S.known result.0).content.pinned }
    {
        let Holding {
            rt: _,
            mut seat,
            words,
            notes,
            sweeping: _,
            home: _,
        } = self;
        give_all(&mut seat);
        (seat, HolderRoom { words, notes })
    }
}

impl<'a, R: Wait, S: Holds, E: Home<S::Rest>> Whole for Holding<'a, R, S, E> {
    ghost use Rattle.hold_store.specs.Held.{ZeroStays, ZeroStays-none, ZeroStays-both, ZeroStays-zero};
    ghost use Rattle.hold_store.specs.Noted.{content_of};

    ghost view = { λ v. content_of (S.known v.0) v.1 v.2 };

    ghost others = { ZeroStays };

    fn levels_of(&mut self, order: Order) -> u32 {
        match order {
            Order::Variables => self.seat.vars(),
            Order::Elements => self.seat.elements(),
        }
    }

    fn var_of(&mut self, order: Order, level: u32) -> u32 {
        var_at(&mut self.seat, order, level)
    }

    fn nodes_of(&mut self, order: Order, level: u32) -> u32 {
        let var = var_at(&mut self.seat, order, level);
        self.words.nodes_of(var)
    }

    fn next_of(&mut self, order: Order, level: u32, from: u32) -> Option<u32> {
        let var = var_at(&mut self.seat, order, level);
        self.notes
            .next(self.words.words(), var, from, self.sweeping)
    }

    fn next_leaf(&mut self, from: u32) -> Option<u32> {
        let _ = &self.seat;
        self.words.next_leaf(from)
    }

    fn open(&mut self, edge: Edge) -> Opened {
        let _ = &self.seat;
        match unpack(self.words.word(edge.index())) {
            Some(word) => opened(word, edge.complement()),
            None => unreachable!(),
        }
    }

    fn count_of(&mut self, slot: u32) -> u32 {
        (self.seat.load_count(slot) % (1 << 32)) as u32
    }

    fn in_use(&mut self) -> u32 {
        let _ = &self.seat;
        self.words.in_use()
    }

    fn room(&mut self) -> u32 {
        self.seat.limit() - self.words.in_use()
    }

    fn limit(&mut self) -> u32 {
        self.seat.limit()
    }

    fn rewrite(&mut self, slot: u32, var: u32, hi: Edge, lo: Edge) {
        let was = variable_in(self.words.word(slot));
        let bits = node_bits(var, hi.index(), lo);
        self.notes.prepare(self.words.words(), was);
        self.notes.prepare(self.words.words(), var);
        rewrite_slot(self.rt, &mut self.seat, slot, bits);
        self.words.set(slot, bits);
        self.notes.moved(slot, was, var);
    }

    fn add(&mut self, var: u32, hi: Edge, lo: Edge) -> Edge {
        let _ = &self.seat;
        if let Some(child) = only_child(var, hi, lo) {
            return child;
        }
        let bits = node_bits(var, hi.index(), flip_if(lo, hi.complement()));
        let level = level_of_variable(&self.seat, var);
        self.notes.prepare(self.words.words(), var);
        let slot = place_node(self.rt, &mut self.seat, bits, level);
        self.words.set(slot, bits);
        self.notes.added(slot, var);
        Edge::new(slot, hi.complement())
    }

    fn sweep_in(&mut self) {
        claim_no_answers(self.rt, &mut self.seat);
        self.notes.unmark_all();
        self.notes.unlink_stale();
        self.sweeping = true;
    }

    fn sweep_out(&mut self) {
        self.seat.give_memo();
        self.sweeping = false;
    }

    fn free(&mut self, slot: u32) {
        let was = variable_of(self.words.word(slot));
        free_slot(&mut self.seat, slot);
        self.words.set(slot, 0);
        self.notes.freed(slot, was);
    }

    fn exchange(&mut self, order: Order, level: u32) {
        exchange_levels(&mut self.seat, order, level);
    }

    fn mark(&mut self, slot: u32) {
        self.notes.set_mark(slot, true);
    }

    fn unmark(&mut self, slot: u32) {
        self.notes.set_mark(slot, false);
    }

    fn is_marked(&mut self, slot: u32) -> bool {
        let _ = &self.seat;
        self.notes.is_marked(slot)
    }

    fn pin(&mut self, slot: u32) {
        self.seat.pin_count(slot);
        self.notes.set_pin(slot, true);
    }

    fn unpin(&mut self, slot: u32) {
        self.seat.unpin_count(slot);
        self.notes.set_pin(slot, false);
    }

    fn is_pinned(&mut self, slot: u32) -> bool {
        let _ = &self.seat;
        self.notes.is_pinned(slot)
    }

    fn is_named(&mut self, slot: u32) -> bool {
        let _ = &self.seat;
        self.words.is_named(slot)
    }

    ghost others_none = { ZeroStays-none };

    ghost others_both = { ZeroStays-both };

    ghost others_zero = { ZeroStays-zero };
}
