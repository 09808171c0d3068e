//! A store in the hands of its one holder, who sweeps it and reorders it.

ghost use Rattle.std.specs.Prelude.{◌≡◌, ◌+◌, ◌<◌, ◌≤◌, length};
ghost use Rattle.std.specs.List.{swap};
ghost use Rattle.node_slots.specs.Stores.{AreInverse};

use crate::count_table::CountTable;
use crate::node_table::{NodeTable, next_number, pack};
use crate::plain_store::{only_child, opened};
use computed_cache::Memo;
use edge_bits::{Edge, FIRST_ELEMENT, MOST_LEVELS, Node, Word, unpack};
use handle_count::next_generation;
use held_slots::SlotNotes;
use node_store::binary::flip_if;
use node_store::{Opened, Order, Stack, Whole};
use std::alloc::Global;
use std::marker::Model;

/// Two neighbours of an order, whose swap is half made: some nodes of the upper one were rewritten.
#[derive(Clone, Copy, PartialEq, Eq, Drop)]
pub struct HalfSwap {
    pub upper: u32,
    pub lower: u32,
}

/// A `PlainStore` in the hands of its one holder. Operators don't see it: in the middle of a swap the levels of its nodes don't tell what depends on what, and an operator could not work over them.
///
/// It remembers no answer of an operator, and no function is due.
#[derive(Drop)]
pub struct HeldStore {
    pub(crate) alloc: Global,
    pub(crate) variable_levels: Vec<u32>,
    pub(crate) element_levels: Vec<u32>,
    pub(crate) variables_at: Vec<u32>,
    pub(crate) elements_at: Vec<u32>,
    pub(crate) nodes: NodeTable,
    pub(crate) counts: CountTable,
    pub(crate) notes: SlotNotes,
    pub(crate) sweeping: bool,
    pub(crate) fulls: u64,
    pub(crate) memo: Memo,
    pub(crate) scratch: Option<Stack>,
    pub(crate) half: Option<HalfSwap>,
}

impl Model for HeldStore {
    ghost use Rattle.std.specs.Prelude.{None};
    ghost use Rattle.node_slots.specs.Held.{Held, IsHeld};
    ghost use Rattle.node_slots.specs.Stores.{lent_room};

    ghost Value = { Held };

    ghost view = { λ s. record { plain = record { variable_levels = s.variable_levels.items; element_levels = s.element_levels.items; variables_at = s.variables_at.items; elements_at = s.elements_at.items; words = s.nodes; counts = s.counts; marks = s.notes.marks; pins = s.notes.pins; sweeping = s.sweeping; fulls = s.fulls; due = None; memo = s.memo; scratch_room = lent_room s.scratch }; half = s.half; chain = s.notes.chain } };

    ghost invariant = { λ s. IsHeld (record { plain = record { variable_levels = s.variable_levels.items; element_levels = s.element_levels.items; variables_at = s.variables_at.items; elements_at = s.elements_at.items; words = s.nodes; counts = s.counts; marks = s.notes.marks; pins = s.notes.pins; sweeping = s.sweeping; fulls = s.fulls; due = None; memo = s.memo; scratch_room = lent_room s.scratch }; half = s.half; chain = s.notes.chain }) };
}

/// Exchanges what stands at a level and at the next, with their levels.
fn exchange_places(levels: &mut [u32], at: &mut [u32], level: usize)
    requires inverse { AreInverse levels.old at.old }
    requires within { level + 1 < length at.old }
    requires few { length at.old ≤ MOST_LEVELS }
    ensures inverse { AreInverse levels.new at.new }
    ensures at { at.new ≡ swap at.old level (level + 1) }
    ensures as_many { length levels.new ≡ length levels.old }
{
    let upper = at[level];
    let lower = at[level + 1];
    at.swap(level, level + 1);
    levels[upper as usize] = level as u32 + 1;
    levels[lower as usize] = level as u32;
}

impl HeldStore {
    ghost use Rattle.std.specs.Prelude.{◌^◌, Some};
    ghost use Rattle.edge_bits.specs.declared.edges.Kind.{Kind};
    ghost use Rattle.function_laws.specs.Sizes.{in_order};
    ghost use Rattle.node_store.specs.Changes.{pair_of};
    ghost use Rattle.node_store.specs.Contents.{level_of, var_at as number_at};
    ghost use Rattle.node_store.specs.Views.{IsVariable};
    ghost use Rattle.node_slots.specs.Held.{held_view, pair_in};
    ghost use Rattle.node_slots.specs.Stores.{level_in, plain_view, slots};
    ghost use Rattle.held_slots.specs.Linked.{variable_of};

    /// The level of a variable or an element in its order.
    fn level_of(&self, var: u32) -> u32
        requires { (k : Kind) × IsVariable k (plain_view self.now.plain) var }
        ensures stored { result ≡ level_in self.now.plain var }
        ensures level { result ≡ level_of (held_view self.now).orders var }
        ensures few { result < MOST_LEVELS }
    {
        if var < FIRST_ELEMENT {
            self.variable_levels[var as usize]
        } else {
            self.element_levels[(var - FIRST_ELEMENT) as usize]
        }
    }

    /// The variable at a level of an order.
    #[inline(always)]
    fn number_at(&self, order: Order, level: u32) -> u32
        requires { level < length (in_order (held_view self.now).orders order) }
        ensures number { result ≡ number_at (held_view self.now) order level }
        ensures few { result < 2 ^ 15 }
    {
        match order {
            Order::Variables => self.variables_at[level as usize],
            Order::Elements => FIRST_ELEMENT + self.elements_at[level as usize],
        }
    }

    /// The variable of the node in a slot, if it has one.
    fn variable_in(&self, slot: u32) -> Option<u32>
        ensures { result ≡ variable_of (slots self.now.plain slot) }
    {
        match unpack(self.nodes.word(slot)) {
            Some(Word::Inner(node)) => Some(node.var as u32),
            _ => None,
        }
    }

    /// The swap that begins, or goes on, where a node of one variable becomes one of the other: the two stand at neighbouring levels.
    fn half_with(&self, was: u32, var: u32) -> HalfSwap
        requires was { (k : Kind) × IsVariable k (plain_view self.now.plain) was }
        requires var { (k : Kind) × IsVariable k (plain_view self.now.plain) var }
        ensures { pair_in (Some result) ≡ Some (pair_of (held_view self.now) was var) }
    {
        if self.level_of(was) + 1 == self.level_of(var) {
            HalfSwap {
                upper: was,
                lower: var,
            }
        } else {
            HalfSwap {
                upper: var,
                lower: was,
            }
        }
    }
}

impl Whole for HeldStore {
    ghost use Rattle.node_slots.specs.Held.{Alone, Alone-none, Alone-both, Alone-zero, held_view};

    ghost view = { held_view };

    ghost others = { Alone };

    fn levels_of(&mut self, order: Order) -> u32 {
        match order {
            Order::Variables => self.variables_at.len() as u32,
            Order::Elements => self.elements_at.len() as u32,
        }
    }

    fn var_of(&mut self, order: Order, level: u32) -> u32 {
        // The store is sound before the call, and so after it.
        let _ = &self.nodes;
        self.number_at(order, level)
    }

    fn nodes_of(&mut self, order: Order, level: u32) -> u32 {
        let var = self.number_at(order, level);
        self.nodes.nodes_of(var)
    }

    #[inline(always)]
    fn next_of(&mut self, order: Order, level: u32, from: u32) -> Option<u32> {
        let var = self.number_at(order, level);
        self.notes
            .next(self.nodes.words(), var, from, self.sweeping)
    }

    fn next_leaf(&mut self, from: u32) -> Option<u32> {
        next_number(self.nodes.words(), from)
    }

    fn open(&mut self, edge: Edge) -> Opened {
        match unpack(self.nodes.word(edge.index())) {
            Some(word) => opened(word, edge.complement()),
            None => unreachable!(),
        }
    }

    fn count_of(&mut self, slot: u32) -> u32 {
        let count = (self.counts.word(slot) % (1 << 32)) as u32;
        if self.notes.is_pinned(slot) {
            count + 1
        } else {
            count
        }
    }

    fn in_use(&mut self) -> u32 {
        self.nodes.in_use() as u32
    }

    fn room(&mut self) -> u32 {
        self.nodes.limit() - self.nodes.in_use() as u32
    }

    fn limit(&mut self) -> u32 {
        self.nodes.limit()
    }

    fn rewrite(&mut self, slot: u32, var: u32, hi: Edge, lo: Edge) {
        let Some(Word::Inner(old)) = unpack(self.nodes.word(slot)) else {
            unreachable!()
        };
        let was = old.var as u32;
        let half = self.half_with(was, var);
        let node = Node {
            var: var as u16,
            hi: hi.index(),
            lo,
        };
        self.notes.prepare(self.nodes.words(), was);
        self.notes.prepare(self.nodes.words(), var);
        self.nodes.rewrite(slot, Word::Inner(node));
        self.notes.moved(slot, was, var);
        self.half = Some(half);
    }

    fn add(&mut self, var: u32, hi: Edge, lo: Edge) -> Edge {
        // The words make the child denote the node's function.
        let _ = &self.nodes;
        if let Some(child) = only_child(var, hi, lo) {
            return child;
        }
        let word = Word::Inner(Node {
            var: var as u16,
            hi: hi.index(),
            lo: flip_if(lo, hi.complement()),
        });
        self.notes.prepare(self.nodes.words(), var);
        match self.nodes.place(pack(&word), word) {
            Some(slot) => {
                self.notes.added(slot, var);
                Edge::new(slot, hi.complement())
            }
            None => unreachable!(),
        }
    }

    fn sweep_in(&mut self) {
        self.notes.unmark_all();
        self.notes.unlink_stale();
        self.sweeping = true;
    }

    fn sweep_out(&mut self) {
        self.sweeping = false;
    }

    fn free(&mut self, slot: u32) {
        let was = self.variable_in(slot);
        self.nodes.free(slot);
        self.notes.freed(slot, was);
        let word = self.counts.word(slot);
        self.counts.write(slot, next_generation(word));
    }

    fn exchange(&mut self, order: Order, level: u32) {
        self.half = None;
        let level = level as usize;
        match order {
            Order::Variables => {
                exchange_places(&mut self.variable_levels, &mut self.variables_at, level)
            }
            Order::Elements => {
                exchange_places(&mut self.element_levels, &mut self.elements_at, level)
            }
        }
    }

    fn mark(&mut self, slot: u32) {
        self.notes.set_mark(slot, true);
    }

    fn unmark(&mut self, slot: u32) {
        self.notes.set_mark(slot, false);
    }

    fn is_marked(&mut self, slot: u32) -> bool {
        self.notes.is_marked(slot)
    }

    fn pin(&mut self, slot: u32) {
        self.notes.set_pin(slot, true);
    }

    fn unpin(&mut self, slot: u32) {
        self.notes.set_pin(slot, false);
    }

    fn is_pinned(&mut self, slot: u32) -> bool {
        self.notes.is_pinned(slot)
    }

    fn is_named(&mut self, slot: u32) -> bool {
        self.nodes.is_named(slot)
    }

    ghost others_none = { Alone-none };

    ghost others_both = { Alone-both };

    ghost others_zero = { Alone-zero };
}
