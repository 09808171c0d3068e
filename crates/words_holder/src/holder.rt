//! A seat with the order and the full hold, as a holder of its table.
ghost use Rattle.std.specs.Prelude.{◌≡◌, [], None, false};
ghost use Rattle.hold_store.specs.Held.{idle};
ghost use Rattle.words_holder.specs.Holders.{IsHolderAt, IsSpareRoom, knows, rest_of};
ghost use Rattle.words_rule.specs.HolderPlays.{NotesCounted, NotesStay};
ghost use Rattle.words_rule.specs.Holds.{IsFullHold};
ghost use Rattle.words_rule.specs.Passes.{in_hand, view};
ghost use Rattle.words_rule.specs.Views.{orders_of};

use crate::holder_shelf::HolderShelf;
use crate::told_steps;
use computed_cache::Memo;
use free_list::FreeList;
use function_laws::Function;
use hold_store::{HolderRoom, Holds};
use node_store::Order;
use std::collections::LinkedList;
use std::marker::Brand;
use std::sync::Wait;
use step_store::Home;
use words_rule::seat::{FullHold, Guard, Pass};
use words_rule::stepper::found_link;
use words_rule::view::{Draws, Held, SlotGeneration};

/// The order word that is still to be stored.
#[derive(Debug, Clone, Copy, PartialEq, Eq, Drop)]
pub struct Due {
    pub order: Order,
    pub level: u32,
}

/// What a seat knows of the journal, what it counts, and the orders that the entries tell. No value of it is made.
pub struct SeatRest {
    pub draws: Draws,
    pub raised: LinkedList<Held>,
    pub owed: LinkedList<Held>,
    pub above: LinkedList<Function>,
    pub generations: LinkedList<SlotGeneration>,
    pub told_variables: LinkedList<u32>,
    pub told_elements: LinkedList<u32>,
}

/// What no step of a holder changes: at which table it sits (how many words and slots that has, and its marks), and what it knows besides the store. No value of it is made.
pub struct HolderRest {
    pub words: usize,
    pub slots: usize,
    pub views_name: usize,
    pub atom: usize,
    pub block: usize,
    pub offset: usize,
    pub slot_names: LinkedList<usize>,
    pub seat: SeatRest,
}

/// No table, and nothing known.
impl Home<HolderRest> for Brand {
    ghost use Rattle.words_holder.specs.Holders.{no_rest};

    ghost number = { 0 };

    ghost rest = { no_rest };
}

/// What of its table a holder has given to who asks for the steps: the free list, and the computed table.
#[derive(Debug, Clone, Copy, PartialEq, Eq, Drop)]
pub struct Lent {
    pub free: bool,
    pub memo: bool,
}

/// A seat with both holds at its table, which has the free list and the computed table in hand, that without answers.
#[derive(Drop)]
pub struct Holder<'a, S: HolderShelf> {
    guard: &'a Guard<S>,
    pass: Pass<S>,
    list: FreeList,
    frame: S::Frame,
    memo: Memo,
    lent: Lent,
    renewed: Option<u32>,
    due: Option<Due>,
}

impl<'a, S: HolderShelf> Holds for Holder<'a, S> {
    ghost use Rattle.words_rule.specs.Passes.{view};
    ghost use Rattle.words_holder.specs.Holders.{IsHolderAt, home_of, knows};
    ghost use Rattle.words_holder.specs.HolderLaws.{holder_stands};

    type Rest = HolderRest;

    ghost known = { λ h. knows (view h.pass) h.renewed h.due h.lent };

    ghost holds = { λ h. IsHolderAt h.guard.now h.pass h.list h.memo h.due };

    ghost table = { λ h. h.pass.seat.table_id.views_name };

    ghost rest = { λ h. home_of h.pass.seat.table_id (view h.pass) };

    fn vars(&self) -> u32 {
        self.pass.sizes().vars
    }

    fn elements(&self) -> u32 {
        self.pass.sizes().elements
    }

    fn limit(&self) -> u32 {
        self.pass.sizes().slots
    }

    fn heads(&self) -> u32 {
        self.pass.sizes().heads
    }

    fn peek_turn(&self, level: u32) -> bool {
        self.guard.peek_turn(&self.pass, level)
    }

    fn peek_free(&self) -> bool {
        !self.lent.free
    }

    fn peek_head(&self, head: u32) -> u32 {
        u32::try_from(self.guard.peek_head(&self.pass, head)).unwrap_or(0)
    }

    fn take_turn(&mut self, level: u32) -> bool {
        self.guard.take_turn(&mut self.pass, level)
    }

    fn give_turn(&mut self, level: u32) {
        self.guard.give_turn(&mut self.pass, level);
    }

    fn take_free(&mut self) -> bool {
        if self.lent.free {
            return false;
        }
        self.lent.free = true;
        true
    }

    fn give_free(&mut self) {
        self.lent.free = false;
    }

    fn first_free(&self) -> Option<u32> {
        self.list.first()
    }

    fn taken(&self) -> u32 {
        self.list.taken()
    }

    fn load_node(&mut self, slot: u32) -> u64 {
        self.guard.load_held(&mut self.pass, slot)
    }

    fn load_head(&mut self, head: u32, level: u32) -> u32 {
        told_steps::load_whole::<S, Brand>(self.guard, &mut self.pass, head, level) as u32
    }

    fn load_next(&mut self, slot: u32) -> u32 {
        self.guard.load_next(&mut self.pass, slot) as u32
    }

    fn unlink_first(&mut self, head: u32, slot: u32, link: u32) {
        self.guard.unlink_first(&mut self.pass, head, slot, link);
        self.renewed = None;
    }

    fn unlink_later(&mut self, before: u32, slot: u32, link: u32) {
        self.guard.unlink_later(&mut self.pass, before, slot, link);
        self.renewed = None;
    }

    fn store_next(&mut self, slot: u32, link: u32) {
        self.guard.store_next(&mut self.pass, slot, link);
    }

    fn push_head(&mut self, head: u32, slot: u32, link: u32) -> u32 {
        let found = self.guard.push_head(&mut self.pass, head, slot, link);
        let found = found_link(found, link);
        if found != link {
            return found;
        }
        self.renewed = None;
        found
    }

    fn store_node(&mut self, slot: u32, bits: u64) {
        self.guard.add_node(&mut self.pass, slot, bits);
        self.renewed = None;
        self.list.take_first();
    }

    fn rewrite_node(&mut self, slot: u32, bits: u64) {
        self.guard.rewrite_node(&mut self.pass, slot, bits);
    }

    fn free_node(&mut self, slot: u32) {
        self.guard.free_node(&mut self.pass, slot);
        self.renewed = None;
        self.list.push(slot);
    }

    fn load_count(&mut self, slot: u32) -> u64 {
        self.guard.find_count(&mut self.pass, slot)
    }

    fn store_generation(&mut self, slot: u32, word: u64) {
        self.guard.renew(&mut self.pass, slot, word);
        self.renewed = Some(slot);
    }

    fn pin_count(&mut self, slot: u32) {
        self.guard.pin_slot(&mut self.pass, slot);
    }

    fn unpin_count(&mut self, slot: u32) {
        self.guard.unpin_slot(&mut self.pass, slot);
    }

    fn load_order(&mut self, order: Order, level: u32) -> u32 {
        self.guard.load_position(&mut self.pass, order, level) as u32
    }

    fn store_upper(&mut self, order: Order, level: u32, lower: u32) {
        let upper = self.guard.load_position(&mut self.pass, order, level) as u32;
        self.guard.exchange(&mut self.pass, order, level, lower);
        self.guard
            .store_level(&mut self.pass, order, upper, level + 1);
        self.guard.store_level(&mut self.pass, order, lower, level);
        self.due = Some(Due {
            order,
            level: level + 1,
        });
    }

    fn store_lower(&mut self, order: Order, level: u32, upper: u32) {
        self.guard
            .store_position(&mut self.pass, order, level, upper);
        self.due = None;
    }

    fn take_memo(&mut self) -> bool {
        if self.lent.memo {
            return false;
        }
        self.lent.memo = true;
        true
    }

    fn clear_memo(&mut self) {
        self.memo.clear();
    }

    fn give_memo(&mut self) {
        self.lent.memo = false;
    }

    ghost stands = { holder_stands };
}

impl<'a, S: HolderShelf> Holder<'a, S> {
    /// The seat of both holds as a holder of its table, and the room for what he notes: it learns the store, and waits for the free list and for the computed table, whose answers it drops. The functions of all slots that are counted are noted then.
    pub fn new<R: Wait>(
        rt: &R,
        guard: &'a Guard<S>,
        hold: FullHold<S>,
    ) -> (Holder<'a, S>, HolderRoom)
        requires own { IsFullHold guard.now hold }
        requires fresh { ((view hold.pass).counts.pins ≡ []) × ((view hold.pass).counts.zeros ≡ []) }
        requires idle { ((view hold.pass).hand.levels ≡ []) × ((view hold.pass).hand.free ≡ None) × ((view hold.pass).hand.link ≡ None) }
        requires empty { in_hand hold.pass ≡ [] }
        ensures holds { IsHolderAt result.0.guard.now result.0.pass result.0.list result.0.memo result.0.due }
        ensures home { (result.0.pass.seat.table_id ≡ hold.pass.seat.table_id) × (rest_of (view result.0.pass) ≡ record (rest_of (view hold.pass)) { above = (view result.0.pass).counts.above }) }
        ensures orders { orders_of (view result.0.pass).known ≡ orders_of (view hold.pass).known }
        ensures settled { ((view result.0.pass).known.half ≡ None) × ((view result.0.pass).counts.pins ≡ []) }
        ensures noted { NotesCounted (view result.0.pass) × NotesStay (view hold.pass) (view result.0.pass) }
        ensures idle { (knows (view result.0.pass) result.0.renewed result.0.due result.0.lent).hand ≡ idle }
        ensures room { IsSpareRoom (view result.0.pass).draws.slots result.1 }
    {
        let FullHold { mut pass } = hold;
        guard.learn(&mut pass);
        let memo = told_steps::await_memo(rt, guard, &mut pass);
        let (list, room, frame) = told_steps::await_list(rt, guard, &mut pass);
        let holder = Holder {
            guard,
            pass,
            list,
            frame,
            memo,
            lent: Lent {
                free: false,
                memo: false,
            },
            renewed: None,
            due: None,
        };
        (holder, room)
    }

    /// The full hold, once nothing is in hand, with the room that came with it. No slot is pinned, and no swap is half made.
    pub fn into_hold(self, room: HolderRoom) -> FullHold<S>
        requires own { IsHolderAt self.guard.now self.pass self.list self.memo self.due }
        requires idle { (knows (view self.pass) self.renewed self.due self.lent).hand ≡ idle }
        requires settled { (view self.pass).known.half ≡ None }
        requires room { IsSpareRoom (view self.pass).draws.slots room }
        ensures own { IsFullHold self.entry.guard.now result }
        ensures home { (result.pass.seat.table_id ≡ self.entry.pass.seat.table_id) × (rest_of (view result.pass) ≡ rest_of (view self.entry.pass)) }
        ensures left { view result.pass ≡ record (view self.entry.pass) { hand = record (view self.entry.pass).hand { memo = false; free = None } } }
        ensures empty { in_hand result.pass ≡ [] }
    {
        let Holder {
            guard,
            mut pass,
            list,
            frame,
            memo,
            lent: _,
            renewed: _,
            due: _,
        } = self;
        guard.return_free(&mut pass, S::of_list(list, room, frame));
        guard.return_memo(&mut pass, S::of_memo(memo));
        FullHold { pass }
    }
}
