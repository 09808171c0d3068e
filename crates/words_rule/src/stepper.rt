//! A seat with an operation share, as what a store that only grows asks for.
ghost use Rattle.std.specs.Prelude.{◌≡◌, ◌<◌, ◌^◌, [], length, All, None, true, false};
ghost use Rattle.function_laws.specs.declared.history.Entry.{Entry};
ghost use Rattle.node_slots.specs.Stores.{lent_room};
ghost use Rattle.step_store.specs.Knowing.{Stands, idle};
ghost use Rattle.words_rule.specs.Known.{Own, known_of};
ghost use Rattle.words_rule.specs.Hands.{IsIdle};
ghost use Rattle.words_rule.specs.Moves.{MayMove};
ghost use Rattle.words_rule.specs.Ordered.{is_ordering};
ghost use Rattle.words_rule.specs.Passes.{IsLiveOf, in_hand, view};
ghost use Rattle.words_rule.specs.Refusals.{MayRefuse, is_refused};
ghost use Rattle.words_rule.specs.Steppers.{IsStepper, knows};
ghost use Rattle.words_rule.specs.Tallies.{counts_after};
ghost use Rattle.words_rule.specs.Views.{MayTell, known_after, told_of};

use crate::known_steps;
use crate::seat::{Guard, OpShare, Pass};
use crate::shelf::Shelf;
use crate::told::Told;
use crate::view::Besides;
use edge_bits::Edge;
use node_store::{Key, Stack};
use std::alloc::Global;
use std::marker::Brand;
use step_store::{Home, Job, Steps};

/// A seat with an operation share at its table: the free list and the computed table, where it has them in hand, and the scratch beside it.
#[derive(Drop)]
pub struct Stepper<'a, S: Shelf> {
    pub(crate) guard: &'a Guard<S>,
    pub(crate) pass: Pass<S>,
    pub(crate) alloc: Global,
    pub(crate) free: Option<S>,
    pub(crate) memo: Option<S>,
    pub(crate) scratch: Option<Stack>,
}

/// No table, and nothing known.
impl Home<Besides> for Brand {
    ghost use Rattle.words_rule.specs.Steppers.{no_besides};

    ghost number = { 0 };

    ghost rest = { no_besides };
}

/// A link that was peeked at, which may be any.
fn peeked(link: u64) -> u32 {
    u32::try_from(link).unwrap_or(0)
}

/// A link that was found where this one was looked for: another where it is too great for one.
pub fn found_link(found: u64, link: u32) -> u32
    ensures same { result ≡ link → found ≡ link }
    ensures other { found ≡ link → result ≡ link }
{
    u32::try_from(found).unwrap_or(!link)
}

impl<'a, S: Shelf> Steps for Stepper<'a, S> {
    ghost use Rattle.words_rule.specs.Passes.{view};
    ghost use Rattle.node_slots.specs.Stores.{lent_room};
    ghost use Rattle.words_rule.specs.Steppers.{IsStepper, knows, stepper_stands};
    ghost use Rattle.words_rule.specs.Walkers.{besides_of};

    type Rest = Besides;

    ghost known = { λ s. knows (view s.pass) (lent_room s.scratch) };

    ghost shares = { IsStepper S.free_slots S.memo };

    ghost table = { λ s. s.pass.seat.table_id.views_name };

    ghost rest = { λ s. besides_of s.pass.seat.table_id (view s.pass) };

    fn vars(&self) -> u32 {
        self.pass.sizes.vars
    }

    fn elements(&self) -> u32 {
        self.pass.sizes.elements
    }

    fn limit(&self) -> u32 {
        self.pass.sizes.slots
    }

    fn heads(&self) -> u32 {
        self.pass.sizes.heads
    }

    fn peek_turn(&self, level: u32) -> bool {
        self.guard.peek_turn(&self.pass, level)
    }

    fn peek_free(&self) -> bool {
        self.guard.peek_free(&self.pass)
    }

    fn peek_head(&self, head: u32) -> u32 {
        peeked(self.guard.peek_head(&self.pass, head))
    }

    fn peek_next(&self, slot: u32) -> u32 {
        peeked(self.guard.peek_next(&self.pass, slot))
    }

    fn peek_node(&self, slot: u32) -> u64 {
        self.guard.peek_node(&self.pass, slot)
    }

    fn take_turn(&mut self, level: u32) -> bool {
        self.guard.take_turn(&mut self.pass, level)
    }

    fn give_turn(&mut self, level: u32) {
        self.guard.give_turn(&mut self.pass, level);
    }

    fn load_head(&mut self, head: u32, level: u32) -> u32 {
        known_steps::load_head::<S, Brand>(self.guard, &mut self.pass, head, level) as u32
    }

    fn load_next(&mut self, slot: u32) -> u32 {
        self.guard.load_next(&mut self.pass, slot) as u32
    }

    fn load_node(&mut self, slot: u32) -> u64 {
        known_steps::load_node::<S, Brand>(self.guard, &mut self.pass, &self.scratch, slot)
    }

    fn take_free(&mut self) -> bool {
        if self.free.is_some() {
            return false;
        }
        match self.guard.take_free(&mut self.pass) {
            Some(content) => {
                self.free = Some(content);
                true
            }
            None => false,
        }
    }

    fn has_free(&self) -> bool {
        match &self.free {
            Some(content) => content.has_slot(),
            None => false,
        }
    }

    fn take_slot(&mut self, bits: u64) -> u32 {
        match self.free.take() {
            Some(mut content) => {
                let slot = content.next_slot();
                known_steps::take_slot::<S, Brand>(
                    self.guard,
                    &mut self.pass,
                    &self.scratch,
                    content,
                    bits,
                );
                slot
            }
            None => unreachable!(),
        }
    }

    fn give_empty(&mut self, _bits: u64, job: &Job) {
        match self.free.take() {
            Some(content) => known_steps::give_empty::<S, Brand>(
                self.guard,
                &mut self.pass,
                content,
                job,
            ),
            None => unreachable!(),
        }
    }

    fn store_next(&mut self, slot: u32, link: u32) {
        self.guard.store_next(&mut self.pass, slot, link);
    }

    fn store_node(&mut self, slot: u32, bits: u64) {
        known_steps::store_node::<S, Brand>(self.guard, &mut self.pass, &self.scratch, slot, bits);
    }

    fn push_head(&mut self, head: u32, slot: u32, link: u32) -> u32 {
        let found = self.guard.push_head(&mut self.pass, head, slot, link);
        found_link(found, link)
    }

    fn load_level(&mut self, var: u32) -> u32 {
        self.guard.load_level(&mut self.pass, var) as u32
    }

    fn take_memo(&mut self) -> bool {
        if self.memo.is_some() {
            return false;
        }
        match known_steps::take_memo::<S, Brand>(self.guard, &mut self.pass, &self.scratch) {
            Some(content) => {
                self.pass.turn();
                self.memo = Some(content);
                true
            }
            None => false,
        }
    }

    fn recall(&mut self, key: &Key) -> Option<Edge> {
        match &self.memo {
            Some(content) => content.get(key),
            None => None,
        }
    }

    fn remember(&mut self, key: Key, edge: Edge) {
        if let Some(content) = &mut self.memo {
            content.put(key, edge);
        }
    }

    fn give_memo(&mut self) {
        match self.memo.take() {
            Some(content) => {
                self.pass.turn();
                known_steps::give_memo::<S, Brand>(
                    self.guard,
                    &mut self.pass,
                    &self.scratch,
                    content,
                );
            }
            None => unreachable!(),
        }
    }

    fn take_scratch(&mut self) -> Stack {
        match self.scratch.take() {
            Some(mut stack) => {
                stack.truncate(0);
                stack
            }
            None => Stack::new(self.alloc),
        }
    }

    fn give_scratch(&mut self, stack: Stack) {
        self.scratch = Some(stack);
    }

    ghost stands = { stepper_stands S.free_slots S.memo };
}

impl<S: Shelf> Guard<S> {
    /// The seat of an operation share, as what a store that only grows asks for, with the scratch that lies beside it.
    pub fn stepper<'a>(
        &'a self,
        alloc: Global,
        share: OpShare<S>,
        scratch: Option<Stack>,
    ) -> Stepper<'a, S>
        requires own { IsLiveOf self.now share.pass × IsIdle (view share.pass).hand }
        requires stands { (o : Own) → o.fulls < 18446744073709551616 → Stands (known_of (view share.pass) o) }
        requires few { (view share.pass).work.fulls < 18446744073709551616 }
        requires idle { ((view share.pass).hand.levels ≡ []) × ((view share.pass).hand.free ≡ None) × ((view share.pass).hand.link ≡ None) × ((view share.pass).hand.memo ≡ false) }
        requires empty { in_hand share.pass ≡ [] }
        ensures own { IsStepper S.free_slots S.memo result × (result.pass ≡ share.pass) × (result.scratch ≡ scratch) }
        ensures idle { (knows (view result.pass) (lent_room result.scratch)).hand ≡ idle }
    {
        let OpShare { pass } = share;
        Stepper {
            guard: self,
            pass,
            alloc,
            free: None,
            memo: None,
            scratch,
        }
    }
}

impl<'a, S: Shelf> Stepper<'a, S> {
    /// Draws the place of a call that changes no order. What the seat has in hand stays there: so a refused operation is told with the
    /// empty free list and the turn of its level in hand.
    pub fn draw<E: Told>(&mut self) -> u64
        requires own { IsStepper S.free_slots S.memo self.old }
        requires room { length (view self.old.pass).draws.entries < 2 ^ 48 }
        requires step { MayTell (view self.old.pass).draws E.told }
        requires moves { MayMove (view self.old.pass).draws (view self.old.pass).counts E.told }
        requires plain { is_ordering E.told.call ≡ false }
        requires full { is_refused E.told ≡ true → MayRefuse (view self.old.pass) }
        ensures own { IsStepper S.free_slots S.memo self.new }
        ensures same { (knows (view self.new.pass) (lent_room self.new.scratch) ≡ knows (view self.old.pass) (lent_room self.old.scratch)) × (self.new.pass.seat.table_id ≡ self.old.pass.seat.table_id) }
        ensures drew { view self.new.pass ≡ record (view self.old.pass) { draws = told_of (view self.old.pass).draws result E.told; known = known_after (view self.old.pass).known E.told; counts = counts_after E.told.change (view self.old.pass).draws.cells (view self.old.pass).draws.rows (view self.old.pass).counts } }
        ensures later { All (λ (e : Entry). e.place < result) (view self.old.pass).draws.entries }
    {
        self.guard.place::<E>(&mut self.pass)
    }

    /// The operation share, and the scratch, once nothing is in hand.
    pub fn into_share(self) -> (OpShare<S>, Option<Stack>)
        requires own { IsStepper S.free_slots S.memo self }
        requires idle { (knows (view self.pass) (lent_room self.scratch)).hand ≡ idle }
        ensures share { IsLiveOf self.entry.guard.now result.0.pass × IsIdle (view result.0.pass).hand × (result.0.pass ≡ self.entry.pass) × (result.1 ≡ self.entry.scratch) }
        ensures empty { in_hand result.0.pass ≡ [] }
    {
        let Stepper {
            guard: _,
            pass,
            alloc: _,
            free,
            memo,
            scratch,
        } = self;
        match (free, memo) {
            (None, None) => {}
            _ => unreachable!(),
        }
        (OpShare { pass }, scratch)
    }
}
