//! The slots of one variable, gathered.

ghost use Rattle.std.specs.Prelude.{◌≡◌, ℕ, ◌<◌, ◌≤◌, ◌^◌, IfOk, Option, Some, None, length, max, vec_capacity, false, true};
ghost use Rattle.edge_bits.specs.Reading.{slots_of};
ghost use Rattle.held_slots.specs.Linked.{IsExact, IsLinkedAgain, LeadsThrough};
ghost use Rattle.held_slots.specs.SlotSets.{IsNext, IsPut, has, is_same};

use crate::links::{gather, link_members};
use crate::slot_set::SlotSet;
use edge_bits::Memory;
use std::alloc::Global;
use std::marker::Model;

/// The slots with a node of one variable, in a set; or of no variable, and none.
#[derive(Drop)]
pub(crate) struct VariableSlots {
    variable: Option<u32>,
    slots: SlotSet,
}

impl Model for VariableSlots {
    ghost use Rattle.held_slots.specs.SlotSets.{Gathered};

    ghost Value = { Gathered };

    ghost view = { λ g. record { variable = g.variable; slots = g.slots } };
}

/// Whether both are a variable, and the same.
fn are_same(variable: Option<u32>, other: Option<u32>) -> bool
    ensures { result ≡ is_same variable other }
{
    match (variable, other) {
        (Some(variable), Some(other)) => variable == other,
        _ => false,
    }
}

impl VariableSlots {
    /// No variable, and room for slots below this limit.
    pub(crate) fn new(alloc: Global, limit: u32) -> Result<VariableSlots, Memory>
        requires { limit < 2 ^ 23 }
        ensures limit { IfOk result (λ g. g.slots.limit ≡ limit) }
        ensures none { IfOk result (λ g. g.variable ≡ None) }
    {
        let slots = SlotSet::new(alloc, limit)?;
        Ok(VariableSlots {
            variable: None,
            slots,
        })
    }

    /// Whether the slots are those of a variable.
    pub(crate) fn is_of(&self, var: u32) -> bool
        ensures { result ≡ is_same self.now.variable (Some var) }
    {
        are_same(self.variable, Some(var))
    }

    /// The variable, or none.
    pub(crate) fn variable(&self) -> Option<u32>
        ensures { result ≡ self.now.variable }
    {
        self.variable
    }

    /// The least of the slots from this one on, or none.
    pub(crate) fn next(&self, from: u32) -> Option<u32>
        ensures { IsNext (has self.now.slots) from result }
    {
        self.slots.next(from)
    }

    /// A slot has a node of this variable now, or none.
    pub(crate) fn change(&mut self, slot: u32, now: Option<u32>)
        requires { slot < self.old.slots.limit }
        ensures { IsPut slot now self.old self.new }
    {
        if are_same(self.variable, now) {
            self.slots.insert(slot);
        } else {
            self.slots.remove(slot);
        }
    }

    /// No variable, and no slot.
    pub(crate) fn clear(&mut self)
        ensures variable { self.new.variable ≡ None }
        ensures none { (s : ℕ) → has self.new.slots s ≡ false }
        ensures limit { self.new.slots.limit ≡ self.old.slots.limit }
    {
        self.variable = None;
        self.slots.clear();
    }

    /// Links the slots, by rising slots, and tells the link to the first.
    pub(crate) fn link(&self, notes: &mut Vec<u32>) -> u32
        requires room { self.now.slots.limit ≤ vec_capacity notes.old }
        requires few { self.now.slots.limit < 2 ^ 23 }
        ensures linked { IsLinkedAgain (has self.now.slots) notes.old.items notes.new.items result }
        ensures below { (s : ℕ) → has self.now.slots s ≡ true → s < self.now.slots.limit }
        ensures within { length notes.new.items ≤ max (length notes.old.items) self.now.slots.limit }
        ensures room { vec_capacity notes.new ≡ vec_capacity notes.old }
    {
        link_members(notes, &self.slots)
    }

    /// Gathers the slots of a variable along the links that begin with this one.
    pub(crate) fn gather(&mut self, notes: &[u32], words: &[u64], var: u32, link: u32)
        requires from { LeadsThrough (slots_of words.now) notes.now self.old.slots.limit var link }
        requires empty { (s : ℕ) → has self.old.slots s ≡ false }
        ensures variable { self.new.variable ≡ Some var }
        ensures exact { IsExact (slots_of words.now) self.new }
        ensures limit { self.new.slots.limit ≡ self.old.slots.limit }
    {
        gather(notes, words, var, link, &mut self.slots);
        self.variable = Some(var);
    }
}
