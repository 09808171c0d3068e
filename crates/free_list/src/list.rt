//! The free slots, the last that was freed before the others.

ghost use Rattle.std.specs.Prelude.{◌≡◌, ℕ, ◌-◌, ◌<◌, ◌≤◌, ◌++◌, List, [], ◌∷◌, length, true, false, IfOk, IfNone, IfSome};
ghost use Rattle.std.specs.List.{range_with_len};

use edge_bits::Memory;
use std::alloc::Global;
use std::marker::Model;

/// The free slots of a table: those that were freed, the last of them first, and then those that were never taken, by their numbers. The
/// room for all slots is there from the opening on.
#[derive(Drop)]
pub struct FreeList {
    freed: Vec<u32>,
    // The slots from this one on were never taken.
    next: u32,
    end: u32,
}

impl Model for FreeList {
    ghost use Rattle.std.specs.Prelude.{◌≤◌, vec_capacity};
    ghost use Rattle.free_list.specs.FreeSlots.{FreeSlots, free_slots};

    ghost Value = { FreeSlots };

    ghost view = { λ l. record { slots = free_slots l.freed.items l.next l.end; room = l.end } };

    ghost invariant = { λ l. (l.next ≤ l.end) × (l.end ≤ vec_capacity l.freed) };
}

impl FreeList {
    /// The list of the slots from the first to before the end, none of which was ever taken, with room for all slots before the end.
    pub fn new(alloc: Global, first: u32, end: u32) -> Result<FreeList, Memory>
        requires { first ≤ end }
        ensures slots { IfOk result (λ l. l.slots ≡ range_with_len first (end - first)) }
        ensures room { IfOk result (λ l. l.room ≡ end) }
    {
        let freed = Vec::with_capacity(alloc, end as usize)?;
        Ok(FreeList {
            freed,
            next: first,
            end,
        })
    }

    /// Whether no slot is free.
    pub fn is_empty(&self) -> bool
        ensures none { result ≡ true → self.now.slots ≡ [] }
        ensures some { result ≡ false → (slot : ℕ) × (list : List ℕ) × (self.now.slots ≡ slot ∷ list) }
    {
        self.first().is_none()
    }

    /// The first free slot.
    pub fn first(&self) -> Option<u32>
        ensures some { IfSome result (λ slot. (list : List ℕ) × (self.now.slots ≡ slot ∷ list)) }
        ensures none { IfNone result (self.now.slots ≡ []) }
    {
        let count = self.freed.len();
        if count > 0 {
            return Some(self.freed[count - 1]);
        }
        if self.next < self.end {
            Some(self.next)
        } else {
            None
        }
    }

    /// Takes the first free slot off the list.
    pub fn take_first(&mut self) -> Option<u32>
        ensures some { IfSome result (λ slot. self.old.slots ≡ slot ∷ self.new.slots) }
        ensures none { IfNone result ((self.old.slots ≡ []) × (self.new.slots ≡ [])) }
        ensures room { self.new.room ≡ self.old.room }
    {
        if let Some(slot) = self.freed.pop() {
            return Some(slot);
        }
        let slot = self.next;
        if slot == self.end {
            return None;
        }
        self.next = slot + 1;
        Some(slot)
    }

    /// Puts a slot before the others.
    pub fn push(&mut self, slot: u32)
        requires room { length self.old.slots < self.old.room }
        ensures first { self.new.slots ≡ slot ∷ self.old.slots }
        ensures room { self.new.room ≡ self.old.room }
    {
        self.freed.push_reserved(slot);
    }

    /// The least slot from which on none was ever taken: all from there on are free.
    pub fn taken(&self) -> u32
        ensures within { result ≤ self.now.room }
        ensures beyond { (freed : List ℕ) × (self.now.slots ≡ freed ++ range_with_len result (self.now.room - result)) }
    {
        self.next
    }
}
