//! The notes of a store's slots.

ghost use Rattle.std.specs.Prelude.{◌≡◌, ℕ, Bool, Option, Some, None, ◌+◌, ◌<◌, ◌≤◌, ◌^◌, ◌⊎◌, ◌==◌, if◌then◌else◌, IfOk, IfSome, IfNone, length, not, replicate, slice_index, slice_set, vec_capacity, true, false};
ghost use Rattle.edge_bits.specs.Reading.{slots_of};
ghost use Rattle.edge_bits.specs.declared.words.Word.{Word as WordOf};
ghost use Rattle.held_slots.specs.Notes.{Notes, flag, link_in, mark_in, pin_in};
ghost use Rattle.held_slots.specs.Linked.{AreLinked, HasNode, IsChangedAt, IsLinkedTo, IsNextNode, Leads, variable_of};
ghost use Rattle.held_slots.specs.SlotSets.{IsPut, has, is_gathered, is_same};

use crate::links::{has_node, lengthen_to, link_all, walk};
use crate::note::{MARK, PIN, lengthen, note_of, with_mark, with_pin};
use crate::variable_slots::VariableSlots;
use edge_bits::Memory;
use std::alloc::Global;
use std::marker::Model;
use std::mem;

/// As many variable numbers as a word has room for.
const VARIABLE_NUMBERS: usize = 1 << 15;

/// Where a walk along the links of a variable stands: from this slot on, the link leads to the variable's next node.
#[derive(Clone, Copy, Drop)]
pub struct Cursor {
    pub var: u32,
    pub from: u32,
    pub link: u32,
}

/// A mark, a pin and a link for each of so many slots, in four bytes, and two sets of slots.
///
/// The links are made all at once, and lead through the nodes of each variable by rising slots. They hold while nodes are freed. Where nodes of a variable are made or changed, its slots are gathered in a set first, by their links, and linked again when the set is wanted for another variable: so a swap of two variables goes on without a walk over all slots.
#[derive(Drop)]
pub struct SlotNotes {
    // The notes up to the last slot of which one was written. The room for the others is not written to.
    notes: Vec<u32>,
    slots: usize,
    // Of each variable the link to its first slot.
    firsts: Vec<u32>,
    marked: bool,
    linked: bool,
    // Whether links may lead through slots that were freed.
    stale: bool,
    cursor: Cursor,
    // Whether slots of a variable may be gathered: where not, both sets are of none.
    gathers: bool,
    older: VariableSlots,
    newer: VariableSlots,
}

impl Model for SlotNotes {
    ghost use Rattle.std.specs.Prelude.{vec_capacity};
    ghost use Rattle.held_slots.specs.Notes.{Notes, IsNotes, notes_in};

    ghost Value = { Notes };

    ghost view = { λ t. notes_in t.notes.items t.slots t.firsts.items t.linked t.stale t.cursor t.older t.newer };

    ghost invariant = { λ t. IsNotes t.notes.items t.firsts.items t.slots (vec_capacity t.notes) t.marked t.gathers t.older t.newer };
}

/// Takes the marks away.
fn strip(notes: &mut Vec<u32>)
    ensures length { length notes.new.items ≡ length notes.old.items }
    ensures marks { (s : ℕ) → mark_in (slice_index notes.new.items s) ≡ 0 }
    ensures links { (s : ℕ) → link_in (slice_index notes.new.items s) ≡ link_in (slice_index notes.old.items s) }
    ensures pins { (s : ℕ) → pin_in (slice_index notes.new.items s) ≡ pin_in (slice_index notes.old.items s) }
    ensures room { vec_capacity notes.new ≡ vec_capacity notes.old }
{
    for slot in 0..notes.len() {
        notes[slot] = with_mark(notes[slot], false);
    }
}

impl SlotNotes {
    /// So many slots, of which none is marked, pinned or linked.
    pub fn new(alloc: Global, slots: u32) -> Result<SlotNotes, Memory>
        requires { slots < 2 ^ 23 }
        ensures marks { IfOk result (λ n. n.marks ≡ replicate slots 0) }
        ensures pins { IfOk result (λ n. n.pins ≡ replicate slots 0) }
        ensures unlinked { IfOk result (λ n. n.chain.linked ≡ false) }
    {
        let older = VariableSlots::new(alloc, slots)?;
        let newer = VariableSlots::new(alloc, slots)?;
        let slots = slots as usize;
        let notes = Vec::with_capacity(alloc, slots)?;
        let firsts = vec![in alloc; 0u32; VARIABLE_NUMBERS]?;
        Ok(SlotNotes {
            notes,
            slots,
            firsts,
            marked: false,
            linked: false,
            stale: false,
            cursor: Cursor {
                var: 0,
                from: 0,
                link: 0,
            },
            gathers: false,
            older,
            newer,
        })
    }

    /// Whether a slot is marked.
    pub fn is_marked(&self, slot: u32) -> bool
        ensures { result ≡ (slice_index self.now.marks slot == 1) }
    {
        self.note(slot) / MARK % 2 == 1
    }

    /// Marks a slot, or takes its mark away.
    pub fn set_mark(&mut self, slot: u32, on: bool)
        requires { slot < length self.old.marks }
        ensures { self.new ≡ record self.old { marks = slice_set self.old.marks slot (flag on) } }
    {
        let note = with_mark(self.note(slot), on);
        self.write(slot, note);
    }

    /// Takes all marks away: at once where no slot was marked since the last time, else in time with the slots that have notes.
    pub fn unmark_all(&mut self)
        ensures { self.new ≡ record self.old { marks = replicate (length self.old.marks) 0 } }
    {
        if self.marked {
            strip(&mut self.notes);
            self.marked = false;
        }
    }

    /// Whether a slot is pinned.
    pub fn is_pinned(&self, slot: u32) -> bool
        ensures { result ≡ (slice_index self.now.pins slot == 1) }
    {
        self.note(slot) / PIN % 2 == 1
    }

    /// Pins a slot, or gives its pin up.
    pub fn set_pin(&mut self, slot: u32, on: bool)
        requires { slot < length self.old.marks }
        ensures { self.new ≡ record self.old { pins = slice_set self.old.pins slot (flag on) } }
    {
        let note = with_pin(self.note(slot), on);
        self.write(slot, note);
    }

    /// Says that the links don't hold any more.
    pub fn unlink(&mut self)
        ensures { self.new ≡ record self.old { chain = record self.old.chain { linked = false } } }
    {
        self.linked = false;
    }

    /// Says so where links may lead through slots that were freed, so that they are made anew at the next walk.
    pub fn unlink_stale(&mut self)
        ensures { self.new ≡ record self.old { chain = record self.old.chain { linked = if self.old.chain.stale then false else self.old.chain.linked } } }
    {
        if self.stale {
            self.unlink();
        }
    }

    /// Gathers the slots of a variable of which nodes are to be made or changed, where the slots are linked. Those of the variable that was gathered last stay gathered, and any other's are linked again. This takes time in proportion to the nodes of both variables, and none where it is gathered.
    pub fn prepare(&mut self, words: &[u64], var: u32)
        requires var { var < 2 ^ 15 }
        requires linked { IsLinkedTo (slots_of words.now) self.old.chain }
        ensures marks { self.new.marks ≡ self.old.marks }
        ensures pins { self.new.pins ≡ self.old.pins }
        ensures linked { IsLinkedTo (slots_of words.now) self.new.chain }
        ensures gathered { self.new.chain.linked ≡ true → is_same self.new.chain.newer.variable (Some var) ≡ true }
        ensures stays { (u : ℕ) → is_same self.old.chain.newer.variable (Some u) ≡ true → is_gathered self.new.chain.older self.new.chain.newer u ≡ true }
    {
        if !self.linked || self.newer.is_of(var) {
            return;
        }
        mem::swap(&mut self.older, &mut self.newer);
        if self.newer.is_of(var) {
            return;
        }
        self.link_gathered();
        self.gather_linked(words, var);
    }

    /// A slot's node of one variable became one of another.
    pub fn moved(&mut self, slot: u32, was: u32, var: u32)
        requires { slot < length self.old.marks }
        ensures marks { self.new.marks ≡ self.old.marks }
        ensures pins { self.new.pins ≡ self.old.pins }
        ensures linked { (word new : ℕ → Option WordOf) → IsLinkedTo word self.old.chain → IsChangedAt word new slot → variable_of (word slot) ≡ Some was → variable_of (new slot) ≡ Some var → IsLinkedTo new self.new.chain }
    {
        if self.is_gathered(was) && self.is_gathered(var) {
            self.put(slot, Some(var));
        } else {
            self.linked = false;
        }
    }

    /// A slot has a node of the variable now, where it had none, or had one of it.
    pub fn added(&mut self, slot: u32, var: u32)
        requires { slot < length self.old.marks }
        ensures marks { self.new.marks ≡ self.old.marks }
        ensures pins { self.new.pins ≡ self.old.pins }
        ensures linked { (word new : ℕ → Option WordOf) → IsLinkedTo word self.old.chain → IsChangedAt word new slot → (word slot ≡ None) ⊎ (variable_of (word slot) ≡ Some var) → variable_of (new slot) ≡ Some var → IsLinkedTo new self.new.chain }
    {
        if self.is_gathered(var) && !self.stale {
            self.put(slot, Some(var));
        } else {
            self.linked = false;
        }
    }

    /// A slot is free now, where it had a node of a variable, or a leaf.
    pub fn freed(&mut self, slot: u32, was: Option<u32>)
        requires { slot < length self.old.marks }
        ensures marks { self.new.marks ≡ self.old.marks }
        ensures pins { self.new.pins ≡ self.old.pins }
        ensures linked { (word new : ℕ → Option WordOf) → IsLinkedTo word self.old.chain → IsChangedAt word new slot → variable_of (word slot) ≡ was → new slot ≡ None → IsLinkedTo new self.new.chain }
    {
        if self.may_lead_to(was) {
            self.stale = true;
        }
        self.put(slot, None);
    }

    /// The least slot from this one on with a node of a variable, or none: in constant steps where its slots are gathered. Where they are linked, asking from 0 on and then from behind each answer takes time in proportion to the variable's nodes and those of its nodes that were freed since; else it is a walk over all words from there on. One that begins at slot 0 links the slots first where they are not linked, or, but during a sweep, where links lead through freed ones.
    #[inline(always)]
    pub fn next(&mut self, words: &[u64], var: u32, from: u32, sweeping: bool) -> Option<u32>
        requires fits { length words.now ≤ length self.old.marks }
        requires few { length words.now < 2 ^ 32 }
        requires var { var < 2 ^ 15 }
        requires linked { IsLinkedTo (slots_of words.now) self.old.chain }
        ensures found { IfSome result (λ s. (from ≤ s) × HasNode (slots_of words.now) var s) }
        ensures least { IfSome result (λ s. (t : ℕ) → from ≤ t → t < s → HasNode (slots_of words.now) var t → ⊥) }
        ensures none { IfNone result ((t : ℕ) → from ≤ t → HasNode (slots_of words.now) var t → ⊥) }
        ensures linked { IsLinkedTo (slots_of words.now) self.new.chain }
        ensures marks { self.new.marks ≡ self.old.marks }
        ensures pins { self.new.pins ≡ self.old.pins }
    {
        if from == 0 {
            self.refresh(words, sweeping);
        }
        match self.next_gathered(var, from) {
            Some(next) => next,
            None => self.next_linked(words, var, from),
        }
    }

    /// Links the slots where they are not linked, or, but during a sweep, where links lead through freed ones.
    #[inline(never)]
    fn refresh(&mut self, words: &[u64], sweeping: bool)
        requires fits { length words.now ≤ length self.old.marks }
        requires linked { IsLinkedTo (slots_of words.now) self.old.chain }
        ensures marks { self.new.marks ≡ self.old.marks }
        ensures pins { self.new.pins ≡ self.old.pins }
        ensures linked { IsLinkedTo (slots_of words.now) self.new.chain }
    {
        if !self.linked || self.stale && !sweeping {
            self.link(words);
        }
    }

    /// The least slot from this one on with a node of the variable, or none, where its slots are gathered.
    #[inline(always)]
    fn next_gathered(&self, var: u32, from: u32) -> Option<Option<u32>>
        ensures some { IfSome result (λ next. (word : ℕ → Option WordOf) → IsLinkedTo word self.now.chain → IsNextNode word var from next) }
        ensures none { IfNone result (self.now.chain.linked ≡ true → is_gathered self.now.chain.older self.now.chain.newer var ≡ false) }
    {
        if !self.linked || !self.gathers {
            None
        } else if self.newer.is_of(var) {
            Some(self.newer.next(from))
        } else if self.older.is_of(var) {
            Some(self.older.next(from))
        } else {
            None
        }
    }

    /// The same, where the variable is not gathered.
    #[inline(always)]
    fn next_linked(&mut self, words: &[u64], var: u32, from: u32) -> Option<u32>
        requires few { length words.now < 2 ^ 32 }
        requires var { var < 2 ^ 15 }
        requires linked { IsLinkedTo (slots_of words.now) self.old.chain }
        requires apart { self.old.chain.linked ≡ true → is_gathered self.old.chain.older self.old.chain.newer var ≡ false }
        ensures found { IfSome result (λ s. (from ≤ s) × HasNode (slots_of words.now) var s) }
        ensures least { IfSome result (λ s. (t : ℕ) → from ≤ t → t < s → HasNode (slots_of words.now) var t → ⊥) }
        ensures none { IfNone result ((t : ℕ) → from ≤ t → HasNode (slots_of words.now) var t → ⊥) }
        ensures linked { IsLinkedTo (slots_of words.now) self.new.chain }
        ensures rest { self.new ≡ record self.old { chain = record self.old.chain { cursor = self.new.chain.cursor } } }
    {
        let Some(link) = self.lead(var, from) else {
            return walk(words, var, from);
        };
        let slot = self.follow(words, var, from, link)?;
        self.cursor = Cursor {
            var,
            from: slot + 1,
            link: self.note(slot) % MARK,
        };
        Some(slot)
    }

    /// Links the slots of each variable, by the words of the first slots; the others have none.
    fn link(&mut self, words: &[u64])
        requires { length words.now ≤ length self.old.marks }
        ensures marks { self.new.marks ≡ self.old.marks }
        ensures pins { self.new.pins ≡ self.old.pins }
        ensures linked { IsLinkedTo (slots_of words.now) self.new.chain }
    {
        lengthen_to(&mut self.notes, words.len());
        self.firsts.fill(0);
        link_all(&mut self.notes, &mut self.firsts, words);
        self.older.clear();
        self.newer.clear();
        self.gathers = false;
        self.linked = true;
        self.stale = false;
        self.cursor = Cursor {
            var: 0,
            from: 0,
            link: self.firsts[0],
        };
    }

    /// Links the slots again that were gathered last, and gathers none in their place.
    fn link_gathered(&mut self)
        ensures marks { self.new.marks ≡ self.old.marks }
        ensures pins { self.new.pins ≡ self.old.pins }
        ensures linked { (word : ℕ → Option WordOf) → IsLinkedTo word self.old.chain → IsLinkedTo word self.new.chain }
        ensures on { self.new.chain.linked ≡ self.old.chain.linked }
        ensures none { self.new.chain.newer.variable ≡ None }
        ensures older { self.new.chain.older ≡ self.old.chain.older }
        ensures empty { (s : ℕ) → has self.new.chain.newer.slots s ≡ false }
    {
        let Some(var) = self.newer.variable() else {
            self.newer.clear();
            return;
        };
        let first = self.newer.link(&mut self.notes);
        self.firsts[var as usize] = first;
        self.cursor = Cursor {
            var,
            from: 0,
            link: first,
        };
        self.newer.clear();
    }

    /// Gathers the slots of a variable that are linked.
    fn gather_linked(&mut self, words: &[u64], var: u32)
        requires var { var < 2 ^ 15 }
        requires linked { IsLinkedTo (slots_of words.now) self.old.chain }
        requires on { self.old.chain.linked ≡ true }
        requires empty { (s : ℕ) → has self.old.chain.newer.slots s ≡ false }
        requires none { self.old.chain.newer.variable ≡ None }
        requires apart { is_same self.old.chain.older.variable (Some var) ≡ false }
        ensures marks { self.new.marks ≡ self.old.marks }
        ensures pins { self.new.pins ≡ self.old.pins }
        ensures linked { IsLinkedTo (slots_of words.now) self.new.chain }
        ensures gathered { self.new.chain.newer.variable ≡ Some var }
        ensures older { self.new.chain.older ≡ self.old.chain.older }
    {
        let first = self.firsts[var as usize];
        self.newer.gather(&self.notes, words, var, first);
        self.gathers = true;
    }

    /// Whether the slots of a variable are gathered.
    fn is_gathered(&self, var: u32) -> bool
        ensures { result ≡ is_gathered self.now.chain.older self.now.chain.newer var }
    {
        self.older.is_of(var) || self.newer.is_of(var)
    }

    /// Whether links may lead to a slot with a node of this variable, or of none.
    fn may_lead_to(&self, variable: Option<u32>) -> bool
        ensures { (var : ℕ) → variable ≡ Some var → result ≡ not (is_gathered self.now.chain.older self.now.chain.newer var) }
    {
        match variable {
            Some(var) => !self.is_gathered(var),
            None => false,
        }
    }

    /// Where a slot is gathered from now on, as it has a node of this variable, or none.
    fn put(&mut self, slot: u32, now: Option<u32>)
        requires { slot < length self.old.marks }
        ensures older { IsPut slot now self.old.chain.older self.new.chain.older }
        ensures newer { IsPut slot now self.old.chain.newer self.new.chain.newer }
        ensures rest { self.new ≡ record self.old { chain = record self.old.chain { older = self.new.chain.older; newer = self.new.chain.newer } } }
    {
        self.older.change(slot, now);
        self.newer.change(slot, now);
    }

    /// The link from a slot on to a variable's next node, where it is known.
    #[inline(always)]
    fn lead(&self, var: u32, from: u32) -> Option<u32>
        requires { var < 2 ^ 15 }
        ensures linked { IfSome result (λ link. self.now.chain.linked ≡ true) }
        ensures leads { IfSome result (λ link. (word : ℕ → Option WordOf) (gathered : ℕ → Bool) (are : AreLinked word gathered self.now.chain.links self.now.chain.firsts self.now.chain.stale self.now.chain.cursor) → gathered var ≡ false → Leads word are.chain (length self.now.chain.links) var from link) }
    {
        if !self.linked {
            None
        } else if from == 0 {
            Some(self.firsts[var as usize])
        } else if self.cursor.var == var && self.cursor.from == from {
            Some(self.cursor.link)
        } else {
            None
        }
    }

    /// The first slot along the links from this one on with a node of the variable.
    #[inline(always)]
    fn follow(&self, words: &[u64], var: u32, from: u32, link: u32) -> Option<u32>
        requires var { var < 2 ^ 15 }
        requires leads { (gathered : ℕ → Bool) × (are : AreLinked (slots_of words.now) gathered self.now.chain.links self.now.chain.firsts self.now.chain.stale self.now.chain.cursor) × (gathered var ≡ false) × Leads (slots_of words.now) are.chain (length self.now.chain.links) var from link }
        ensures found { IfSome result (λ s. (from ≤ s) × HasNode (slots_of words.now) var s) }
        ensures least { IfSome result (λ s. (t : ℕ) → from ≤ t → t < s → HasNode (slots_of words.now) var t → ⊥) }
        ensures none { IfNone result ((t : ℕ) → from ≤ t → HasNode (slots_of words.now) var t → ⊥) }
        ensures chained { (gathered : ℕ → Bool) (are : AreLinked (slots_of words.now) gathered self.now.chain.links self.now.chain.firsts self.now.chain.stale self.now.chain.cursor) → gathered var ≡ false → Leads (slots_of words.now) are.chain (length self.now.chain.links) var from link → IfSome result (λ s. (s < length self.now.chain.links) × (are.chain s ≡ var)) }
    {
        let mut link = link;
        while link != 0 {
            let slot = link - 1;
            if has_node(words, slot as usize, var) {
                return Some(slot);
            }
            link = self.note(slot) % MARK;
        }
        None
    }

    /// The note of a slot.
    #[inline(always)]
    fn note(&self, slot: u32) -> u32
        ensures mark { mark_in result ≡ slice_index self.now.marks slot }
        ensures pin { pin_in result ≡ slice_index self.now.pins slot }
        ensures link { link_in result ≡ slice_index self.now.chain.links slot }
    {
        note_of(&self.notes, slot)
    }

    /// Writes the note of a slot.
    fn write(&mut self, slot: u32, note: u32)
        requires { slot < length self.old.marks }
        ensures { self.new ≡ record self.old { marks = slice_set self.old.marks slot (mark_in note); pins = slice_set self.old.pins slot (pin_in note); chain = record self.old.chain { links = slice_set self.old.chain.links slot (link_in note) } } }
    {
        let slot = slot as usize;
        lengthen(&mut self.notes, slot);
        self.notes[slot] = note;
        self.marked = true;
    }
}
