//! The links of the slots' notes, and the slots of a variable that are gathered from them and given back to them.

ghost use Rattle.std.specs.Prelude.{◌≡◌, ℕ, suc, Option, Some, ◌+◌, ◌<◌, ◌≤◌, ◌^◌, IfSome, IfNone, Bool, length, max, replicate, slice_index, slice_set, vec_capacity, true, false};
ghost use Rattle.edge_bits.specs.Reading.{slots_of};
ghost use Rattle.edge_bits.specs.Words.{unpack_of};
ghost use Rattle.edge_bits.specs.declared.words.Node.{Node as NodeOf};
ghost use Rattle.edge_bits.specs.declared.words.Word.{Word as WordOf};
ghost use Rattle.edge_bits.specs.declared.words.Word.TheVariants as words;
ghost use Rattle.held_slots.specs.Notes.{link_in, mark_in, pin_in};
ghost use Rattle.held_slots.specs.Linked.{HasNode, IsLinkedAgain, Leads, LeadsThrough, chain_of, led_to};
ghost use Rattle.held_slots.specs.SlotSets.{has, IsNext};

use crate::note::{MARK, lengthen, note_of, with_link};
use crate::slot_set::SlotSet;
use edge_bits::{Word, unpack};

/// The variable of the node that the bits are, if they are one.
#[inline(always)]
fn variable_of(bits: u64) -> Option<u32>
    ensures some { IfSome result (λ v. (node : NodeOf) × (unpack_of bits ≡ Some (words.Inner node)) × (node.var ≡ v)) }
    ensures few { IfSome result (λ v. v < 2 ^ 15) }
    ensures none { IfNone result ((node : NodeOf) → unpack_of bits ≡ Some (words.Inner node) → ⊥) }
{
    match unpack(bits) {
        Some(Word::Inner(node)) => Some(node.var as u32),
        _ => None,
    }
}

/// Whether a slot has a node of a variable.
#[inline(always)]
pub(crate) fn has_node(words: &[u64], slot: usize, var: u32) -> bool
    ensures yes { result ≡ true → HasNode (slots_of words.now) var slot }
    ensures no { result ≡ false → HasNode (slots_of words.now) var slot → ⊥ }
{
    slot < words.len() && variable_of(words[slot]) == Some(var)
}

/// The least slot from this one on with a node of a variable, if there is one, by a walk over all words from there on.
#[inline(never)]
pub(crate) fn walk(words: &[u64], var: u32, from: u32) -> Option<u32>
    requires { length words.now < 2 ^ 32 }
    ensures found { IfSome result (λ s. (from ≤ s) × HasNode (slots_of words.now) var s) }
    ensures least { IfSome result (λ s. (t : ℕ) → from ≤ t → t < s → HasNode (slots_of words.now) var t → ⊥) }
    ensures none { IfNone result ((t : ℕ) → from ≤ t → HasNode (slots_of words.now) var t → ⊥) }
{
    for slot in from as usize..words.len() {
        if has_node(words, slot, var) {
            return Some(slot as u32);
        }
    }
    None
}

/// Adds zeros until there are notes for so many slots.
pub(crate) fn lengthen_to(notes: &mut Vec<u32>, slots: usize)
    requires { slots ≤ vec_capacity notes.old }
    ensures kept { length notes.old.items ≤ length notes.new.items }
    ensures reaches { slots ≤ length notes.new.items }
    ensures within { length notes.new.items ≤ max (length notes.old.items) slots }
    ensures same { (s : ℕ) → slice_index notes.new.items s ≡ slice_index notes.old.items s }
    ensures room { vec_capacity notes.new ≡ vec_capacity notes.old }
{
    if slots > 0 {
        lengthen(notes, slots - 1);
    }
}

/// Puts a slot before those of its node's variable, if it has a node.
fn link_slot(notes: &mut Vec<u32>, firsts: &mut Vec<u32>, slot: usize, bits: u64)
    requires within { slot < length notes.old.items }
    requires few { slot < 2 ^ 23 }
    requires variables { length firsts.old.items ≡ 2 ^ 15 }
    requires small { (v : ℕ) → slice_index firsts.old.items v < 2 ^ 24 }
    ensures length { length notes.new.items ≡ length notes.old.items }
    ensures others { (s : ℕ) → (s ≡ slot → ⊥) → slice_index notes.new.items s ≡ slice_index notes.old.items s }
    ensures mark { mark_in (slice_index notes.new.items slot) ≡ mark_in (slice_index notes.old.items slot) }
    ensures pin { pin_in (slice_index notes.new.items slot) ≡ pin_in (slice_index notes.old.items slot) }
    ensures many { length firsts.new.items ≡ length firsts.old.items }
    ensures node { (node : NodeOf) → unpack_of bits ≡ Some (words.Inner node) → (node.var < 2 ^ 15) × (link_in (slice_index notes.new.items slot) ≡ slice_index firsts.old.items node.var) × (firsts.new.items ≡ slice_set firsts.old.items node.var (slot + 1)) }
    ensures room { vec_capacity notes.new ≡ vec_capacity notes.old }
    ensures no_node { ((node : NodeOf) → unpack_of bits ≡ Some (words.Inner node) → ⊥) → (notes.new.items ≡ notes.old.items) × (firsts.new.items ≡ firsts.old.items) }
{
    if let Some(var) = variable_of(bits) {
        let var = var as usize;
        notes[slot] = with_link(notes[slot], firsts[var]);
        firsts[var] = slot as u32 + 1;
    }
}

/// Links the slots of each variable, from the last down.
pub(crate) fn link_all(notes: &mut Vec<u32>, firsts: &mut Vec<u32>, words: &[u64])
    requires within { length words.now ≤ length notes.old.items }
    requires few { length words.now < 2 ^ 23 }
    requires empty { firsts.old.items ≡ replicate (2 ^ 15) 0 }
    ensures length { length notes.new.items ≡ length notes.old.items }
    ensures room { vec_capacity notes.new ≡ vec_capacity notes.old }
    ensures variables { length firsts.new.items ≡ 2 ^ 15 }
    ensures marks { (s : ℕ) → mark_in (slice_index notes.new.items s) ≡ mark_in (slice_index notes.old.items s) }
    ensures pins { (s : ℕ) → pin_in (slice_index notes.new.items s) ≡ pin_in (slice_index notes.old.items s) }
    ensures first { (v : ℕ) → v < 2 ^ 15 → Leads (slots_of words.now) (chain_of (slots_of words.now)) (length words.now) v 0 (slice_index firsts.new.items v) }
    ensures next { (s : ℕ) → s < length words.now → chain_of (slots_of words.now) s < 2 ^ 15 → Leads (slots_of words.now) (chain_of (slots_of words.now)) (length words.now) (chain_of (slots_of words.now) s) (suc s) (link_in (slice_index notes.new.items s)) }
{
    let mut slot = words.len();
    while slot > 0 {
        slot -= 1;
        link_slot(notes, firsts, slot, words[slot]);
    }
}

/// The link that leads to a slot, or nowhere.
fn link_to(slot: Option<u32>) -> u32
    requires { IfSome slot (λ s. s < 2 ^ 23) }
    ensures led { led_to result ≡ slot }
    ensures small { result < 2 ^ 24 }
{
    match slot {
        Some(slot) => slot + 1,
        None => 0,
    }
}

/// Links the members of a set, by rising slots, and tells the link to the first.
pub(crate) fn link_members(notes: &mut Vec<u32>, set: &SlotSet) -> u32
    requires room { set.now.limit ≤ vec_capacity notes.old }
    requires few { set.now.limit < 2 ^ 23 }
    ensures linked { IsLinkedAgain (has set.now) notes.old.items notes.new.items result }
    ensures below { (s : ℕ) → has set.now s ≡ true → s < set.now.limit }
    ensures within { length notes.new.items ≤ max (length notes.old.items) set.now.limit }
    ensures room { vec_capacity notes.new ≡ vec_capacity notes.old }
{
    let first = set.next(0);
    let mut at = first;
    while let Some(slot) = at {
        let next = set.next(slot + 1);
        lengthen(notes, slot as usize);
        notes[slot as usize] = with_link(notes[slot as usize], link_to(next));
        at = next;
    }
    link_to(first)
}

/// Puts the slots with a node of a variable into a set that is empty, along the links.
pub(crate) fn gather(notes: &[u32], words: &[u64], var: u32, link: u32, set: &mut SlotSet)
    requires from { LeadsThrough (slots_of words.now) notes.now set.old.limit var link }
    requires empty { (s : ℕ) → has set.old s ≡ false }
    ensures members { (s : ℕ) → has set.new s ≡ true → HasNode (slots_of words.now) var s }
    ensures all { (s : ℕ) → HasNode (slots_of words.now) var s → has set.new s ≡ true }
    ensures limit { set.new.limit ≡ set.old.limit }
{
    let mut link = link;
    while link != 0 {
        let slot = link - 1;
        if has_node(words, slot as usize, var) {
            set.insert(slot);
        }
        link = note_of(notes, slot) % MARK;
    }
}
