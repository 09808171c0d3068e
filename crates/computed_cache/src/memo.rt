//! The table of the entries.

ghost use Rattle.std.specs.Prelude.{◌≡◌, ℕ, ◌+◌, ◌*◌, ◌<◌, ◌≤◌, ◌^◌, length, slice_index, IfOk, IfSome, IfNone, Some, None};
ghost use Rattle.computed_cache.specs.Entries.{IsEntry, IsInRange, kept_at, place_of, places, without};

use crate::Key;
use crate::entries::{answer_in, answer_word, is_named, key_word, pack, place};
use edge_bits::{Edge, Memory};
use std::alloc::Global;
use std::marker::Model;

/// A computed table of so many entries: each key has one place, and the answer that was put there last stands there. An entry is two words side by side, 16 bytes.
#[derive(Drop)]
pub struct Memo {
    words: Vec<u64>,
    places: usize,
    // Whether nothing was put since the table was opened or cleared.
    is_empty: bool,
}

impl Model for Memo {
    ghost use Rattle.std.specs.Prelude.{ℕ, List};
    ghost use Rattle.computed_cache.specs.Entries.{IsMemo};

    ghost Value = { List ℕ };

    ghost view = { λ m. m.words.items };

    ghost invariant = { λ m. IsMemo m.words.items m.places m.is_empty };
}

/// Drops the entry at a place if it names a slot.
fn forget_at(words: &mut Vec<u64>, place: usize, slot: u32)
    requires within { 2 * place + 1 < length words.old.items }
    requires entry { IsEntry (slice_index words.old.items (2 * place)) (slice_index words.old.items (2 * place + 1)) }
    ensures forgotten { kept_at words.new.items place ≡ without slot (kept_at words.old.items place) }
    ensures entry { IsEntry (slice_index words.new.items (2 * place)) (slice_index words.new.items (2 * place + 1)) }
    ensures others { (i : ℕ) → (i ≡ 2 * place → ⊥) → slice_index words.new.items i ≡ slice_index words.old.items i }
    ensures length { length words.new.items ≡ length words.old.items }
{
    let at = 2 * place;
    let first = words[at];
    if first != 0 && is_named(first, words[at + 1], slot) {
        words[at] = 0;
    }
}

impl Memo {
    /// Room for so many entries, at least one.
    pub fn new(alloc: Global, entries: u32) -> Result<Memo, Memory>
        requires { 0 < entries }
        ensures places { IfOk result (λ m. places m ≡ entries) }
        ensures empty { IfOk result (λ m. (i : ℕ) → kept_at m i ≡ None) }
    {
        let places = entries as usize;
        let words = vec![in alloc; 0u64; 2 * places]?;
        Ok(Memo {
            words,
            places,
            is_empty: true,
        })
    }

    /// The answer that stands under the whole key. None where its place is empty or has another key.
    pub fn get(&self, key: &Key) -> Option<Edge>
        requires { IsInRange key.now }
        ensures some { IfSome result (λ e. kept_at self.now (place_of key.now (places self.now)) ≡ Some (record { key = key.now; edge = e })) }
        ensures none { IfNone result ((e : Edge) → kept_at self.now (place_of key.now (places self.now)) ≡ Some (record { key = key.now; edge = e }) → ⊥) }
    {
        let first = key_word(key);
        let h = pack(key.h);
        let at = 2 * place(first, h, self.places);
        answer_in(self.words[at], self.words[at + 1], first, h)
    }

    /// Puts an answer at the key's place, and so drops what stood there.
    pub fn put(&mut self, key: Key, edge: Edge)
        requires key { IsInRange key }
        requires edge { edge.index < 2 ^ 23 }
        ensures put { kept_at self.new (place_of key (places self.old)) ≡ Some (record { key = key; edge = edge }) }
        ensures others { (i : ℕ) → (i ≡ place_of key (places self.old) → ⊥) → kept_at self.new i ≡ kept_at self.old i }
        ensures places { places self.new ≡ places self.old }
    {
        let first = key_word(&key);
        let second = answer_word(&key, edge);
        let at = 2 * place(first, pack(key.h), self.places);
        self.words[at] = first;
        self.words[at + 1] = second;
        self.is_empty = false;
    }

    /// Drops each entry that names a slot, in its key or as its answer.
    pub fn forget(&mut self, slot: u32)
        ensures forgotten { (i : ℕ) → kept_at self.new i ≡ without slot (kept_at self.old i) }
        ensures places { places self.new ≡ places self.old }
    {
        if self.is_empty {
            return;
        }
        for place in 0..self.places {
            forget_at(&mut self.words, place, slot);
        }
    }

    /// Drops all entries. It takes no time where there is none.
    pub fn clear(&mut self)
        ensures empty { (i : ℕ) → kept_at self.new i ≡ None }
        ensures places { places self.new ≡ places self.old }
    {
        if self.is_empty {
            return;
        }
        for at in 0..self.words.len() {
            self.words[at] = 0;
        }
        self.is_empty = true;
    }
}
