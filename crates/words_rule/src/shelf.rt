//! What a seat does with what lies in the slots, while it has that in hand.

use crate::content::Content;
use edge_bits::Edge;
use node_store::Key;

/// The free list and the computed table, of which a slot has one.
pub trait Shelf: Content + Drop {
    ghost use Rattle.std.specs.Prelude.{◌≡◌, ◌<◌, ◌^◌, ℕ, List, [], ◌∷◌, IfSome, IfNone, Some, true, false};
    ghost use Rattle.computed_cache.specs.Entries.{IsInRange, kept_at, place_of, places};

    /// Whether a slot is on the free list.
    fn has_slot(&self) -> bool
        ensures some { result ≡ true → (slot : ℕ) × (list : List ℕ) × ((Self.free_slots self.now).slots ≡ slot ∷ list) }
        ensures none { result ≡ false → (Self.free_slots self.now).slots ≡ [] };

    /// Takes the first slot off the free list.
    fn next_slot(&mut self) -> u32
        requires { (slot : ℕ) × (list : List ℕ) × ((Self.free_slots self.old).slots ≡ slot ∷ list) }
        ensures first { (Self.free_slots self.old).slots ≡ result ∷ (Self.free_slots self.new).slots }
        ensures room { (Self.free_slots self.new).room ≡ (Self.free_slots self.old).room };

    /// The answer that the computed table has under the whole key. None where its place is empty or has another key.
    fn get(&self, key: &Key) -> Option<Edge>
        requires { IsInRange key.now }
        ensures some { IfSome result (λ e. kept_at (Self.memo self.now) (place_of key.now (places (Self.memo self.now))) ≡ Some (record { key = key.now; edge = e })) }
        ensures none { IfNone result ((e : Edge) → kept_at (Self.memo self.now) (place_of key.now (places (Self.memo self.now))) ≡ Some (record { key = key.now; edge = e }) → ⊥) };

    /// Puts an answer at the key's place, and so drops what stood there.
    fn put(&mut self, key: Key, edge: Edge)
        requires room { 0 < places (Self.memo self.old) }
        requires key { IsInRange key }
        requires edge { edge.index < 2 ^ 23 }
        ensures put { kept_at (Self.memo self.new) (place_of key (places (Self.memo self.old))) ≡ Some (record { key = key; edge = edge }) }
        ensures others { (i : ℕ) → (i ≡ place_of key (places (Self.memo self.old)) → ⊥) → kept_at (Self.memo self.new) i ≡ kept_at (Self.memo self.old) i }
        ensures places { places (Self.memo self.new) ≡ places (Self.memo self.old) };
}
