//! A store in a place of its own on the heap.

ghost use Rattle.std.specs.Prelude.{◌≡◌, ◌<◌, [], IfOk, vec_capacity};
ghost use Rattle.std.specs.Borrow.{Lends, sem};
ghost use Rattle.node_slots.specs.contracts.plain_store.PlainStore.{the_row as store_row};
ghost use Rattle.shared_store.specs.contracts.heap.HeapStore.{the_row as heap_row};

use edge_bits::{Edge, Memory};
use node_slots::{HeldStore, PlainStore};
use std::alloc::Global;
use std::marker::Model;

/// A store on the heap: where it goes from hand to hand, its words stay where they are.
#[derive(Drop)]
pub struct HeapStore {
    one: Vec<PlainStore>,
}

impl Model for HeapStore {
    ghost use Rattle.std.specs.Prelude.{◌≡◌, length};
    ghost use Rattle.node_slots.specs.Stores.{Plain};
    ghost use Rattle.shared_store.specs.Heap.{first_of};

    ghost Value = { Plain };

    ghost view = { λ s. first_of s.one.items };

    ghost invariant = { λ s. length s.one.items ≡ 1 };
}

/// The place of a store that its holder has in hand.
#[derive(Drop)]
pub struct Place {
    none: Vec<PlainStore>,
    ghost empty: { none.items ≡ [] },
    ghost room: { 0 < vec_capacity none },
}

impl HeapStore {
    ghost use Rattle.std.specs.Prelude.{◌+◌, ◌-◌, ◌^◌, ◌≤◌, ◌↔◌, ℕ, IsTrue, None, Some, length};
    ghost use Rattle.edge_bits.specs.declared.edges.Kind.{Kind};
    ghost use Rattle.edge_bits.specs.declared.limits.TheConstants.{MOST_ELEMENTS, MOST_SLOTS, MOST_VARIABLES};
    ghost use Rattle.function_laws.specs.Kinds.{Denoted};
    ghost use Rattle.node_store.specs.Contents.{IsSound, used_slots};
    ghost use Rattle.node_store.specs.Views.{AreTwo, values_at};
    ghost use Rattle.node_slots.specs.Counts.{IsRecounted};
    ghost use Rattle.node_slots.specs.Held.{held_view};
    ghost use Rattle.node_slots.specs.Stores.{IsOpening, IsStore, IsUnknown, count_at, generation_at, in_use, plain_view, slots};
    ghost use Rattle.node_slots.specs.Wholes.{content_view};

    /// A new store, as `PlainStore::new` makes it.
    pub fn new(alloc: Global, vars: u32, elements: u32, limit: u32) -> Result<HeapStore, Memory>
        requires vars { vars ≤ MOST_VARIABLES }
        requires elements { elements ≤ MOST_ELEMENTS }
        requires least { 5 + vars ≤ limit }
        requires most { limit ≤ MOST_SLOTS }
        ensures { IfOk result (IsOpening vars elements limit) }
    {
        let store = PlainStore::new(alloc, vars, elements, limit)?;
        let mut one = Vec::new(alloc);
        one.push(store)?;
        Ok(HeapStore { one })
    }

    /// The store, where it stands.
    pub fn get(&self) -> &PlainStore
        ensures { result.now ≡ self.now }
    {
        &self.one[0]
    }

    /// The store, where it stands.
    pub fn get_mut(&mut self) -> &mut PlainStore
        ensures* writes_back { sem 𝓛 (Lends heap_row store_row self.entry result (λ w. w)) }
        ensures value { result.now ≡ self.old }
    {
        &mut self.one[0]
    }

    /// Tells that the store is sound, as it is between two calls. It does no work.
    pub fn tell_sound(&self)
        ensures store { IsStore self.now }
        ensures sound { IsSound (content_view self.now) }
    {
        self.get().tell_sound();
    }

    /// The number of slots.
    pub fn limit(&self) -> u32
        ensures limit { result ≡ length self.now.words }
        ensures store { IsStore self.now }
        ensures sound { IsSound (content_view self.now) }
    {
        self.get().limit()
    }

    /// The number of slots that have a word: all, where a function was refused and nothing was freed since, and then no slot has that
    /// function.
    pub fn in_use(&self) -> u32
        ensures count { result ≡ in_use self.now }
        ensures of_holder { result ≡ used_slots (content_view self.now) }
        ensures full { (f : Denoted) → (plain_view self.now).due ≡ Some f → result ≡ length self.now.words }
        ensures missing { (f : Denoted) → (plain_view self.now).due ≡ Some f → IsUnknown self.now f }
    {
        self.get().in_use()
    }

    /// Whether two edges of one kind denote one function: they are equal then.
    pub fn same(&self, f: Edge, g: Edge) -> bool
        requires { (k : Kind) × AreTwo k (plain_view self.now) f g }
        ensures { (k : Kind) → AreTwo k (plain_view self.now) f g → IsTrue result ↔ (values_at k (plain_view self.now) f ≡ values_at k (plain_view self.now) g) }
    {
        self.get().same(f, g)
    }

    /// How many slots there are up to the last that was ever in use: none from there on denotes a function, or is counted.
    pub(crate) fn used(&self) -> u32
        ensures within { result ≤ length self.now.words }
        ensures beyond { (k : ℕ) → result ≤ k → ((plain_view self.now).content k ≡ None) × (count_at self.now k ≡ 0) }
    {
        let limit = self.limit();
        let used = self.get().words().len();
        if used < limit as usize {
            used as u32
        } else {
            limit
        }
    }

    /// How often the store has a slot counted.
    pub(crate) fn count_of(&self, slot: u32) -> u32
        ensures { result ≡ count_at self.now slot }
    {
        self.get().count_of(slot)
    }

    /// One more row or cell holds the slot, which has a word.
    pub(crate) fn raise(&mut self, slot: u32)
        requires used { slots self.old slot ≡ None → ⊥ }
        requires few { count_at self.old slot + 1 < 2 ^ 32 - 1 }
        ensures count { count_at self.new slot ≡ count_at self.old slot + 1 }
        ensures generation { generation_at self.new slot ≡ generation_at self.old slot }
        ensures rest { IsRecounted self.old slot self.new }
    {
        self.get_mut().raise(slot);
    }

    /// One row or cell less holds the slot, which has a word.
    pub(crate) fn lower(&mut self, slot: u32)
        requires used { slots self.old slot ≡ None → ⊥ }
        requires some { 0 < count_at self.old slot }
        ensures count { count_at self.new slot + 1 ≡ count_at self.old slot }
        ensures generation { generation_at self.new slot ≡ generation_at self.old slot }
        ensures rest { IsRecounted self.old slot self.new }
    {
        self.get_mut().lower(slot);
    }

    /// Takes the store out of its place, into the hands of one holder.
    pub(crate) fn hold(self) -> (HeldStore, Place)
        ensures content { held_view result.0 ≡ content_view self }
    {
        let HeapStore { mut one } = self;
        match one.pop() {
            Some(store) => (store.hold(), Place { none: one }),
            None => unreachable!(),
        }
    }
}

impl Place {
    ghost use Rattle.std.specs.Prelude.{None};
    ghost use Rattle.node_slots.specs.Held.{held_view};

    /// Gives the store back, which comes into this place again. No swap is half made.
    pub(crate) fn release(self, held: HeldStore) -> HeapStore
        requires { (held_view held).half ≡ None }
        ensures { result ≡ held.plain }
    {
        let Place { none: mut one } = self;
        one.push_reserved(held.release());
        HeapStore { one }
    }
}
