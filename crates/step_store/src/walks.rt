//! The one step of a walk.

/// A seat at its table, while it has a walk share. Others step beside it: they store nodes and swap levels, but what a slot denotes that this seat knows stays.
pub trait Walks {
    ghost use Rattle.std.specs.Prelude.{◌≡◌, ℕ, Some};
    ghost use Rattle.edge_bits.specs.Permanent.{base_slot};
    ghost use Rattle.edge_bits.specs.Words.{unpack_of};
    ghost use Rattle.edge_bits.specs.declared.edges.Edge.{Edge};
    ghost use Rattle.edge_bits.specs.declared.edges.Kind.{Kind};
    ghost use Rattle.edge_bits.specs.declared.words.Word.{Word};
    ghost use Rattle.function_laws.specs.Families.{base};
    ghost use Rattle.function_laws.specs.Kinds.{Denoted, ZddFamily};
    ghost use Rattle.node_store.specs.Contents.{opened_of};
    ghost use Rattle.node_store.specs.Views.{View, Is, Kept, values_at};
    ghost use Rattle.step_store.specs.Knowing.{risen};
    ghost use Rattle.step_store.specs.Walking.{Tells};

    /// What the seat knows besides: of the journal, its rows and entries. No value of it is made.
    type Rest;

    /// What it knows of the slots that it has met. Levels tell nothing here: a swap may be half made.
    ghost sees: { Self → View };

    /// How often it loaded a node, up to the end of 64 bits.
    ghost loads: { Self → ℕ };

    /// It has a walk share.
    ghost walks: { Self → Type 0 };

    /// The number of its table, and what it knows besides: no step changes these.
    ghost table: { Self → ℕ };

    ghost rest: { Self → Self.Rest };

    /// Loads the word of a slot that is known to be in use, and then knows its children.
    fn load_word(&mut self, slot: u32) -> u64
        requires own { walks self.old }
        requires met { (f : Denoted) × ((sees self.old).content slot ≡ Some f) }
        ensures own { walks self.new }
        ensures home { (table self.new ≡ table self.old) × (rest self.new ≡ rest self.old) }
        ensures kept { Kept (sees self.old) (sees self.new) }
        ensures counted { loads self.new ≡ risen (loads self.old) }
        ensures used { (word : Word) × (unpack_of result ≡ Some word) }
        ensures tells { (word : Word) → unpack_of result ≡ Some word → (e : Edge) → e.index ≡ slot → (k : Kind) → Is k (sees self.old) e → Tells k (sees self.new) e (values_at k (sees self.old) e) (opened_of word e.complement) };

    /// The family of the combination of nothing stands in its permanent slot.
    ghost stands: { (s : Self) → walks s → (sees s).content base_slot ≡ Some (ZddFamily base) };
}
