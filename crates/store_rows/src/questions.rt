//! What is asked of rows, and what changes no row.

ghost use Rattle.std.specs.Prelude.{◌≡◌, ◌↔◌, ◌≤◌, ℕ, true, IfOk, length};
ghost use Rattle.edge_bits.specs.declared.edges.Kind.{Kind as KindOf};
ghost use Rattle.edge_bits.specs.declared.edges.Kind.TheVariants as kinds;
ghost use Rattle.function_laws.specs.Kinds.{ValueOf};
ghost use Rattle.function_laws.specs.Values.{assignment_of};
ghost use Rattle.dead_sweep.specs.Swept.{IsSwept};
ghost use Rattle.node_slots.specs.Held.{Alone};
ghost use Rattle.node_slots.specs.Wholes.{content_view};
ghost use Rattle.node_store.specs.Listed.{number_of};
ghost use Rattle.node_store.specs.Memo.{Implies};
ghost use Rattle.node_store.specs.Views.{levels as levels_of};
ghost use Rattle.store_upkeep.specs.Lasting.{orders_of};
ghost use Rattle.store_rows.specs.RowStores.{IsLive, IsLiveAs, Names, Same, view_of};

use crate::row_store::RowStore;
use dead_sweep::Swept;
use edge_bits::{Kind, MOST_LEVELS, Memory};
use handle_count::H;
use node_slots::Grow;
use store_upkeep::sweep_slots;
use value_walk::value_of;

impl RowStore {
    /// How many levels there are in the order of a kind: one for each variable, or for each element.
    pub fn levels(&mut self, kind: Kind) -> u32
        ensures same { Same self.old self.new }
        ensures orders { orders_of self.new.store ≡ orders_of self.old.store }
        ensures levels { result ≡ levels_of kind (view_of self.old) }
        ensures few { result ≤ MOST_LEVELS }
    {
        self.store.tell_sound();
        let levels = self.store.levels(kind);
        self.store.tell_sound();
        levels
    }

    /// The value of a row at the bits of its variables or elements: 0 or 1 of a BDD or a ZDD.
    pub fn eval(&mut self, h: H, bits: &[bool]) -> i64
        requires { (k : KindOf) × IsLiveAs k self.old.rows.live h × (length bits.now ≡ levels_of k (view_of self.old)) }
        ensures same { Same self.old self.new }
        ensures orders { orders_of self.new.store ≡ orders_of self.old.store }
        ensures value { (k : KindOf) (f : ℕ → ValueOf k) → Names self.old k h f → result ≡ number_of k (f (assignment_of bits.now)) }
    {
        let kind = self.kind(h);
        let edge = self.edge(h);
        self.store.tell_sound();
        let value = value_of(&mut self.store, kind, edge, bits);
        self.store.tell_sound();
        value
    }

    /// Whether a BDD is true wherever another is.
    pub fn leq(&mut self, f: H, g: H) -> Result<bool, Memory>
        requires { IsLiveAs kinds.Bdd self.old.rows.live f × IsLiveAs kinds.Bdd self.old.rows.live g }
        ensures same { Same self.old self.new }
        ensures orders { orders_of self.new.store ≡ orders_of self.old.store }
        ensures leq { IfOk result (λ told. (a b : ℕ → ValueOf kinds.Bdd) → Names self.old kinds.Bdd f a → Names self.old kinds.Bdd g b → (told ≡ true) ↔ Implies a b) }
    {
        let first = self.edge(f);
        let second = self.edge(g);
        self.store.tell_sound();
        let told = ite_core::leq(&mut self.store, first, second);
        self.store.tell_sound();
        told
    }

    /// Frees exactly the slots that are reached neither from a permanent slot nor from a row. Both orders stay.
    pub fn sweep(self) -> (RowStore, Swept)
        ensures same { Same self result.0 }
        ensures swept { IsSwept Alone (content_view self.store) (content_view result.0.store) result.1 }
        ensures orders { orders_of result.0.store ≡ orders_of self.store }
    {
        let RowStore {
            alloc,
            store,
            rows,
            made,
        } = self;
        let (left, swept) = sweep_slots(store);
        (
            RowStore {
                alloc,
                store: left,
                rows,
                made,
            },
            swept,
        )
    }
}
