//! How often rows hold a slot.

ghost use Rattle.std.specs.Prelude.{◌≡◌, ◌+◌, ◌-◌, ◌<◌, ◌^◌, ◌==◌, ℕ, Some};
ghost use Rattle.node_slots.specs.Stores.{count_at, plain_view};
ghost use Rattle.node_store.specs.Views.{IsFunction};
ghost use Rattle.store_upkeep.specs.Lasting.{IsCounted, one_if};

use edge_bits::Edge;
use node_slots::PlainStore;

/// One more row holds the slot of an edge, which denotes a function. At most 2^32 - 3 do so far.
pub fn raise(store: &mut PlainStore, edge: Edge)
    requires function { IsFunction (plain_view store.old) edge }
    requires few { count_at store.old edge.index + 1 < 2 ^ 32 - 1 }
    ensures count { (k : ℕ) → count_at store.new k ≡ count_at store.old k + one_if (edge.index == k) }
    ensures rest { IsCounted store.old store.new }
{
    store.tell_sound();
    store.raise(edge.index());
}

/// One row less holds the slot of an edge.
pub fn lower(store: &mut PlainStore, edge: Edge)
    requires { 0 < count_at store.old edge.index }
    ensures count { (k : ℕ) → count_at store.new k + one_if (edge.index == k) ≡ count_at store.old k }
    ensures rest { IsCounted store.old store.new }
{
    store.tell_sound();
    store.lower(edge.index());
}
