//! The function of pairs.

ghost use Rattle.std.specs.Prelude.{◌≡◌, ◌≤◌, ◌↔◌, IfSome, IsTrue, None, slice_index};
ghost use Rattle.edge_bits.specs.declared.edges.Kind.TheVariants.{Bdd};
ghost use Rattle.node_slots.specs.Stores.{is_held, plain_view, slots};
ghost use Rattle.node_store.specs.Views.{Grown, Is};

use edge_bits::{Edge, unpack};
use ite_core::{and, or};
use node_slots::{Grow, PlainStore};

/// The conjunction of two variables, where there are both and room for it.
fn both(store: &mut PlainStore, x: u32, y: u32) -> Option<Edge>
    ensures grown { Grown (plain_view store.old) (plain_view store.new) }
    ensures is { IfSome result (λ edge. Is Bdd (plain_view store.new) edge) }
{
    if x >= store.vars() || y >= store.vars() {
        return None;
    }
    let a = store.projection(x);
    let b = store.projection(y);
    and(store, a, b).ok()
}

/// A disjunction of a function and the conjunction of two variables.
fn with_pair(store: &mut PlainStore, f: Edge, x: u32, y: u32) -> Option<Edge>
    requires { Is Bdd (plain_view store.old) f }
    ensures grown { Grown (plain_view store.old) (plain_view store.new) }
    ensures is { IfSome result (λ edge. Is Bdd (plain_view store.new) edge) }
{
    let pair = both(store, x, y)?;
    or(store, f, pair).ok()
}

/// The function x0 xK + x1 x(K+1) + ...
fn function_of_pairs(store: &mut PlainStore, pairs: u32) -> Option<Edge>
    requires { pairs ≤ 20 }
    ensures { Grown (plain_view store.old) (plain_view store.new) }
{
    let mut sum = both(store, 0, pairs)?;
    for i in 1..pairs {
        sum = with_pair(store, sum, i, i + pairs)?;
    }
    Some(sum)
}

/// The bits of a slot, 0 beyond all words.
fn bits_at(words: &[u64], slot: u32) -> u64
    ensures { result ≡ slice_index words.now slot }
{
    let slot = slot as usize;
    if slot < words.len() { words[slot] } else { 0 }
}

/// Whether a slot has a word.
fn is_used(store: &PlainStore, slot: u32) -> bool
    ensures { IsTrue result ↔ (slots store.now slot ≡ None → ⊥) }
{
    unpack(bits_at(store.words(), slot)).is_some()
}

/// A store with the function x0 xK + x1 x(K+1) + .., where there is room for it, counted once if it is to be.
pub fn with_pairs(store: PlainStore, pairs: u32, counted: bool) -> Option<PlainStore>
    requires few { pairs ≤ 20 }
    ensures { IfSome result (λ made. is_held made ≡ is_held store) }
{
    let mut store = store;
    let slot = function_of_pairs(&mut store, pairs)?.index();
    if counted {
        if !is_used(&store, slot) || store.count_of(slot) != 0 {
            return None;
        }
        store.raise(slot);
    }
    Some(store)
}
