//! What is asked of a store by the calls that make no node.

ghost use Rattle.std.specs.Prelude.{◌≡◌, length, ◌<◌, ◌↔◌, true, IfOk};
ghost use Rattle.edge_bits.specs.declared.edges.Kind.TheVariants as kinds;
ghost use Rattle.function_laws.specs.Values.{assignment_of};
ghost use Rattle.node_store.specs.Listed.{number_of};
ghost use Rattle.node_store.specs.Memo.{Implies};
ghost use Rattle.node_store.specs.Views.{AreTwo, Is, Kept, bdd_at, levels, values_at};
ghost use Rattle.shared_store.specs.Sharing.{view_of};
ghost use Rattle.dd_session.specs.Turns.{IsAsked};

use crate::walking::value_at;
use edge_bits::{Edge, Kind, Memory};
use node_slots::Grow;
use shared_store::Shared;

/// Whether a function is true wherever another is, told by a store that may keep answers.
pub fn implies(shared: &mut Shared, f: Edge, g: Edge) -> Result<bool, Memory>
    requires { AreTwo kinds.Bdd (view_of shared.old) f g }
    ensures asked { IsAsked shared.old shared.new }
    ensures implies { IfOk result (λ told. (told ≡ true) ↔ Implies (bdd_at (view_of shared.old) f) (bdd_at (view_of shared.old) g)) }
{
    shared.store.tell_sound();
    let told = ite_core::leq(shared.store.get_mut(), f, g);
    shared.store.tell_sound();
    told
}

/// The value of a diagram of this kind at the bits of its variables or elements.
fn value_of<G: Grow>(store: &mut G, kind: Kind, edge: Edge, bits: &[bool]) -> i64
    requires edge { Is kind (G.view store.old) edge }
    requires bits { length bits.now ≡ levels kind (G.view store.old) }
    ensures kept { Kept (G.view store.old) (G.view store.new) }
    ensures value { result ≡ number_of kind (values_at kind (G.view store.old) edge (assignment_of bits.now)) }
{
    match kind {
        Kind::Zdd => i64::from(zdd_ops::contains(store, edge, bits)),
        _ => value_at(store, edge, bits),
    }
}

/// The same, of a store that may keep answers.
pub fn walked(shared: &mut Shared, kind: Kind, edge: Edge, bits: &[bool]) -> i64
    requires edge { Is kind (view_of shared.old) edge }
    requires bits { length bits.now ≡ levels kind (view_of shared.old) }
    ensures asked { IsAsked shared.old shared.new }
    ensures value { result ≡ number_of kind (values_at kind (view_of shared.old) edge (assignment_of bits.now)) }
{
    shared.store.tell_sound();
    let value = value_of(shared.store.get_mut(), kind, edge, bits);
    shared.store.tell_sound();
    value
}
