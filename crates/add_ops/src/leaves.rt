//! The leaves of ADDs.

ghost use Rattle.std.specs.Prelude.{◌≡◌, ℕ, ◌⊎◌, IfOk, IsErrOf, IsOkAnd, cond, true, false, Some};
ghost use Rattle.edge_bits.specs.declared.edges.Kind.TheVariants.{Add};
ghost use Rattle.function_laws.specs.Numbers.{is_value};
ghost use Rattle.function_laws.specs.Values.{constant};
ghost use Rattle.function_laws.specs.Kinds.{function_of};
ghost use Rattle.node_store.specs.Views.{Denotes, Grown, Rose};

use edge_bits::{Edge, LEAST_VALUE, VALUE_END};
use node_store::Grow;
use node_store::operator::Halt;

/// The leaf of a number, or Overflow where no leaf can have it.
pub(crate) fn leaf_of<G: Grow>(store: &mut G, exact: i128) -> Result<Edge, Halt>
    ensures grown { Grown (G.view store.old) (G.view store.new) }
    ensures leaf { IfOk result (λ e. Denotes Add (G.view store.new) e (constant exact)) }
    ensures made { (s : ℕ) → (G.view store.new).made s ≡ true → ((G.view store.old).made s ≡ true) ⊎ IsOkAnd result (λ e. e.index ≡ s) }
    ensures overflow { IsErrOf result Halt.Overflow → is_value exact ≡ false }
    ensures memory { IsErrOf result Halt.Memory → (G.view store.old).may_want_memory ≡ true }
    ensures full { IsErrOf result Halt.Full → Rose (G.view store.old) (G.view store.new) }
    ensures due { IsErrOf result Halt.Full → (G.view store.new).due ≡ Some (function_of Add (constant exact)) }
{
    if exact < i128::from(LEAST_VALUE) || i128::from(VALUE_END) <= exact {
        return Err(Halt::Overflow);
    }
    Ok(store.leaf(exact as i64)?)
}

/// The first edge or the second.
pub(crate) fn chosen(first: bool, f: Edge, g: Edge) -> Edge
    ensures { result ≡ cond first f g }
{
    if first { f } else { g }
}
