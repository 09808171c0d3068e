//! How many nodes a stored diagram has.

ghost use Rattle.std.specs.Prelude.{◌≡◌};
ghost use Rattle.diagram_dumps.specs.WellMade.{IsWellMade};
ghost use Rattle.function_laws.specs.Sizes.{Orders, size};
ghost use Rattle.diagram_dumps.specs.Under.{IsUnder, functions_of};

use crate::Dump;

/// The size of the roots' functions under any order that the dump stands under: one for each node line and one for the
/// constant, or none where there are no roots.
pub fn node_count(dump: &Dump) -> usize
    requires { IsWellMade dump.now }
    ensures { (orders : Orders) → IsUnder orders.variables dump.now → result ≡ size orders (functions_of dump.now) }
{
    if dump.roots.is_empty() {
        return 0;
    }
    dump.nodes.as_slice().len() + 1
}
