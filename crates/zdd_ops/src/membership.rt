//! Whether a combination is a member of a family.

ghost use Rattle.std.specs.Prelude.{◌≡◌, length};
ghost use Rattle.std.specs.List.{count_by};
ghost use Rattle.edge_bits.specs.declared.edges.Kind.TheVariants.{Zdd};
ghost use Rattle.function_laws.specs.Values.{assignment_of};
ghost use Rattle.node_store.specs.Views.{Is, Kept, family_at};

use edge_bits::{Edge, FIRST_ELEMENT};
use node_store::{Grow, Opened};

/// Whether the combination of the elements whose bits are set is a member of a family. It follows the arcs that the bits choose, and makes no node.
pub fn contains<G: Grow>(store: &mut G, p: Edge, bits: &[bool]) -> bool
    requires family { Is Zdd (G.view store.old) p }
    requires bits { length bits.now ≡ (G.view store.old).elements }
    ensures kept { Kept (G.view store.old) (G.view store.new) }
    ensures room { (G.view store.new).room ≡ (G.view store.old).room }
    ensures member { result ≡ family_at (G.view store.old) p (assignment_of bits.now) }
{
    let mut left = set_bits(bits);
    let mut at = p;
    'walk: loop {
        match store.open(at) {
            Opened::Inner(var, hi, lo) => {
                if bits[(var - FIRST_ELEMENT) as usize] {
                    at = hi;
                    left -= 1;
                } else {
                    at = lo;
                }
            }
            // No member of what is left has an element that no node named.
            Opened::Leaf(value) => return value == 1 && left == 0,
        }
    }
}

fn set_bits(bits: &[bool]) -> usize
    ensures { result ≡ count_by (λ bit. bit) bits.now }
{
    bits.iter().filter(|bit| **bit).count()
}
