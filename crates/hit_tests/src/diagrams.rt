//! Diagrams of two nodes a level, with more paths than can be walked.

ghost use Rattle.std.specs.Prelude.{◌≡◌, ◌<◌, IfOk};
ghost use Rattle.edge_bits.specs.declared.edges.Kind.TheVariants.{Add, Bdd, Zdd};
ghost use Rattle.node_store.specs.Three.{AreThree};
ghost use Rattle.node_store.specs.Views.{AreTwo, Grown, Is};

use add_ops::from_bdd;
use edge_bits::Edge;
use ite_core::xor;
use node_store::{Grow, Stop};
use zdd_ops::{base, change, empty, union};

/// The last variable or element with an even number: an operation on it goes down through all levels but the last.
pub const LAST: u32 = 62;

/// The parity of the 32 variables with an even number, that of the 32 with an odd one, and the last even variable.
#[derive(Clone, Copy, Drop)]
pub struct Truths {
    pub even: Edge,
    pub odd: Edge,
    pub last: Edge,
}

/// The same two parities with the values 0 and 1 as numbers, and the first of them as a condition.
#[derive(Clone, Copy, Drop)]
pub struct Numbers {
    pub condition: Edge,
    pub even: Edge,
    pub odd: Edge,
}

/// Two families: of the elements with an even number and of those with an odd one, or of the sets of even and of odd size.
#[derive(Clone, Copy, Drop)]
pub struct Pair {
    pub even: Edge,
    pub odd: Edge,
}

/// The exclusive or of a function and a variable.
fn toggled<G: Grow>(store: &mut G, sum: Edge, var: u32) -> Result<Edge, Stop>
    requires vars { (G.view store.old).vars ≡ 64 }
    requires var { var < 64 }
    requires sum { Is Bdd (G.view store.old) sum }
    ensures grown { Grown (G.view store.old) (G.view store.new) }
    ensures is { IfOk result (Is Bdd (G.view store.new)) }
{
    let variable = store.projection(var);
    xor(store, sum, variable)
}

/// The parity of the 32 variables with an even number, or of those with an odd one.
pub fn parity<G: Grow>(store: &mut G, odd: u32) -> Result<Edge, Stop>
    requires vars { (G.view store.old).vars ≡ 64 }
    requires odd { odd < 2 }
    ensures grown { Grown (G.view store.old) (G.view store.new) }
    ensures is { IfOk result (Is Bdd (G.view store.new)) }
{
    let mut sum = store.projection(odd);
    for i in 1..32u32 {
        sum = toggled(store, sum, 2 * i + odd)?;
    }
    Ok(sum)
}

/// Boolean functions to operate on.
pub fn truth_operands<G: Grow>(store: &mut G) -> Result<Truths, Stop>
    requires { (G.view store.old).vars ≡ 64 }
    ensures vars { (G.view store.new).vars ≡ 64 }
    ensures three { IfOk result (λ t. AreThree Bdd (G.view store.new) t.even t.odd t.last) }
{
    let even = parity(store, 0)?;
    let odd = parity(store, 1)?;
    let last = store.projection(LAST);
    Ok(Truths { even, odd, last })
}

/// Functions of numbers to operate on.
pub fn number_operands<G: Grow>(store: &mut G) -> Result<Numbers, Stop>
    requires { (G.view store.old).vars ≡ 64 }
    ensures vars { (G.view store.new).vars ≡ 64 }
    ensures three { IfOk result (λ n. AreThree Add (G.view store.new) n.condition n.even n.odd) }
{
    let truths = truth_operands(store)?;
    let even = from_bdd(store, truths.even)?;
    let odd = from_bdd(store, truths.odd)?;
    Ok(Numbers {
        condition: truths.even,
        even,
        odd,
    })
}

/// The families of all sets of even and of odd size, with one element more.
fn extended<G: Grow>(store: &mut G, sets: Pair, element: u32) -> Result<Pair, Stop>
    requires elements { (G.view store.old).elements ≡ 64 }
    requires element { element < 64 }
    requires two { AreTwo Zdd (G.view store.old) sets.even sets.odd }
    ensures grown { Grown (G.view store.old) (G.view store.new) }
    ensures two { IfOk result (λ p. AreTwo Zdd (G.view store.new) p.even p.odd) }
{
    let even = with_changed(store, sets.even, sets.odd, element)?;
    let odd = with_changed(store, sets.odd, sets.even, element)?;
    Ok(Pair { even, odd })
}

/// The sets of the first family, and those of the second with the element put in or taken out.
fn with_changed<G: Grow>(store: &mut G, p: Edge, q: Edge, element: u32) -> Result<Edge, Stop>
    requires elements { (G.view store.old).elements ≡ 64 }
    requires element { element < 64 }
    requires two { AreTwo Zdd (G.view store.old) p q }
    ensures grown { Grown (G.view store.old) (G.view store.new) }
    ensures is { IfOk result (Is Zdd (G.view store.new)) }
{
    let changed = change(store, q, element)?;
    union(store, p, changed)
}

/// The families of all sets of even and of odd size of the 32 elements with an even number, or of those with an odd one.
pub fn sets<G: Grow>(store: &mut G, odd: u32) -> Result<Pair, Stop>
    requires elements { (G.view store.old).elements ≡ 64 }
    requires odd { odd < 2 }
    ensures grown { Grown (G.view store.old) (G.view store.new) }
    ensures two { IfOk result (λ p. AreTwo Zdd (G.view store.new) p.even p.odd) }
{
    let mut pair = Pair {
        even: base(store)?,
        odd: empty(store)?,
    };
    for i in 0..32u32 {
        pair = extended(store, pair, 62 - 2 * i + odd)?;
    }
    Ok(pair)
}

/// The families of all sets of even size of the even and of the odd elements.
pub fn even_sets<G: Grow>(store: &mut G) -> Result<Pair, Stop>
    requires { (G.view store.old).elements ≡ 64 }
    ensures two { IfOk result (λ p. AreTwo Zdd (G.view store.new) p.even p.odd) }
{
    let first = sets(store, 0)?;
    let second = sets(store, 1)?;
    Ok(Pair {
        even: first.even,
        odd: second.even,
    })
}
