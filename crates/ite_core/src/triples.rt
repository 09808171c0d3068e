//! The normal form of if-then-else: the standard triples of Brace, Rudell and Bryant (1990).

ghost use Rattle.std.specs.Prelude.{◌≡◌};
ghost use Rattle.edge_bits.specs.declared.edges.Kind.TheVariants.{Bdd};
ghost use Rattle.node_store.specs.Views.{View, Is, Permanent};
ghost use Rattle.node_store.specs.Three.{AreThree, IsReduced};
ghost use Rattle.ite_core.specs.Triples.{StandsFor};

use edge_bits::{Edge, TRUE_SLOT};
use node_store::binary::flip_if;
use node_store::conditional::Reduced;
use node_store::operator::Task;

/// The answer where an operand is constant or the second and the third agree, else operands with the same answer up to complement: the first and the second are regular, and the first is no constant and stands in no other place.
pub(crate) fn reduce(f: Edge, g: Edge, h: Edge) -> Reduced
    ensures { (w : View) → Permanent w → AreThree Bdd w f g h → IsReduced Bdd w f g h result }
{
    if f.index() == TRUE_SLOT {
        return Reduced::Answer(if f.complement() { h } else { g });
    }
    let then = known_where(f, g);
    let not_f = flip_if(f, true);
    let other = known_where(not_f, h);
    if then == other {
        return Reduced::Answer(then);
    }
    if then.index() == TRUE_SLOT && other.index() == TRUE_SLOT {
        return Reduced::Answer(flip_if(f, then.complement()));
    }
    in_order(f, then, other)
}

/// What may stand for an operand that is read only where f is true: logic one for f itself, zero for its complement.
fn known_where(f: Edge, g: Edge) -> Edge
    ensures { (w : View) → Permanent w → Is Bdd w f → Is Bdd w g → StandsFor w f g result }
{
    if g.index() == f.index() {
        Edge::truth(g.complement() == f.complement())
    } else {
        g
    }
}

/// An exclusive or, whose second and third operands are complements, takes the lower slot for its condition.
fn in_order(f: Edge, g: Edge, h: Edge) -> Reduced
    requires inner { f.index ≡ 0 → ⊥ }
    requires apart { g ≡ h → ⊥ }
    ensures { (w : View) → AreThree Bdd w f g h → IsReduced Bdd w f g h result }
{
    if g.index() == h.index() && TRUE_SLOT < g.index() && g.index() < f.index() {
        return with_regular_condition(g, f, flip_if(f, true));
    }
    with_regular_condition(f, g, h)
}

/// With the condition regular.
fn with_regular_condition(f: Edge, g: Edge, h: Edge) -> Reduced
    requires { f.index ≡ 0 → ⊥ }
    ensures { (w : View) → AreThree Bdd w f g h → IsReduced Bdd w f g h result }
{
    if f.complement() {
        with_regular_answer(flip_if(f, true), h, g)
    } else {
        with_regular_answer(f, g, h)
    }
}

/// With the first function regular, and so the answer.
fn with_regular_answer(f: Edge, g: Edge, h: Edge) -> Reduced
    requires { f.index ≡ 0 → ⊥ }
    ensures { (w : View) → AreThree Bdd w f g h → IsReduced Bdd w f g h result }
{
    let flip = g.complement();
    let task = Task {
        f,
        g: flip_if(g, flip),
        h: flip_if(h, flip),
    };
    Reduced::Normal(task, flip)
}
