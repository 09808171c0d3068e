//! Union, intersection and difference, as the evaluator runs them.

ghost use Rattle.std.specs.Prelude.{◌&&◌, ◌||◌, not, IfSome};
ghost use Rattle.edge_bits.specs.declared.edges.Kind.TheVariants.{Zdd};
ghost use Rattle.node_store.specs.Two.{place_at};
ghost use Rattle.node_store.specs.Views.{View, AreTwo, Denotes, Permanent};
ghost use Rattle.zdd_ops.specs.Elements.{AreFamilyLeaves};

use edge_bits::{EMPTY_SLOT, Edge, Kind};
use node_store::operator::{Halt, Task};
use node_store::pointwise::Pointwise;
use node_store::{Grow, numbers};

/// Union.
#[derive(Drop)]
pub(crate) struct Uniting;

impl<G: Grow> Pointwise<G> for Uniting {
    ghost use Rattle.std.specs.Prelude.{◌||◌, refl};
    ghost use Rattle.edge_bits.specs.declared.edges.Kind.TheVariants.{Zdd};

    ghost kind = { Zdd };

    ghost op = { λ a b. a || b };

    fn terminal(&self, f: Edge, g: Edge) -> Option<Edge> {
        united(f, g)
    }

    fn at_leaves(&self, _store: &mut G, f: Edge, g: Edge, _x: i64, _y: i64) -> Result<Edge, Halt> {
        Ok(united_leaves(f, g))
    }

    fn arrange(&self, f: Edge, g: Edge) -> Task {
        Task::ordered(f, g)
    }

    fn answer_kind(&self) -> Kind {
        Kind::Zdd
    }

    #[tactic(auto, unfolding(node_store::specs::Memo::FamilyHolds))]
    fn number(&self) -> u8 {
        numbers::UNION
    }

    ghost keeps = { refl };
}

/// The union of equal families, or with Empty.
fn united(f: Edge, g: Edge) -> Option<Edge>
    ensures { (w : View) → Permanent w → AreTwo Zdd w f g → IfSome result (λ e. Denotes Zdd w e (place_at Zdd (λ a b. a || b) w f g)) }
{
    if f == g {
        return Some(f);
    }
    if f.index() == EMPTY_SLOT {
        return Some(g);
    }
    if g.index() == EMPTY_SLOT {
        return Some(f);
    }
    None
}

/// The union of two leaves.
fn united_leaves(f: Edge, g: Edge) -> Edge
    ensures { (w : View) → Permanent w → AreTwo Zdd w f g → AreFamilyLeaves w f g → Denotes Zdd w result (place_at Zdd (λ a b. a || b) w f g) }
{
    if f.index() == EMPTY_SLOT { g } else { f }
}

/// Intersection.
#[derive(Drop)]
pub(crate) struct Meeting;

impl<G: Grow> Pointwise<G> for Meeting {
    ghost use Rattle.std.specs.Prelude.{◌&&◌, refl};
    ghost use Rattle.edge_bits.specs.declared.edges.Kind.TheVariants.{Zdd};

    ghost kind = { Zdd };

    ghost op = { λ a b. a && b };

    fn terminal(&self, f: Edge, g: Edge) -> Option<Edge> {
        common(f, g)
    }

    fn at_leaves(&self, _store: &mut G, f: Edge, g: Edge, _x: i64, _y: i64) -> Result<Edge, Halt> {
        Ok(common_leaves(f, g))
    }

    fn arrange(&self, f: Edge, g: Edge) -> Task {
        Task::ordered(f, g)
    }

    fn answer_kind(&self) -> Kind {
        Kind::Zdd
    }

    #[tactic(auto, unfolding(node_store::specs::Memo::FamilyHolds))]
    fn number(&self) -> u8 {
        numbers::MEET
    }

    ghost keeps = { refl };
}

/// What equal families have in common, and what is in Empty.
fn common(f: Edge, g: Edge) -> Option<Edge>
    ensures { (w : View) → Permanent w → AreTwo Zdd w f g → IfSome result (λ e. Denotes Zdd w e (place_at Zdd (λ a b. a && b) w f g)) }
{
    if f == g {
        return Some(f);
    }
    if f.index() == EMPTY_SLOT {
        return Some(f);
    }
    if g.index() == EMPTY_SLOT {
        return Some(g);
    }
    None
}

/// What two leaves have in common.
fn common_leaves(f: Edge, g: Edge) -> Edge
    ensures { (w : View) → Permanent w → AreTwo Zdd w f g → AreFamilyLeaves w f g → Denotes Zdd w result (place_at Zdd (λ a b. a && b) w f g) }
{
    if f.index() == EMPTY_SLOT { f } else { g }
}

/// Difference.
#[derive(Drop)]
pub(crate) struct Removing;

impl<G: Grow> Pointwise<G> for Removing {
    ghost use Rattle.std.specs.Prelude.{◌&&◌, not, refl};
    ghost use Rattle.edge_bits.specs.declared.edges.Kind.TheVariants.{Zdd};

    ghost kind = { Zdd };

    ghost op = { λ a b. a && not b };

    fn terminal(&self, f: Edge, g: Edge) -> Option<Edge> {
        remaining(f, g)
    }

    fn at_leaves(&self, _store: &mut G, f: Edge, g: Edge, _x: i64, _y: i64) -> Result<Edge, Halt> {
        Ok(remaining_leaves(f, g))
    }

    fn arrange(&self, f: Edge, g: Edge) -> Task {
        Task::two(f, g)
    }

    fn answer_kind(&self) -> Kind {
        Kind::Zdd
    }

    #[tactic(auto, unfolding(node_store::specs::Memo::FamilyHolds))]
    fn number(&self) -> u8 {
        numbers::DIFF
    }

    ghost keeps = { refl };
}

/// What is left of a family without itself, of Empty, and without Empty.
fn remaining(f: Edge, g: Edge) -> Option<Edge>
    ensures { (w : View) → Permanent w → AreTwo Zdd w f g → IfSome result (λ e. Denotes Zdd w e (place_at Zdd (λ a b. a && not b) w f g)) }
{
    if f == g {
        return Some(Edge::empty_family());
    }
    if f.index() == EMPTY_SLOT {
        return Some(f);
    }
    if g.index() == EMPTY_SLOT {
        return Some(f);
    }
    None
}

/// What is left of a leaf without another.
fn remaining_leaves(f: Edge, g: Edge) -> Edge
    ensures { (w : View) → Permanent w → AreTwo Zdd w f g → AreFamilyLeaves w f g → Denotes Zdd w result (place_at Zdd (λ a b. a && not b) w f g) }
{
    if g.index() == EMPTY_SLOT {
        f
    } else {
        Edge::empty_family()
    }
}
