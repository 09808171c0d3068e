//! Products of variables, as edges: that of a list, and what is left of one below a variable.

ghost use Rattle.std.specs.Prelude.{◌≡◌, ◌<◌, ◌≤◌, Some, length, slice_set};
ghost use Rattle.std.specs.List.{All};
ghost use Rattle.edge_bits.specs.declared.edges.Kind.TheVariants.{Bdd};
ghost use Rattle.function_laws.specs.Cubes.{cube_of};
ghost use Rattle.function_laws.specs.Kinds.{BddFunction};
ghost use Rattle.node_store.specs.Operations.{Runs};
ghost use Rattle.node_store.specs.Views.{IsVariable, Kept, Permanent, bdd_at};
ghost use Rattle.quantify_ops.specs.Products.{AreMarks, AreNoMarks, IsMark, marked_product};
ghost use Rattle.quantify_ops.specs.Quantified.{HasCube, IsFreeAbove, LeftOf, RestIs};

use edge_bits::{Edge, Kind};
use node_store::operator::Halt;
use node_store::parts::{Top, look};
use node_store::{Grow, Opened, Stack};

/// The product of the variables of a list, which may have one twice. Each product that is made on the way is what is left of the whole below some level.
pub(crate) fn product<G: Grow>(store: &mut G, stack: &mut Stack, vars: &[u32]) -> Result<Edge, Halt>
    requires in_range { All (IsVariable Bdd (G.view store.old)) vars.now }
    requires room { (G.view store.old).vars ≤ length stack.old.marks }
    ensures runs { Runs Bdd (cube_of vars.now) (λ F. F ≡ BddFunction (cube_of vars.now)) (G.view store.old) (G.view store.new) result }
    ensures frames { stack.new.frames ≡ stack.old.frames }
    ensures free { stack.new.free ≡ stack.old.free }
    ensures length { length stack.new.marks ≡ length stack.old.marks }
{
    let levels = store.levels(Kind::Bdd);
    stack.clear_marks();
    mark_all(store, stack, vars);
    product_of_marks(store, stack, levels)
}

/// Marks the level of each variable of a list, where no level is marked.
fn mark_all<G: Grow>(store: &mut G, stack: &mut Stack, vars: &[u32])
    requires in_range { All (IsVariable Bdd (G.view store.old)) vars.now }
    requires room { (G.view store.old).vars ≤ length stack.old.marks }
    requires none { AreNoMarks stack.old.marks }
    ensures kept { Kept (G.view store.old) (G.view store.new) }
    ensures marks { AreMarks (G.view store.new) stack.new.marks }
    ensures product { marked_product stack.new.marks ≡ cube_of vars.now }
    ensures frames { stack.new.frames ≡ stack.old.frames }
    ensures free { stack.new.free ≡ stack.old.free }
    ensures length { length stack.new.marks ≡ length stack.old.marks }
{
    for var in vars {
        mark(store, stack, *var);
    }
}

/// Marks the level of a variable, which its projection tells.
fn mark<G: Grow>(store: &mut G, stack: &mut Stack, var: u32)
    requires in_range { IsVariable Bdd (G.view store.old) var }
    requires room { (G.view store.old).vars ≤ length stack.old.marks }
    ensures kept { Kept (G.view store.old) (G.view store.new) }
    ensures marks { stack.new.marks ≡ slice_set stack.old.marks ((G.view store.new).level var) (Some var) }
    ensures is_mark { IsMark (G.view store.new) ((G.view store.new).level var) var }
    ensures frames { stack.new.frames ≡ stack.old.frames }
    ensures free { stack.new.free ≡ stack.old.free }
{
    let projection = store.projection(var);
    let Some(top) = look(store, projection).top else {
        unreachable!();
    };
    stack.mark(top.level, top.var);
}

/// The product of the marked variables, from the last in the order to the first.
pub(crate) fn product_of_marks<G: Grow>(
    store: &mut G,
    stack: &Stack,
    levels: u32,
) -> Result<Edge, Halt>
    requires levels { levels ≡ (G.view store.old).vars }
    requires permanent { Permanent (G.view store.old) }
    requires room { levels ≤ length stack.now.marks }
    requires marks { AreMarks (G.view store.old) stack.now.marks }
    ensures runs { Runs Bdd (marked_product stack.now.marks) (λ F. F ≡ BddFunction (marked_product stack.now.marks)) (G.view store.old) (G.view store.new) result }
{
    let zero = Edge::truth(false);
    let mut cube = Edge::truth(true);
    let mut level = levels;
    'levels: while 0 < level {
        level -= 1;
        if let Some(var) = stack.marked(level) {
            cube = store.make(var, cube, zero)?;
        }
    }
    Ok(cube)
}

/// The rest of a product, where the variable is its top; the variables above are not in it.
pub(crate) fn rest_of<G: Grow>(store: &mut G, cube: Edge, var: u32) -> Option<Edge>
    requires cube { HasCube (G.view store.old) cube }
    requires in_range { IsVariable Bdd (G.view store.old) var }
    requires above { IsFreeAbove (G.view store.old) ((G.view store.old).level var) (bdd_at (G.view store.old) cube) }
    ensures kept { Kept (G.view store.old) (G.view store.new) }
    ensures rest { RestIs (G.view store.new) cube var result }
{
    let Opened::Inner(top, hi, _) = store.open(cube) else {
        return None;
    };
    if top == var { Some(hi) } else { None }
}

/// What is left of a product below a variable, or below its own top variable, where that stands above.
#[derive(Drop)]
pub(crate) enum Left {
    Above(Edge),
    Below(Edge),
}

/// What is left of a product below a variable, or below its own top variable, where that stands above.
pub(crate) fn left_of<G: Grow>(store: &mut G, cube: Edge, top: Top) -> Left
    requires cube { HasCube (G.view store.old) cube }
    requires in_range { IsVariable Bdd (G.view store.old) top.var }
    requires level { top.level ≡ (G.view store.old).level top.var }
    requires within { top.level < (G.view store.old).vars }
    ensures kept { Kept (G.view store.old) (G.view store.new) }
    ensures left { LeftOf (G.view store.new) cube top.var result }
{
    let Opened::Inner(var, hi, _) = store.open(cube) else {
        return Left::Below(cube);
    };
    if var == top.var {
        return Left::Below(hi);
    }
    if store.level(var) < top.level {
        Left::Above(hi)
    } else {
        Left::Below(cube)
    }
}
