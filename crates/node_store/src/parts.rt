//! The parts of functions at the upper one of their top variables. Each operand is opened once. The calls of one step are marked for
//! inlining, so that what was opened need not go through memory.

ghost use Rattle.std.specs.Prelude.{◌≡◌};
ghost use Rattle.edge_bits.specs.declared.edges.Kind.{Kind};
ghost use Rattle.node_store.specs.Views.{View, AreTwo, CanPart, Is, Kept, PartsAt, Permanent, values_at};
ghost use Rattle.node_store.specs.Operands.{CanHalve, IsOperand, IsSplitThree, IsSplitTwo, leaf_value};
ghost use Rattle.node_store.specs.Parts.{absent_edge};
ghost use Rattle.node_store.specs.Tops.{upper_of};
ghost use Rattle.node_store.specs.Three.{CanSplit};

use crate::grow::{Edge, Grow, Opened};
use crate::operator::Task;
use edge_bits::FIRST_ELEMENT;

/// A variable with its level.
#[derive(Clone, Copy, PartialEq, Eq, Drop)]
pub struct Top {
    pub var: u32,
    pub level: u32,
}

/// An edge with what it leads to, and its top variable if it is no leaf.
#[derive(Clone, Copy, PartialEq, Eq, Drop)]
pub struct Operand {
    pub edge: Edge,
    pub opened: Opened,
    pub top: Option<Top>,
}

/// A task's parts at the upper one of its operands' top variables.
#[derive(Clone, Copy, PartialEq, Eq, Drop)]
pub struct Halves {
    pub top: Top,
    pub hi: Task,
    pub lo: Task,
}

/// Two leaves with their values, or two functions with their parts.
#[derive(Clone, Copy, PartialEq, Eq, Drop)]
pub enum Split {
    Leaves(i64, i64),
    At(Halves),
}

/// Opens an edge.
#[inline(always)]
pub fn look<G: Grow>(store: &mut G, edge: Edge) -> Operand
    requires { (k : Kind) × Is k (G.view store.old) edge }
    ensures kept { Kept (G.view store.old) (G.view store.new) }
    ensures permanent { Permanent (G.view store.new) }
    ensures edge { result.edge ≡ edge }
    ensures operand { (k : Kind) → Is k (G.view store.old) edge → IsOperand k (G.view store.new) result }
{
    match store.open(edge) {
        Opened::Inner(var, hi, lo) => Operand {
            edge,
            opened: Opened::Inner(var, hi, lo),
            top: Some(Top {
                var,
                level: store.level(var),
            }),
        },
        Opened::Leaf(value) => Operand {
            edge,
            opened: Opened::Leaf(value),
            top: None,
        },
    }
}

/// The then part, at a variable above the edge's top: a family has no member with the element, and any other function is its own.
fn absent_part(edge: Edge, var: u32) -> Edge
    ensures { result ≡ absent_edge var edge }
{
    if var < FIRST_ELEMENT {
        edge
    } else {
        Edge::empty_family()
    }
}

/// Both parts of an opened edge by a variable that is not below its top.
pub fn parts_of(operand: Operand, var: u32) -> (Edge, Edge)
    ensures { (k : Kind) (w : View) → CanHalve k w operand var → PartsAt k w operand.edge (values_at k w operand.edge) var result.0 result.1 }
{
    let Operand { edge, opened, .. } = operand;
    match opened {
        Opened::Inner(top, hi, lo) => {
            if top == var {
                (hi, lo)
            } else {
                (absent_part(edge, var), edge)
            }
        }
        Opened::Leaf(_) => (absent_part(edge, var), edge),
    }
}

/// Both parts of an edge by a variable that is not below its top.
pub fn parts<G: Grow>(store: &mut G, edge: Edge, var: u32) -> (Edge, Edge)
    requires { (k : Kind) × CanPart k (G.view store.old) edge var }
    ensures kept { Kept (G.view store.old) (G.view store.new) }
    ensures parts { (k : Kind) → CanPart k (G.view store.old) edge var → PartsAt k (G.view store.new) edge (values_at k (G.view store.new) edge) var result.0 result.1 }
{
    let operand = look(store, edge);
    parts_of(operand, var)
}

/// The upper one of two top variables.
fn upper(first: Option<Top>, second: Option<Top>) -> Option<Top>
    ensures { result ≡ upper_of first second }
{
    match first {
        None => second,
        Some(a) => match second {
            None => Some(a),
            Some(b) => Some(if a.level <= b.level { a } else { b }),
        },
    }
}

/// Two opened leaves, with their values; 0 in place of a node's.
fn leaves(first: Operand, second: Operand) -> Split
    ensures { result ≡ Split.Leaves (leaf_value first.opened) (leaf_value second.opened) }
{
    let x = match first.opened {
        Opened::Leaf(value) => value,
        Opened::Inner(_, _, _) => 0,
    };
    let y = match second.opened {
        Opened::Leaf(value) => value,
        Opened::Inner(_, _, _) => 0,
    };
    Split::Leaves(x, y)
}

/// The parts of two functions at the upper one of their top variables, or two leaves.
#[inline(always)]
pub fn split_two<G: Grow>(store: &mut G, f: Edge, g: Edge) -> Split
    requires { (k : Kind) × AreTwo k (G.view store.old) f g }
    ensures kept { Kept (G.view store.old) (G.view store.new) }
    ensures split { (k : Kind) → AreTwo k (G.view store.old) f g → IsSplitTwo k (G.view store.new) f g result }
{
    let first = look(store, f);
    let second = look(store, g);
    let Some(top) = upper(first.top, second.top) else {
        return leaves(first, second);
    };
    let (f1, f0) = parts_of(first, top.var);
    let (g1, g0) = parts_of(second, top.var);
    Split::At(Halves {
        top,
        hi: Task::two(f1, g1),
        lo: Task::two(f0, g0),
    })
}

/// The parts of a condition, which is no constant, and of two functions at the upper one of their top variables.
#[inline(always)]
pub fn split_three<G: Grow>(store: &mut G, task: Task) -> Halves
    requires { (k : Kind) × CanSplit k (G.view store.old) task }
    ensures kept { Kept (G.view store.old) (G.view store.new) }
    ensures split { (k : Kind) → CanSplit k (G.view store.old) task → IsSplitThree k (G.view store.new) task result }
{
    let condition = look(store, task.f);
    let first = look(store, task.g);
    let second = look(store, task.h);
    let below = upper(first.top, second.top);
    let Some(top) = upper(condition.top, below) else {
        unreachable!();
    };
    let (f1, f0) = parts_of(condition, top.var);
    let (g1, g0) = parts_of(first, top.var);
    let (h1, h0) = parts_of(second, top.var);
    Halves {
        top,
        hi: Task {
            f: f1,
            g: g1,
            h: h1,
        },
        lo: Task {
            f: f0,
            g: g0,
            h: h0,
        },
    }
}
