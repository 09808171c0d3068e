//! The edge of a node or of a leaf.

ghost use Rattle.std.specs.Prelude.{◌≡◌, ℕ, ◌+◌, ◌-◌, ◌<◌, ◌^◌, if◌then◌else◌, nat_lt, IfNone, IfSome, Some};
ghost use Rattle.edge_bits.specs.Permanent.{first_element};
ghost use Rattle.edge_bits.specs.Words.{IsLeafValue, unpack_of};
ghost use Rattle.edge_bits.specs.declared.edges.Kind.{Kind as KindOf};
ghost use Rattle.edge_bits.specs.declared.words.Word.TheVariants.{Inner, Leaf as LeafOf};
ghost use Rattle.node_store.specs.Edges.{flip_if as flipped};
ghost use Rattle.node_store.specs.Views.{CanMake, IsVariable};
ghost use Rattle.node_slots.specs.Placing.{HasNoChild, IsChild};
ghost use Rattle.step_store.specs.Knowing.{Answers, Knowledge, idle, turns};

use crate::job::Job;
use crate::placing::place;
use crate::steps::Steps;
use edge_bits::{EMPTY_SLOT, Edge, FIRST_ELEMENT, Node, Word, pack};
use node_store::Stop;
use node_store::binary::flip_if;
use std::sync::Wait;

/// The child that a node would be, if it would be one.
fn only_child(var: u32, hi: Edge, lo: Edge) -> Option<Edge>
    ensures child { IfSome result (IsChild var hi lo) }
    ensures none { IfNone result (HasNoChild var hi lo) }
{
    if var < FIRST_ELEMENT {
        if hi == lo { Some(hi) } else { None }
    } else if hi.index() == EMPTY_SLOT {
        Some(lo)
    } else {
        None
    }
}

/// The number of a variable's or an element's level among the turns.
fn turn_number<S: Steps>(seat: &S, var: u32) -> u32
    requires own { S.shares seat.now }
    requires var { (k : KindOf) × IsVariable k (S.known seat.now).view var }
    ensures number { result ≡ (if nat_lt var first_element then var else (S.known seat.now).view.vars + (var - first_element)) }
    ensures within { result < turns (S.known seat.now).view }
{
    if var < FIRST_ELEMENT {
        var
    } else {
        seat.vars() + (var - FIRST_ELEMENT)
    }
}

/// The bits of a node's word. A complement of the then arc goes to the edge of the node.
fn node_bits(var: u32, hi: Edge, lo: Edge) -> u64
    requires { (var < 2 ^ 15) × (hi.index < 2 ^ 23) × (lo.index < 2 ^ 23) }
    ensures { unpack_of result ≡ Some (Inner (record { var = var; hi = hi.index; lo = flipped hi.complement lo })) }
{
    pack(Word::Inner(Node {
        var: var as u16,
        hi: hi.index(),
        lo: flip_if(lo, hi.complement()),
    }))
}

/// The bits of a leaf's word.
fn leaf_bits(value: &i64) -> u64
    requires { IsLeafValue value.now }
    ensures { unpack_of result ≡ Some (LeafOf value.now) }
{
    pack(Word::Leaf(*value))
}

/// The edge of a node, which is stored if it is not there.
pub fn make<R: Wait, S: Steps>(
    rt: &R,
    seat: &mut S,
    var: u32,
    hi: Edge,
    lo: Edge,
) -> Result<Edge, Stop>
    requires own { S.shares seat.old }
    requires idle { (S.known seat.old).hand ≡ idle }
    requires can { (k : KindOf) × CanMake k (S.known seat.old).view var hi lo }
    ensures own { S.shares seat.new }
    ensures home { (S.table seat.new ≡ S.table seat.old) × (S.rest seat.new ≡ S.rest seat.old) }
    ensures idle { (S.known seat.new).hand ≡ idle }
    ensures answers { Answers (S.known seat.old) (S.known seat.new) (Job.Node var hi lo) result }
{
    if let Some(child) = only_child(var, hi, lo) {
        return Ok(child);
    }
    let level = turn_number(seat, var);
    let bits = node_bits(var, hi, lo);
    let job = Job::Node(var, hi, lo);
    match place(rt, seat, bits, level, &job) {
        Some(slot) => Ok(Edge::new(slot, hi.complement())),
        None => Err(Stop::Full),
    }
}

/// The edge of a number's leaf, which is stored if it is not there.
pub fn leaf<R: Wait, S: Steps>(rt: &R, seat: &mut S, value: &i64) -> Result<Edge, Stop>
    requires own { S.shares seat.old }
    requires idle { (S.known seat.old).hand ≡ idle }
    requires value { IsLeafValue value.now }
    ensures own { S.shares seat.new }
    ensures home { (S.table seat.new ≡ S.table seat.old) × (S.rest seat.new ≡ S.rest seat.old) }
    ensures idle { (S.known seat.new).hand ≡ idle }
    ensures answers { Answers (S.known seat.old) (S.known seat.new) (Job.Leaf value.now) result }
{
    let level = seat.vars() + seat.elements();
    let bits = leaf_bits(value);
    let job = Job::Leaf(*value);
    match place(rt, seat, bits, level, &job) {
        Some(slot) => Ok(Edge::new(slot, false)),
        None => Err(Stop::Full),
    }
}
