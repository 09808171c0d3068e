//! The value of a diagram, by the nodes on one path.

ghost use Rattle.std.specs.Prelude.{◌≡◌, ℕ, ◌+◌, ◌-◌, ◌<◌, ◌≤◌, ◌==◌, List, length, Some, if◌then◌else◌, nat_lt, pos};
ghost use Rattle.edge_bits.specs.Permanent.{base_slot, first_element};
ghost use Rattle.edge_bits.specs.declared.edges.Kind.{Kind};
ghost use Rattle.function_laws.specs.Kinds.{Denoted};
ghost use Rattle.function_laws.specs.Values.{assignment_of};
ghost use Rattle.node_store.specs.Listed.{number_of};
ghost use Rattle.node_store.specs.Views.{Is, IsFunction, Kept, levels, values_at};
ghost use Rattle.step_store.specs.Walking.{AreNeeded, Tells, ones};

use crate::opening::opened;
use crate::walks::Walks;
use edge_bits::{BASE_SLOT, Edge, FIRST_ELEMENT, unpack};
use node_store::Opened;

/// How many of the bits are 1.
fn count_ones(bits: &[bool]) -> usize
    ensures { result ≡ ones (length bits.now) (assignment_of bits.now) }
{
    let mut count = 0;
    for i in 0..bits.len() {
        if bits[i] {
            count += 1;
        }
    }
    count
}

/// The value at a leaf: a family has the combination if each of its elements was met on the way.
fn value_at(value: i64, leaf: Edge, taken: usize, bits: &[bool]) -> i64
    ensures { result ≡ (if leaf.index == base_slot then (if nat_lt taken (ones (length bits.now) (assignment_of bits.now)) then pos 0 else value) else value) }
{
    if leaf.index() == BASE_SLOT && taken < count_ones(bits) {
        0
    } else {
        value
    }
}

/// The place of a variable or an element among the bits.
fn place_of(var: u32) -> u32
    ensures { result ≡ (if nat_lt var first_element then var else var - first_element) }
{
    if var < FIRST_ELEMENT {
        var
    } else {
        var - FIRST_ELEMENT
    }
}

/// The node of an edge that denotes a function, by one node load.
fn look<S: Walks>(seat: &mut S, edge: Edge) -> Opened
    requires own { S.walks seat.old }
    requires edge { IsFunction (S.sees seat.old) edge }
    ensures own { S.walks seat.new }
    ensures home { (S.table seat.new ≡ S.table seat.old) × (S.rest seat.new ≡ S.rest seat.old) }
    ensures kept { Kept (S.sees seat.old) (S.sees seat.new) }
    ensures counted { S.loads seat.new ≤ S.loads seat.old + 1 }
    ensures tells { (k : Kind) → Is k (S.sees seat.old) edge → Tells k (S.sees seat.new) edge (values_at k (S.sees seat.old) edge) result }
{
    match unpack(seat.load_word(edge.index())) {
        Some(word) => opened(word, edge.complement()),
        None => unreachable!(),
    }
}

/// The value of a function at the bits of its variables, or whether a family has the combination of these elements. Each node load but the last follows a variable on which the function depends, and none is followed twice; so there are at most as many loads as levels, and one. It is never refused, and takes no memory.
pub fn walk<S: Walks>(seat: &mut S, edge: Edge, bits: &[bool]) -> i64
    requires own { S.walks seat.old }
    requires edge { (k : Kind) × Is k (S.sees seat.old) edge × (length bits.now ≡ levels k (S.sees seat.old)) }
    ensures own { S.walks seat.new }
    ensures home { (S.table seat.new ≡ S.table seat.old) × (S.rest seat.new ≡ S.rest seat.old) }
    ensures kept { Kept (S.sees seat.old) (S.sees seat.new) }
    ensures value { (k : Kind) → Is k (S.sees seat.old) edge → result ≡ number_of k (values_at k (S.sees seat.old) edge (assignment_of bits.now)) }
    ensures path { (k : Kind) → Is k (S.sees seat.old) edge → (path : List ℕ) × AreNeeded k (S.sees seat.old) (values_at k (S.sees seat.old) edge) path × (S.loads seat.new ≤ S.loads seat.old + length path + 1) }
    ensures few { S.loads seat.new ≤ S.loads seat.old + length bits.now + 1 }
{
    let mut at = edge;
    let mut taken = 0;
    for _ in 0..bits.len() + 1 {
        match look(seat, at) {
            Opened::Inner(var, hi, lo) => {
                if bits[place_of(var) as usize] {
                    taken += 1;
                    at = hi;
                } else {
                    at = lo;
                }
            }
            Opened::Leaf(value) => return value_at(value, at, taken, bits),
        }
    }
    unreachable!()
}
