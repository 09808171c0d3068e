//! Diagrams in which what stands apart in the first order belongs together, and their values by words: the function x0 x2 + x1 x3, the numbers x0 x2 + 2 x1 x3, and the family of all unions of {0, 2} and {1, 3}.

ghost use Rattle.std.specs.Prelude.{◌≡◌, ◌<◌, ◌≤◌, ◌↔◌, IsTrue, None, slice_index};
ghost use Rattle.edge_bits.specs.declared.edges.Kind.TheVariants.{Add, Bdd, Zdd};
ghost use Rattle.node_slots.specs.Stores.{is_held, plain_view, slots};
ghost use Rattle.node_store.specs.Views.{AreTwo, Grown, Is};

use add_ops::{from_bdd, plus};
use edge_bits::{BASE_SLOT, Edge, FIRST_ELEMENT, TRUE_SLOT, Word, unpack};
use ite_core::{and, or};
use node_slots::{Grow, PlainStore};
use std::process::Abort;
use zdd_ops::{base, change, product, union};

/// The conjunction of two variables.
fn both(rt: &impl Abort, store: &mut PlainStore, x: u32, y: u32) -> Edge
    requires vars { 4 ≤ (plain_view store.old).vars }
    requires first { x < 4 }
    requires second { y < 4 }
    ensures grown { Grown (plain_view store.old) (plain_view store.new) }
    ensures is { Is Bdd (plain_view store.new) result }
{
    let a = store.projection(x);
    let b = store.projection(y);
    match and(store, a, b) {
        Ok(edge) => edge,
        Err(_) => panic!(rt; "no room for a conjunction"),
    }
}

/// The number 1 where two variables are true, and 0 elsewhere.
fn indicator(rt: &impl Abort, store: &mut PlainStore, x: u32, y: u32) -> Edge
    requires vars { 4 ≤ (plain_view store.old).vars }
    requires first { x < 4 }
    requires second { y < 4 }
    ensures grown { Grown (plain_view store.old) (plain_view store.new) }
    ensures is { Is Add (plain_view store.new) result }
{
    let pair = both(rt, store, x, y);
    match from_bdd(store, pair) {
        Ok(edge) => edge,
        Err(_) => panic!(rt; "no room for numbers"),
    }
}

/// The sum of two functions of numbers.
fn sum(rt: &impl Abort, store: &mut PlainStore, f: Edge, g: Edge) -> Edge
    requires { AreTwo Add (plain_view store.old) f g }
    ensures grown { Grown (plain_view store.old) (plain_view store.new) }
    ensures is { Is Add (plain_view store.new) result }
{
    match plus(store, f, g) {
        Ok(Ok(edge)) => edge,
        _ => panic!(rt; "no room for a sum, or too large a number"),
    }
}

/// The function x0 x2 + x1 x3.
fn function_of_pairs(rt: &impl Abort, store: &mut PlainStore) -> Edge
    ensures { Grown (plain_view store.old) (plain_view store.new) }
{
    if store.vars() < 4 {
        panic!(rt; "no four variables");
    }
    let p = both(rt, store, 0, 2);
    let q = both(rt, store, 1, 3);
    match or(store, p, q) {
        Ok(edge) => edge,
        Err(_) => panic!(rt; "no room for a disjunction"),
    }
}

/// The numbers x0 x2 + 2 x1 x3.
fn numbers_of_pairs(rt: &impl Abort, store: &mut PlainStore) -> Edge
    ensures { Grown (plain_view store.old) (plain_view store.new) }
{
    if store.vars() < 4 {
        panic!(rt; "no four variables");
    }
    let p = indicator(rt, store, 0, 2);
    let q = indicator(rt, store, 1, 3);
    let r = sum(rt, store, p, q);
    sum(rt, store, q, r)
}

/// The family of the empty combination and that of two elements.
fn all_or_none(rt: &impl Abort, store: &mut PlainStore, d: u32, e: u32) -> Edge
    requires elements { (plain_view store.old).elements ≡ 4 }
    requires first { d < 4 }
    requires second { e < 4 }
    ensures grown { Grown (plain_view store.old) (plain_view store.new) }
    ensures is { Is Zdd (plain_view store.new) result }
{
    let Ok(none) = base(store) else {
        panic!(rt; "no family of the empty combination")
    };
    let Ok(one) = change(store, none, d) else {
        panic!(rt; "no room for an element")
    };
    let Ok(two) = change(store, one, e) else {
        panic!(rt; "no room for two elements")
    };
    match union(store, none, two) {
        Ok(edge) => edge,
        Err(_) => panic!(rt; "no room for a union"),
    }
}

/// The family of all unions of {0, 2} and {1, 3}.
fn family_of_pairs(rt: &impl Abort, store: &mut PlainStore) -> Edge
    requires elements { (plain_view store.old).elements ≡ 4 }
    ensures { Grown (plain_view store.old) (plain_view store.new) }
{
    let p = all_or_none(rt, store, 0, 2);
    let q = all_or_none(rt, store, 1, 3);
    match product(store, p, q) {
        Ok(edge) => edge,
        Err(_) => panic!(rt; "no room for a product"),
    }
}

/// The bits of a slot, 0 beyond all words.
fn bits_at(words: &[u64], slot: u32) -> u64
    ensures { result ≡ slice_index words.now slot }
{
    let slot = slot as usize;
    if slot < words.len() { words[slot] } else { 0 }
}

/// Whether a slot has a word.
fn is_used(store: &PlainStore, slot: u32) -> bool
    ensures { IsTrue result ↔ (slots store.now slot ≡ None → ⊥) }
{
    unpack(bits_at(store.words(), slot)).is_some()
}

/// Counts a slot once.
fn count(rt: &impl Abort, store: &mut PlainStore, slot: u32)
    ensures held { is_held store.new ≡ is_held store.old }
    ensures elements { (plain_view store.new).elements ≡ (plain_view store.old).elements }
{
    if is_used(store, slot) && store.count_of(slot) == 0 {
        store.raise(slot);
    } else {
        panic!(rt; "nothing to count, or counted before");
    }
}

/// The function x0 x2 + x1 x3, counted.
pub fn counted_function(rt: &impl Abort, store: &mut PlainStore) -> Edge
    ensures held { is_held store.new ≡ is_held store.old }
    ensures elements { (plain_view store.new).elements ≡ (plain_view store.old).elements }
{
    let edge = function_of_pairs(rt, store);
    count(rt, store, edge.index());
    edge
}

/// The numbers x0 x2 + 2 x1 x3, counted.
pub fn counted_numbers(rt: &impl Abort, store: &mut PlainStore) -> Edge
    ensures held { is_held store.new ≡ is_held store.old }
    ensures elements { (plain_view store.new).elements ≡ (plain_view store.old).elements }
{
    let edge = numbers_of_pairs(rt, store);
    count(rt, store, edge.index());
    edge
}

/// The family of all unions of {0, 2} and {1, 3}, counted.
pub fn counted_family(rt: &impl Abort, store: &mut PlainStore) -> Edge
    requires elements { (plain_view store.old).elements ≡ 4 }
    ensures { is_held store.new ≡ is_held store.old }
{
    let edge = family_of_pairs(rt, store);
    count(rt, store, edge.index());
    edge
}

/// The word of a slot.
fn word_at(words: &[u64], slot: u32) -> Option<Word> {
    unpack(*words.get(slot as usize)?)
}

/// Whether a variable or an element below 16 is set.
fn is_set(assignment: u32, number: u16) -> bool {
    assignment >> (number % 16) & 1 == 1
}

/// A BDD's value: eight steps from its edge are more than four variables have nodes on a path. None where no leaf is met.
fn value_of(words: &[u64], root: Edge, assignment: u32) -> Option<bool> {
    let mut slot = root.index();
    let mut value = !root.complement();
    for _step in 0..8 {
        if let Some(Word::Inner(node)) = word_at(words, slot) {
            if is_set(assignment, node.var) {
                slot = node.hi;
            } else {
                slot = node.lo.index();
                value = value != node.lo.complement();
            }
        }
    }
    if slot == TRUE_SLOT { Some(value) } else { None }
}

/// A number's value. None where no leaf is met.
fn number_of(words: &[u64], root: Edge, assignment: u32) -> Option<i64> {
    let mut slot = root.index();
    for _step in 0..8 {
        if let Some(Word::Inner(node)) = word_at(words, slot) {
            slot = if is_set(assignment, node.var) {
                node.hi
            } else {
                node.lo.index()
            };
        }
    }
    match word_at(words, slot) {
        Some(Word::Leaf(value)) => Some(value),
        _ => None,
    }
}

/// Whether a combination is a member of a ZDD's family.
fn is_member(words: &[u64], root: Edge, combination: u32) -> bool {
    let mut slot = root.index();
    let mut rest = combination;
    for _step in 0..8 {
        if let Some(Word::Inner(node)) = word_at(words, slot) {
            let element = node.var % 16;
            if is_set(rest, element) {
                slot = node.hi;
                rest &= !(1 << element);
            } else {
                slot = node.lo.index();
            }
        }
    }
    slot == BASE_SLOT && rest == 0
}

/// Sees that an edge has the values of x0 x2 + x1 x3.
pub fn has_pairs(rt: &impl Abort, words: &[u64], edge: Edge) {
    for k in 0..16 {
        let due = k & 5 == 5 || k & 10 == 10;
        assert!(rt; value_of(words, edge, k) == Some(due));
    }
}

/// Sees that an edge has the values of x0 x2 + 2 x1 x3.
pub fn has_numbers(rt: &impl Abort, words: &[u64], edge: Edge) {
    for k in 0..16 {
        let first = i64::from(k & 5 == 5);
        let second = i64::from(k & 10 == 10);
        assert!(rt; number_of(words, edge, k) == Some(first + 2 * second));
    }
}

/// Sees that an edge has the members of the family of all unions of {0, 2} and {1, 3}.
pub fn has_unions(rt: &impl Abort, words: &[u64], edge: Edge) {
    for k in 0..16 {
        let due = (k & 5 == 0 || k & 5 == 5) && (k & 10 == 0 || k & 10 == 10);
        assert!(rt; is_member(words, edge, k) == due);
    }
}
