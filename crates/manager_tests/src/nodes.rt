//! The way down a diagram.

use crate::requests::{
    AND, BASE, DROP, ELSE, EMPTY, KIND, NOT, NUMBER, SINGLE, THEN, TOP, UNION, VAR, ZERO, are_same,
    ask, ask_number, ask_one, ask_two, nothing,
};
use dd_manager::{Manager, fresh};
use std::process::Abort;
use std::test::Fail;

/// x0 and x1 is x1 where x0 is 1, and 0 elsewhere; the complement of x0 is 0 where x0 is 1.
fn down_a_conjunction_in(rt: &impl Abort, m: &mut Manager) {
    let a = ask_number(m, VAR, 0);
    let b = ask_number(m, VAR, 1);
    let zero = ask_number(m, ZERO, 0);
    let both = ask_two(m, AND, &a, &b);
    let top = ask_one(m, TOP, &both);
    assert!(rt; top.status == 0 && top.number == 1 && top.value == 0);
    let taken = ask_one(m, THEN, &both);
    assert!(rt; taken.status == 0 && taken.manager == 7);
    assert!(rt; are_same(m, &taken, &b));
    let left = ask_one(m, ELSE, &both);
    assert!(rt; are_same(m, &left, &zero));
    let leaf = ask_one(m, TOP, &left);
    assert!(rt; leaf.status == 0 && leaf.number == 0 && leaf.value == 0);
    assert!(rt; ask_one(m, THEN, &left).status == 7);
    assert!(rt; ask_one(m, ELSE, &left).status == 7);
    let not_a = ask_one(m, NOT, &a);
    let never = ask_one(m, THEN, &not_a);
    assert!(rt; are_same(m, &never, &zero));
    assert!(rt; ask_one(m, DROP, &both).status == 0);
    assert!(rt; ask_one(m, TOP, &both).status == 5);
    assert!(rt; ask_one(m, THEN, &both).status == 5);
    assert!(rt; are_same(m, &taken, &b));
}

#[test]
fn down_a_conjunction(rt: HostRuntime) -> Result<(), Fail> {
    let mut m = fresh(rt.alloc(), 7, 3, 2, 64, 0);
    down_a_conjunction_in(&rt, &mut m);
    Ok(())
}

/// The sets of {{0}, {1}} with 0 leave the empty set, and those without it {1}.
fn down_a_family_in(rt: &impl Abort, m: &mut Manager) {
    let p = ask_number(m, SINGLE, 0);
    let q = ask_number(m, SINGLE, 1);
    let base = ask_number(m, BASE, 0);
    let empty = ask_number(m, EMPTY, 0);
    let either = ask_two(m, UNION, &p, &q);
    let top = ask_one(m, TOP, &q);
    assert!(rt; top.number == 1 && top.value == 1);
    let with_it = ask_one(m, THEN, &either);
    assert!(rt; are_same(m, &with_it, &base));
    let without = ask_one(m, ELSE, &either);
    assert!(rt; are_same(m, &without, &q));
    assert!(rt; ask_one(m, TOP, &base).value == 1);
    assert!(rt; ask_one(m, TOP, &empty).value == 0);
}

#[test]
fn down_a_family(rt: HostRuntime) -> Result<(), Fail> {
    let mut m = fresh(rt.alloc(), 7, 3, 2, 64, 0);
    down_a_family_in(&rt, &mut m);
    Ok(())
}

/// The three kinds, and the leaf of a number.
fn kinds_in(rt: &impl Abort, m: &mut Manager) {
    let none = nothing();
    let a = ask_number(m, VAR, 2);
    let least = ask(m, NUMBER, &none, &none, 0, -(1 << 46));
    let p = ask_number(m, SINGLE, 0);
    assert!(rt; ask_one(m, KIND, &a).value == 0);
    assert!(rt; ask_one(m, KIND, &least).value == 1);
    assert!(rt; ask_one(m, KIND, &p).value == 2);
    assert!(rt; ask_one(m, KIND, &none).status == 5);
    let leaf = ask_one(m, TOP, &least);
    assert!(rt; leaf.number == 0 && leaf.value == -(1 << 46));
}

#[test]
fn kinds(rt: HostRuntime) -> Result<(), Fail> {
    let mut m = fresh(rt.alloc(), 7, 3, 2, 64, 0);
    kinds_in(&rt, &mut m);
    Ok(())
}
