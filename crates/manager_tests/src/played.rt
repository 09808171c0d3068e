//! What calls answer.

use crate::requests::{
    AND, CLEAR, COPY, DROP, EXISTS, MARK, NOT, NUMBER, ONE, OR, PLUS, SINGLE, SWEEP, UNION, VAR,
    are_same, ask, ask_number, ask_one, ask_two, nothing,
};
use dd_manager::{Manager, fresh};
use std::process::Abort;
use std::test::Fail;

/// A conjunction is the same both ways, and the complement of the disjunction of complements.
fn conjunctions_in(rt: &impl Abort, m: &mut Manager) {
    let a = ask_number(m, VAR, 0);
    let b = ask_number(m, VAR, 1);
    let there = ask_two(m, AND, &a, &b);
    let back = ask_two(m, AND, &b, &a);
    assert!(rt; there.status == 0 && there.manager == 7);
    assert!(rt; are_same(m, &there, &back));
    let not_a = ask_one(m, NOT, &a);
    let not_b = ask_one(m, NOT, &b);
    let either = ask_two(m, OR, &not_a, &not_b);
    assert!(rt; !are_same(m, &there, &either));
    let neither = ask_one(m, NOT, &either);
    assert!(rt; are_same(m, &there, &neither));
}

#[test]
fn conjunctions(rt: HostRuntime) -> Result<(), Fail> {
    let mut m = fresh(rt.alloc(), 7, 3, 0, 64, 0);
    conjunctions_in(&rt, &mut m);
    Ok(())
}

/// The variables that were marked are quantified: for some value of x0, x0 and x1 is x1; for some of both it is 1.
fn quantified_in(rt: &impl Abort, m: &mut Manager) {
    let a = ask_number(m, VAR, 0);
    let b = ask_number(m, VAR, 1);
    let both = ask_two(m, AND, &a, &b);
    assert!(rt; ask_number(m, MARK, 0).status == 0);
    let left = ask_one(m, EXISTS, &both);
    assert!(rt; are_same(m, &left, &b));
    assert!(rt; ask_number(m, MARK, 1).status == 0);
    let always = ask_one(m, EXISTS, &both);
    let one = ask_number(m, ONE, 0);
    assert!(rt; are_same(m, &always, &one));
    assert!(rt; ask_number(m, CLEAR, 0).status == 0);
    let as_before = ask_one(m, EXISTS, &both);
    assert!(rt; are_same(m, &as_before, &both));
}

#[test]
fn quantified(rt: HostRuntime) -> Result<(), Fail> {
    let mut m = fresh(rt.alloc(), 7, 3, 0, 64, 0);
    quantified_in(&rt, &mut m);
    Ok(())
}

/// Sums of numbers, and unions of families.
fn numbers_and_families_in(rt: &impl Abort, m: &mut Manager) {
    let none = nothing();
    let two = ask(m, NUMBER, &none, &none, 0, 2);
    let three = ask(m, NUMBER, &none, &none, 0, 3);
    let five = ask(m, NUMBER, &none, &none, 0, 5);
    let sum = ask_two(m, PLUS, &two, &three);
    assert!(rt; are_same(m, &sum, &five));
    let p = ask_number(m, SINGLE, 0);
    let q = ask_number(m, SINGLE, 1);
    let there = ask_two(m, UNION, &p, &q);
    let back = ask_two(m, UNION, &q, &p);
    assert!(rt; are_same(m, &there, &back));
    assert!(rt; !are_same(m, &there, &p));
}

#[test]
fn numbers_and_families(rt: HostRuntime) -> Result<(), Fail> {
    let mut m = fresh(rt.alloc(), 7, 2, 2, 64, 0);
    numbers_and_families_in(&rt, &mut m);
    Ok(())
}

/// A row may be copied and let go; when all are gone a sweep leaves the permanent slots, 5 and one for each variable.
fn rows_go_in(rt: &impl Abort, m: &mut Manager) {
    let a = ask_number(m, VAR, 0);
    let b = ask_number(m, VAR, 1);
    let both = ask_two(m, AND, &a, &b);
    let again = ask_one(m, COPY, &both);
    assert!(rt; ask_one(m, DROP, &both).status == 0);
    assert!(rt; ask_number(m, SWEEP, 0).value == 9);
    assert!(rt; ask_one(m, DROP, &again).status == 0);
    assert!(rt; ask_one(m, DROP, &a).status == 0);
    assert!(rt; ask_one(m, DROP, &b).status == 0);
    assert!(rt; ask_number(m, SWEEP, 0).value == 8);
}

#[test]
fn rows_go(rt: HostRuntime) -> Result<(), Fail> {
    let mut m = fresh(rt.alloc(), 7, 3, 0, 64, 0);
    rows_go_in(&rt, &mut m);
    Ok(())
}
