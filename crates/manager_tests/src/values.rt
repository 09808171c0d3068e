//! Values, implications, and several functions put for variables at once.

use crate::requests::{
    AND, CLEAR, DROP, FROM_BDD, IMPLIES, NOT, NUMBER, PLUS, SINGLE, UNION, VALUE, VAR,
    VECTOR_COMPOSE, are_same, ask, ask_number, ask_one, ask_two, nothing, put, set_bit,
};
use dd_manager::{Manager, fresh};
use std::process::Abort;
use std::test::Fail;

/// x0 and x1 is 1 where both bits are; 7 + x1 is 8 where the second bit is 1; {{0}, {1}} has {1} and not {0, 1}.
fn values_in(rt: &impl Abort, m: &mut Manager) {
    let none = nothing();
    let a = ask_number(m, VAR, 0);
    let b = ask_number(m, VAR, 1);
    let both = ask_two(m, AND, &a, &b);
    let seven = ask(m, NUMBER, &none, &none, 0, 7);
    let as_number = ask_one(m, FROM_BDD, &b);
    let sum = ask_two(m, PLUS, &seven, &as_number);
    let p = ask_number(m, SINGLE, 0);
    let q = ask_number(m, SINGLE, 1);
    let either = ask_two(m, UNION, &p, &q);
    assert!(rt; ask_one(m, VALUE, &both).value == 0);
    assert!(rt; set_bit(m, 1, true) == 0);
    assert!(rt; ask_one(m, VALUE, &both).value == 0);
    assert!(rt; ask_one(m, VALUE, &sum).value == 8);
    assert!(rt; ask_one(m, VALUE, &either).value == 1);
    assert!(rt; set_bit(m, 0, true) == 0);
    assert!(rt; ask_one(m, VALUE, &both).value == 1);
    assert!(rt; ask_one(m, VALUE, &either).value == 0);
    assert!(rt; ask_number(m, CLEAR, 0).status == 0);
    assert!(rt; ask_one(m, VALUE, &both).value == 0);
    assert!(rt; ask_one(m, VALUE, &sum).value == 7);
    assert!(rt; set_bit(m, 1024, true) == 7);
    assert!(rt; set_bit(m, 1023, true) == 0);
    assert!(rt; ask_one(m, DROP, &sum).status == 0);
    assert!(rt; ask_one(m, VALUE, &sum).status == 5);
}

#[test]
fn values(rt: HostRuntime) -> Result<(), Fail> {
    let mut m = fresh(rt.alloc(), 7, 3, 2, 64, 0);
    values_in(&rt, &mut m);
    Ok(())
}

/// x0 and x1 implies x0, and x0 does not imply it.
fn implications_in(rt: &impl Abort, m: &mut Manager) {
    let a = ask_number(m, VAR, 0);
    let b = ask_number(m, VAR, 1);
    let both = ask_two(m, AND, &a, &b);
    let there = ask_two(m, IMPLIES, &both, &a);
    assert!(rt; there.status == 0 && there.value == 1);
    let back = ask_two(m, IMPLIES, &a, &both);
    assert!(rt; back.status == 0 && back.value == 0);
    let p = ask_number(m, SINGLE, 0);
    assert!(rt; ask_two(m, IMPLIES, &a, &p).status == 6);
    assert!(rt; ask_two(m, IMPLIES, &p, &p).status == 6);
    assert!(rt; ask_one(m, DROP, &both).status == 0);
    assert!(rt; ask_two(m, IMPLIES, &both, &a).status == 5);
}

#[test]
fn implications(rt: HostRuntime) -> Result<(), Fail> {
    let mut m = fresh(rt.alloc(), 7, 3, 2, 64, 0);
    implications_in(&rt, &mut m);
    Ok(())
}

/// x1 put for x0 and x0 for x1 at once makes x1 and not x0 of x0 and not x1.
fn exchanged_in(rt: &impl Abort, m: &mut Manager) {
    let a = ask_number(m, VAR, 0);
    let b = ask_number(m, VAR, 1);
    let not_a = ask_one(m, NOT, &a);
    let not_b = ask_one(m, NOT, &b);
    let first = ask_two(m, AND, &a, &not_b);
    let second = ask_two(m, AND, &b, &not_a);
    assert!(rt; put(m, 0, &b) == 0);
    assert!(rt; put(m, 1, &a) == 0);
    let made = ask_one(m, VECTOR_COMPOSE, &first);
    assert!(rt; made.status == 0);
    assert!(rt; are_same(m, &made, &second));
    assert!(rt; !are_same(m, &made, &first));
    assert!(rt; ask_number(m, CLEAR, 0).status == 0);
    let same = ask_one(m, VECTOR_COMPOSE, &first);
    assert!(rt; are_same(m, &same, &first));
}

#[test]
fn exchanged(rt: HostRuntime) -> Result<(), Fail> {
    let mut m = fresh(rt.alloc(), 7, 3, 0, 64, 0);
    exchanged_in(&rt, &mut m);
    Ok(())
}

/// Of what is put: a variable twice, one that there is not, a function of another kind or manager, one that is dropped, and too many.
fn wrong_pairs_in(rt: &impl Abort, m: &mut Manager, other: &mut Manager) {
    let a = ask_number(m, VAR, 0);
    let b = ask_number(m, VAR, 1);
    let p = ask_number(m, SINGLE, 0);
    let theirs = ask_number(other, VAR, 0);
    assert!(rt; put(m, 0, &theirs) == 5);
    assert!(rt; put(m, 0, &b) == 0);
    assert!(rt; put(m, 0, &b) == 0);
    assert!(rt; ask_one(m, VECTOR_COMPOSE, &a).status == 7);
    assert!(rt; ask_number(m, CLEAR, 0).status == 0);
    assert!(rt; put(m, 3, &b) == 0);
    assert!(rt; ask_one(m, VECTOR_COMPOSE, &a).status == 7);
    assert!(rt; put(m, 1, &p) == 0);
    assert!(rt; ask_one(m, VECTOR_COMPOSE, &a).status == 6);
    assert!(rt; ask_one(m, DROP, &b).status == 0);
    assert!(rt; ask_one(m, VECTOR_COMPOSE, &a).status == 5);
    for _ in 0..1022 {
        assert!(rt; put(m, 0, &a) == 0);
    }
    assert!(rt; put(m, 0, &a) == 7);
}

#[test]
fn wrong_pairs(rt: HostRuntime) -> Result<(), Fail> {
    let mut m = fresh(rt.alloc(), 7, 3, 2, 64, 0);
    let mut other = fresh(rt.alloc(), 8, 3, 2, 64, 0);
    wrong_pairs_in(&rt, &mut m, &mut other);
    Ok(())
}
