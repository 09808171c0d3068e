//! Each kind of misuse is refused by its status, and what was there is there afterwards.

use crate::requests::{
    AND, CLOSE, DROP, ISOP, NOT, NUMBER, PLUS, SAME, SINGLE, VAR, are_same, ask, ask_number,
    ask_one, ask_two, nothing,
};
use dd_manager::{Answer, Manager, fresh};
use std::process::Abort;
use std::test::Fail;

/// Names that are dropped, made up, of another manager, or of another kind.
fn wrong_names_in(rt: &impl Abort, m: &mut Manager, other: &mut Manager) {
    let a = ask_number(m, VAR, 0);
    let b = ask_number(m, VAR, 1);
    let p = ask_number(m, SINGLE, 0);
    let theirs = ask_number(other, VAR, 0);
    assert!(rt; ask_one(m, DROP, &b).status == 0);
    assert!(rt; ask_one(m, DROP, &b).status == 5);
    assert!(rt; ask_two(m, AND, &a, &b).status == 5);
    assert!(rt; ask_two(m, SAME, &a, &b).status == 5);
    let made_up = Answer {
        status: 0,
        number: 0,
        manager: 7,
        row: 50,
        generation: 1,
        value: 0,
    };
    assert!(rt; ask_one(m, NOT, &made_up).status == 5);
    assert!(rt; ask_two(m, AND, &a, &theirs).status == 5);
    assert!(rt; ask_two(m, AND, &a, &p).status == 6);
    assert!(rt; ask_two(m, SAME, &a, &p).status == 6);
    let again = ask_number(m, VAR, 0);
    assert!(rt; are_same(m, &a, &again));
}

#[test]
fn wrong_names(rt: HostRuntime) -> Result<(), Fail> {
    let mut m = fresh(rt.alloc(), 7, 3, 3, 64, 0);
    let mut other = fresh(rt.alloc(), 8, 3, 3, 64, 0);
    wrong_names_in(&rt, &mut m, &mut other);
    Ok(())
}

/// Numbers of variables, elements and leaves that are out of range, and calls that there are not.
fn wrong_numbers_in(rt: &impl Abort, m: &mut Manager) {
    let none = nothing();
    assert!(rt; ask_number(m, VAR, 3).status == 7);
    assert!(rt; ask_number(m, SINGLE, 3).status == 7);
    assert!(rt; ask(m, NUMBER, &none, &none, 0, 1 << 46).status == 7);
    assert!(rt; ask(m, NUMBER, &none, &none, 0, -(1 << 46)).status == 0);
    assert!(rt; ask_number(m, 0, 0).status == 8);
    assert!(rt; ask_number(m, 65, 0).status == 8);
    assert!(rt; ask_number(m, 4_000_000_000, 0).status == 8);
    let a = ask_number(m, VAR, 0);
    assert!(rt; ask_two(m, ISOP, &a, &a).status == 7);
}

#[test]
fn wrong_numbers(rt: HostRuntime) -> Result<(), Fail> {
    let mut m = fresh(rt.alloc(), 7, 3, 3, 64, 0);
    wrong_numbers_in(&rt, &mut m);
    Ok(())
}

/// A sum out of range, bounds that are apart, and a table in which no slot is free.
fn nothing_made_in(rt: &impl Abort, m: &mut Manager) {
    let none = nothing();
    let most = ask(m, NUMBER, &none, &none, 0, (1 << 46) - 1);
    let one = ask(m, NUMBER, &none, &none, 0, 1);
    assert!(rt; ask_two(m, PLUS, &most, &one).status == 3);
    let a = ask_number(m, VAR, 0);
    let b = ask_number(m, VAR, 1);
    assert!(rt; ask_two(m, ISOP, &a, &b).status == 4);
    let both = ask_two(m, AND, &a, &b);
    assert!(rt; both.status == 0);
    let not_b = ask_one(m, NOT, &b);
    let only = ask_two(m, AND, &a, &not_b);
    assert!(rt; only.status == 0);
    assert!(rt; ask(m, NUMBER, &none, &none, 0, 77).status == 2);
    assert!(rt; ask_one(m, DROP, &only).status == 0);
    assert!(rt; ask(m, NUMBER, &none, &none, 0, 77).status == 0);
}

#[test]
fn nothing_made(rt: HostRuntime) -> Result<(), Fail> {
    let mut m = fresh(rt.alloc(), 7, 2, 4, 10, 0);
    nothing_made_in(&rt, &mut m);
    Ok(())
}

/// A manager that is closed, and one that was never open.
fn closed_in(rt: &impl Abort, m: &mut Manager, none: &mut Manager) {
    assert!(rt; ask_number(m, VAR, 0).status == 0);
    assert!(rt; ask_number(m, CLOSE, 0).status == 0);
    assert!(rt; ask_number(m, VAR, 0).status == 9);
    assert!(rt; ask_number(m, CLOSE, 0).status == 9);
    assert!(rt; ask_number(none, VAR, 0).status == 9);
}

#[test]
fn closed(rt: HostRuntime) -> Result<(), Fail> {
    let mut m = fresh(rt.alloc(), 7, 3, 0, 64, 0);
    let mut none = fresh(rt.alloc(), 7, 2000, 0, 64, 0);
    closed_in(&rt, &mut m, &mut none);
    Ok(())
}
