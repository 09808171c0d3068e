//! Levels, swaps and sifts.

use crate::requests::{
    AND, AT_LEVEL, DROP, ELEMENT_AT_LEVEL, ELEMENT_LEVEL, LEVEL, OR, SIFT, SIFT_ELEMENTS, SINGLE,
    SWAP, SWAP_ELEMENTS, UNION, VALUE, VAR, are_same, ask_number, ask_one, ask_two, set_bit,
};
use dd_manager::{Manager, fresh};
use std::process::Abort;
use std::test::Fail;

/// A swap of the levels 0 and 1 of the variables: x1 is above x0 then, x2 and the elements stand where they stood, and the functions stay.
fn swapped_in(rt: &impl Abort, m: &mut Manager) {
    let a = ask_number(m, VAR, 0);
    let b = ask_number(m, VAR, 1);
    let both = ask_two(m, AND, &a, &b);
    assert!(rt; ask_number(m, LEVEL, 0).value == 0);
    assert!(rt; ask_number(m, AT_LEVEL, 1).value == 1);
    assert!(rt; ask_number(m, SWAP, 0).status == 0);
    assert!(rt; ask_number(m, LEVEL, 0).value == 1);
    assert!(rt; ask_number(m, LEVEL, 1).value == 0);
    assert!(rt; ask_number(m, LEVEL, 2).value == 2);
    assert!(rt; ask_number(m, AT_LEVEL, 0).value == 1);
    assert!(rt; ask_number(m, AT_LEVEL, 1).value == 0);
    assert!(rt; ask_number(m, ELEMENT_LEVEL, 1).value == 1);
    let again = ask_two(m, AND, &b, &a);
    assert!(rt; are_same(m, &both, &again));
    assert!(rt; ask_number(m, SWAP, 2).status == 7);
    assert!(rt; ask_number(m, SWAP, 4_294_967_295).status == 7);
    assert!(rt; ask_number(m, LEVEL, 3).status == 7);
    assert!(rt; ask_number(m, AT_LEVEL, 3).status == 7);
}

#[test]
fn swapped(rt: HostRuntime) -> Result<(), Fail> {
    let mut m = fresh(rt.alloc(), 7, 3, 2, 64, 0);
    swapped_in(&rt, &mut m);
    Ok(())
}

/// The same of the elements.
fn elements_swapped_in(rt: &impl Abort, m: &mut Manager) {
    let p = ask_number(m, SINGLE, 1);
    let q = ask_number(m, SINGLE, 2);
    let either = ask_two(m, UNION, &p, &q);
    assert!(rt; ask_number(m, SWAP_ELEMENTS, 1).status == 0);
    assert!(rt; ask_number(m, ELEMENT_LEVEL, 2).value == 1);
    assert!(rt; ask_number(m, ELEMENT_AT_LEVEL, 2).value == 1);
    assert!(rt; ask_number(m, ELEMENT_AT_LEVEL, 0).value == 0);
    assert!(rt; set_bit(m, 2, true) == 0);
    assert!(rt; ask_one(m, VALUE, &either).value == 1);
    assert!(rt; ask_number(m, SWAP_ELEMENTS, 2).status == 7);
    assert!(rt; ask_number(m, ELEMENT_AT_LEVEL, 3).status == 7);
    assert!(rt; ask_number(m, SIFT_ELEMENTS, 0).status == 0);
    assert!(rt; ask_one(m, VALUE, &either).value == 1);
}

#[test]
fn elements_swapped(rt: HostRuntime) -> Result<(), Fail> {
    let mut m = fresh(rt.alloc(), 7, 1, 3, 64, 0);
    elements_swapped_in(&rt, &mut m);
    Ok(())
}

/// x0 x2 or x1 x3 has three nodes beside the constants and the variables in the best order, such as 0, 2, 1, 3, and never fewer: itself, what is
/// left where a variable is 1, and where it is 0. So a sift leaves 5 + 4 + 3 slots in use.
fn sifted_in(rt: &impl Abort, m: &mut Manager) {
    let a = ask_number(m, VAR, 0);
    let b = ask_number(m, VAR, 1);
    let c = ask_number(m, VAR, 2);
    let d = ask_number(m, VAR, 3);
    let first = ask_two(m, AND, &a, &c);
    let second = ask_two(m, AND, &b, &d);
    let either = ask_two(m, OR, &first, &second);
    assert!(rt; ask_one(m, DROP, &first).status == 0);
    assert!(rt; ask_one(m, DROP, &second).status == 0);
    let sifted = ask_number(m, SIFT, 0);
    assert!(rt; sifted.status == 0 && sifted.value == 12);
    let first = ask_two(m, AND, &a, &c);
    let second = ask_two(m, AND, &b, &d);
    let again = ask_two(m, OR, &first, &second);
    assert!(rt; are_same(m, &either, &again));
}

#[test]
fn sifted(rt: HostRuntime) -> Result<(), Fail> {
    let mut m = fresh(rt.alloc(), 7, 4, 0, 64, 0);
    sifted_in(&rt, &mut m);
    Ok(())
}

/// A table of 8 slots that is full of 5 constants, 2 variables and x0 and x1: no slot is free for a swap, which asks for some.
fn no_room_in(rt: &impl Abort, m: &mut Manager) {
    let a = ask_number(m, VAR, 0);
    let b = ask_number(m, VAR, 1);
    let both = ask_two(m, AND, &a, &b);
    assert!(rt; both.status == 0);
    assert!(rt; ask_number(m, SWAP, 0).status == 2);
    assert!(rt; ask_number(m, LEVEL, 0).value == 0);
    let again = ask_two(m, AND, &b, &a);
    assert!(rt; are_same(m, &both, &again));
}

#[test]
fn no_room(rt: HostRuntime) -> Result<(), Fail> {
    let mut m = fresh(rt.alloc(), 7, 2, 0, 8, 0);
    no_room_in(&rt, &mut m);
    Ok(())
}
