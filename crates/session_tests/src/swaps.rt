//! Swaps of neighbouring levels: what they ask for, and that rows and values stay.

ghost use Rattle.std.specs.Prelude.{◌≡◌, IfOk};

use crate::calls::{and, drop_row, eval, or, swap, swap_elements, sweep, var};
use dd_session::{Config, H, Manager, OpenFault, Session};
use std::alloc::Global;
use std::process::Abort;
use std::sync::Wait;
use std::test::Fail;

/// A manager, and its one session.
pub fn open(
    alloc: Global,
    vars: u32,
    elements: u32,
    limit: u32,
) -> Result<(Manager, Session), OpenFault>
    ensures { IfOk result (λ r. (r.1.manager ≡ r.0) × (r.1.number ≡ 0) × (r.0.vars ≡ vars) × (r.0.elements ≡ elements) × (r.0.sessions ≡ 1)) }
{
    let config = Config {
        vars,
        elements,
        limit,
    };
    let (manager, mut sessions) = Manager::open(alloc, config, 1)?;
    match sessions.pop() {
        Some(session) => Ok((manager, session)),
        None => unreachable!(),
    }
}

/// What a swap of the first two of two variables answers in a store of so many slots.
fn swapped_in<R: Abort + Wait>(rt: &R, alloc: Global, limit: u32) -> Result<(), (u32, u32)> {
    let Ok((manager, mut session)) = open(alloc, 2, 0, limit) else {
        panic!(rt; "not opened");
    };
    let done = swap(rt, &manager, &mut session, 0);
    assert!(rt; session.calls() == 1 && session.live() == 0);
    done
}

/// Two variables without further nodes need three slots, beside the seven in use.
#[test]
fn a_swap_asks_for_room(rt: HostRuntime) -> Result<(), Fail> {
    assert!(rt; swapped_in(&rt, rt.alloc(), 9) == Err((7, 3)));
    assert!(rt; swapped_in(&rt, rt.alloc(), 10) == Ok(()));
    Ok(())
}

/// x0 x2 + x1 x3. What it was made of is let go, but for the variables.
pub fn pairs<R: Abort + Wait>(rt: &R, manager: &Manager, session: &mut Session) -> H
    requires own { session.old.manager ≡ manager.now }
    requires variables { manager.now.vars ≡ 4 }
    ensures { (session.new.manager ≡ session.old.manager) × (session.new.number ≡ session.old.number) }
{
    let a = var(rt, manager, session, 0);
    let b = var(rt, manager, session, 1);
    let c = var(rt, manager, session, 2);
    let d = var(rt, manager, session, 3);
    let first = and(rt, manager, session, a, c);
    let second = and(rt, manager, session, b, d);
    let (Some(first), Some(second)) = (first, second) else {
        panic!(rt; "full");
    };
    let f = or(rt, manager, session, first, second);
    drop_row(rt, manager, session, first);
    drop_row(rt, manager, session, second);
    f
}

/// Whether the row has the value of x0 x2 + x1 x3 everywhere, whatever bits are told behind those of the four variables.
pub fn is_pairs<R: Abort + Wait>(rt: &R, manager: &Manager, session: &mut Session, f: H) -> bool
    requires own { session.old.manager ≡ manager.now }
    requires variables { manager.now.vars ≡ 4 }
    ensures { (session.new.manager ≡ session.old.manager) × (session.new.number ≡ session.old.number) }
{
    let mut all = true;
    for number in 0..16u32 {
        let a = number % 2 == 1;
        let b = number / 2 % 2 == 1;
        let c = number / 4 % 2 == 1;
        let d = number / 8 % 2 == 1;
        let value = eval(rt, manager, session, f, &[a, b, c, d]);
        all = all && (value == 1) == (a && c || b && d);
        all = all && eval(rt, manager, session, f, &[a, b, c, d, !a, b]) == value;
    }
    all
}

/// The two in the middle stand apart from what they are paired with. Exchanged, they take a node less; and exchanged back, one more.
#[test]
fn rows_and_values_stay(rt: HostRuntime) -> Result<(), Fail> {
    let Ok((manager, mut session)) = open(rt.alloc(), 4, 0, 40) else {
        panic!(rt; "not opened");
    };
    let f = pairs(&rt, &manager, &mut session);
    let before = sweep(&rt, &manager, &mut session);
    assert!(rt; swap(&rt, &manager, &mut session, 1).is_ok());
    assert!(rt; is_pairs(&rt, &manager, &mut session, f));
    let between = sweep(&rt, &manager, &mut session);
    assert!(rt; swap(&rt, &manager, &mut session, 1).is_ok());
    assert!(rt; is_pairs(&rt, &manager, &mut session, f));
    let after = sweep(&rt, &manager, &mut session);
    assert!(rt; before == after && before.wrapping_sub(between) == 1 && session.fulls() == 0);
    Ok(())
}

/// Elements have no nodes of their own, so an exchange of them needs none where there is no family.
#[test]
fn elements_need_no_room(rt: HostRuntime) -> Result<(), Fail> {
    let Ok((manager, mut session)) = open(rt.alloc(), 1, 2, 6) else {
        panic!(rt; "not opened");
    };
    assert!(rt; swap_elements(&rt, &manager, &mut session, 0) == Ok(()));
    assert!(rt; sweep(&rt, &manager, &mut session) == 6);
    Ok(())
}
