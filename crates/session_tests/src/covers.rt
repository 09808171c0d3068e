//! Irredundant covers between rows, and the functions of covers.

ghost use Rattle.std.specs.Prelude.{◌≡◌, ◌≤◌, ◌*◌, length, IsTrue};
ghost use Rattle.edge_bits.specs.declared.edges.Kind.TheVariants as kinds;
ghost use Rattle.dd_session.specs.Sessions.{IsLiveAs};

use crate::calls::{has_room, ready, same, var};
use crate::swaps::open;
use dd_session::{Apart, H, Manager, Session};
use edge_bits::Kind;
use std::process::Abort;
use std::sync::Wait;
use std::test::Fail;

/// Whether a name is that of a family's row.
fn is_zdd(session: &Session, h: H) -> bool
    ensures { IsTrue result → IsLiveAs kinds.Zdd session.now h }
{
    if !session.is_live(h) {
        return false;
    }
    match session.kind(h) {
        Kind::Zdd => true,
        _ => false,
    }
}

/// The function that holds nowhere.
fn zero<R: Abort + Wait>(rt: &R, manager: &Manager, session: &mut Session) -> H
    requires own { session.old.manager ≡ manager.now }
    ensures { (session.new.manager ≡ session.old.manager) × (session.new.number ≡ session.old.number) }
{
    has_room(rt, session);
    match session.zero(rt, manager) {
        Ok(placed) => placed.value,
        Err(_) => panic!(rt; "no constant"),
    }
}

/// The second row where the first holds, elsewhere the third.
fn ite<R: Abort + Wait>(rt: &R, manager: &Manager, session: &mut Session, f: H, g: H, h: H) -> H
    requires own { session.old.manager ≡ manager.now }
    ensures { (session.new.manager ≡ session.old.manager) × (session.new.number ≡ session.old.number) }
{
    ready(rt, session, f, g);
    ready(rt, session, g, h);
    match session.ite(rt, manager, f, g, h) {
        Ok(placed) => placed.value,
        Err(_) => panic!(rt; "no choice"),
    }
}

/// A cover between two rows.
fn cover<R: Abort + Wait>(
    rt: &R,
    manager: &Manager,
    session: &mut Session,
    lower: H,
    upper: H,
) -> Result<H, Apart>
    requires own { session.old.manager ≡ manager.now }
    requires literals { 2 * manager.now.vars ≤ manager.now.elements }
    ensures { (session.new.manager ≡ session.old.manager) × (session.new.number ≡ session.old.number) }
{
    ready(rt, session, lower, upper);
    match session.isop(rt, manager, lower, upper) {
        Ok(placed) => placed.value,
        Err(_) => panic!(rt; "no cover"),
    }
}

/// The function of a cover.
fn function<R: Abort + Wait>(rt: &R, manager: &Manager, session: &mut Session, p: H) -> H
    requires own { session.old.manager ≡ manager.now }
    requires literals { 2 * manager.now.vars ≤ manager.now.elements }
    ensures { (session.new.manager ≡ session.old.manager) × (session.new.number ≡ session.old.number) }
{
    has_room(rt, session);
    assert!(rt; is_zdd(session, p));
    match session.cover_of(rt, manager, p) {
        Ok(placed) => placed.value,
        Err(_) => panic!(rt; "no function"),
    }
}

/// Whether a row has the combination of the elements whose bits are true, of which there are at least as many as elements.
fn has<R: Abort + Wait>(
    rt: &R,
    manager: &Manager,
    session: &mut Session,
    p: H,
    bits: &[bool],
) -> bool
    requires own { session.old.manager ≡ manager.now }
    requires bits { manager.now.elements ≤ length bits.now }
    ensures { (session.new.manager ≡ session.old.manager) × (session.new.number ≡ session.old.number) }
{
    has_room(rt, session);
    assert!(rt; is_zdd(session, p));
    match session.eval(rt, manager, p, bits) {
        Ok(placed) => placed.value == 1,
        Err(_) => panic!(rt; "no value"),
    }
}

/// A cover of the choice of the second or third variable by the first: both products that the choice is made of, and not the product
/// of the two variables, which these reach.
fn cover_a_choice<R: Abort + Wait>(rt: &R, manager: &Manager, session: &mut Session)
    requires own { session.old.manager ≡ manager.now }
    requires variables { manager.now.vars ≡ 3 }
    requires elements { manager.now.elements ≡ 6 }
{
    let a = var(rt, manager, session, 0);
    let b = var(rt, manager, session, 1);
    let c = var(rt, manager, session, 2);
    let f = ite(rt, manager, session, a, b, c);
    let Ok(z) = cover(rt, manager, session, f, f) else {
        panic!(rt; "apart");
    };
    let first = [true, false, true, false, false, false];
    let second = [false, true, false, false, true, false];
    let third = [false, false, true, false, true, false];
    assert!(rt; has(rt, manager, session, z, &first) && has(rt, manager, session, z, &second));
    assert!(rt; !has(rt, manager, session, z, &third));
    let again = function(rt, manager, session, z);
    assert!(rt; same(rt, manager, session, again, f));
    let none = zero(rt, manager, session);
    assert!(rt; cover(rt, manager, session, f, none) == Err(Apart));
}

#[test]
fn a_choice_is_covered(rt: HostRuntime) -> Result<(), Fail> {
    let Ok((manager, mut session)) = open(rt.alloc(), 3, 6, 1000) else {
        panic!(rt; "not opened");
    };
    cover_a_choice(&rt, &manager, &mut session);
    Ok(())
}
