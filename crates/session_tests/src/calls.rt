//! Calls of a session that has few rows and has made few calls, where no memory is wanting.

ghost use Rattle.std.specs.Prelude.{◌≤◌, ◌≡◌, ◌+◌, ◌<◌, length, IsTrue};
ghost use Rattle.edge_bits.specs.declared.edges.Kind.TheVariants as kinds;
ghost use Rattle.group_sift.specs.Turns.{last_end};
ghost use Rattle.dd_session.specs.Sessions.{HasRoom, IsLiveAs};

use dd_session::{Blocks, Fetched, H, Manager, Refusal, Session, Sifted};
use edge_bits::Kind;
use function_laws::Order;
use std::process::Abort;
use std::sync::Wait;

/// Whether a name is that of a BDD's row.
fn is_bdd(session: &Session, h: H) -> bool
    ensures { IsTrue result → IsLiveAs kinds.Bdd session.now h }
{
    if !session.is_live(h) {
        return false;
    }
    match session.kind(h) {
        Kind::Bdd => true,
        _ => false,
    }
}

/// The session has few rows and has made few calls.
pub fn has_room(rt: &impl Abort, session: &Session)
    ensures { HasRoom session.now }
{
    assert!(rt; session.live() < 1000 && session.calls() < 100_000);
}

/// The session may make a call on two rows, which are BDDs.
pub fn ready(rt: &impl Abort, session: &Session, f: H, g: H)
    ensures room { HasRoom session.now }
    ensures first { IsLiveAs kinds.Bdd session.now f }
    ensures second { IsLiveAs kinds.Bdd session.now g }
{
    has_room(rt, session);
    assert!(rt; is_bdd(session, f) && is_bdd(session, g));
}

/// The projection of a variable.
pub fn var<R: Abort + Wait>(rt: &R, manager: &Manager, session: &mut Session, v: u32) -> H
    requires own { session.old.manager ≡ manager.now }
    requires variable { v < manager.now.vars }
    ensures { (session.new.manager ≡ session.old.manager) × (session.new.number ≡ session.old.number) }
{
    has_room(rt, session);
    match session.var(rt, manager, v) {
        Ok(placed) => placed.value,
        Err(_) => panic!(rt; "no variable"),
    }
}

/// The conjunction of two rows, or None where the table is full.
pub fn and<R: Abort + Wait>(
    rt: &R,
    manager: &Manager,
    session: &mut Session,
    f: H,
    g: H,
) -> Option<H>
    requires own { session.old.manager ≡ manager.now }
    ensures { (session.new.manager ≡ session.old.manager) × (session.new.number ≡ session.old.number) }
{
    ready(rt, session, f, g);
    match session.and(rt, manager, f, g) {
        Ok(placed) => Some(placed.value),
        Err(Refusal::Full(full)) => {
            assert!(rt; full.in_use == full.limit && full.need == 1);
            None
        }
        Err(Refusal::Memory) => panic!(rt; "no memory"),
    }
}

/// The disjunction of two rows, where the table is not full.
pub fn or<R: Abort + Wait>(rt: &R, manager: &Manager, session: &mut Session, f: H, g: H) -> H
    requires own { session.old.manager ≡ manager.now }
    ensures { (session.new.manager ≡ session.old.manager) × (session.new.number ≡ session.old.number) }
{
    ready(rt, session, f, g);
    match session.or(rt, manager, f, g) {
        Ok(placed) => placed.value,
        Err(_) => panic!(rt; "no disjunction"),
    }
}

/// Exchanges a level of the variables and the next. Where there is no room it tells how many slots were in use and how many it needed.
pub fn swap<R: Abort + Wait>(
    rt: &R,
    manager: &Manager,
    session: &mut Session,
    level: u32,
) -> Result<(), (u32, u32)>
    requires own { session.old.manager ≡ manager.now }
    requires level { level + 1 < manager.now.vars }
    ensures { (session.new.manager ≡ session.old.manager) × (session.new.number ≡ session.old.number) }
{
    has_room(rt, session);
    match session.swap(rt, manager, level) {
        Ok(placed) => Ok(placed.value),
        Err(full) => Err((full.in_use, full.need)),
    }
}

/// The same of the elements.
pub fn swap_elements<R: Abort + Wait>(
    rt: &R,
    manager: &Manager,
    session: &mut Session,
    level: u32,
) -> Result<(), (u32, u32)>
    requires own { session.old.manager ≡ manager.now }
    requires level { level + 1 < manager.now.elements }
    ensures { (session.new.manager ≡ session.old.manager) × (session.new.number ≡ session.old.number) }
{
    has_room(rt, session);
    match session.swap_elements(rt, manager, level) {
        Ok(placed) => Ok(placed.value),
        Err(full) => Err((full.in_use, full.need)),
    }
}

/// Sifts the variables in blocks, which end at so many levels.
pub fn sift<R: Abort + Wait>(
    rt: &R,
    manager: &Manager,
    session: &mut Session,
    blocks: &mut Blocks,
    levels: u32,
) -> Sifted
    requires own { session.old.manager ≡ manager.now }
    requires end { last_end 0 blocks.old ≡ levels }
    ensures { (session.new.manager ≡ session.old.manager) × (session.new.number ≡ session.old.number) }
{
    has_room(rt, session);
    assert!(rt; session.levels(manager, Order::Variables) == levels);
    session.sift(rt, manager, blocks).value
}

/// The same of the elements.
pub fn sift_elements<R: Abort + Wait>(
    rt: &R,
    manager: &Manager,
    session: &mut Session,
    blocks: &mut Blocks,
    levels: u32,
) -> Sifted
    requires own { session.old.manager ≡ manager.now }
    requires end { last_end 0 blocks.old ≡ levels }
    ensures { (session.new.manager ≡ session.old.manager) × (session.new.number ≡ session.old.number) }
{
    has_room(rt, session);
    assert!(rt; session.levels(manager, Order::Elements) == levels);
    session.sift_elements(rt, manager, blocks).value
}

/// Lets a row go.
pub fn drop_row<R: Abort>(rt: &R, manager: &Manager, session: &mut Session, h: H)
    requires own { session.old.manager ≡ manager.now }
    ensures { (session.new.manager ≡ session.old.manager) × (session.new.number ≡ session.old.number) }
{
    has_room(rt, session);
    assert!(rt; session.is_live(h));
    session.drop_row(manager, h);
    assert!(rt; !session.is_live(h));
}

/// Whether two rows have one function.
pub fn same<R: Abort>(rt: &R, manager: &Manager, session: &mut Session, f: H, g: H) -> bool
    requires own { session.old.manager ≡ manager.now }
    ensures { (session.new.manager ≡ session.old.manager) × (session.new.number ≡ session.old.number) }
{
    ready(rt, session, f, g);
    session.same(manager, f, g).value
}

/// Puts a row's function into a cell.
pub fn post<R: Abort + Wait>(rt: &R, manager: &Manager, session: &mut Session, cell: u8, h: H)
    requires own { session.old.manager ≡ manager.now }
    ensures { (session.new.manager ≡ session.old.manager) × (session.new.number ≡ session.old.number) }
{
    has_room(rt, session);
    assert!(rt; session.is_live(h));
    session.post(rt, manager, cell, h);
}

/// Takes a cell's function, or a row's.
pub fn fetch<R: Abort + Wait>(
    rt: &R,
    manager: &Manager,
    session: &mut Session,
    cell: u8,
    other: H,
) -> (H, Fetched)
    requires own { session.old.manager ≡ manager.now }
    ensures { (session.new.manager ≡ session.old.manager) × (session.new.number ≡ session.old.number) }
{
    has_room(rt, session);
    assert!(rt; session.reserve(1).is_ok() && session.spare() >= 1);
    has_room(rt, session);
    assert!(rt; session.is_live(other));
    session.fetch(rt, manager, cell, other).value
}

/// Frees what nothing reaches.
pub fn sweep<R: Abort + Wait>(rt: &R, manager: &Manager, session: &mut Session) -> u32
    requires own { session.old.manager ≡ manager.now }
    ensures { (session.new.manager ≡ session.old.manager) × (session.new.number ≡ session.old.number) }
{
    has_room(rt, session);
    session.sweep(rt, manager).value.in_use
}

/// The value of a row at some bits, of which there are at least as many as variables.
pub fn eval<R: Abort + Wait>(
    rt: &R,
    manager: &Manager,
    session: &mut Session,
    f: H,
    bits: &[bool],
) -> i64
    requires own { session.old.manager ≡ manager.now }
    requires bits { manager.now.vars ≤ length bits.now }
    ensures { (session.new.manager ≡ session.old.manager) × (session.new.number ≡ session.old.number) }
{
    has_room(rt, session);
    assert!(rt; is_bdd(session, f));
    match session.eval(rt, manager, f, bits) {
        Ok(placed) => placed.value,
        Err(_) => panic!(rt; "no value"),
    }
}
