//! Calls of a session on its rows, so often, and of several sessions at once.

ghost use Rattle.std.specs.Prelude.{◌≡◌, ◌<◌, IsTrue};
ghost use Rattle.edge_bits.specs.declared.edges.Kind.TheVariants as kinds;
ghost use Rattle.dd_session.specs.Sessions.{HasRoom, IsLiveAs};

use dd_session::{H, Manager, Session};
use edge_bits::Kind;
use std::sync::Wait;
use std::thread::{Threads, join};

/// Whether a name is that of a BDD's row.
fn is_bdd(session: &Session, h: H) -> bool
    ensures { IsTrue result → IsLiveAs kinds.Bdd session.now h }
{
    if !session.is_live(h) {
        return false;
    }
    match session.kind(h) {
        Kind::Bdd => true,
        _ => false,
    }
}

/// Whether the session has few rows, and may make many calls more.
fn has_room(session: &Session) -> bool
    ensures { IsTrue result → HasRoom session.now }
{
    session.live() < 1000 && session.calls() < 1_000_000_000_000
}

/// The session's row of a variable.
fn var<R: Wait>(rt: &R, manager: &Manager, session: &mut Session, v: u32) -> Option<H>
    requires own { session.old.manager ≡ manager.now }
    requires variable { v < manager.now.vars }
    ensures { session.new.manager ≡ session.old.manager }
{
    if !has_room(session) {
        return None;
    }
    match session.var(rt, manager, v) {
        Ok(placed) => Some(placed.value),
        Err(_) => None,
    }
}

/// A copy of a row.
fn copy(manager: &Manager, session: &mut Session, row: H) -> Option<H>
    requires own { session.old.manager ≡ manager.now }
    ensures { session.new.manager ≡ session.old.manager }
{
    if has_room(session) && session.is_live(row) && session.spare() >= 1 {
        Some(session.copy(manager, row).value)
    } else {
        None
    }
}

/// Whether two rows have one function.
fn same(manager: &Manager, session: &mut Session, f: H, g: H) -> bool
    requires own { session.old.manager ≡ manager.now }
    ensures { session.new.manager ≡ session.old.manager }
{
    if has_room(session) && is_bdd(session, f) && is_bdd(session, g) {
        session.same(manager, f, g).value
    } else {
        false
    }
}

/// Lets a row go, if it is there.
fn drop_row(manager: &Manager, session: &mut Session, row: H)
    requires own { session.old.manager ≡ manager.now }
    ensures { session.new.manager ≡ session.old.manager }
{
    if has_room(session) && session.is_live(row) {
        session.drop_row(manager, row);
    }
}

/// Copies the row of a variable, compares the two and drops the copy, so often, until a comparison says no. How many calls it made.
fn call_all<R: Wait>(
    rt: &R,
    manager: &Manager,
    mut session: Session,
    v: u32,
    rounds: u32,
) -> Option<u64>
    requires own { session.manager ≡ manager.now }
    requires variable { v < manager.now.vars }
{
    let row = var(rt, manager, &mut session, v)?;
    session.reserve(1).ok()?;
    for _ in 0..rounds {
        let copied = copy(manager, &mut session, row)?;
        if !same(manager, &mut session, row, copied) {
            return None;
        }
        drop_row(manager, &mut session, copied);
    }
    Some(session.calls())
}

/// How many calls one session made.
pub fn one<R: Wait>(rt: &R, manager: &Manager, session: Session, v: u32, rounds: u32) -> u64
    requires own { session.manager ≡ manager.now }
    requires variable { v < manager.now.vars }
{
    call_all(rt, manager, session, v, rounds).unwrap_or(0)
}

/// How many two made at once, each of a variable of its own. The counts of the two are to stand in different lines of the processors' caches.
pub fn two<R: Threads + Wait + Sync>(
    rt: &R,
    manager: &Manager,
    sessions: (Session, Session),
    v: u32,
    w: u32,
    rounds: u32,
) -> u64
    requires own { (sessions.0.manager ≡ manager.now) × (sessions.1.manager ≡ manager.now) }
    requires variables { (v < manager.now.vars) × (w < manager.now.vars) }
{
    let (first, second) = sessions;
    let (first, second) = join(
        rt,
        move || -> u64
            requires { (first.manager ≡ manager.now) × (v < manager.now.vars) }
        { one(rt, manager, first, v, rounds) },
        move || -> u64
            requires { (second.manager ≡ manager.now) × (w < manager.now.vars) }
        { one(rt, manager, second, w, rounds) },
    );
    first.saturating_add(second)
}

/// How many two pairs made at once.
pub fn four<R: Threads + Wait + Sync>(
    rt: &R,
    manager: &Manager,
    first: (Session, Session),
    second: (Session, Session),
    rounds: u32,
) -> u64
    requires first { (first.0.manager ≡ manager.now) × (first.1.manager ≡ manager.now) }
    requires second { (second.0.manager ≡ manager.now) × (second.1.manager ≡ manager.now) }
    requires variable { 48 < manager.now.vars }
{
    let (first, second) = join(
        rt,
        move || -> u64
            requires { (first.0.manager ≡ manager.now) × (first.1.manager ≡ manager.now) × (48 < manager.now.vars) }
        { two(rt, manager, first, 0, 16, rounds) },
        move || -> u64
            requires { (second.0.manager ≡ manager.now) × (second.1.manager ≡ manager.now) × (48 < manager.now.vars) }
        { two(rt, manager, second, 32, 48, rounds) },
    );
    first.saturating_add(second)
}
