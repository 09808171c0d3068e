//! Calls of a session of three variables and six elements that has few rows and has made few calls.

ghost use Rattle.std.specs.Prelude.{◌≡◌};

use crate::answers::{Stop, Wrong};
use crate::tables::{ASSIGNMENTS, PATTERNS, Table, Values, bits_of};
use crate::takes::{are_three, are_two, has_room, is_of, takes};
use dd_session::{Fetched, H, Manager, Placed, Refusal, Session, Unmade};
use diagram_dumps::Listing;
use edge_bits::{Kind, Memory};
use function_laws::{BddMaking, Making};
use std::sync::Wait;

/// The cell of the board.
const CELL: u8 = 7;

/// The row that was made, if one was.
fn row_of(made: Result<Placed<Result<H, Unmade>>, Refusal>) -> Result<H, Stop> {
    match made {
        Ok(placed) => match placed.value {
            Ok(name) => Ok(name),
            Err(_) => Err(Stop::Wrong(Wrong::Unmade)),
        },
        Err(Refusal::Full(_)) => Err(Stop::Wrong(Wrong::Full)),
        Err(Refusal::Memory) => Err(Stop::Memory),
    }
}

/// A row that is made of others.
pub fn make<R: Wait>(
    rt: &R,
    manager: &Manager,
    session: &mut Session,
    making: Making<H, &[u32], &[(u32, H)]>,
) -> Result<H, Stop>
    requires own { session.old.manager ≡ manager.now }
    requires sizes { (manager.now.vars ≡ 3) × (manager.now.elements ≡ 6) }
    ensures { session.new.manager ≡ session.old.manager }
{
    if !has_room(session) || !takes(session, &making) {
        return Err(Stop::Wrong(Wrong::Rows));
    }
    row_of(session.make(rt, manager, making))
}

/// A row with two others put for the first two variables, both at once.
pub fn compose<R: Wait>(
    rt: &R,
    manager: &Manager,
    session: &mut Session,
    f: H,
    first: H,
    second: H,
) -> Result<H, Stop>
    requires own { session.old.manager ≡ manager.now }
    requires sizes { (manager.now.vars ≡ 3) × (manager.now.elements ≡ 6) }
    ensures { session.new.manager ≡ session.old.manager }
{
    if !has_room(session) || !are_three(session, f, first, second) {
        return Err(Stop::Wrong(Wrong::Rows));
    }
    let pairs = [(0, first), (1, second)];
    row_of(session.make(
        rt,
        manager,
        Making::Bdd(BddMaking::VectorCompose(f, &pairs)),
    ))
}

/// The value of a row at a pattern.
fn value_at<R: Wait>(
    rt: &R,
    manager: &Manager,
    session: &mut Session,
    h: H,
    number: usize,
) -> Result<i64, Stop>
    requires own { session.old.manager ≡ manager.now }
    requires sizes { (manager.now.vars ≡ 3) × (manager.now.elements ≡ 6) }
    ensures { session.new.manager ≡ session.old.manager }
{
    if !has_room(session) || !session.is_live(h) {
        return Err(Stop::Wrong(Wrong::Rows));
    }
    let bits = bits_of(number);
    match session.eval(rt, manager, h, &bits) {
        Ok(placed) => Ok(placed.value),
        Err(_) => Err(Stop::Wrong(Wrong::Refused)),
    }
}

/// The values of a row at the first patterns.
fn values_of<R: Wait>(
    rt: &R,
    manager: &Manager,
    session: &mut Session,
    h: H,
    count: usize,
) -> Result<Values, Stop>
    requires own { session.old.manager ≡ manager.now }
    requires sizes { (manager.now.vars ≡ 3) × (manager.now.elements ≡ 6) }
    ensures { session.new.manager ≡ session.old.manager }
{
    let mut values = [0; PATTERNS];
    for number in 0..count {
        let value = value_at(rt, manager, session, h, number)?;
        if let Some(place) = values.get_mut(number) {
            *place = value;
        }
    }
    Ok(values)
}

/// The kind of a row.
fn kind_of(session: &Session, h: H) -> Result<Kind, Stop> {
    if session.is_live(h) {
        Ok(session.kind(h))
    } else {
        Err(Stop::Wrong(Wrong::Rows))
    }
}

/// The function of a row, read at each pattern that may make a difference to it.
pub fn table_of<R: Wait>(
    rt: &R,
    manager: &Manager,
    session: &mut Session,
    h: H,
) -> Result<Table, Stop>
    requires own { session.old.manager ≡ manager.now }
    requires sizes { (manager.now.vars ≡ 3) × (manager.now.elements ≡ 6) }
    ensures { session.new.manager ≡ session.old.manager }
{
    let kind = kind_of(session, h)?;
    if kind == Kind::Zdd {
        let values = values_of(rt, manager, session, h, PATTERNS)?;
        return Ok(Table { kind, values });
    }
    let values = values_of(rt, manager, session, h, ASSIGNMENTS)?;
    Ok(Table { kind, values }.repeated())
}

/// Whether two rows of a kind have one function.
pub fn same(manager: &Manager, session: &mut Session, kind: Kind, f: H, g: H) -> Result<bool, Stop>
    requires own { session.old.manager ≡ manager.now }
    ensures { session.new.manager ≡ session.old.manager }
{
    if !has_room(session) || !are_two(session, kind, f, g) {
        return Err(Stop::Wrong(Wrong::Rows));
    }
    Ok(session.same(manager, f, g).value)
}

/// Whether a row is true wherever another is.
pub fn leq<R: Wait>(
    rt: &R,
    manager: &Manager,
    session: &mut Session,
    f: H,
    g: H,
) -> Result<bool, Stop>
    requires own { session.old.manager ≡ manager.now }
    ensures { session.new.manager ≡ session.old.manager }
{
    if !has_room(session) || !are_two(session, Kind::Bdd, f, g) {
        return Err(Stop::Wrong(Wrong::Rows));
    }
    match session.leq(rt, manager, f, g) {
        Ok(placed) => Ok(placed.value),
        Err(Memory) => Err(Stop::Memory),
    }
}

/// The listing of two rows.
pub fn list<R: Wait>(
    rt: &R,
    manager: &Manager,
    session: &mut Session,
    f: H,
    g: H,
) -> Result<Listing, Stop>
    requires own { session.old.manager ≡ manager.now }
    ensures { session.new.manager ≡ session.old.manager }
{
    if !are_two(session, Kind::Bdd, f, g) {
        return Err(Stop::Wrong(Wrong::Rows));
    }
    match session.list(rt, manager, &[f, g]) {
        Ok(listing) => Ok(listing),
        Err(Memory) => Err(Stop::Memory),
    }
}

/// A further row with the function of a row, for which there is room.
pub fn copy(manager: &Manager, session: &mut Session, h: H) -> Result<H, Stop>
    requires own { session.old.manager ≡ manager.now }
    ensures { session.new.manager ≡ session.old.manager }
{
    if !has_room(session) || session.spare() == 0 || !session.is_live(h) {
        return Err(Stop::Wrong(Wrong::Rows));
    }
    Ok(session.copy(manager, h).value)
}

/// A row with the function of the cell, for which there is room, and which has the kind of another row.
pub fn fetch<R: Wait>(rt: &R, manager: &Manager, session: &mut Session, other: H) -> Result<H, Stop>
    requires own { session.old.manager ≡ manager.now }
    ensures { session.new.manager ≡ session.old.manager }
{
    if !has_room(session) || session.spare() == 0 || !session.is_live(other) {
        return Err(Stop::Wrong(Wrong::Rows));
    }
    let (name, from) = session.fetch(rt, manager, CELL, other).value;
    match from {
        Fetched::Posted => Ok(name),
        Fetched::Empty => Err(Stop::Wrong(Wrong::Board)),
    }
}

/// Puts a row's function into the cell.
pub fn post<R: Wait>(rt: &R, manager: &Manager, session: &mut Session, h: H) -> Result<(), Stop>
    requires own { session.old.manager ≡ manager.now }
    ensures { session.new.manager ≡ session.old.manager }
{
    if !has_room(session) || !session.is_live(h) {
        return Err(Stop::Wrong(Wrong::Rows));
    }
    session.post(rt, manager, CELL, h);
    Ok(())
}

/// Lets a row go.
pub fn drop_row(manager: &Manager, session: &mut Session, h: H) -> Result<(), Stop>
    requires own { session.old.manager ≡ manager.now }
    ensures { session.new.manager ≡ session.old.manager }
{
    if !has_room(session) || !session.is_live(h) {
        return Err(Stop::Wrong(Wrong::Rows));
    }
    session.drop_row(manager, h);
    Ok(())
}

/// Makes room for so many more rows.
pub fn reserve(session: &mut Session, more: u32) -> Result<(), Stop>
    ensures { session.new.manager ≡ session.old.manager }
{
    match session.reserve(more) {
        Ok(()) => Ok(()),
        Err(Memory) => Err(Stop::Memory),
    }
}
