//! The kinds of calls, each tried on two sets of rows.

use crate::answers::{Outcome, Stop, Wrong};
use crate::before::{are_known, is_due};
use crate::known::{Known, Rows};
use crate::listings::lists;
use crate::opened::{Opened, open_again};
use crate::operations::Operation;
use crate::setting::{set_plain, set_rich};
use crate::tables::{composed, is_implied};
use dd_session::H;
use std::alloc::Global;
use std::fmt;
use std::sync::Wait;

/// A kind of call.
#[derive(Clone, Copy, PartialEq, Eq)]
pub enum Call {
    Open,
    Make(Operation),
    VectorCompose,
    Leq,
    List,
    Reserve,
    Copy,
    Fetch,
}

/// All that are tried.
pub const CALLS: [Call; 15] = [
    Call::Open,
    Call::Make(Operation::Ite),
    Call::Make(Operation::Exists),
    Call::VectorCompose,
    Call::Make(Operation::Restrict),
    Call::Make(Operation::Plus),
    Call::Make(Operation::AtLeast),
    Call::Make(Operation::Product),
    Call::Make(Operation::Isop),
    Call::Make(Operation::CoverOf),
    Call::Leq,
    Call::List,
    Call::Reserve,
    Call::Copy,
    Call::Fetch,
];

impl fmt::Display for Call {
    fn fmt<W: fmt::Write>(&self, f: &mut fmt::Formatter<W>) -> fmt::Result {
        f.write_str(match self {
            Call::Open => "open",
            Call::Make(operation) => operation.name(),
            Call::VectorCompose => "vector_compose",
            Call::Leq => "leq",
            Call::List => "list",
            Call::Reserve => "reserve",
            Call::Copy => "copy",
            Call::Fetch => "fetch",
        })
    }
}

/// A new row has a function that is due, and is let go.
fn is_made<R: Wait>(
    rt: &R,
    opened: &mut Opened,
    operation: Operation,
    rows: &Rows,
) -> Result<(), Stop> {
    let name = opened.make(rt, operation.making(rows, &[0]))?;
    let table = opened.table_of(rt, name)?;
    is_due(operation.may_make(rows, &table), Wrong::Made)?;
    opened.drop_row(name)
}

/// A new row has the function of one with two others put for variables, and is let go.
fn is_composed<R: Wait>(rt: &R, opened: &mut Opened, rows: &Rows) -> Result<(), Stop> {
    let name = opened.compose(rt, rows.f.name, rows.g.name, rows.h.name)?;
    let table = opened.table_of(rt, name)?;
    let due = composed(&rows.f.table, &rows.g.table, &rows.h.table);
    is_due(table == due, Wrong::Made)?;
    opened.drop_row(name)
}

/// A row has the function of another, and is let go.
fn is_copied<R: Wait>(rt: &R, opened: &mut Opened, rows: &Rows) -> Result<(), Stop> {
    let name = opened.copy(rows.p.name)?;
    let table = opened.table_of(rt, name)?;
    is_due(table == rows.p.table, Wrong::Made)?;
    opened.drop_row(name)
}

/// A row has the function that was posted, and is let go.
fn is_fetched<R: Wait>(rt: &R, opened: &mut Opened, known: &Known) -> Result<(), Stop> {
    let name = opened.fetch(rt, known.plain.f.name)?;
    let table = opened.table_of(rt, name)?;
    is_due(table == known.posted, Wrong::Made)?;
    opened.drop_row(name)
}

/// There is room for as many rows as were asked for.
fn is_reserved(opened: &mut Opened, more: u32) -> Result<(), Stop> {
    opened.reserve(more)?;
    is_due(opened.spare() >= more, Wrong::Room)
}

/// Makes the call, which has to come out as it is due or to be refused for want of memory.
fn ask<R: Wait>(rt: &R, opened: &mut Opened, call: Call, known: &Known) -> Result<(), Stop> {
    let rows = known.rows();
    match call {
        Call::Open => Ok(()),
        Call::Make(operation) => is_made(rt, opened, operation, &rows),
        Call::VectorCompose => is_composed(rt, opened, &rows),
        Call::Leq => {
            let told = opened.leq(rt, rows.k.name, rows.h.name)?;
            is_due(
                told == is_implied(&rows.k.table, &rows.h.table),
                Wrong::Answer,
            )
        }
        Call::List => {
            let listing = opened.list(rt, rows.f.name, rows.k.name)?;
            is_due(
                lists(&listing, &rows.f.table, &rows.k.table),
                Wrong::Listing,
            )
        }
        Call::Reserve => is_reserved(opened, 4 * known.count()),
        Call::Copy => is_copied(rt, opened, &rows),
        Call::Fetch => is_fetched(rt, opened, known),
    }
}

/// Makes the call, and tells whether it was refused. Either way all is as it was, and a refused call drew no place.
fn asked<R: Wait>(
    rt: &R,
    opened: &mut Opened,
    own: H,
    call: Call,
    known: &Known,
) -> Result<bool, Stop> {
    let spare = opened.spare();
    let calls = opened.calls();
    let refused = match ask(rt, opened, call, known) {
        Ok(()) => false,
        Err(Stop::Memory) => true,
        Err(stop) => return Err(stop),
    };
    is_due(!refused || opened.calls() == calls, Wrong::Place)?;
    is_due(opened.spare() >= spare, Wrong::Room)?;
    are_known(rt, opened, own, known)?;
    Ok(refused)
}

/// Makes the call once, and where it was refused once more.
fn tried_on<R: Wait>(
    rt: &R,
    opened: &mut Opened,
    own: H,
    call: Call,
    known: &Known,
) -> Result<Outcome, Stop> {
    are_known(rt, opened, own, known)?;
    if !asked(rt, opened, own, call, known)? {
        return Ok(Outcome::Served);
    }
    if asked(rt, opened, own, call, known)? {
        Ok(Outcome::RefusedTwice)
    } else {
        Ok(Outcome::Refused)
    }
}

/// Makes room for a row where the call takes no memory then.
fn make_room(opened: &mut Opened, call: Call) -> Result<(), Stop> {
    match call {
        Call::Copy | Call::Fetch => opened.reserve_again(1),
        _ => Ok(()),
    }
}

/// Tries a kind of call on rows that no operation made, so that it is the first operation, and on rows that operations made.
fn tried_in<R: Wait>(rt: &R, opened: &mut Opened, call: Call) -> Result<Outcome, Stop> {
    let plain = set_plain(rt, opened)?;
    let own = opened.witness(rt)?;
    make_room(opened, call)?;
    let first = tried_on(rt, opened, own, call, &plain)?;
    if first == Outcome::RefusedTwice {
        return Ok(first);
    }
    let rich = set_rich(rt, opened, &plain)?;
    make_room(opened, call)?;
    let second = tried_on(rt, opened, own, call, &rich)?;
    Ok(first.worse(second))
}

/// Tries a kind of call in a store of its own. To open that is a kind too, after which there is nothing more to call.
pub fn tried<R: Wait>(rt: &R, alloc: Global, call: Call) -> Result<Outcome, Stop> {
    match open_again(alloc) {
        Ok((mut opened, opening)) => match tried_in(rt, &mut opened, call) {
            Ok(_) if call == Call::Open => Ok(opening),
            outcome => outcome,
        },
        Err(Stop::Memory) if call == Call::Open => Ok(Outcome::RefusedTwice),
        Err(stop) => Err(stop),
    }
}
