//! The rows on which calls are made, and the posted function. What makes them may be refused once, and is asked again then.

use crate::answers::Stop;
use crate::known::{Held, Known, Rows};
use crate::opened::Opened;
use crate::tables::{
    choice, complement, conjunction, constant, difference, disjunction, family, number_of, single,
    variable,
};
use function_laws::{AddMaking, BddMaking, Making, ZddMaking};
use std::sync::Wait;

/// The projection of a variable.
fn var<R: Wait>(rt: &R, opened: &mut Opened, v: u32) -> Result<Held, Stop> {
    opened.made(rt, Making::Bdd(BddMaking::Var(v)), variable(v))
}

/// The complement of a function.
fn not<R: Wait>(rt: &R, opened: &mut Opened, f: &Held) -> Result<Held, Stop> {
    let making = Making::Bdd(BddMaking::Not(f.name));
    opened.made(rt, making, complement(&f.table))
}

/// A constant number.
fn number<R: Wait>(rt: &R, opened: &mut Opened, value: i64) -> Result<Held, Stop> {
    opened.made(rt, Making::Add(AddMaking::Constant(value)), constant(value))
}

/// The family of the combination of one element.
fn element<R: Wait>(rt: &R, opened: &mut Opened, e: u32) -> Result<Held, Stop> {
    opened.made(rt, Making::Zdd(ZddMaking::Single(e)), single(e))
}

/// Eight rows that no operation makes which takes memory for a run of its own, so that the call that is tried is the first one that does.
fn plain_rows<R: Wait>(rt: &R, opened: &mut Opened) -> Result<Rows, Stop> {
    let f = var(rt, opened, 0)?;
    Ok(Rows {
        f,
        g: var(rt, opened, 1)?,
        h: var(rt, opened, 2)?,
        k: not(rt, opened, &f)?,
        m: number(rt, opened, 2)?,
        n: number(rt, opened, 3)?,
        p: element(rt, opened, 0)?,
        q: element(rt, opened, 3)?,
    })
}

/// The choice of the second or third of three functions by the first.
fn ite<R: Wait>(rt: &R, opened: &mut Opened, rows: &Rows) -> Result<Held, Stop> {
    let making = Making::Bdd(BddMaking::Ite(rows.f.name, rows.g.name, rows.h.name));
    let table = choice(&rows.f.table, &rows.g.table, &rows.h.table);
    opened.made(rt, making, table)
}

/// Where just one of two functions holds.
fn xor<R: Wait>(rt: &R, opened: &mut Opened, f: &Held, g: &Held) -> Result<Held, Stop> {
    let making = Making::Bdd(BddMaking::Xor(f.name, g.name));
    opened.made(rt, making, difference(&f.table, &g.table))
}

/// Where either of two functions holds.
fn or<R: Wait>(rt: &R, opened: &mut Opened, f: &Held, g: &Held) -> Result<Held, Stop> {
    let making = Making::Bdd(BddMaking::Or(f.name, g.name));
    opened.made(rt, making, disjunction(&f.table, &g.table))
}

/// Where both of two functions hold.
fn and<R: Wait>(rt: &R, opened: &mut Opened, f: &Held, g: &Held) -> Result<Held, Stop> {
    let making = Making::Bdd(BddMaking::And(f.name, g.name));
    opened.made(rt, making, conjunction(&f.table, &g.table))
}

/// The function that is 1 where another holds.
fn from_bdd<R: Wait>(rt: &R, opened: &mut Opened, f: &Held) -> Result<Held, Stop> {
    let making = Making::Add(AddMaking::FromBdd(f.name));
    opened.made(rt, making, number_of(&f.table))
}

/// The irredundant cover of a function that has just one, of these combinations.
fn cover<R: Wait>(rt: &R, opened: &mut Opened, f: &Held, members: &[usize]) -> Result<Held, Stop> {
    let making = Making::Zdd(ZddMaking::Isop(f.name, f.name));
    opened.made(rt, making, family(members))
}

/// Eight rows that operations make of the plain ones. Of the choice of x1 or x2 by x0 the one irredundant cover has x0 x1 and x0' x2, and
/// that of the disjunction of x1 and x2 has these alone: element 2v is the variable v, 2v + 1 its complement.
fn rich_rows<R: Wait>(rt: &R, opened: &mut Opened, plain: &Rows) -> Result<Rows, Stop> {
    let f = ite(rt, opened, plain)?;
    let g = xor(rt, opened, &plain.f, &plain.g)?;
    let h = or(rt, opened, &plain.g, &plain.h)?;
    Ok(Rows {
        f,
        g,
        h,
        k: and(rt, opened, &plain.f, &plain.h)?,
        m: from_bdd(rt, opened, &f)?,
        n: from_bdd(rt, opened, &g)?,
        p: cover(rt, opened, &f, &[0b000101, 0b010010])?,
        q: cover(rt, opened, &h, &[0b000100, 0b010000])?,
    })
}

/// The plain rows of a session, of which it posts one.
pub fn set_plain<R: Wait>(rt: &R, opened: &mut Opened) -> Result<Known, Stop> {
    let plain = plain_rows(rt, opened)?;
    opened.post(rt, plain.g.name)?;
    Ok(Known {
        plain,
        rich: None,
        posted: plain.g.table,
    })
}

/// Further rows beside the plain ones, of which the session posts one in place of the other.
pub fn set_rich<R: Wait>(rt: &R, opened: &mut Opened, known: &Known) -> Result<Known, Stop> {
    let rich = rich_rows(rt, opened, &known.plain)?;
    opened.post(rt, rich.f.name)?;
    Ok(Known {
        plain: known.plain,
        rich: Some(rich),
        posted: rich.f.table,
    })
}
