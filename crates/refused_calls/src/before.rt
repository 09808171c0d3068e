//! That rows and the board are as they are known to be.

use crate::answers::{Stop, Wrong};
use crate::known::{Held, Known, Rows};
use crate::opened::Opened;
use crate::tables::one;
use dd_session::H;
use std::sync::Wait;

/// An answer that is to be the due one.
pub fn is_due(due: bool, wrong: Wrong) -> Result<(), Stop> {
    if due { Ok(()) } else { Err(Stop::Wrong(wrong)) }
}

/// A row has its function.
fn is_held<R: Wait>(rt: &R, opened: &mut Opened, held: &Held) -> Result<(), Stop> {
    let table = opened.table_of(rt, held.name)?;
    is_due(table == held.table, Wrong::Row)
}

/// Two rows of one kind are told to be the same exactly if they have one function.
fn are_told(opened: &mut Opened, f: &Held, g: &Held) -> Result<(), Stop> {
    if f.table.kind != g.table.kind {
        return Ok(());
    }
    let same = opened.same(f.table.kind, f.name, g.name)?;
    is_due(same == (f.table == g.table), Wrong::Same)
}

/// Each row has its function, and is the same as those that have it too.
fn are_held<R: Wait>(rt: &R, opened: &mut Opened, rows: &Rows) -> Result<(), Stop> {
    for f in rows.all() {
        is_held(rt, opened, &f)?;
        for g in rows.all() {
            are_told(opened, &f, &g)?;
        }
    }
    Ok(())
}

/// The session has the rows that are known and no others, the board has what was posted, and another session its own row, of which it can
/// make a copy.
pub fn are_known<R: Wait>(rt: &R, opened: &mut Opened, own: H, known: &Known) -> Result<(), Stop> {
    is_due(opened.live() == known.count(), Wrong::Count)?;
    are_held(rt, opened, &known.plain)?;
    if let Some(rich) = &known.rich {
        are_held(rt, opened, rich)?;
    }
    let board = opened.board(rt, own)?;
    is_due(board == known.posted, Wrong::Board)?;
    let kept = opened.own(rt, own)?;
    is_due(kept == one(), Wrong::Row)
}
