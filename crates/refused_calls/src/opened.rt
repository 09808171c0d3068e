//! A manager and its two sessions.

use crate::answers::{Outcome, Stop, Wrong};
use crate::calls::{
    compose, copy, drop_row, fetch, leq, list, make, post, reserve, same, table_of,
};
use crate::known::Held;
use crate::tables::{ELEMENTS, Table, VARIABLES};
use dd_session::{Config, H, Manager, OpenFault, Session};
use diagram_dumps::Listing;
use edge_bits::Kind;
use function_laws::{BddMaking, Making};
use std::alloc::Global;
use std::marker::Model;
use std::sync::Wait;

/// A manager of three variables and six elements, and its two sessions: one that makes the calls, and one that looks at the board.
#[derive(Drop)]
pub struct Opened {
    manager: Manager,
    session: Session,
    witness: Session,
}

impl Model for Opened {
    ghost use Rattle.std.specs.Prelude.{◌≡◌};
    ghost use Rattle.dd_session.specs.Managing.{Managed};

    ghost Value = { Managed };

    ghost view = { λ o. o.manager };

    ghost invariant = { λ o. (o.session.manager ≡ o.manager) × (o.witness.manager ≡ o.manager) × (o.manager.vars ≡ 3) × (o.manager.elements ≡ 6) };
}

/// How many slots the store has.
const LIMIT: u32 = 200;

/// A new manager, and its sessions.
fn open(alloc: Global) -> Result<Opened, Stop> {
    let config = Config {
        vars: VARIABLES,
        elements: ELEMENTS,
        limit: LIMIT,
    };
    match Manager::open(alloc, config, 2) {
        Ok((manager, mut sessions)) => {
            let (Some(witness), Some(session)) = (sessions.pop(), sessions.pop()) else {
                return Err(Stop::Wrong(Wrong::Unmade));
            };
            Ok(Opened {
                manager,
                session,
                witness,
            })
        }
        Err(OpenFault::Memory) => Err(Stop::Memory),
        Err(OpenFault::Config) => Err(Stop::Wrong(Wrong::Unmade)),
    }
}

/// A new manager, where the first or the second try opens one, and whether the first was refused.
pub fn open_again(alloc: Global) -> Result<(Opened, Outcome), Stop> {
    match open(alloc) {
        Ok(opened) => Ok((opened, Outcome::Served)),
        Err(Stop::Memory) => Ok((open(alloc)?, Outcome::Refused)),
        Err(stop) => Err(stop),
    }
}

impl Opened {
    /// How many rows the session has.
    pub fn live(&self) -> u32 {
        self.session.live()
    }

    /// How many calls with a place the session made.
    pub fn calls(&self) -> u64 {
        self.session.calls()
    }

    /// How many more rows take no memory.
    pub fn spare(&self) -> u32 {
        self.session.spare()
    }

    /// A row that is made of others.
    pub fn make<R: Wait>(
        &mut self,
        rt: &R,
        making: Making<H, &[u32], &[(u32, H)]>,
    ) -> Result<H, Stop> {
        make(rt, &self.manager, &mut self.session, making)
    }

    /// A row with two others put for the first two variables.
    pub fn compose<R: Wait>(&mut self, rt: &R, f: H, first: H, second: H) -> Result<H, Stop> {
        compose(rt, &self.manager, &mut self.session, f, first, second)
    }

    /// A row that the first or the second try makes, with the function that it is to have.
    pub fn made<R: Wait>(
        &mut self,
        rt: &R,
        making: Making<H, &[u32], &[(u32, H)]>,
        table: Table,
    ) -> Result<Held, Stop> {
        let name = match self.make(rt, making) {
            Err(Stop::Memory) => self.make(rt, making)?,
            made => made?,
        };
        Ok(Held { name, table })
    }

    /// The function of a row.
    pub fn table_of<R: Wait>(&mut self, rt: &R, h: H) -> Result<Table, Stop> {
        table_of(rt, &self.manager, &mut self.session, h)
    }

    /// Whether two rows of a kind have one function.
    pub fn same(&mut self, kind: Kind, f: H, g: H) -> Result<bool, Stop> {
        same(&self.manager, &mut self.session, kind, f, g)
    }

    /// Whether a row is true wherever another is.
    pub fn leq<R: Wait>(&mut self, rt: &R, f: H, g: H) -> Result<bool, Stop> {
        leq(rt, &self.manager, &mut self.session, f, g)
    }

    /// The listing of two rows.
    pub fn list<R: Wait>(&mut self, rt: &R, f: H, g: H) -> Result<Listing, Stop> {
        list(rt, &self.manager, &mut self.session, f, g)
    }

    /// A further row with the function of a row, for which there is room.
    pub fn copy(&mut self, h: H) -> Result<H, Stop> {
        copy(&self.manager, &mut self.session, h)
    }

    /// A row with the function of the cell, for which there is room.
    pub fn fetch<R: Wait>(&mut self, rt: &R, other: H) -> Result<H, Stop> {
        fetch(rt, &self.manager, &mut self.session, other)
    }

    /// Puts a row's function into the cell.
    pub fn post<R: Wait>(&mut self, rt: &R, h: H) -> Result<(), Stop> {
        post(rt, &self.manager, &mut self.session, h)
    }

    /// Lets a row go.
    pub fn drop_row(&mut self, h: H) -> Result<(), Stop> {
        drop_row(&self.manager, &mut self.session, h)
    }

    /// Makes room for so many more rows.
    pub fn reserve(&mut self, more: u32) -> Result<(), Stop> {
        reserve(&mut self.session, more)
    }

    /// The same, where the first or the second try does.
    pub fn reserve_again(&mut self, more: u32) -> Result<(), Stop> {
        match self.reserve(more) {
            Err(Stop::Memory) => self.reserve(more),
            made => made,
        }
    }

    /// Makes room for the two rows of the session that looks at the board, and makes the first of them.
    fn prepared<R: Wait>(&mut self, rt: &R) -> Result<H, Stop> {
        reserve(&mut self.witness, 2)?;
        make(
            rt,
            &self.manager,
            &mut self.witness,
            Making::Bdd(BddMaking::One),
        )
    }

    /// The same, where the first or the second try does.
    pub fn witness<R: Wait>(&mut self, rt: &R) -> Result<H, Stop> {
        match self.prepared(rt) {
            Err(Stop::Memory) => self.prepared(rt),
            made => made,
        }
    }

    /// The function of a row of the session that looks at the board, which lets the row go.
    fn seen<R: Wait>(&mut self, rt: &R, name: H) -> Result<Table, Stop> {
        let table = table_of(rt, &self.manager, &mut self.witness, name)?;
        drop_row(&self.manager, &mut self.witness, name)?;
        Ok(table)
    }

    /// The function in the cell, which that session fetches. It takes no memory.
    pub fn board<R: Wait>(&mut self, rt: &R, own: H) -> Result<Table, Stop> {
        let name = fetch(rt, &self.manager, &mut self.witness, own)?;
        self.seen(rt, name)
    }

    /// The function of that session's own row, which it copies. It takes no memory.
    pub fn own<R: Wait>(&mut self, rt: &R, own: H) -> Result<Table, Stop> {
        let name = copy(&self.manager, &mut self.witness, own)?;
        self.seen(rt, name)
    }
}
