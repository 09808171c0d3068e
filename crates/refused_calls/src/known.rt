//! Rows, with the tables of their functions.

ghost use Rattle.std.specs.Prelude.{◌≤◌};

use crate::tables::Table;
use dd_session::H;

/// A row, and its function.
#[derive(Clone, Copy)]
pub struct Held {
    pub name: H,
    pub table: Table,
}

/// Rows on which calls are made: four of functions of variables, two of functions of numbers and two of families.
#[derive(Clone, Copy)]
pub struct Rows {
    pub f: Held,
    pub g: Held,
    pub h: Held,
    pub k: Held,
    pub m: Held,
    pub n: Held,
    pub p: Held,
    pub q: Held,
}

impl Rows {
    pub fn all(&self) -> [Held; 8] {
        [
            self.f, self.g, self.h, self.k, self.m, self.n, self.p, self.q,
        ]
    }
}

/// What a session holds, and what it posted last.
#[derive(Clone, Copy)]
pub struct Known {
    /// Rows that no operation made which takes memory for a run of its own.
    pub plain: Rows,
    /// Rows that operations made.
    pub rich: Option<Rows>,
    pub posted: Table,
}

impl Known {
    /// The rows that were made last.
    pub fn rows(&self) -> Rows {
        match self.rich {
            Some(rich) => rich,
            None => self.plain,
        }
    }

    /// How many rows there are.
    pub fn count(&self) -> u32
        ensures { result ≤ 16 }
    {
        if self.rich.is_some() { 16 } else { 8 }
    }
}
