//! The operations that are tried, at least one of each crate of them, and what is due of each. One that takes pairs is a call of its own.

use crate::known::Rows;
use crate::tables::{Table, agree_where, at_least, choice, exists, of_cover, product, sum};
use dd_session::H;
use edge_bits::Kind;
use function_laws::{BddMaking, ExactMaking, Making, ZddMaking};

/// An operation.
#[derive(Clone, Copy, PartialEq, Eq)]
pub enum Operation {
    Ite,
    Exists,
    Restrict,
    Plus,
    AtLeast,
    Product,
    Isop,
    CoverOf,
}

impl Operation {
    pub fn name(self) -> &'static str {
        match self {
            Operation::Ite => "ite",
            Operation::Exists => "exists",
            Operation::Restrict => "restrict",
            Operation::Plus => "plus",
            Operation::AtLeast => "at_least",
            Operation::Product => "product",
            Operation::Isop => "isop",
            Operation::CoverOf => "cover_of",
        }
    }

    /// What makes its function of some rows, with a list of the first variable.
    pub fn making<'a>(self, rows: &Rows, vars: &'a [u32]) -> Making<H, &'a [u32], &'a [(u32, H)]> {
        let f = rows.f.name;
        let g = rows.g.name;
        let h = rows.h.name;
        match self {
            Operation::Ite => Making::Bdd(BddMaking::Ite(f, g, h)),
            Operation::Exists => Making::Bdd(BddMaking::Exists(f, vars)),
            Operation::Restrict => Making::Bdd(BddMaking::Restrict(f, g)),
            Operation::Plus => Making::Exact(ExactMaking::Plus(rows.m.name, rows.n.name)),
            Operation::AtLeast => Making::Bdd(BddMaking::AtLeast(rows.m.name, 1)),
            Operation::Product => Making::Zdd(ZddMaking::Product(rows.p.name, rows.q.name)),
            Operation::Isop => Making::Zdd(ZddMaking::Isop(g, g)),
            Operation::CoverOf => Making::Bdd(BddMaking::CoverOf(rows.p.name)),
        }
    }

    /// Whether it may make this function of the rows. A restriction is free where its condition does not hold, and of a cover it is looked
    /// at which function it has.
    pub fn may_make(self, rows: &Rows, made: &Table) -> bool {
        let f = &rows.f.table;
        let g = &rows.g.table;
        let h = &rows.h.table;
        match self {
            Operation::Ite => *made == choice(f, g, h),
            Operation::Exists => *made == exists(f, 0),
            Operation::Restrict => made.kind == Kind::Bdd && agree_where(made, f, g),
            Operation::Plus => *made == sum(&rows.m.table, &rows.n.table),
            Operation::AtLeast => *made == at_least(&rows.m.table, 1),
            Operation::Product => *made == product(&rows.p.table, &rows.q.table),
            Operation::Isop => made.kind == Kind::Zdd && of_cover(made) == *g,
            Operation::CoverOf => *made == of_cover(&rows.p.table),
        }
    }
}
