//! A table of three sessions.

ghost use Rattle.std.specs.Prelude.{◌≡◌, ◌+◌, ◌≤◌, IfOk};
ghost use Rattle.edge_bits.specs.declared.limits.TheConstants.{MOST_SLOTS};
ghost use Rattle.edge_bits.specs.declared.permanent.TheConstants.{FIRST_ELEMENT, FIRST_PROJECTION};
ghost use Rattle.word_tests.specs.Seats.{IsFresh};

use edge_bits::Memory;
use std::alloc::Global;
use table_shelves::{TableShelf, open};
use words_rule::seat::{Guard, Pass};
use words_rule::view::Opening;

/// A table for three sessions, and the seat of each.
pub struct Three {
    pub guard: Guard<TableShelf>,
    pub mine: Pass<TableShelf>,
    pub first: Pass<TableShelf>,
    pub second: Pass<TableShelf>,
}

/// A table of so many variables, elements and slots.
pub fn table_of_three(alloc: Global, vars: u32, elements: u32, slots: u32) -> Result<Three, Memory>
    requires few { (vars ≤ FIRST_ELEMENT) × (elements ≤ FIRST_ELEMENT) × (slots ≤ MOST_SLOTS) }
    requires room { FIRST_PROJECTION + vars ≤ slots }
    ensures { IfOk result (λ t. IsFresh t.guard t.mine × IsFresh t.guard t.first × IsFresh t.guard t.second) }
{
    let key = Opening {
        vars,
        elements,
        slots,
        sessions: 3,
    };
    let (guard, mut closing) = open(alloc, &key)?;
    let mine = guard.split(&mut closing);
    let first = guard.split(&mut closing);
    let second = guard.split(&mut closing);
    Ok(Three {
        guard,
        mine,
        first,
        second,
    })
}
