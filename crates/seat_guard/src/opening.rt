//! A new table.
ghost use Rattle.std.specs.Prelude.{◌≡◌, ◌≤◌, ℕ, [], length, IfOk, Option, None};
ghost use Rattle.edge_bits.specs.declared.limits.TheConstants.{CELLS, MOST_SESSIONS};
ghost use Rattle.function_laws.specs.EntryOrders.{opening_orders};
ghost use Rattle.seat_guard.specs.Views.{cell_in, closing_of, sizes_for};
ghost use Rattle.function_laws.specs.SessionEntries.{Each};
ghost use Rattle.seat_guard.specs.Turn.{IsKeptCell};
ghost use Rattle.seat_guard.specs.Tallies.{no_counts};
ghost use Rattle.seat_guard.specs.Passes.{known, counts_of, in_hand, IsPassOf};

use crate::content::Content;
use crate::layout::{COUNTS, SESSIONS};
use crate::seat::{Guard, Pass};
use crate::view::Opening;
use atomic_table::Table;
use std::alloc::{AllocError, Global};

/// A new table over a content with an empty board, and the closing seat.
pub fn open<S: Content + Drop>(
    alloc: Global,
    content: S,
    key: &Opening,
) -> Result<(Guard<S>, Pass<S>), AllocError>
    requires counts { S.counts content ≡ (key.now.vars, key.now.elements, key.now.slots) }
    requires orders { S.orders content ≡ opening_orders (sizes_for key.now.vars key.now.elements) }
    requires sessions { key.now.sessions ≤ MOST_SESSIONS }
    requires cells { length (S.board content) ≡ CELLS }
    requires empty { cell_in (S.board content) ≡ (λ (i : ℕ). None) }
    requires kept { Each (IsKeptCell S.keeps S.board S.counts S.orders content) (S.board content) }
    ensures { IfOk result (λ r. IsPassOf r.0 r.1 × (known r.1 ≡ closing_of key.now) × (in_hand r.1 ≡ []) × (counts_of r.1 ≡ no_counts)) }
{
    let mut slots = Vec::new(alloc);
    slots.push(Some(content))?;
    let mut words = vec![in alloc; 0u64; COUNTS + key.slots as usize]?;
    words[SESSIONS] = u64::from(key.sessions);
    let Ok((table, seat)) = Table::new(alloc, words.as_slice(), slots, key) else {
        return Err(AllocError);
    };
    Ok((
        Guard { table },
        Pass {
            seat,
            number: 0,
            given: 0,
        },
    ))
}
