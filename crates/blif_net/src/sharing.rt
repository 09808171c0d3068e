//! Rows of a cover that are those of the cover before it.

ghost use Rattle.std.specs.Prelude.{◌≡◌, IsTrue, IfOk};

use blif_wholes::CoverRows;
use cover_nets::{Cube, Rows};
use edge_bits::List;
use std::alloc::{AllocError, Global};

fn is_same(cube: &Cube, other: &Cube) -> bool
    ensures { IsTrue result → cube.now ≡ other.now }
{
    cube.literals.as_slice() == other.literals.as_slice()
}

/// Whether these are the same rows in the same order.
fn are_same(rows: &[Cube], others: &[Cube]) -> bool
    ensures { IsTrue result → rows.now ≡ others.now }
{
    if rows.len() != others.len() {
        return false;
    }
    for place in 0..rows.len() {
        if !is_same(&rows[place], &others[place]) {
            return false;
        }
    }
    true
}

/// The rows of one more cover. Where they are those of the cover before it, both share them, so that a text of many covers with the same
/// rows keeps them once.
pub fn shared_rows(
    alloc: Global,
    last: Option<&Option<CoverRows>>,
    rows: List<Cube>,
) -> Result<Rows, AllocError>
    ensures { IfOk result (λ shared. shared ≡ rows) }
{
    if let Some(Some(before)) = last {
        if are_same(before.rows.as_slice(), rows.as_slice()) {
            return before.rows.share();
        }
    }
    Rows::new(alloc, rows)
}
