//! What a fetch takes, and what is told of it.

ghost use Rattle.std.specs.Prelude.{◌≡◌, ◌⊎◌, Some};
ghost use Rattle.function_laws.specs.Outcomes.{fetches};
ghost use Rattle.function_laws.specs.Steps.{from_cell};
ghost use Rattle.node_store.specs.Listed.{listed_at};
ghost use Rattle.node_store.specs.Views.{View};
ghost use Rattle.dd_session.specs.Turns.{function_of, is_posted};

use crate::answers::Fetched;
use shared_store::Cell;

/// What a fetch takes: what stands in the cell if it has the kind of the other one, else that one; and whether it is the cell's.
pub fn choose(found: Option<Cell>, other: Cell) -> (Cell, bool)
    ensures taken { (w : View) → from_cell (function_of w found) (listed_at other.kind w other.edge) ≡ fetches (listed_at result.0.kind w result.0.edge) result.1 }
    ensures origin { (result.0 ≡ other) ⊎ (found ≡ Some result.0) }
{
    match found {
        Some(cell) if cell.kind == other.kind => (cell, true),
        _ => (other, false),
    }
}

/// What is told of a fetch.
pub fn fetched(posted: bool) -> Fetched
    ensures { is_posted result ≡ posted }
{
    if posted {
        Fetched::Posted
    } else {
        Fetched::Empty
    }
}
