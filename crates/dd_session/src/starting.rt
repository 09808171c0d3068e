//! How a call starts that adds a row.

ghost use Rattle.std.specs.Prelude.{◌≡◌, MatchResult};
ghost use Rattle.seat_guard.specs.Passes.{known};
ghost use Rattle.dd_session.specs.Turns.{IsCalm, Keeps, Started};

use crate::book::Book;
use edge_bits::Memory;
use seat_guard::seat::{Guard, Pass};
use shared_store::Shared;
use std::sync::Wait;

/// Room for one more row, and then the turn, with what all sessions share. Want of memory leaves all as it was.
pub fn start<R: Wait>(
    rt: &R,
    guard: &Guard<Shared>,
    pass: &mut Pass<Shared>,
    book: &mut Book,
) -> Result<Shared, Memory>
    requires idle { IsCalm guard.now pass.old }
    requires keeps { Keeps (known pass.old) book.old }
    ensures { MatchResult result (Started guard.now pass.old pass.new book.old book.new) (λ _. (pass.new ≡ pass.old) × (book.new ≡ book.old)) }
{
    book.rows.reserve(1)?;
    Ok(guard.take(rt, pass))
}
