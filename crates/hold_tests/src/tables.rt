//! A table of words with one holder, made of a store.

ghost use Rattle.std.specs.Prelude.{◌≡◌, IfOk};
ghost use Rattle.held_table.specs.Tables.{IsTable, known_of};
ghost use Rattle.hold_calls.specs.Rests.{IsAtRest};

use edge_bits::Memory;
use held_table::HeldTable;
use hold_store::HolderRoom;
use node_slots::PlainStore;
use std::alloc::Global;
use step_store::Home;

/// Where the holder of a table of its own belongs.
pub struct Here;

impl Home<bool> for Here {
    ghost use Rattle.std.specs.Prelude.{false};

    ghost number = { 0 };

    ghost rest = { false };
}

/// A table with the words of a store, and what its holder has beside it.
pub fn opened(alloc: Global, store: PlainStore) -> Result<(HeldTable, HolderRoom), Memory>
    ensures own { IfOk result (λ made. IsTable made.0) }
    ensures rest { IfOk result (λ made. IsAtRest (known_of made.0) made.1) }
{
    let room = HolderRoom::new(alloc, store.limit())?;
    let table = HeldTable::of_store(alloc, store)?;
    Ok((table, room))
}
