//! A new table.

ghost use Rattle.std.specs.Prelude.{◌≡◌, ◌+◌, ◌-◌, ◌≤◌, IfOk};
ghost use Rattle.std.specs.List.{range_with_len};
ghost use Rattle.edge_bits.specs.declared.limits.TheConstants.{MOST_SLOTS};
ghost use Rattle.edge_bits.specs.declared.permanent.TheConstants.{FIRST_ELEMENT, FIRST_PROJECTION};
ghost use Rattle.words_rule.specs.Closings.{IsClosingOf, known};
ghost use Rattle.words_rule.specs.Views.{closing_of};

use crate::board::Board;
use crate::shelf::{FreeShelf, TableShelf};
use computed_cache::Memo;
use edge_bits::{FIRST_PROJECTION, Memory};
use free_list::FreeList;
use hold_store::HolderRoom;
use std::alloc::Global;
use words_rule::closing::Closing;
use words_rule::seat::Guard;
use words_rule::view::Opening;

/// As many answers as the computed table has room for.
const REMEMBERED: u32 = 65_536;

/// The free list of a table to be opened, and the room for its holder's notes.
fn free_shelf(alloc: Global, key: &Opening) -> Result<FreeShelf, Memory>
    requires room { FIRST_PROJECTION + key.now.vars ≤ key.now.slots }
    requires few { key.now.slots ≤ MOST_SLOTS }
    ensures slots { IfOk result (λ f. f.list.slots ≡ range_with_len (FIRST_PROJECTION + key.now.vars) (key.now.slots - (FIRST_PROJECTION + key.now.vars))) }
    ensures room { IfOk result (λ f. f.list.room ≡ key.now.slots) }
{
    let list = FreeList::new(alloc, FIRST_PROJECTION + key.vars, key.slots)?;
    let room = HolderRoom::new(alloc, key.slots)?;
    FreeShelf::new(alloc, list, room)
}

/// A table of so many variables, elements and slots for so many sessions, with the seat that splits theirs off it. The board is empty, all slots but those that are told by their number are free, and the computed table has no answer.
pub fn open(
    alloc: Global,
    key: &Opening,
) -> Result<(Guard<TableShelf>, Closing<TableShelf>), Memory>
    requires few { (key.now.vars ≤ FIRST_ELEMENT) × (key.now.elements ≤ FIRST_ELEMENT) × (key.now.slots ≤ MOST_SLOTS) }
    requires room { FIRST_PROJECTION + key.now.vars ≤ key.now.slots }
    ensures { IfOk result (λ r. IsClosingOf r.0 r.1 × (known r.1 ≡ closing_of key.now)) }
{
    let board = TableShelf::Board(Board::new(alloc)?);
    let free = TableShelf::Free(free_shelf(alloc, key)?);
    let answers = TableShelf::Answers(Memo::new(alloc, REMEMBERED)?);
    Ok(Guard::open(alloc, board, free, answers, key)?)
}
