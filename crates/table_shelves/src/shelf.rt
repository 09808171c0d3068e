//! What a slot has.

ghost use Rattle.std.specs.Prelude.{◌≡◌, IfOk, Some, is_some, true};
ghost use Rattle.hold_store.specs.declared.holding.HolderRoom.{HolderRoom as RoomOf};
ghost use Rattle.words_holder.specs.Holders.{IsSpareRoom};

use crate::board::Board;
use computed_cache::Memo;
use edge_bits::{Edge, Memory};
use free_list::FreeList;
use hold_store::HolderRoom;
use node_store::Key;
use std::alloc::Global;
use words_holder::HolderShelf;
use words_rule::content::Content;
use words_rule::shelf::Shelf;

/// The free list, and the room for what the holder of the store notes of as many slots. That lies behind a pointer, since each new node
/// moves the content of the slot, and the room is great.
#[derive(Drop)]
pub struct FreeShelf {
    list: FreeList,
    room: Box<Option<HolderRoom>>,
    ghost some: { is_some room.value ≡ true },
    ghost spare: { (r : RoomOf) → room.value ≡ Some r → IsSpareRoom list.room r },
}

impl FreeShelf {
    /// A list, with room for as many slots.
    pub fn new(alloc: Global, list: FreeList, room: HolderRoom) -> Result<FreeShelf, Memory>
        requires { IsSpareRoom list.room room }
        ensures { IfOk result (λ f. f.list ≡ list) }
    {
        let room = Box::new(alloc, Some(room))?;
        Ok(FreeShelf { list, room })
    }
}

/// The board, the free list or the computed table.
#[derive(Drop)]
pub enum TableShelf {
    Board(Board),
    Free(FreeShelf),
    Answers(Memo),
}

impl Content for TableShelf {
    ghost use Rattle.table_shelves.specs.Shelves.{board_of, free_of, memo_of};

    ghost board = { board_of };

    ghost free_slots = { free_of };

    ghost memo = { memo_of };
}

impl Shelf for TableShelf {
    fn has_slot(&self) -> bool {
        match self {
            TableShelf::Free(shelf) => !shelf.list.is_empty(),
            _ => false,
        }
    }

    fn next_slot(&mut self) -> u32 {
        match self {
            TableShelf::Free(shelf) => match shelf.list.take_first() {
                Some(slot) => slot,
                None => unreachable!(),
            },
            _ => unreachable!(),
        }
    }

    fn get(&self, key: &Key) -> Option<Edge> {
        match self {
            TableShelf::Answers(memo) => memo.get(key),
            _ => None,
        }
    }

    fn put(&mut self, key: Key, edge: Edge) {
        match self {
            TableShelf::Answers(memo) => memo.put(key, edge),
            _ => unreachable!(),
        }
    }
}

impl HolderShelf for TableShelf {
    type Frame = Box<Option<HolderRoom>>;

    fn into_list(self) -> (FreeList, HolderRoom, Box<Option<HolderRoom>>) {
        match self {
            TableShelf::Free(FreeShelf { list, mut room }) => match room.take() {
                Some(spare) => (list, spare, room),
                None => unreachable!(),
            },
            _ => unreachable!(),
        }
    }

    fn of_list(list: FreeList, room: HolderRoom, frame: Box<Option<HolderRoom>>) -> TableShelf {
        let mut frame = frame;
        *frame = Some(room);
        TableShelf::Free(FreeShelf { list, room: frame })
    }

    fn into_memo(self) -> Memo {
        match self {
            TableShelf::Answers(memo) => memo,
            _ => unreachable!(),
        }
    }

    fn of_memo(memo: Memo) -> TableShelf {
        TableShelf::Answers(memo)
    }
}
