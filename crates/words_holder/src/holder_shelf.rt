//! What a holder takes out of the slots of the table, and puts back.

use computed_cache::Memo;
use free_list::FreeList;
use hold_store::HolderRoom;
use words_rule::shelf::Shelf;

/// A free list, with the room for what its holder notes of the slots, or a computed table.
pub trait HolderShelf: Shelf {
    /// What is left of the content of a slot whose list and room are out: so putting them back takes no memory.
    type Frame: Drop;

    ghost use Rattle.std.specs.Prelude.{◌≡◌, ◌<◌};
    ghost use Rattle.computed_cache.specs.Entries.{places};
    ghost use Rattle.words_holder.specs.Holders.{IsSpareRoom};

    /// The free list, the room that lies with it, and what is left.
    fn into_list(self) -> (FreeList, HolderRoom, Self::Frame)
        requires some { 0 < (Self.free_slots self).room }
        ensures list { result.0 ≡ Self.free_slots self }
        ensures room { IsSpareRoom result.0.room result.1 };

    /// Puts them together.
    fn of_list(list: FreeList, room: HolderRoom, frame: Self::Frame) -> Self
        requires room { IsSpareRoom list.room room }
        ensures list { Self.free_slots result ≡ list };

    /// The computed table.
    fn into_memo(self) -> Memo
        requires some { 0 < places (Self.memo self) }
        ensures memo { result ≡ Self.memo self };

    fn of_memo(memo: Memo) -> Self
        ensures memo { Self.memo result ≡ memo };
}
