//! What others do to a table beside its holder, and what they read.

ghost use Rattle.std.specs.Prelude.{◌≡◌, ◌-◌, ◌<◌};
ghost use Rattle.node_store.specs.Changes.{put_at};
ghost use Rattle.held_table.specs.Tables.{IsTable, known_of};

use crate::table::HeldTable;
use handle_count::lower;

impl HeldTable {
    /// The words of all slots, out of which the function of an edge is read.
    pub fn words(&self) -> &[u64]
        ensures { result.now ≡ self.now.words.items }
    {
        &self.words
    }

    /// One row or cell less holds a slot, where one held it. The holder meets it where he loads the slot's count.
    pub fn lower(&mut self, slot: u32)
        requires own { IsTable self.old }
        requires within { slot < (known_of self.old).content.limit }
        ensures own { IsTable self.new }
        ensures lowered { known_of self.new ≡ record (known_of self.old) { content = record (known_of self.old).content { count = put_at (known_of self.old).content.count slot ((known_of self.old).content.count slot - 1) } } }
    {
        let word = self.counts[slot as usize];
        if word % (1 << 32) == 0 {
            return;
        }
        self.counts[slot as usize] = lower(word);
    }
}
