//! A holder at a table of words, beside whom another gives up what holds a slot.

ghost use Rattle.std.specs.Prelude.{◌≡◌, ℕ, ◌<◌};
ghost use Rattle.node_store.specs.Changes.{put_at};
ghost use Rattle.held_table.specs.Tables.{IsTable, known_of};

use held_table::HeldTable;
use hold_store::Holds;
use node_store::Order;

/// A holder beside whom another gives up a row or a cell that holds a slot, just before the slot's count is loaded once more after so many loads of it. A count is told by a load of it alone: what is given up at any other step is as if it were at the next of these loads.
#[derive(Drop)]
pub struct Lowering {
    table: HeldTable,
    slot: u32,
    at: u32,
    loads: u32,
}

impl Lowering {
    /// A holder with a table, beside whom what holds the slot is given up at this load of its count.
    pub fn new(table: HeldTable, slot: u32, at: u32) -> Lowering
        ensures { result.table ≡ table }
    {
        Lowering {
            table,
            slot,
            at,
            loads: 0,
        }
    }

    /// The words of its table.
    pub fn words(&self) -> &[u64] {
        self.table.words()
    }

    /// How often the slot's count was loaded.
    pub fn loads(&self) -> u32 {
        self.loads
    }

    /// The count of a slot is to be loaded: what was given up of it is met.
    fn meet(&mut self, slot: u32)
        requires own { IsTable self.old.table }
        requires within { slot < (known_of self.old.table).content.limit }
        ensures own { IsTable self.new.table }
        ensures met { (count : ℕ) × (known_of self.new.table ≡ record (known_of self.old.table) { content = record (known_of self.old.table).content { count = put_at (known_of self.old.table).content.count slot count } }) }
        ensures stays { (known_of self.old.table).content.count slot ≡ 0 → (known_of self.new.table).content.count slot ≡ 0 }
    {
        if slot != self.slot {
            return;
        }
        let loads = self.loads;
        self.loads = loads.saturating_add(1);
        if loads == self.at {
            self.table.lower(slot);
        }
    }
}

impl Holds for Lowering {
    ghost use Rattle.std.specs.Prelude.{false};
    ghost use Rattle.held_table.specs.Tables.{IsTable, known_of};
    ghost use Rattle.held_table.specs.TableLaws.{table_stands};

    type Rest = bool;

    ghost known = { λ s. known_of s.table };

    ghost holds = { λ s. IsTable s.table };

    ghost table = { λ _. 0 };

    ghost rest = { λ _. false };

    fn vars(&self) -> u32 {
        self.table.vars()
    }

    fn elements(&self) -> u32 {
        self.table.elements()
    }

    fn limit(&self) -> u32 {
        self.table.limit()
    }

    fn heads(&self) -> u32 {
        self.table.heads()
    }

    fn peek_turn(&self, level: u32) -> bool {
        self.table.peek_turn(level)
    }

    fn peek_free(&self) -> bool {
        self.table.peek_free()
    }

    fn peek_head(&self, head: u32) -> u32 {
        self.table.peek_head(head)
    }

    fn take_turn(&mut self, level: u32) -> bool {
        self.table.take_turn(level)
    }

    fn give_turn(&mut self, level: u32) {
        self.table.give_turn(level);
    }

    fn take_free(&mut self) -> bool {
        self.table.take_free()
    }

    fn give_free(&mut self) {
        self.table.give_free();
    }

    fn first_free(&self) -> Option<u32> {
        self.table.first_free()
    }

    fn taken(&self) -> u32 {
        self.table.taken()
    }

    fn load_node(&mut self, slot: u32) -> u64 {
        self.table.load_node(slot)
    }

    fn load_head(&mut self, head: u32, level: u32) -> u32 {
        self.table.load_head(head, level)
    }

    fn load_next(&mut self, slot: u32) -> u32 {
        self.table.load_next(slot)
    }

    fn unlink_first(&mut self, head: u32, slot: u32, link: u32) {
        self.table.unlink_first(head, slot, link);
    }

    fn unlink_later(&mut self, before: u32, slot: u32, link: u32) {
        self.table.unlink_later(before, slot, link);
    }

    fn store_next(&mut self, slot: u32, link: u32) {
        self.table.store_next(slot, link);
    }

    fn push_head(&mut self, head: u32, slot: u32, link: u32) -> u32 {
        self.table.push_head(head, slot, link)
    }

    fn store_node(&mut self, slot: u32, bits: u64) {
        self.table.store_node(slot, bits);
    }

    fn rewrite_node(&mut self, slot: u32, bits: u64) {
        self.table.rewrite_node(slot, bits);
    }

    fn free_node(&mut self, slot: u32) {
        self.table.free_node(slot);
    }

    fn load_count(&mut self, slot: u32) -> u64 {
        self.meet(slot);
        self.table.load_count(slot)
    }

    fn store_generation(&mut self, slot: u32, word: u64) {
        self.table.store_generation(slot, word);
    }

    fn pin_count(&mut self, slot: u32) {
        self.table.pin_count(slot);
    }

    fn unpin_count(&mut self, slot: u32) {
        self.table.unpin_count(slot);
    }

    fn load_order(&mut self, order: Order, level: u32) -> u32 {
        self.table.load_order(order, level)
    }

    fn store_upper(&mut self, order: Order, level: u32, lower: u32) {
        self.table.store_upper(order, level, lower);
    }

    fn store_lower(&mut self, order: Order, level: u32, upper: u32) {
        self.table.store_lower(order, level, upper);
    }

    fn take_memo(&mut self) -> bool {
        self.table.take_memo()
    }

    fn clear_memo(&mut self) {
        self.table.clear_memo();
    }

    fn give_memo(&mut self) {
        self.table.give_memo();
    }

    ghost stands = { λ s is. table_stands s.table is };
}
