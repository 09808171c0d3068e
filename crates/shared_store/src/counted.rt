//! Which slots are counted, as the store has it for a sweep.

ghost use Rattle.std.specs.Prelude.{◌≡◌, ◌≢◌, ◌<◌, ℕ, None};
ghost use Rattle.node_slots.specs.Stores.{slots};
ghost use Rattle.shared_store.specs.Lasting.{IsRecounted};
ghost use Rattle.shared_store.specs.Sharing.{count};

use crate::shared::Shared;

impl Shared {
    /// The slot, which has a word, is counted.
    pub(crate) fn count_in(&mut self, slot: u32)
        requires { slots self.old.store slot ≡ None → ⊥ }
        ensures here { 0 < count self.new slot }
        ensures others { (k : ℕ) → k ≢ slot → count self.new k ≡ count self.old k }
        ensures rest { IsRecounted self.old self.new }
    {
        self.store.tell_sound();
        if self.store.count_of(slot) == 0 {
            self.store.raise(slot);
        }
    }

    /// The slot is not counted.
    pub(crate) fn count_out(&mut self, slot: u32)
        ensures here { count self.new slot ≡ 0 }
        ensures others { (k : ℕ) → k ≢ slot → count self.new k ≡ count self.old k }
        ensures rest { IsRecounted self.old self.new }
    {
        for _ in 0..self.store.count_of(slot) {
            self.store.tell_sound();
            self.store.lower(slot);
        }
    }

    /// No slot is counted: nothing is held any more.
    pub fn let_all_go(&mut self)
        ensures none { (k : ℕ) → count self.new k ≡ 0 }
        ensures rest { IsRecounted self.old self.new }
    {
        for slot in 0..self.store.used() {
            self.count_out(slot);
        }
        self.store.tell_sound();
    }
}
