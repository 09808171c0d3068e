//! The count words are read, under the order hold and with the turn.

ghost use Rattle.std.specs.Prelude.{◌≡◌, ◌≢◌, ◌<◌, ℕ, [], true};
ghost use Rattle.seat_guard.specs.declared.view.Hold.TheVariants.{Holding};
ghost use Rattle.seat_guard.specs.Passes.{IsPassOf, counts_of, known, shares};
ghost use Rattle.seat_guard.specs.Recounts.{IsAt, OnlyCounts};
ghost use Rattle.seat_guard.specs.Tallies.{times};
ghost use Rattle.shared_store.specs.Counted.{AreRead, IsFound, IsFoundAt, IsRead};
ghost use Rattle.shared_store.specs.Lasting.{IsRecounted};
ghost use Rattle.shared_store.specs.Sharing.{Serving, count};

use crate::shared::Shared;
use seat_guard::seat::{Guard, Pass};

/// Reads whether a slot is counted, which was not read before.
fn read_count(guard: &Guard<Shared>, pass: &mut Pass<Shared>, shared: &mut Shared, slot: u32)
    requires at { IsAt guard.now pass.old slot × ((known pass.old).holds ≡ true) }
    requires hold { (shares pass.old).order ≡ Holding }
    requires serves { Serving shared.old (known pass.old) (counts_of pass.old) }
    requires fresh { (times slot (counts_of pass.old).zeros ≡ 0) × (times slot (counts_of pass.old).pins ≡ 0) }
    ensures own { OnlyCounts guard.now pass.old pass.new }
    ensures found { IsFoundAt slot (counts_of pass.old) (counts_of pass.new) }
    ensures read { IsRead slot shared.new (known pass.new) (counts_of pass.new) }
    ensures others { (k : ℕ) → k ≢ slot → count shared.new k ≡ count shared.old k }
    ensures rest { IsRecounted shared.old shared.new }
{
    shared.store.tell_sound();
    let found = guard.count_of(pass, slot);
    if found == 0 {
        shared.count_out(slot);
    } else {
        shared.count_in(slot);
    }
}

/// Reads which slots are counted. Nobody else counts a slot up, while the order hold lasts, that is not.
pub fn read_counts(guard: &Guard<Shared>, pass: &mut Pass<Shared>, shared: &mut Shared)
    requires own { IsPassOf guard.now pass.old × ((known pass.old).live ≡ true) × ((known pass.old).holds ≡ true) }
    requires hold { (shares pass.old).order ≡ Holding }
    requires serves { Serving shared.old (known pass.old) (counts_of pass.old) }
    requires fresh { ((counts_of pass.old).zeros ≡ []) × ((counts_of pass.old).pins ≡ []) }
    ensures own { OnlyCounts guard.now pass.old pass.new }
    ensures found { IsFound (counts_of pass.old) (counts_of pass.new) }
    ensures read { AreRead shared.new (known pass.new) (counts_of pass.new) }
    ensures serves { Serving shared.new (known pass.new) (counts_of pass.new) }
    ensures rest { IsRecounted shared.old shared.new }
{
    for slot in 0..shared.store.used() {
        read_count(guard, pass, shared, slot);
    }
}
