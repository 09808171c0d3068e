//! The computed table, which is taken for each look and each answer that is kept.

ghost use Rattle.std.specs.Prelude.{◌≡◌, IfSome, true, false};
ghost use Rattle.node_store.specs.Memo.{MemoHolds};
ghost use Rattle.node_store.specs.Views.{IsKey};
ghost use Rattle.step_store.specs.Knowing.{Learns, idle};

use crate::steps::Steps;
use crossbeam_utils::Backoff;
use edge_bits::Edge;
use node_store::Key;

/// How often the computed table is tried before it counts as away.
const TRIES: u32 = 64;

/// Takes the computed table, unless it stays away.
#[tactic(auto, using(crate::proofs::Learning::learns_refl, crate::proofs::Learning::learns_trans))]
fn try_memo<S: Steps>(seat: &mut S) -> bool
    requires own { S.shares seat.old }
    ensures own { S.shares seat.new }
    ensures home { (S.table seat.new ≡ S.table seat.old) × (S.rest seat.new ≡ S.rest seat.old) }
    ensures learns { Learns (S.known seat.old) (S.known seat.new) }
    ensures taken { result ≡ true → (S.known seat.new).hand ≡ record (S.known seat.old).hand { memo = true } }
    ensures missed { result ≡ false → (S.known seat.new).hand ≡ (S.known seat.old).hand }
{
    let backoff = Backoff::new();
    for _ in 0..TRIES {
        if seat.take_memo() {
            return true;
        }
        backoff.spin();
    }
    false
}

/// What was computed under a key, if it is known: None where the table is away.
pub fn get<S: Steps>(seat: &mut S, key: &Key) -> Option<Edge>
    requires own { S.shares seat.old }
    requires idle { (S.known seat.old).hand ≡ idle }
    requires key { IsKey (S.known seat.old).view key.now }
    ensures own { S.shares seat.new }
    ensures home { (S.table seat.new ≡ S.table seat.old) × (S.rest seat.new ≡ S.rest seat.old) }
    ensures idle { (S.known seat.new).hand ≡ idle }
    ensures learns { Learns (S.known seat.old) (S.known seat.new) }
    ensures hit { IfSome result (λ e. MemoHolds (S.known seat.new).view key.now e) }
{
    if !try_memo(seat) {
        return None;
    }
    let answer = seat.recall(key);
    seat.give_memo();
    answer
}

/// Keeps what was computed under a key, unless the table is away.
pub fn put<S: Steps>(seat: &mut S, key: Key, edge: Edge)
    requires own { S.shares seat.old }
    requires idle { (S.known seat.old).hand ≡ idle }
    requires key { IsKey (S.known seat.old).view key }
    requires holds { MemoHolds (S.known seat.old).view key edge }
    ensures own { S.shares seat.new }
    ensures home { (S.table seat.new ≡ S.table seat.old) × (S.rest seat.new ≡ S.rest seat.old) }
    ensures idle { (S.known seat.new).hand ≡ idle }
    ensures learns { Learns (S.known seat.old) (S.known seat.new) }
{
    if try_memo(seat) {
        seat.remember(key, edge);
        seat.give_memo();
    }
}
