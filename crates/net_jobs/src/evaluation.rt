//! The evaluation of a row.

ghost use Rattle.std.specs.Prelude.{◌≡◌, ◌≤◌, length};
ghost use Rattle.edge_bits.specs.declared.edges.Kind.{Kind as KindOf};
ghost use Rattle.function_laws.specs.declared.history.Call.TheVariants as calls;
ghost use Rattle.function_laws.specs.declared.history.Reply.TheVariants as replies;
ghost use Rattle.dd_session.specs.Sessions.{Called, HasRoom, IsLiveAs};
ghost use Rattle.dd_session.specs.Walking.{bits_of};

use crossbeam_utils::Backoff;
use dd_session::{Manager, Placed, Session};
use function_laws::Name;
use std::sync::Wait;

/// The value of a row, where bit i is the value of variable or element i. Where the session is told to try again it does so, and
/// leaves the processor to others between two tries.
pub fn evaluate<R: Wait>(
    rt: &R,
    manager: &Manager,
    session: &mut Session,
    f: Name,
    bits: &[bool],
) -> Placed<i64>
    requires own { session.old.manager ≡ manager.now }
    requires room { HasRoom session.old }
    requires live { (k : KindOf) × IsLiveAs k session.old f × (bits_of k session.old.manager ≤ length bits.now) }
    ensures told { Called session.old session.new (calls.Eval f bits.now) (replies.Value result.value) result.place }
    ensures spare { session.new.spare ≡ session.old.spare }
{
    let backoff = Backoff::new();
    for _ in rt.forever() {
        match session.eval(rt, manager, f, bits) {
            Ok(placed) => return placed,
            Err(_) => backoff.snooze(),
        }
    }
    unreachable!()
}
