//! The sift of an order.

ghost use Rattle.std.specs.Prelude.{◌≡◌, ℕ, List, false, length};
ghost use Rattle.function_laws.specs.Sizes.{in_order};
ghost use Rattle.group_sift.specs.Sifts.{IsIdle, IsSifted};
ghost use Rattle.group_sift.specs.Turns.{last_end};
ghost use Rattle.hold_store.specs.Held.{ZeroStays};
ghost use Rattle.hold_store.specs.Noted.{content_of};
ghost use Rattle.hold_calls.specs.Rests.{IsAtRest};

use group_sift::{Blocks, Sifted, sift, sift_e};
use hold_store::{HolderRoom, Holding, Holds};
use node_store::{Order, Whole};
use std::sync::Wait;
use step_store::Home;

/// The sift of one of both orders.
fn sift_order<W: Whole>(w: &mut W, order: Order, blocks: &mut Blocks) -> Sifted
    requires idle { IsIdle (W.view w.old) }
    requires end { last_end 0 blocks.old ≡ length (in_order (W.view w.old).orders order) }
    ensures sifted { IsSifted W.others order blocks.old (W.view w.old) (W.view w.new) result }
    ensures blocks { blocks.new ≡ blocks.old }
{
    match order {
        Order::Variables => sift(w, blocks),
        Order::Elements => sift_e(w, blocks),
    }
}

/// Sifts an order in blocks (Rudell 1993), for the functions of the slots whose count was found above 0 and the permanent ones: `sift` of
/// group_sift says how. The blocks end at the number of levels of the order.
pub fn sifted<R: Wait, S: Holds, E: Home<S::Rest>>(
    rt: &R,
    seat: S,
    room: HolderRoom,
    order: Order,
    blocks: &mut Blocks,
) -> (S, HolderRoom, Sifted)
    requires own { S.holds seat }
    requires home { (S.table seat ≡ E.number) × (S.rest seat ≡ E.rest) }
    requires rest { IsAtRest (S.known seat) room }
    requires end { last_end 0 blocks.old ≡ length (in_order (S.known seat).content.orders order) }
    ensures own { S.holds result.0 }
    ensures home { (S.table result.0 ≡ E.number) × (S.rest result.0 ≡ E.rest) }
    ensures rest { IsAtRest (S.known result.0) result.1 }
    ensures sifted { (marks left : List ℕ) × IsSifted ZeroStays order blocks.old (content_of (S.known seat) marks false) (content_of (S.known result.0) left false) result.2 }
    ensures blocks { blocks.new ≡ blocks.old }
{
    let mut held: Holding<'_, R, S, E> = Holding::new(rt, seat, room);
    let sifted = sift_order(&mut held, order, blocks);
    let (seat, room) = held.into_seat();
    (seat, room, sifted)
}
