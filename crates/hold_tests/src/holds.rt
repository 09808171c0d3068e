//! What is done to a table in one hold, after which its holder has nothing in hand.

ghost use Rattle.std.specs.Prelude.{◌≡◌};
ghost use Rattle.group_sift.specs.Sifts.{IsIdle};
ghost use Rattle.group_sift.specs.Turns.{last_end};
ghost use Rattle.hold_calls.specs.Rests.{IsAtRest};

use dead_sweep::sweep;
use edge_bits::FIRST_ELEMENT;
use group_sift::{Blocks, Sifted, sift, sift_e};
use hold_store::{HolderRoom, Holding, Holds};
use level_swap::{need_of, swap_back_of, swap_of};
use node_store::{Order, Whole};
use std::process::Abort;
use std::sync::Wait;
use step_store::Home;

/// A swap as on the way of a sift, or as on its way back, which asks for less room.
#[derive(Clone, Copy, Drop)]
pub enum Way {
    There,
    Back,
}

/// What a swap between two sweeps is told: the slots in use after either, and the need.
#[derive(Debug, Clone, Copy, PartialEq, Eq, Drop)]
pub struct Told {
    pub before: u32,
    pub need: u32,
    pub after: u32,
}

/// The variable at a level, or the element by its own number.
fn number_at<W: Whole>(rt: &impl Abort, w: &mut W, order: Order, level: u32) -> u32
    requires { IsIdle (W.view w.old) }
    ensures { IsIdle (W.view w.new) }
{
    if level >= w.levels_of(order) {
        panic!(rt; "no such level");
    }
    w.var_of(order, level) % FIRST_ELEMENT
}

/// The first four of an order.
fn four_of<W: Whole>(rt: &impl Abort, w: &mut W, order: Order) -> [u32; 4]
    requires { IsIdle (W.view w.old) }
    ensures { IsIdle (W.view w.new) }
{
    let first = number_at(rt, w, order, 0);
    let second = number_at(rt, w, order, 1);
    let third = number_at(rt, w, order, 2);
    let fourth = number_at(rt, w, order, 3);
    [first, second, third, fourth]
}

/// Swaps the second level of an order and the third, which stand between two sweeps.
fn swap_swept<W: Whole>(rt: &impl Abort, w: &mut W, order: Order, way: Way) -> Told
    requires { IsIdle (W.view w.old) }
    ensures { IsIdle (W.view w.new) }
{
    let before = sweep(w).in_use;
    if w.levels_of(order) < 3 {
        panic!(rt; "no third level");
    }
    let need = need_of(w, order, 1);
    if w.room() < need {
        panic!(rt; "no room for a swap");
    }
    match way {
        Way::There => swap_of(w, order, 1),
        Way::Back => swap_back_of(w, order, 1),
    }
    let after = sweep(w).in_use;
    Told {
        before,
        need,
        after,
    }
}

/// Sifts an order of four.
fn sift_four<W: Whole>(rt: &impl Abort, w: &mut W, order: Order, blocks: &mut Blocks) -> Sifted
    requires idle { IsIdle (W.view w.old) }
    requires end { last_end 0 blocks.old ≡ 4 }
    ensures idle { IsIdle (W.view w.new) }
    ensures blocks { blocks.new ≡ blocks.old }
{
    if w.levels_of(order) != 4 {
        panic!(rt; "not four levels");
    }
    match order {
        Order::Variables => sift(w, blocks),
        Order::Elements => sift_e(w, blocks),
    }
}

/// A swap of the second level and the third, with what it is told, and the first four of the order that it leaves.
pub fn swapped<R: Wait + Abort, S: Holds, E: Home<S::Rest>>(
    rt: &R,
    seat: S,
    room: HolderRoom,
    order: Order,
    way: Way,
) -> (S, HolderRoom, Told, [u32; 4])
    requires own { S.holds seat }
    requires home { (S.table seat ≡ E.number) × (S.rest seat ≡ E.rest) }
    requires rest { IsAtRest (S.known seat) room }
    ensures own { S.holds result.0 }
    ensures home { (S.table result.0 ≡ E.number) × (S.rest result.0 ≡ E.rest) }
    ensures rest { IsAtRest (S.known result.0) result.1 }
{
    let mut held: Holding<'_, R, S, E> = Holding::new(rt, seat, room);
    let told = swap_swept(rt, &mut held, order, way);
    let four = four_of(rt, &mut held, order);
    let (seat, room) = held.into_seat();
    (seat, room, told, four)
}

/// A sift of an order of four, with what it tells, and the order that it leaves.
pub fn sifted<R: Wait + Abort, S: Holds, E: Home<S::Rest>>(
    rt: &R,
    seat: S,
    room: HolderRoom,
    order: Order,
    blocks: &mut Blocks,
) -> (S, HolderRoom, Sifted, [u32; 4])
    requires own { S.holds seat }
    requires home { (S.table seat ≡ E.number) × (S.rest seat ≡ E.rest) }
    requires rest { IsAtRest (S.known seat) room }
    requires end { last_end 0 blocks.old ≡ 4 }
    ensures own { S.holds result.0 }
    ensures home { (S.table result.0 ≡ E.number) × (S.rest result.0 ≡ E.rest) }
    ensures rest { IsAtRest (S.known result.0) result.1 }
    ensures blocks { blocks.new ≡ blocks.old }
{
    let mut held: Holding<'_, R, S, E> = Holding::new(rt, seat, room);
    let sifted = sift_four(rt, &mut held, order, blocks);
    let four = four_of(rt, &mut held, order);
    let (seat, room) = held.into_seat();
    (seat, room, sifted, four)
}
