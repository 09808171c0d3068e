//! Sweeps, walks and a swap over a store in its holder's hands.

ghost use Rattle.std.specs.Prelude.{◌≡◌, None, false};

use dead_sweep::sweep;
use edge_bits::MOST_SLOTS;
use level_swap::{need_of, swap_of};
use node_store::{Order, Whole};

/// Sweeps so many times, and tells what is in use.
pub fn sweeps<W: Whole>(w: &mut W, times: u32) -> u32
    requires sweeping { (W.view w.old).sweeping ≡ false }
    requires half { (W.view w.old).half ≡ None }
    ensures sweeping { (W.view w.new).sweeping ≡ false }
    ensures half { (W.view w.new).half ≡ None }
{
    for _ in 0..times {
        let _ = sweep(w);
    }
    w.in_use()
}

/// The next node of a level, none where there is no such level.
fn next<W: Whole>(w: &mut W, level: u32, from: u32) -> Option<u32>
    ensures sweeping { (W.view w.new).sweeping ≡ (W.view w.old).sweeping }
    ensures half { (W.view w.new).half ≡ (W.view w.old).half }
{
    if level >= w.levels_of(Order::Variables) {
        return None;
    }
    w.next_of(Order::Variables, level, from)
}

/// How many nodes a walk over a level meets.
fn walk<W: Whole>(w: &mut W, level: u32) -> u32
    requires sweeping { (W.view w.old).sweeping ≡ false }
    requires half { (W.view w.old).half ≡ None }
    ensures sweeping { (W.view w.new).sweeping ≡ false }
    ensures half { (W.view w.new).half ≡ None }
{
    let mut from = 0;
    for met in 0..MOST_SLOTS {
        match next(w, level, from) {
            Some(slot) => from = slot.wrapping_add(1),
            None => return met,
        }
    }
    MOST_SLOTS
}

/// How many nodes the last of so many walks meets.
pub fn walks<W: Whole>(w: &mut W, level: u32, times: u32) -> u32
    requires sweeping { (W.view w.old).sweeping ≡ false }
    requires half { (W.view w.old).half ≡ None }
    ensures sweeping { (W.view w.new).sweeping ≡ false }
    ensures half { (W.view w.new).half ≡ None }
{
    let mut met = 0;
    for _ in 0..times {
        met = walk(w, level);
    }
    met
}

/// Swaps a level and the next where there are both and room, sweeps, and tells what is in use.
pub fn swapped<W: Whole>(w: &mut W, level: u32) -> Option<u32>
    requires sweeping { (W.view w.old).sweeping ≡ false }
    requires half { (W.view w.old).half ≡ None }
    ensures sweeping { (W.view w.new).sweeping ≡ false }
    ensures half { (W.view w.new).half ≡ None }
{
    let levels = w.levels_of(Order::Variables);
    if level >= levels || levels - level < 2 {
        return None;
    }
    let need = need_of(w, Order::Variables, level);
    if w.room() < need {
        return None;
    }
    swap_of(w, Order::Variables, level);
    Some(sweep(w).in_use)
}
