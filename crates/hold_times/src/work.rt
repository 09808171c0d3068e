//! Sweeps, swaps and sifts over a store in its holder's hands.

ghost use Rattle.std.specs.Prelude.{◌≡◌, ◌<◌, None, false, length};
ghost use Rattle.function_laws.specs.Sizes.{in_order};
ghost use Rattle.function_laws.specs.declared.orders.Order.TheVariants as orders;
ghost use Rattle.group_sift.specs.Sifts.{IsIdle};
ghost use Rattle.group_sift.specs.Turns.{last_end};

use dead_sweep::sweep;
use group_sift::{Blocks, sift};
use level_swap::{need_of, swap_of};
use node_store::{Order, Whole};

/// How often a store is swept, a level and the next are swapped, and the two are sifted.
#[derive(Clone, Copy, Drop)]
pub struct Tasks {
    pub sweeps: u32,
    pub level: u32,
    pub swaps: u32,
    pub sifts: u32,
}

/// How many slots are in use at last, how many the sweeps freed, and how many swaps were made, those of sifts among them.
#[derive(Clone, Copy, Default, Drop)]
pub struct Done {
    pub in_use: u32,
    pub freed: u32,
    pub swaps: u64,
}

impl Done {
    /// What was done before and behind.
    pub fn and(self, behind: Done) -> Done {
        Done {
            in_use: behind.in_use,
            freed: self.freed.saturating_add(behind.freed),
            swaps: self.swaps.saturating_add(behind.swaps),
        }
    }
}

/// Sweeps so many times, and tells how many slots were freed.
fn sweeps<W: Whole>(w: &mut W, times: u32) -> u32
    requires { IsIdle (W.view w.old) }
    ensures { IsIdle (W.view w.new) }
{
    let mut freed = 0u32;
    for _ in 0..times {
        freed = freed.saturating_add(sweep(w).freed);
    }
    freed
}

/// Swaps a level and the next, where there are both and room.
fn swap<W: Whole>(w: &mut W, level: u32) -> bool
    requires { IsIdle (W.view w.old) }
    ensures { IsIdle (W.view w.new) }
{
    let levels = w.levels_of(Order::Variables);
    if level >= levels || levels - level < 2 {
        return false;
    }
    let need = need_of(w, Order::Variables, level);
    if w.room() < need {
        return false;
    }
    swap_of(w, Order::Variables, level);
    true
}

/// Swaps them so many times, and tells how many swaps were made.
fn swaps<W: Whole>(w: &mut W, level: u32, times: u32) -> u64
    requires { IsIdle (W.view w.old) }
    ensures { IsIdle (W.view w.new) }
{
    let mut made = 0u64;
    for _ in 0..times {
        if swap(w, level) {
            made = made.saturating_add(1);
        }
    }
    made
}

/// Sifts so many times in blocks that end at the number of levels, and tells how many swaps were made.
fn sifts<W: Whole>(w: &mut W, blocks: &mut Blocks, end: u32, times: u32) -> u64
    requires idle { IsIdle (W.view w.old) }
    requires end { last_end 0 blocks.old ≡ end }
    ensures idle { IsIdle (W.view w.new) }
    ensures end { last_end 0 blocks.new ≡ end }
{
    let mut made = 0u64;
    for _ in 0..times {
        if w.levels_of(Order::Variables) != end {
            return made;
        }
        made = made.saturating_add(sift(w, blocks).swaps);
    }
    made
}

/// Does the tasks, one kind after another.
pub fn work<W: Whole>(w: &mut W, blocks: &mut Blocks, end: u32, tasks: Tasks) -> Done
    requires idle { IsIdle (W.view w.old) }
    requires end { last_end 0 blocks.old ≡ end }
    ensures idle { IsIdle (W.view w.new) }
    ensures end { last_end 0 blocks.new ≡ end }
{
    let freed = sweeps(w, tasks.sweeps);
    let swapped = swaps(w, tasks.level, tasks.swaps);
    let sifted = sifts(w, blocks, end, tasks.sifts);
    Done {
        in_use: w.in_use(),
        freed,
        swaps: swapped.saturating_add(sifted),
    }
}
