//! A sift of an order.

ghost use Rattle.std.specs.Prelude.{◌≡◌, ◌≤◌, length, vec_capacity};
ghost use Rattle.function_laws.specs.Sizes.{in_order};
ghost use Rattle.group_sift.specs.Sifts.{IsIdle, IsSifted};
ghost use Rattle.group_sift.specs.Turns.{blocks_of, Rise, last_end};

use crate::lists::list_widest;
use crate::pins::{pin_all, unpin_all};
use crate::turns::{BlockEnd, sift_each};
use dead_sweep::sweep;
use node_store::{Order, Whole};
use std::cmp::Reverse;

/// How many slots are in use before and after a sift, each time after a sweep, and how many swaps of neighbours it made.
#[derive(Debug, Clone, Copy, PartialEq, Eq)]
pub struct Sifted {
    pub before: u32,
    pub after: u32,
    pub swaps: u64,
}

// Sifts an order in blocks, over room for the list of what is sifted.
pub(crate) fn sift_in<W: Whole>(
    w: &mut W,
    order: Order,
    blocks: &[BlockEnd],
    list: &mut Vec<(Reverse<u32>, u32)>,
) -> Sifted
    requires idle { IsIdle (W.view w.old) }
    requires rise { Rise 0 (blocks_of blocks.now) }
    requires end { last_end 0 (blocks_of blocks.now) ≡ length (in_order (W.view w.old).orders order) }
    requires capacity { last_end 0 (blocks_of blocks.now) ≤ vec_capacity list.old }
    ensures sifted { IsSifted W.others order (blocks_of blocks.now) (W.view w.old) (W.view w.new) result }
    ensures capacity { vec_capacity list.old ≤ vec_capacity list.new }
{
    pin_all(w);
    let before = sweep(w).in_use;
    list_widest(w, order, blocks, list);
    let swaps = sift_each(w, order, blocks, list);
    let after = w.in_use();
    unpin_all(w);
    Sifted {
        before,
        after,
        swaps,
    }
}
