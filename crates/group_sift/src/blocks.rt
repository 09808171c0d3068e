//! Blocks of neighbouring levels, and the sift of an order in them.

ghost use Rattle.std.specs.Prelude.{◌≡◌, length, IfOk, IfSome, IfNone};
ghost use Rattle.function_laws.specs.declared.orders.Order.TheVariants as orders;
ghost use Rattle.function_laws.specs.Sizes.{in_order};
ghost use Rattle.group_sift.specs.Sifts.{IsIdle, IsSifted};
ghost use Rattle.group_sift.specs.Turns.{Rise, last_end, one_block, paired};

use crate::sifting::{Sifted, sift_in};
use crate::turns::BlockEnd;
use edge_bits::Memory;
use function_laws::Mode;
use node_store::{Order, Whole};
use std::alloc::Global;
use std::cmp::Reverse;
use std::marker::Model;

/// Blocks of neighbouring levels, each from where the one before ends up to its own end, with its mode, and room for the list of what is
/// sifted in them.
#[derive(Drop)]
pub struct Blocks {
    blocks: Vec<BlockEnd>,
    list: Vec<(Reverse<u32>, u32)>,
}

impl Model for Blocks {
    ghost use Rattle.std.specs.Prelude.{List, ◌≤◌, vec_capacity};
    ghost use Rattle.function_laws.specs.SiftedOrders.{Block};
    ghost use Rattle.group_sift.specs.Turns.{blocks_of, Rise, last_end};

    ghost Value = { List Block };

    ghost view = { λ b. blocks_of b.blocks.items };

    ghost invariant = { λ b. Rise 0 (blocks_of b.blocks.items) × (last_end 0 (blocks_of b.blocks.items) ≤ vec_capacity b.list) };
}

impl Blocks {
    /// One default block of n levels, none for 0, and room for a list of n.
    pub fn one(alloc: Global, n: u32) -> Result<Blocks, Memory>
        ensures { IfOk result (λ b. b ≡ one_block n) }
    {
        let mut blocks = Vec::new(alloc);
        let list = Vec::with_capacity(alloc, n as usize)?;
        if n == 0 {
            return Ok(Blocks { blocks, list });
        }
        let block = BlockEnd {
            end: n,
            mode: Mode::Default,
        };
        if blocks.push(block).is_err() {
            return Err(Memory);
        }
        Ok(Blocks { blocks, list })
    }

    /// Blocks that end there, with these modes, and room for a list of all their levels. None exactly where the ends don't rise, each
    /// above the one before and the first above 0, or the lists differ in length; empty lists are taken.
    pub fn new(alloc: Global, ends: &[u32], modes: &[Mode]) -> Result<Option<Blocks>, Memory>
        ensures some { IfOk result (λ r. IfSome r (λ b. b ≡ paired ends.now modes.now)) }
        ensures as_many { IfOk result (λ r. IfSome r (λ b. length modes.now ≡ length ends.now)) }
        ensures none { IfOk result (λ r. IfNone r (length modes.now ≡ length ends.now → Rise 0 (paired ends.now modes.now) → ⊥)) }
    {
        if ends.len() != modes.len() {
            return Ok(None);
        }
        let mut blocks = Vec::with_capacity(alloc, ends.len())?;
        let mut last = 0;
        for i in 0..ends.len() {
            let end = ends[i];
            if end <= last {
                return Ok(None);
            }
            let block = BlockEnd {
                end,
                mode: modes[i],
            };
            if blocks.push(block).is_err() {
                return Err(Memory);
            }
            last = end;
        }
        let list = Vec::with_capacity(alloc, last as usize)?;
        Ok(Some(Blocks { blocks, list }))
    }
}

/// Sifts the variables of the default blocks, each within its block (Rudell 1993; `CUDD_REORDER_SIFT` of CUDD 3.0 with a growth of 1.2,
/// but for the bounds that end a direction early there). They come by falling width, equal ones by rising number; each goes to the nearer end
/// of its block first, up where both are as near, then to the other, and to the first place of the smallest size, if that is smaller
/// than the one at its own. What is counted keeps its function and its generation, and what is no longer reached is freed. No sweep and no
/// swap is half made, nothing is pinned, and the blocks end at the number of levels. It takes no memory and refuses nothing.
pub fn sift<W: Whole>(w: &mut W, blocks: &mut Blocks) -> Sifted
    requires idle { IsIdle (W.view w.old) }
    requires end { last_end 0 blocks.old ≡ length (in_order (W.view w.old).orders orders.Variables) }
    ensures sifted { IsSifted W.others orders.Variables blocks.old (W.view w.old) (W.view w.new) result }
    ensures blocks { blocks.new ≡ blocks.old }
{
    sift_in(w, Order::Variables, &blocks.blocks, &mut blocks.list)
}

/// The same of the elements.
pub fn sift_e<W: Whole>(w: &mut W, blocks: &mut Blocks) -> Sifted
    requires idle { IsIdle (W.view w.old) }
    requires end { last_end 0 blocks.old ≡ length (in_order (W.view w.old).orders orders.Elements) }
    ensures sifted { IsSifted W.others orders.Elements blocks.old (W.view w.old) (W.view w.new) result }
    ensures blocks { blocks.new ≡ blocks.old }
{
    sift_in(w, Order::Elements, &blocks.blocks, &mut blocks.list)
}
