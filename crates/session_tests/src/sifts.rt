//! Sifts of a session: the sizes and the number of swaps that are told, and that rows and values stay.

ghost use Rattle.std.specs.Prelude.{◌≡◌};
ghost use Rattle.group_sift.specs.Turns.{last_end};

use crate::calls::{sift, sift_elements, sweep};
use crate::swaps::{is_pairs, open, pairs};
use dd_session::{Blocks, Mode, Sifted};
use std::alloc::Global;
use std::process::Abort;
use std::sync::Wait;
use std::test::Fail;

/// What a sift in blocks tells of x0 x2 + x1 x3 in a store of so many slots. The row stays, and no slot more is in use than is told.
fn sifted_in<R: Abort + Wait>(rt: &R, alloc: Global, limit: u32, blocks: &mut Blocks) -> Sifted
    requires { last_end 0 blocks.old ≡ 4 }
{
    let Ok((manager, mut session)) = open(alloc, 4, 0, limit) else {
        panic!(rt; "not opened");
    };
    let f = pairs(rt, &manager, &mut session);
    let sifted = sift(rt, &manager, &mut session, blocks, 4);
    assert!(rt; is_pairs(rt, &manager, &mut session, f));
    assert!(rt; sweep(rt, &manager, &mut session) == sifted.after && session.fulls() == 0);
    sifted
}

/// Under the order 0 2 1 3 the function has one node less.
fn brought_together() -> Sifted {
    Sifted {
        before: 13,
        after: 12,
        swaps: 23,
    }
}

/// Each variable goes to the other place of its block, or is refused it, and comes back.
fn left_apart() -> Sifted {
    Sifted {
        before: 13,
        after: 13,
        swaps: 8,
    }
}

#[test]
fn pairs_are_brought_together(rt: HostRuntime) -> Result<(), Fail> {
    let mut blocks = Blocks::one(rt.alloc(), 4)?;
    assert!(rt; sifted_in(&rt, rt.alloc(), 1_000, &mut blocks) == brought_together());
    Ok(())
}

#[test]
fn pairs_in_two_blocks_stay_apart(rt: HostRuntime) -> Result<(), Fail> {
    let two = Blocks::new(rt.alloc(), &[2, 4], &[Mode::Default, Mode::Default])?;
    let Some(mut blocks) = two else {
        return Err(Fail::new("blocks that end at 2 and at 4 are refused"));
    };
    assert!(rt; sifted_in(&rt, rt.alloc(), 1_000, &mut blocks) == left_apart());
    Ok(())
}

/// A sift goes no further where the next swap may need more slots than there are.
#[test]
fn a_sift_keeps_to_its_slots(rt: HostRuntime) -> Result<(), Fail> {
    let mut blocks = Blocks::one(rt.alloc(), 4)?;
    assert!(rt; sifted_in(&rt, rt.alloc(), 20, &mut blocks) == left_apart());
    let mut blocks = Blocks::one(rt.alloc(), 4)?;
    assert!(rt; sifted_in(&rt, rt.alloc(), 21, &mut blocks) == brought_together());
    Ok(())
}

/// Where there is no family, each of four elements goes to all other places and comes back: six swaps each.
#[test]
fn elements_without_families(rt: HostRuntime) -> Result<(), Fail> {
    let Ok((manager, mut session)) = open(rt.alloc(), 0, 4, 5) else {
        panic!(rt; "not opened");
    };
    let mut blocks = Blocks::one(rt.alloc(), 4)?;
    let sifted = sift_elements(&rt, &manager, &mut session, &mut blocks, 4);
    assert!(rt;
        sifted
            == Sifted {
                before: 5,
                after: 5,
                swaps: 24
            }
    );
    Ok(())
}
