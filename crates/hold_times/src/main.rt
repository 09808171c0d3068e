//! Does to a store in its holder's hands what is to be timed from outside, and tells what came of it: over a `HeldStore`, or by single steps at
//! a table of words.
//!
//! The nine words are numbers: STEPS, SLOTS, PAIRS, COUNTED, HOLDS, SWEEPS, LEVEL, SWAPS and SIFTS. Where STEPS is 0 it works over a
//! `HeldStore`, else by steps. It makes the function x0 xK + x1 x(K+1) + .. of 2K variables, K being PAIRS, in a store of so many slots; its
//! order could not be worse: level I below K has 2^I nodes of it. Where COUNTED is 0 nothing holds it. Then it takes so many holds of the
//! store, and in each of them sweeps the store SWEEPS times, swaps the level and the next SWAPS times, and sifts these two SIFTS times.
#![tactic(auto)]

ghost use Rattle.std.specs.Prelude.{◌≡◌, ◌*◌, ◌≤◌, IfOk, IfSome, false};
ghost use Rattle.group_sift.specs.Turns.{last_end};
ghost use Rattle.node_slots.specs.Stores.{is_held};

mod holds;
mod pairs;
mod work;

use edge_bits::Memory;
use group_sift::{Blocks, Mode};
use holds::{by_steps, over_store};
use node_slots::PlainStore;
use pairs::with_pairs;
use std::alloc::Global;
use std::sync::Wait;
use std::{env, io};
use work::{Done, Tasks};

/// The greatest number of pairs, for which the function has 2,097,150 nodes.
const MOST_PAIRS: u32 = 20;

/// The least number of slots of a store, and the greatest.
const LEAST_SLOTS: u32 = 64;

const MOST_SLOTS: u32 = 8_000_000;

/// What is asked for, and whether by single steps.
#[derive(Clone, Copy, Drop)]
struct Request {
    by_steps: bool,
    slots: u32,
    pairs: u32,
    counted: bool,
    holds: u32,
    tasks: Tasks,
}

/// What the words after the program's name ask for, if they do.
fn asked(rt: &HostRuntime) -> io::Result<Option<Request>>
    ensures { IfOk result (λ asked. IfSome asked (λ request. (request.pairs ≤ 20) × (LEAST_SLOTS ≤ request.slots) × (request.slots ≤ MOST_SLOTS))) }
{
    let mut numbers: Vec<u32> = Vec::new(rt.alloc());
    for word in env::args(rt)?.into_iter().skip(1) {
        if let Ok(number) = word.parse() {
            numbers.push(number)?;
        }
    }
    Ok(match numbers.as_slice() {
        [
            steps,
            slots,
            pairs,
            counted,
            holds,
            sweeps,
            level,
            swaps,
            sifts,
        ] if *pairs <= MOST_PAIRS && *slots >= LEAST_SLOTS && *slots <= MOST_SLOTS => {
            Some(Request {
                by_steps: *steps != 0,
                slots: *slots,
                pairs: *pairs,
                counted: *counted != 0,
                holds: *holds,
                tasks: Tasks {
                    sweeps: *sweeps,
                    level: *level,
                    swaps: *swaps,
                    sifts: *sifts,
                },
            })
        }
        _ => None,
    })
}

/// Blocks of so many levels, of which that of the level and the next alone is sifted, if it stands between two others.
fn two_levels(alloc: Global, level: u32, levels: u32) -> Result<Option<Blocks>, Memory>
    ensures { IfOk result (λ made. IfSome made (λ blocks. last_end 0 blocks ≡ levels)) }
{
    let ends = [level, level.saturating_add(2), levels];
    Blocks::new(alloc, &ends, &[Mode::Fixed, Mode::Default, Mode::Fixed])
}

/// A store with the function of pairs, if there is memory for it.
fn store_of(alloc: Global, request: Request) -> Option<PlainStore>
    requires few { request.pairs ≤ 20 }
    requires least { LEAST_SLOTS ≤ request.slots }
    requires most { request.slots ≤ MOST_SLOTS }
    ensures { IfSome result (λ store. is_held store ≡ false) }
{
    let Ok(store) = PlainStore::new(alloc, 2 * request.pairs, 0, request.slots) else {
        return None;
    };
    with_pairs(store, request.pairs, request.counted)
}

/// Does what is asked for, if there is memory and room for it.
fn done<R: Wait>(rt: &R, alloc: Global, request: Request) -> Option<Done>
    requires few { request.pairs ≤ 20 }
    requires least { LEAST_SLOTS ≤ request.slots }
    requires most { request.slots ≤ MOST_SLOTS }
{
    let end = 2 * request.pairs;
    let Ok(Some(mut blocks)) = two_levels(alloc, request.tasks.level, end) else {
        return None;
    };
    let store = store_of(alloc, request)?;
    if request.by_steps {
        return by_steps(
            rt,
            alloc,
            store,
            &mut blocks,
            end,
            request.holds,
            request.tasks,
        )
        .ok();
    }
    Some(over_store(store, &mut blocks, end, request.holds, request.tasks))
}

fn main(rt: HostRuntime) -> io::Result<()> {
    let Some(request) = asked(&rt)? else {
        return println!(&rt;
            "usage: STEPS SLOTS PAIRS COUNTED HOLDS SWEEPS LEVEL SWAPS SIFTS, PAIRS at most 20, SLOTS 64 to 8,000,000"
        );
    };
    match done(&rt, rt.alloc(), request) {
        Some(
            Done {
                in_use,
                freed,
                swaps,
            },
        ) => println!(&rt; "in use {in_use}, freed {freed}, swaps {swaps}"),
        None => println!(&rt; "no memory or no room, or no two levels between others"),
    }
}
