//! Does to a store what is to be timed from outside, and tells how many nodes it met.
//!
//! The five words are numbers: K, SWEEPS, LEVEL, WALKS and SWAPS. It makes the function x0 xK + x1 x(K+1) + .. of 2K variables, whose
//! order could not be worse: level I below K has 2^I nodes of it. Then it sweeps the store SWEEPS times, walks over the nodes of
//! the level WALKS times, and, where SWAPS is above 0, swaps the level and the next and walks again.
#![tactic(auto)]

ghost use Rattle.std.specs.Prelude.{◌≤◌, IfOk, IfSome};

mod pairs;
mod walks;

use node_slots::PlainStore;
use pairs::held_pairs;
use std::{env, io};
use walks::{swapped, sweeps, walks};

/// The greatest number of pairs, for which the function has 2,097,150 nodes.
const MOST_PAIRS: u32 = 20;

/// What is asked for.
#[derive(Clone, Copy, Drop)]
struct Request {
    pairs: u32,
    sweeps: u32,
    level: u32,
    walks: u32,
    swaps: u32,
}

/// What the words after the program's name ask for, if they do.
fn asked(rt: &HostRuntime) -> io::Result<Option<Request>>
    ensures { IfOk result (λ asked. IfSome asked (λ request. request.pairs ≤ 20)) }
{
    let mut numbers: Vec<u32> = Vec::new(rt.alloc());
    for word in env::args(rt)?.into_iter().skip(1) {
        if let Ok(number) = word.parse() {
            numbers.push(number)?;
        }
    }
    Ok(match numbers.as_slice() {
        [pairs, sweeps, level, walks, swaps] if *pairs <= MOST_PAIRS => Some(Request {
            pairs: *pairs,
            sweeps: *sweeps,
            level: *level,
            walks: *walks,
            swaps: *swaps,
        }),
        _ => None,
    })
}

fn main(rt: HostRuntime) -> io::Result<()> {
    let Some(asked) = asked(&rt)? else {
        return println!(&rt; "usage: K SWEEPS LEVEL WALKS SWAPS, K at most 20");
    };
    let Ok(store) = PlainStore::new(rt.alloc(), 2 * asked.pairs, 0, 8_000_000) else {
        return println!(&rt; "no memory");
    };
    let Some(mut held) = held_pairs(store, asked.pairs) else {
        return println!(&rt; "no room for the pairs");
    };
    let in_use = sweeps(&mut held, asked.sweeps);
    let met = walks(&mut held, asked.level, asked.walks);
    println!(&rt; "in use {in_use}, met {met}")?;
    if asked.swaps == 0 {
        return Ok(());
    }
    match swapped(&mut held, asked.level) {
        Some(in_use) => {
            let met = walks(&mut held, asked.level, asked.walks);
            println!(&rt; "swapped: in use {in_use}, met {met}")
        }
        None => println!(&rt; "no swap: no such levels, or no room"),
    }
}
