//! Asks a store for what is to be timed from outside, and tells what came of it: of a `PlainStore`, and of tables of words by the single steps
//! of their seats, one with one user and one that sessions share.
//!
//! The eight words are numbers: STEPS, VARS, PAIRS, LEAVES, LEVELS, NODES, HITS and ROUNDS. Where STEPS is 0 it works over a `PlainStore`,
//! where it is 1 at a `PlainTable`, else at a table that sessions share. It makes the function x0 xK + x1 x(K+1) + .. of the first 2 PAIRS of
//! VARS variables, and asks ROUNDS times for the leaves of the first LEAVES numbers, for NODES nodes at LEVELS of the variables, and HITS times
//! for one of the conjunctions x0 xK, x1 x(K+1), ..
#![tactic(auto)]

ghost use Rattle.std.specs.Prelude.{◌*◌, ◌≤◌, IfOk, IfSome};

mod words;
mod work;

use node_slots::PlainStore;
use std::alloc::Global;
use std::sync::Wait;
use std::{env, io};
use step_store::{Growing, PlainTable};
use words::at_words;
use work::{Done, Here, Tasks, work};

/// The greatest number of pairs, for which the function has 131,070 nodes.
const MOST_PAIRS: u32 = 16;

/// As many slots as a store has.
const SLOTS: u32 = 262_144;

/// As many variables as a store may have.
const MOST_VARS: u32 = 1024;

/// What is asked for, and whether of the steps of a seat.
#[derive(Clone, Copy, Drop)]
struct Request {
    steps: u32,
    vars: u32,
    tasks: Tasks,
}

/// What the words after the program's name ask for, if they do.
fn asked(rt: &HostRuntime) -> io::Result<Option<Request>>
    ensures { IfOk result (λ asked. IfSome asked (λ request. (request.vars ≤ 1024) × (request.tasks.pairs ≤ 16) × (2 * request.tasks.pairs ≤ request.vars))) }
{
    let mut numbers: Vec<u32> = Vec::new(rt.alloc());
    for word in env::args(rt)?.into_iter().skip(1) {
        if let Ok(number) = word.parse() {
            numbers.push(number)?;
        }
    }
    Ok(match numbers.as_slice() {
        [steps, vars, pairs, leaves, levels, nodes, hits, rounds]
            if *vars <= MOST_VARS && *pairs <= MOST_PAIRS && 2 * *pairs <= *vars => {
            Some(Request {
                steps: *steps,
                vars: *vars,
                tasks: Tasks {
                    pairs: *pairs,
                    leaves: *leaves,
                    levels: *levels,
                    nodes: *nodes,
                    hits: *hits,
                    rounds: *rounds,
                },
            })
        }
        _ => None,
    })
}

/// What is done over a `PlainStore`, if there is memory for one.
fn over_store(alloc: Global, request: Request) -> Option<Done>
    requires { (request.vars ≤ 1024) × (request.tasks.pairs ≤ 16) × (2 * request.tasks.pairs ≤ request.vars) }
{
    let Ok(mut store) = PlainStore::new(alloc, request.vars, 0, SLOTS) else {
        return None;
    };
    Some(work(&mut store, request.tasks))
}

/// What is done by the steps of a seat, if there is memory for its table.
fn by_steps<R: Wait>(rt: &R, alloc: Global, request: Request) -> Option<Done>
    requires { (request.vars ≤ 1024) × (request.tasks.pairs ≤ 16) × (2 * request.tasks.pairs ≤ request.vars) }
{
    let table = PlainTable::new(alloc, request.vars, 0, SLOTS).ok()?;
    let mut store: Growing<'_, R, PlainTable, Here> = Growing::new(rt, table);
    let done = work(&mut store, request.tasks);
    let _table = store.into_seat();
    Some(done)
}

fn main(rt: HostRuntime) -> io::Result<()> {
    let Some(request) = asked(&rt)? else {
        return println!(&rt;
            "usage: STEPS VARS PAIRS LEAVES LEVELS NODES HITS ROUNDS, PAIRS at most 16, VARS at most 1024"
        );
    };
    let done = match request.steps {
        0 => over_store(rt.alloc(), request),
        1 => by_steps(&rt, rt.alloc(), request),
        _ => at_words(&rt, rt.alloc(), request.vars, SLOTS, request.tasks),
    };
    match done {
        Some(
            Done {
                pairs,
                leaves,
                nodes,
                hits,
            },
        ) => println!(&rt; "pairs {pairs}, leaves {leaves}, nodes {nodes}, hits {hits}"),
        None => println!(&rt; "no memory"),
    }
}
