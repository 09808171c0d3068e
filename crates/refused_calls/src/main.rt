//! What a refused call leaves: for each kind of call of a session, rows of known tables and a posted function, the call, and where it is
//! answered want of memory the rows, the posted function and the same call again.
//!
//! It prints a line for each kind of call: whether all was as due, and whether the call was refused. Where the allocator refuses
//! nothing, each is served; checks/refused_calls.py has it refuse each allocation in turn.
#![tactic(auto)]

mod answers;
mod before;
mod calls;
mod known;
mod listings;
mod opened;
mod operations;
mod setting;
mod tables;
mod takes;
mod trials;

use answers::Stop;
use std::io;
use trials::{CALLS, tried};

fn main(rt: HostRuntime) -> io::Result<()> {
    for call in CALLS {
        match tried(&rt, rt.alloc(), call) {
            Ok(outcome) => println!(&rt; "{call} ok {outcome}")?,
            Err(Stop::Memory) => return println!(&rt; "no memory"),
            Err(Stop::Wrong(wrong)) => println!(&rt; "{call} {wrong}")?,
        }
    }
    Ok(())
}
