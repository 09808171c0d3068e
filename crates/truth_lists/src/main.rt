//! The operations of a session, for all functions of a few variables and all families of a few elements, beside the plain
//! calls on lists of values and beside arithmetic on machine words. The session is played from the text of a job.
#![tactic(auto)]

mod cases;
mod digits;
mod families;
mod jobs;
mod lists;
mod numbers;
mod oracles;
mod registers;
mod truth;
mod words;

use std::io;

fn main(rt: HostRuntime) -> io::Result<()> {
    truth::print(&rt, rt.alloc())?;
    numbers::print(&rt, rt.alloc())?;
    families::print(&rt, rt.alloc())
}
