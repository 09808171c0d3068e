//! Plays the job on standard input, with a gate before each command of a section at which its thread goes on, yields or sleeps by the
//! seed that is the first argument.
#![tactic(auto)]

mod pacing;

use net_jobs::{Pieces, Status, SureBytes, run};
use pacing::Pacing;
use std::alloc::{AllocError, Global};
use std::io::{Read, Write};
use std::process::ExitCode;
use std::random::RandomSource;
use std::sync::Wait;
use std::thread::Threads;
use std::time::Clock;
use std::{env, io};

/// The seed that the first argument tells.
fn seed_of(rt: &HostRuntime) -> io::Result<Option<u64>> {
    let mut words = env::args(rt)?.into_iter().skip(1);
    Ok(words.next().and_then(|seed| seed.parse().ok()))
}

/// Plays a job. What it writes, and its status.
fn played<R: Clock + Threads + Wait + Sync + RandomSource>(
    rt: &R,
    alloc: Global,
    job: Vec<u8>,
    seed: u64,
) -> Result<(Pieces, Status), AllocError> {
    let words = vec![in alloc; "play".to_string(alloc)?]?;
    let mut source = SureBytes::new(job);
    let mut sink = Pieces::new(Vec::new(alloc), usize::MAX, Vec::new(alloc));
    let status = run(
        rt,
        alloc,
        &words,
        &mut source,
        &mut sink,
        &Pacing { rt, seed },
    );
    Ok((sink, status))
}

fn main(rt: HostRuntime) -> io::Result<ExitCode> {
    let Some(seed) = seed_of(&rt)? else {
        println!(&rt; "usage: paced_runs SEED < JOB")?;
        return Ok(ExitCode::from(2));
    };
    let mut job = Vec::new(rt.alloc());
    rt.stdin().read_to_end(&mut job)?;
    let (sink, status) = played(&rt, rt.alloc(), job, seed)?;
    rt.stdout().write_all(sink.written())?;
    Ok(ExitCode::from(status.code()))
}
