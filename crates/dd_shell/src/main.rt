//! `ddsh`: runs a command from standard input to standard output.
#![tactic(auto)]

mod adapters;

use adapters::{Reading, Writing};
use net_jobs::{Open, refuse_memory, run};
use std::process::ExitCode;
use std::{env, io};

/// The words after the program's name.
fn words_of(rt: &HostRuntime) -> io::Result<Vec<String>> {
    let mut words = Vec::new(rt.alloc());
    for word in env::args(rt)?.into_iter().skip(1) {
        words.push(word)?;
    }
    Ok(words)
}

fn main(rt: HostRuntime) -> ExitCode {
    let mut source = Reading::new(rt.stdin());
    let mut sink = Writing::new(rt.stdout());
    let words = match words_of(&rt) {
        Ok(words) => words,
        Err(error) if error.kind() == io::ErrorKind::OutOfMemory => {
            return ExitCode::from(refuse_memory(&mut sink).code());
        }
        // Words that are not all UTF-8 are no command.
        Err(_) => Vec::new(rt.alloc()),
    };
    let status = run(&rt, rt.alloc(), &words, &mut source, &mut sink, &Open);
    ExitCode::from(status.code())
}
