//! Makes calls that wait for nobody, to be timed from outside, and tells how many they were.
//!
//! The two words are numbers: SESSIONS, which is 1, 2 or 4, and ROUNDS. Each session has a thread of its own. It makes a row of a variable of its own, and
//! then ROUNDS times a copy of it, a comparison of the two and a drop of the copy.
#![tactic(auto)]

ghost use Rattle.std.specs.Prelude.{◌≡◌, ◌<◌, All};
ghost use Rattle.dd_session.specs.Managing.{Seen};

mod calls;

use calls::{four, one, two};
use dd_session::{Config, Manager, Session};
use std::sync::Wait;
use std::thread::Threads;
use std::{env, io};

/// What the words after the program's name ask for, if they do.
fn asked(rt: &HostRuntime) -> io::Result<Option<(u32, u32)>> {
    let mut numbers: Vec<u32> = Vec::new(rt.alloc());
    for word in env::args(rt)?.into_iter().skip(1) {
        if let Ok(number) = word.parse() {
            numbers.push(number)?;
        }
    }
    Ok(match numbers.as_slice() {
        [sessions @ (1 | 2 | 4), rounds] => Some((*sessions, *rounds)),
        _ => None,
    })
}

/// How many calls these sessions made, each in a thread of its own.
fn call_at_once<R: Threads + Wait + Sync>(
    rt: &R,
    manager: &Manager,
    mut sessions: Vec<Session>,
    rounds: u32,
) -> Option<u64>
    requires own { All (λ (s : Seen). s.manager ≡ manager.now) sessions.items }
    requires variable { 48 < manager.now.vars }
{
    let first = sessions.pop()?;
    let Some(second) = sessions.pop() else {
        return Some(one(rt, manager, first, 0, rounds));
    };
    let Some(third) = sessions.pop() else {
        return Some(two(rt, manager, (first, second), 0, 16, rounds));
    };
    let fourth = sessions.pop()?;
    Some(four(rt, manager, (first, second), (third, fourth), rounds))
}

fn main(rt: HostRuntime) -> io::Result<()> {
    let Some((sessions, rounds)) = asked(&rt)? else {
        return println!(&rt; "usage: SESSIONS ROUNDS, SESSIONS 1, 2 or 4");
    };
    let config = Config {
        vars: 64,
        elements: 0,
        limit: 100,
    };
    let Ok((manager, sessions)) = Manager::open(rt.alloc(), config, sessions) else {
        return println!(&rt; "no memory");
    };
    match call_at_once(&rt, &manager, sessions, rounds) {
        Some(calls) => println!(&rt; "{calls} calls"),
        None => println!(&rt; "no session"),
    }
}
