//! Cases of families of combinations of three elements.

use crate::cases::{for_digits, for_pairs, for_values, tell};
use crate::digits::Digit;
use crate::jobs::{Due, Job};
use crate::oracles::Oracles;
use crate::registers::{Register, joins};
use crate::{cases, lists, words};
use edge_bits::Memory;
use std::alloc::{AllocError, Global};
use std::fmt::Display;
use std::random::RandomSource;
use std::sync::Wait;
use std::thread::Threads;
use std::{fmt, io};

/// A command that makes a family of others, by their numbers.
#[derive(Clone, Copy)]
pub enum Command {
    Union(u8, u8),
    Meet(u8, u8),
    Diff(u8, u8),
    On(u8, Digit),
    Off(u8, Digit),
    Flip(u8, Digit),
    Product(u8, u8),
    Quotient(u8, u8),
}

impl Display for Command {
    fn fmt<W: fmt::Write>(&self, out: &mut fmt::Formatter<W>) -> fmt::Result {
        match self {
            Command::Union(p, q) => write!(out, "union s{p} s{q}"),
            Command::Meet(p, q) => write!(out, "meet s{p} s{q}"),
            Command::Diff(p, q) => write!(out, "diff s{p} s{q}"),
            Command::On(p, e) => write!(out, "on s{p} {e}"),
            Command::Off(p, e) => write!(out, "off s{p} {e}"),
            Command::Flip(p, e) => write!(out, "flip s{p} {e}"),
            Command::Product(p, q) => write!(out, "product s{p} s{q}"),
            Command::Quotient(p, q) => write!(out, "quotient s{p} s{q}"),
        }
    }
}

impl cases::Command for Command {
    const TABLE: char = 's';

    fn by_lists(&self, alloc: Global) -> Result<u8, Memory> {
        lists::family(alloc, *self)
    }

    fn by_words(&self) -> u8 {
        match *self {
            Command::Union(p, q) => p | q,
            Command::Meet(p, q) => p & q,
            Command::Diff(p, q) => p & !q,
            Command::On(p, e) => words::down(p, e),
            Command::Off(p, e) => p & !words::with(e),
            Command::Flip(p, e) => words::down(p, e) | words::up(p, e),
            Command::Product(p, q) => words::product(p, q),
            Command::Quotient(p, q) => words::quotient(p, q),
        }
    }
}

/// A job of three elements, in which registers s0 to s255 have all families of their combinations.
fn table(alloc: Global) -> Result<Job, AllocError> {
    let mut job = Job::new(alloc, "vars 0\nelements 3", 512)?;
    job.tell(&"p0 = empty")?;
    job.tell(&"p1 = base")?;
    joins(&mut job, Digit::First, 'p', 2, 'q')?;
    joins(&mut job, Digit::Second, 'q', 4, 'r')?;
    joins(&mut job, Digit::Third, 'r', 16, 's')?;
    Ok(job)
}

/// Prints how many cases of families are as due.
pub fn print<R: Print + RandomSource + Threads + Wait + Sync>(
    rt: &R,
    alloc: Global,
) -> io::Result<()> {
    for_values(rt, table(alloc)?, "members", 's')?;
    tell(rt, table(alloc)?, "empty, base and single", 5, constant)?;
    of_sets(rt, alloc)?;
    by_element(rt, alloc)?;
    of_products(rt, alloc)
}

/// The operations on sets of combinations.
fn of_sets<R: Print + RandomSource + Threads + Wait + Sync>(
    rt: &R,
    alloc: Global,
) -> io::Result<()> {
    for_pairs(rt, table(alloc)?, "union", Command::Union)?;
    for_pairs(rt, table(alloc)?, "meet", Command::Meet)?;
    for_pairs(rt, table(alloc)?, "diff", Command::Diff)
}

/// The operations by an element.
fn by_element<R: Print + RandomSource + Threads + Wait + Sync>(
    rt: &R,
    alloc: Global,
) -> io::Result<()> {
    for_digits(rt, table(alloc)?, "on", Command::On)?;
    for_digits(rt, table(alloc)?, "off", Command::Off)?;
    for_digits(rt, table(alloc)?, "flip", Command::Flip)
}

/// Products and quotients.
fn of_products<R: Print + RandomSource + Threads + Wait + Sync>(
    rt: &R,
    alloc: Global,
) -> io::Result<()> {
    for_pairs(rt, table(alloc)?, "product", Command::Product)?;
    for_pairs(rt, table(alloc)?, "quotient", Command::Quotient)
}

/// Adds a command without operands, and asks for what it is to make.
fn constant(job: &mut Job, case: usize) -> Result<(), AllocError> {
    let (line, members) = match case {
        0 => ("empty", 0b0000_0000),
        1 => ("base", 0b0000_0001),
        2 => ("single 0", 0b0000_0010),
        3 => ("single 1", 0b0000_0100),
        _ => ("single 2", 0b0001_0000),
    };
    let due = Oracles {
        lists: Due::Unsaid,
        words: Due::Function(Register::new('s', members)),
    };
    job.make(&line, due)?;
    Ok(())
}
