//! Families of cases, and the line that is printed of each.

use crate::digits::Digit;
use crate::jobs::{Due, Job, Reply};
use crate::oracles::{Oracles, Tally};
use crate::registers::Register;
use edge_bits::Memory;
use std::alloc::{AllocError, Global};
use std::fmt::Display;
use std::random::RandomSource;
use std::sync::Wait;
use std::thread::Threads;
use std::{fmt, io};

/// How many functions of three variables there are, and families of combinations of three elements.
pub const FUNCTIONS: usize = 256;

/// How many pairs of them.
pub const PAIRS: usize = 65_536;

/// A command on functions of three variables, or on families of combinations of three elements, by their numbers.
pub trait Command: Display + Drop {
    /// The table of all of them.
    const TABLE: char;

    /// The number of what is due, by the plain calls on lists.
    fn by_lists(&self, alloc: Global) -> Result<u8, Memory>;

    /// The number of what is due, by arithmetic on words.
    fn by_words(&self) -> u8;
}

/// Adds a command, and asks for what it is to make.
pub fn make<C: Command>(job: &mut Job, command: C) -> Result<(), AllocError> {
    let Ok(by_lists) = command.by_lists(job.alloc()) else {
        return Err(AllocError);
    };
    let by_words = command.by_words();
    let due = Oracles {
        lists: Due::Function(Register::new(C::TABLE, usize::from(by_lists))),
        words: Due::Function(Register::new(C::TABLE, usize::from(by_words))),
    };
    job.make(&command, due)?;
    Ok(())
}

/// A command for each function.
pub fn for_each<R: Print + RandomSource + Threads + Wait + Sync, C: Command, F: Fn(u8) -> C>(
    rt: &R,
    job: Job,
    name: &str,
    command: F,
) -> io::Result<()>
    requires { F.IsAlwaysCallable command }
{
    tell(rt, job, name, FUNCTIONS, |job, case| {
        let [f, ..] = case.to_le_bytes();
        make(job, command(f))
    })
}

/// A command for each pair of functions.
pub fn for_pairs<R: Print + RandomSource + Threads + Wait + Sync, C: Command, F: Fn(u8, u8) -> C>(
    rt: &R,
    job: Job,
    name: &str,
    command: F,
) -> io::Result<()>
    requires { F.IsAlwaysCallable command }
{
    tell(rt, job, name, PAIRS, |job, case| {
        let [f, g, ..] = case.to_le_bytes();
        make(job, command(f, g))
    })
}

/// A command for each function and each variable or element.
pub fn for_digits<
    R: Print + RandomSource + Threads + Wait + Sync,
    C: Command,
    F: Fn(u8, Digit) -> C,
>(rt: &R, job: Job, name: &str, command: F) -> io::Result<()>
    requires { F.IsAlwaysCallable command }
{
    tell(rt, job, name, 3 * FUNCTIONS, |job, case| {
        let [f, ..] = (case / 3).to_le_bytes();
        make(job, command(f, Digit::of(case)))
    })
}

/// The values of the variables at an assignment, or of the elements in a combination.
#[derive(Clone, Copy)]
pub struct Bits(pub u8);

impl Display for Bits {
    fn fmt<W: fmt::Write>(&self, f: &mut fmt::Formatter<W>) -> fmt::Result {
        let (first, second, third) = (self.0 & 1, self.0 >> 1 & 1, self.0 >> 2 & 1);
        write!(f, "{first}{second}{third}")
    }
}

/// Asks for each value of each function of a table.
pub fn for_values<R: Print + RandomSource + Threads + Wait + Sync>(
    rt: &R,
    job: Job,
    name: &str,
    table: char,
) -> io::Result<()> {
    tell(rt, job, name, 8 * FUNCTIONS, |job, case| {
        let ([number, ..], place) = ((case / 8).to_le_bytes(), (case % 8) as u8);
        let due = Oracles::by_words(Reply::Value(i64::from(number >> place & 1)));
        job.ask(&format_args!("eval {table}{number} {}", Bits(place)), due)
    })
}

/// Adds all cases to a job.
fn add_all<F: Fn(&mut Job, usize) -> Result<(), AllocError>>(
    job: &mut Job,
    cases: usize,
    add: F,
) -> Result<(), AllocError>
    requires { F.IsAlwaysCallable add }
{
    for case in 0..cases {
        add(job, case)?;
    }
    Ok(())
}

/// Adds all cases to a job that is lent, plays it, and prints how many are as due.
fn tell_of<
    R: Print + RandomSource + Threads + Wait + Sync,
    F: Fn(&mut Job, usize) -> Result<(), AllocError>,
>(rt: &R, job: &mut Job, name: &str, cases: usize, add: F) -> io::Result<()>
    requires { F.IsAlwaysCallable add }
{
    add_all(job, cases, add)?;
    let tally = job.tally(rt)?;
    show(rt, name, cases, tally)
}

/// Adds all cases to a job, plays it, and prints how many are as due.
pub fn tell<
    R: Print + RandomSource + Threads + Wait + Sync,
    F: Fn(&mut Job, usize) -> Result<(), AllocError>,
>(rt: &R, mut job: Job, name: &str, cases: usize, add: F) -> io::Result<()>
    requires { F.IsAlwaysCallable add }
{
    tell_of(rt, &mut job, name, cases, add)
}

/// Prints how many cases are as due.
pub fn show<R: Print>(rt: &R, name: &str, cases: usize, tally: Tally) -> io::Result<()> {
    let words = tally.words;
    match tally.lists {
        Some(lists) => println!(rt; "{name}: {lists} of {cases} by lists, {words} by words"),
        None => println!(rt; "{name}: {words} of {cases} by words"),
    }
}
