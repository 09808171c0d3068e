//! Cases of functions of three variables.

use crate::cases::{
    Bits, FUNCTIONS, PAIRS, for_digits, for_each, for_pairs, for_values, make, show, tell,
};
use crate::digits::Digit;
use crate::jobs::{Due, Job, Reply};
use crate::lists::{ALWAYS, NEVER};
use crate::oracles::{Oracles, Tally};
use crate::registers::choices;
use crate::{cases, lists, words};
use edge_bits::Memory;
use std::alloc::{AllocError, Global};
use std::fmt::Display;
use std::random::RandomSource;
use std::sync::Wait;
use std::thread::Threads;
use std::{fmt, io};

/// All lists of the variables that have none twice.
const VARIABLE_LISTS: [&[Digit]; 16] = [
    &[],
    &[Digit::First],
    &[Digit::Second],
    &[Digit::Third],
    &[Digit::First, Digit::Second],
    &[Digit::Second, Digit::First],
    &[Digit::First, Digit::Third],
    &[Digit::Third, Digit::First],
    &[Digit::Second, Digit::Third],
    &[Digit::Third, Digit::Second],
    &[Digit::First, Digit::Second, Digit::Third],
    &[Digit::First, Digit::Third, Digit::Second],
    &[Digit::Second, Digit::First, Digit::Third],
    &[Digit::Second, Digit::Third, Digit::First],
    &[Digit::Third, Digit::First, Digit::Second],
    &[Digit::Third, Digit::Second, Digit::First],
];

/// One of these lists, by its place.
#[derive(Clone, Copy)]
pub struct Variables(usize);

impl Variables {
    /// The variables of the list.
    fn digits(self) -> &'static [Digit] {
        VARIABLE_LISTS[self.0 % 16]
    }
}

impl Display for Variables {
    fn fmt<W: fmt::Write>(&self, f: &mut fmt::Formatter<W>) -> fmt::Result {
        for variable in self.digits() {
            write!(f, " {variable}")?;
        }
        Ok(())
    }
}

/// A command that makes a function of others, by their numbers.
#[derive(Clone, Copy)]
pub enum Command {
    Not(u8),
    And(u8, u8),
    Or(u8, u8),
    Xor(u8, u8),
    Ite(u8, u8, u8),
    Cofactor(u8, Digit, bool),
    Exists(u8, Variables),
    Forall(u8, Variables),
    AndExists(u8, u8, Variables),
    Compose(u8, Digit, u8),
    /// The second and the third put for the first two variables.
    ComposeBoth(u8, u8, u8),
    Support(u8),
}

impl Display for Command {
    fn fmt<W: fmt::Write>(&self, out: &mut fmt::Formatter<W>) -> fmt::Result {
        match self {
            Command::Not(f) => write!(out, "not d{f}"),
            Command::And(f, g) => write!(out, "and d{f} d{g}"),
            Command::Or(f, g) => write!(out, "or d{f} d{g}"),
            Command::Xor(f, g) => write!(out, "xor d{f} d{g}"),
            Command::Ite(f, g, h) => write!(out, "ite d{f} d{g} d{h}"),
            Command::Cofactor(f, v, true) => write!(out, "cofactor d{f} {v} 1"),
            Command::Cofactor(f, v, false) => write!(out, "cofactor d{f} {v} 0"),
            Command::Exists(f, variables) => write!(out, "exists d{f}{variables}"),
            Command::Forall(f, variables) => write!(out, "forall d{f}{variables}"),
            Command::AndExists(f, g, variables) => write!(out, "andexists d{f} d{g}{variables}"),
            Command::Compose(f, v, g) => write!(out, "compose d{f} {v} d{g}"),
            Command::ComposeBoth(f, g, h) => write!(out, "vcompose d{f} 0 d{g} 1 d{h}"),
            Command::Support(f) => write!(out, "support d{f}"),
        }
    }
}

impl cases::Command for Command {
    const TABLE: char = 'd';

    /// The number of the function that is due, by the plain calls on lists.
    fn by_lists(&self, alloc: Global) -> Result<u8, Memory> {
        match *self {
            Command::Not(f) => lists::not(alloc, f),
            Command::And(f, g) => lists::ite(alloc, f, g, NEVER),
            Command::Or(f, g) => lists::ite(alloc, f, ALWAYS, g),
            Command::Xor(f, g) => lists::xor(alloc, f, g),
            Command::Ite(f, g, h) => lists::ite(alloc, f, g, h),
            Command::Cofactor(f, v, true) => lists::compose(alloc, f, v, ALWAYS),
            Command::Cofactor(f, v, false) => lists::compose(alloc, f, v, NEVER),
            Command::Exists(f, variables) => lists::exists(alloc, f, variables.digits()),
            Command::Forall(f, variables) => lists::forall(alloc, f, variables.digits()),
            Command::AndExists(f, g, variables) => {
                let and = lists::ite(alloc, f, g, NEVER)?;
                lists::exists(alloc, and, variables.digits())
            }
            Command::Compose(f, v, g) => lists::compose(alloc, f, v, g),
            Command::ComposeBoth(f, g, h) => lists::compose_both(alloc, f, g, h),
            Command::Support(f) => lists::support(alloc, f),
        }
    }

    /// The number of the function that is due, by arithmetic on words.
    fn by_words(&self) -> u8 {
        match *self {
            Command::Not(f) => !f,
            Command::And(f, g) => f & g,
            Command::Or(f, g) => f | g,
            Command::Xor(f, g) => f ^ g,
            Command::Ite(f, g, h) => words::ite(f, g, h),
            Command::Cofactor(f, v, value) => words::cofactor(f, v, value),
            Command::Exists(f, variables) => words::exists(f, variables.digits()),
            Command::Forall(f, variables) => words::forall(f, variables.digits()),
            Command::AndExists(f, g, variables) => words::exists(f & g, variables.digits()),
            Command::Compose(f, v, g) => words::compose(f, v, g),
            Command::ComposeBoth(f, g, h) => words::compose_both(f, g, h),
            Command::Support(f) => words::support(f),
        }
    }
}

/// A job of three variables, in which registers d0 to d255 have all functions.
fn table(alloc: Global) -> Result<Job, AllocError> {
    let mut job = Job::new(alloc, "vars 3", 512)?;
    for line in [
        "v0 = var 0",
        "v1 = var 1",
        "v2 = var 2",
        "a0 = false",
        "a1 = true",
    ] {
        job.tell(&line)?;
    }
    choices(&mut job, Digit::First, 'a', 2, 'b')?;
    choices(&mut job, Digit::Second, 'b', 4, 'c')?;
    choices(&mut job, Digit::Third, 'c', 16, 'd')?;
    Ok(job)
}

/// A function of the first two variables.
fn of_two(number: usize) -> u8 {
    (number % 16 * 17) as u8
}

/// The step through the triples of functions. It is odd, so that no triple comes twice.
const STEP: usize = 10_368_889;

/// Prints how many cases of functions of three variables are as due.
pub fn print<R: Print + RandomSource + Threads + Wait + Sync>(
    rt: &R,
    alloc: Global,
) -> io::Result<()> {
    for_values(rt, table(alloc)?, "values", 'd')?;
    connectives(rt, alloc)?;
    choices_of_functions(rt, alloc)?;
    cofactors(rt, alloc)?;
    quantifiers(rt, alloc)?;
    for_each(rt, table(alloc)?, "support", Command::Support)?;
    compositions(rt, alloc)?;
    restrictions(rt, alloc)?;
    restrict_relation(rt)
}

/// The operations place by place, on one function or two.
fn connectives<R: Print + RandomSource + Threads + Wait + Sync>(
    rt: &R,
    alloc: Global,
) -> io::Result<()> {
    for_each(rt, table(alloc)?, "not", Command::Not)?;
    for_pairs(rt, table(alloc)?, "and", Command::And)?;
    for_pairs(rt, table(alloc)?, "or", Command::Or)?;
    for_pairs(rt, table(alloc)?, "xor", Command::Xor)?;
    tell(rt, table(alloc)?, "leq", PAIRS, |job, case| {
        let [f, g, ..] = case.to_le_bytes();
        compare(job, f, g)
    })
}

/// Both cofactors by each variable.
fn cofactors<R: Print + RandomSource + Threads + Wait + Sync>(
    rt: &R,
    alloc: Global,
) -> io::Result<()> {
    for_digits(
        rt,
        table(alloc)?,
        "cofactor by 1",
        |f, v| Command::Cofactor(f, v, true),
    )?;
    for_digits(
        rt,
        table(alloc)?,
        "cofactor by 0",
        |f, v| Command::Cofactor(f, v, false),
    )
}

/// Asks whether g is true wherever f is.
fn compare(job: &mut Job, f: u8, g: u8) -> Result<(), AllocError> {
    let Ok(by_lists) = lists::leq(job.alloc(), f, g) else {
        return Err(AllocError);
    };
    let due = Oracles {
        lists: Some(Reply::of(by_lists)),
        words: Some(Reply::of(words::leq(f, g))),
    };
    job.ask(&format_args!("leq d{f} d{g}"), due)
}

/// Choices by a function between two others.
fn choices_of_functions<R: Print + RandomSource + Threads + Wait + Sync>(
    rt: &R,
    alloc: Global,
) -> io::Result<()> {
    tell(
        rt,
        table(alloc)?,
        "ite of two variables",
        4096,
        |job, case| {
            let (f, g, h) = (of_two(case), of_two(case / 16), of_two(case / 256));
            make(job, Command::Ite(f, g, h))
        },
    )?;
    tell(rt, table(alloc)?, "ite", 8192, |job, case| {
        let [f, g, h, ..] = case.wrapping_mul(STEP).to_le_bytes();
        make(job, Command::Ite(f, g, h))
    })
}

/// Quantifiers over each list of variables; of two functions, over one list for each pair.
fn quantifiers<R: Print + RandomSource + Threads + Wait + Sync>(
    rt: &R,
    alloc: Global,
) -> io::Result<()> {
    tell(rt, table(alloc)?, "exists", 16 * FUNCTIONS, |job, case| {
        let [f, ..] = (case / 16).to_le_bytes();
        make(job, Command::Exists(f, Variables(case)))
    })?;
    tell(rt, table(alloc)?, "forall", 16 * FUNCTIONS, |job, case| {
        let [f, ..] = (case / 16).to_le_bytes();
        make(job, Command::Forall(f, Variables(case)))
    })?;
    for_pairs(rt, table(alloc)?, "andexists", |f, g| {
        Command::AndExists(f, g, Variables(usize::from(f) + usize::from(g)))
    })
}

/// Functions put for variables.
fn compositions<R: Print + RandomSource + Threads + Wait + Sync>(
    rt: &R,
    alloc: Global,
) -> io::Result<()> {
    tell(rt, table(alloc)?, "compose", 3 * PAIRS, |job, case| {
        let [f, g, ..] = (case / 3).to_le_bytes();
        make(job, Command::Compose(f, Digit::of(case), g))
    })?;
    tell(
        rt,
        table(alloc)?,
        "vcompose of two variables",
        4096,
        |job, case| {
            let (f, g, h) = (of_two(case), of_two(case / 16), of_two(case / 256));
            make(job, Command::ComposeBoth(f, g, h))
        },
    )
}

/// Adds restrictions of each function to each condition.
fn restrict_all(job: &mut Job) -> Result<(), AllocError> {
    for pair in 0..PAIRS {
        let [f, c, ..] = pair.to_le_bytes();
        restrict(job, f, c)?;
    }
    Ok(())
}

/// The history of these restrictions.
fn restrict_history<R: RandomSource + Threads + Wait + Sync>(
    rt: &R,
    alloc: Global,
) -> Result<String, AllocError> {
    let mut job = table(alloc)?;
    restrict_all(&mut job)?;
    job.history(rt)
}

/// Restrictions of each function to each condition. What they answer is read value by value, and judged.
fn restrictions<R: Print + RandomSource + Threads + Wait + Sync>(
    rt: &R,
    alloc: Global,
) -> io::Result<()> {
    let history = restrict_history(rt, alloc)?;
    let tally = judged(alloc, history.as_str())?;
    show(rt, "restrict", PAIRS, tally)
}

/// Whether a function may be the answer of a restrict, for each triple of functions of the first two variables.
fn restrict_relation<R: Print>(rt: &R) -> io::Result<()> {
    let agreeing = (0..4096usize).filter(|case| {
        let (f, c, r) = (of_two(*case), of_two(*case / 16), of_two(*case / 256));
        lists::restricts(f, c, r) == words::restricts(f, c, r)
    });
    let tally = Tally {
        lists: None,
        words: agreeing.count(),
    };
    show(rt, "restrict relation of two variables", 4096, tally)
}

/// Adds a restrict, and asks for each value of what it answers.
fn restrict(job: &mut Job, f: u8, c: u8) -> Result<(), AllocError> {
    let due = Oracles {
        lists: Due::Unsaid,
        words: Due::Unsaid,
    };
    let answer = job.make(&format_args!("restrict d{f} d{c}"), due)?;
    for place in 0..8 {
        job.tell(&format_args!("eval {answer} {}", Bits(place)))?;
    }
    Ok(())
}

/// How many of the answers, eight values each, may be given.
fn judge(values: &[bool]) -> Tally {
    let mut tally = Tally::NONE;
    for (pair, values) in values.chunks(8).enumerate() {
        let [f, c, ..] = pair.to_le_bytes();
        let answer = lists::number_of(values);
        tally.count(Oracles {
            lists: Some(lists::restricts(f, c, answer)),
            words: Some(words::restricts(f, c, answer)),
        });
    }
    tally
}

/// How many of the answers that a history tells may be given.
fn judged(alloc: Global, history: &str) -> Result<Tally, AllocError> {
    let values: Vec<bool> = history.lines().filter_map(value_in).collect(alloc)?;
    Ok(judge(values.as_slice()))
}

/// The value that a line of a history tells, if it tells one.
fn value_in(line: &str) -> Option<bool> {
    match Reply::in_line(line)? {
        Reply::Value(value) => Some(value == 1),
        _ => None,
    }
}
