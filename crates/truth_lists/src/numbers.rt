//! Cases of functions of numbers. Those of one variable have the values of a function of two that does not depend on the
//! second.

ghost use Rattle.std.specs.Prelude.{◌<◌};

use crate::cases::show;
use crate::digits::Digit;
use crate::jobs::{Due, Job, Reply};
use crate::oracles::{Oracles, Tally};
use crate::registers::{Register, choices};
use crate::{lists, words};
use edge_bits::Memory;
use std::alloc::{AllocError, Global};
use std::collections::BTreeMap;
use std::fmt::Display;
use std::io;
use std::random::RandomSource;
use std::sync::Wait;
use std::thread::Threads;

/// The values of a function at the four assignments.
type Values = [i64; 4];

/// The least value of a function.
const LEAST: i64 = -70_368_744_177_664;

/// The greatest.
const GREATEST: i64 = 70_368_744_177_663;

/// The values of the functions of one variable: the ends of the range, and what is near zero.
const OF_ONE: [i64; 5] = [LEAST, -3, 0, 2, GREATEST];

/// The values of the functions of two variables.
const OF_TWO: [i64; 5] = [LEAST, -1, 0, 1, GREATEST];

/// How many functions of one variable have the five values.
const ONES: usize = 25;

/// How many functions of two variables.
const TWOS: usize = 625;

/// What values are compared with.
const BOUNDS: [i64; 4] = [LEAST, 0, 1, GREATEST];

/// How far the second function stands from the first in a choice; no divisor of the number of functions.
const STEP: usize = 277;

/// A function of one variable, by its number.
fn of_one(number: usize) -> Values {
    let (without, with) = (OF_ONE[number % 5], OF_ONE[number / 5 % 5]);
    [without, with, without, with]
}

/// A function of two variables, by its number.
fn of_two(number: usize) -> Values {
    [
        OF_TWO[number % 5],
        OF_TWO[number / 5 % 5],
        OF_TWO[number / 25 % 5],
        OF_TWO[number / 125 % 5],
    ]
}

/// An operation on the values of two functions at one place.
#[derive(Clone, Copy)]
enum Operation {
    Plus,
    Minus,
    Times,
    Min,
    Max,
    Threshold,
}

impl Operation {
    /// Its word.
    fn word(self) -> &'static str {
        match self {
            Operation::Plus => "plus",
            Operation::Minus => "minus",
            Operation::Times => "times",
            Operation::Min => "min",
            Operation::Max => "max",
            Operation::Threshold => "threshold",
        }
    }

    /// The value that it gives, whatever its range.
    fn of(self, a: i64, b: i64) -> i128 {
        match self {
            Operation::Plus => i128::from(a) + i128::from(b),
            Operation::Minus => i128::from(a) - i128::from(b),
            Operation::Times => i128::from(a) * i128::from(b),
            Operation::Min => i128::from(a.min(b)),
            Operation::Max => i128::from(a.max(b)),
            Operation::Threshold => i128::from(if a >= b { a } else { 0 }),
        }
    }

    /// The values that it gives of two functions.
    fn at_each_place(self, [a, b, c, d]: Values, [e, f, g, h]: Values) -> [i128; 4] {
        [self.of(a, e), self.of(b, f), self.of(c, g), self.of(d, h)]
    }
}

/// A command on functions of numbers. Truth functions go by number.
#[derive(Clone, Copy)]
enum Command {
    Pointwise(Operation, Values, Values),
    Sum(Values, u32),
    OfTruth(u8),
    AddIte(u8, Values, Values),
    AtLeast(Values, i64),
    Pattern(Values),
}

/// What a command is to make.
#[derive(Clone, Copy)]
enum Made {
    Numbers(Values),
    Truth(u8),
    /// Nothing, since some value is out of range.
    Overflow,
    /// There is no plain call on lists for it.
    Unsaid,
}

impl Made {
    /// What has these exact values.
    fn of(values: [i128; 4]) -> Made {
        match values.map(words::in_range) {
            [Some(a), Some(b), Some(c), Some(d)] => Made::Numbers([a, b, c, d]),
            _ => Made::Overflow,
        }
    }
}

impl Command {
    /// What is due by the plain calls on lists.
    fn by_lists(self, alloc: Global) -> Result<Made, Memory> {
        let values = match self {
            Command::Pointwise(Operation::Plus, f, g) => lists::plus(alloc, f, g)?,
            Command::Sum(f, variable) if variable < 2 => lists::sum(alloc, f, variable)?,
            _ => return Ok(Made::Unsaid),
        };
        match values.as_deref() {
            Some([a, b, c, d]) => Ok(Made::Numbers([*a, *b, *c, *d])),
            Some(_) => Ok(Made::Unsaid),
            None => Ok(Made::Overflow),
        }
    }

    /// What is due by arithmetic on words.
    fn by_words(self) -> Made {
        match self {
            Command::Pointwise(operation, f, g) => Made::of(operation.at_each_place(f, g)),
            Command::Sum(f, variable) => Made::of(words::sum(f, variable)),
            Command::OfTruth(c) => Made::Numbers(words::choice(c, [1; 4], [0; 4])),
            Command::AddIte(c, f, g) => Made::Numbers(words::choice(c, f, g)),
            Command::AtLeast(f, bound) => Made::Truth(words::truth(f.map(|value| value >= bound))),
            Command::Pattern(f) => Made::Truth(words::truth(f.map(|value| value != 0))),
        }
    }

    /// What is due by both.
    fn made(self, alloc: Global) -> Result<Oracles<Made>, AllocError> {
        let Ok(lists) = self.by_lists(alloc) else {
            return Err(AllocError);
        };
        Ok(Oracles {
            lists,
            words: self.by_words(),
        })
    }
}

/// Adds the projections of so many variables, in registers v0 and so on.
fn add_variables(job: &mut Job, variables: u32) -> Result<(), AllocError> {
    for variable in 0..variables {
        job.tell(&format_args!("v{variable} = var {variable}"))?;
    }
    Ok(())
}

/// A job of so many variables and slots, with their projections.
fn with_variables(alloc: Global, variables: u32, limit: u32) -> Result<Job, AllocError> {
    let head = format!(in alloc; "vars {variables}")?;
    let mut job = Job::new(alloc, &head, limit)?;
    add_variables(&mut job, variables)?;
    Ok(job)
}

/// A job, and the functions of numbers that have registers in it.
#[derive(Drop)]
struct Functions {
    job: Job,
    registers: BTreeMap<Values, Register>,
}

impl Functions {
    /// A job of so many variables and slots, without functions.
    fn new(alloc: Global, variables: u32, limit: u32) -> Result<Functions, AllocError> {
        Ok(Functions {
            job: with_variables(alloc, variables, limit)?,
            registers: BTreeMap::new(alloc),
        })
    }

    /// Adds all truth functions of two variables, in registers c0 to c15.
    fn add_truths(&mut self) -> Result<(), AllocError> {
        self.job.tell(&"a0 = false")?;
        self.job.tell(&"a1 = true")?;
        choices(&mut self.job, Digit::First, 'a', 2, 'b')?;
        choices(&mut self.job, Digit::Second, 'b', 4, 'c')
    }

    /// The register of a function. It is added to the job if it has none yet.
    fn register(&mut self, values: Values) -> Result<Register, AllocError> {
        let [a, b, c, d] = values;
        if a == c && b == d {
            return self.of_first(a, b);
        }
        if let Some(register) = self.registers.get(&values) {
            return Ok(*register);
        }
        let (with, without) = (self.of_first(c, d)?, self.of_first(a, b)?);
        self.put(values, &format_args!("addite v1 {with} {without}"))
    }

    /// The register of a function of the first variable, by its values without it and with it.
    fn of_first(&mut self, a: i64, b: i64) -> Result<Register, AllocError> {
        if a == b {
            return self.constant(a);
        }
        if let Some(register) = self.registers.get(&[a, b, a, b]) {
            return Ok(*register);
        }
        let (with, without) = (self.constant(b)?, self.constant(a)?);
        self.put([a, b, a, b], &format_args!("addite v0 {with} {without}"))
    }

    /// The register of a constant.
    fn constant(&mut self, value: i64) -> Result<Register, AllocError> {
        if let Some(register) = self.registers.get(&[value; 4]) {
            return Ok(*register);
        }
        self.put([value; 4], &format_args!("num {value}"))
    }

    /// Adds the function that a command makes.
    fn put<C: Display>(&mut self, values: Values, command: &C) -> Result<Register, AllocError> {
        let register = Register::new('n', self.registers.len());
        self.job.tell(&format_args!("{register} = {command}"))?;
        self.registers.insert(values, register)?;
        Ok(register)
    }

    /// What is due, in registers.
    fn due(&mut self, made: Made) -> Result<Due, AllocError> {
        Ok(match made {
            Made::Numbers(values) => Due::Function(self.register(values)?),
            Made::Truth(number) => Due::Function(Register::new('c', usize::from(number))),
            Made::Overflow => Due::Overflow,
            Made::Unsaid => Due::Unsaid,
        })
    }

    /// The line of a command on two functions, behind these words.
    fn on_two<C: Display>(
        &mut self,
        words: &C,
        f: Values,
        g: Values,
    ) -> Result<String, AllocError> {
        let (f, g) = (self.register(f)?, self.register(g)?);
        format!(in self.job.alloc(); "{words} {f} {g}")
    }

    /// The line of a command on a function and a number.
    fn with_number(&mut self, word: &str, f: Values, number: i64) -> Result<String, AllocError> {
        let f = self.register(f)?;
        format!(in self.job.alloc(); "{word} {f} {number}")
    }

    /// The line of a command.
    fn line(&mut self, command: Command) -> Result<String, AllocError> {
        match command {
            Command::Pointwise(operation, f, g) => self.on_two(&operation.word(), f, g),
            Command::Sum(f, variable) => self.with_number("sum", f, i64::from(variable)),
            Command::OfTruth(c) => format!(in self.job.alloc(); "ofbdd c{c}"),
            Command::AddIte(c, f, g) => self.on_two(&format_args!("addite c{c}"), f, g),
            Command::AtLeast(f, bound) => self.with_number("atleast", f, bound),
            Command::Pattern(f) => {
                let f = self.register(f)?;
                format!(in self.job.alloc(); "pattern {f}")
            }
        }
    }

    /// Adds a command, and asks for what it is to make.
    fn add(&mut self, command: Command, made: Oracles<Made>) -> Result<(), AllocError> {
        let due = Oracles {
            lists: self.due(made.lists)?,
            words: self.due(made.words)?,
        };
        let line = self.line(command)?;
        self.job.make(&line, due)?;
        Ok(())
    }

    /// Asks for the value of a function at an assignment.
    fn ask(&mut self, values: Values, place: usize) -> Result<(), AllocError>
        requires { place < 4 }
    {
        let register = self.register(values)?;
        let due = Oracles::by_words(Reply::Value(values[place]));
        let (first, second) = (place % 2, place / 2);
        self.job
            .ask(&format_args!("eval {register} {first}{second}"), due)
    }
}

/// Prints how many cases of functions of numbers are as due.
pub fn print<R: Print + RandomSource + Threads + Wait + Sync>(
    rt: &R,
    alloc: Global,
) -> io::Result<()> {
    values(rt, alloc)?;
    of_one_variable(rt, alloc)?;
    of_two_variables(rt, alloc)
}

/// Asks for each value of each function of two variables.
fn ask_all(functions: &mut Functions) -> Result<(), AllocError> {
    for case in 0..4 * TWOS {
        functions.ask(of_two(case / 4), case % 4)?;
    }
    Ok(())
}

/// Prints how many values of functions of two variables are as due.
fn values<R: Print + RandomSource + Threads + Wait + Sync>(
    rt: &R,
    alloc: Global,
) -> io::Result<()> {
    let mut functions = Functions::new(alloc, 2, 10_000)?;
    ask_all(&mut functions)?;
    let tally = functions.job.tally(rt)?;
    show(rt, "numbers", 4 * TWOS, tally)
}

/// An operation on all pairs of functions of one variable.
fn on_pairs<R: Print + RandomSource + Threads + Wait + Sync>(
    rt: &R,
    alloc: Global,
    operation: Operation,
) -> io::Result<()> {
    let name = format!(in alloc; "{} of one variable", operation.word())?;
    tried(rt, alloc, 1, &name, ONES * ONES, |case| {
        let (f, g) = (of_one(case / ONES), of_one(case));
        Command::Pointwise(operation, f, g)
    })
}

/// Each operation on all pairs of functions of one variable.
fn of_one_variable<R: Print + RandomSource + Threads + Wait + Sync>(
    rt: &R,
    alloc: Global,
) -> io::Result<()> {
    for operation in [
        Operation::Plus,
        Operation::Minus,
        Operation::Times,
        Operation::Min,
        Operation::Max,
        Operation::Threshold,
    ] {
        on_pairs(rt, alloc, operation)?;
    }
    Ok(())
}

/// Commands on functions of two variables.
fn of_two_variables<R: Print + RandomSource + Threads + Wait + Sync>(
    rt: &R,
    alloc: Global,
) -> io::Result<()> {
    tried(rt, alloc, 2, "plus", TWOS * TWOS, |case| {
        let (f, g) = (of_two(case / TWOS), of_two(case));
        Command::Pointwise(Operation::Plus, f, g)
    })?;
    tried(rt, alloc, 2, "sum", 2 * TWOS, |case| {
        Command::Sum(of_two(case / 2), (case % 2) as u32)
    })?;
    tried(rt, alloc, 2, "ofbdd", 16, |case| {
        Command::OfTruth((case % 16) as u8)
    })?;
    tried(rt, alloc, 2, "pattern", TWOS, |case| {
        Command::Pattern(of_two(case))
    })?;
    tried(rt, alloc, 2, "atleast", 4 * TWOS, |case| {
        Command::AtLeast(of_two(case / 4), BOUNDS[case % 4])
    })?;
    tried(rt, alloc, 2, "addite", 16 * TWOS, |case| {
        let (f, g) = (of_two(case), of_two(case % TWOS + STEP));
        Command::AddIte((case / TWOS % 16) as u8, f, g)
    })
}

/// Adds a command that ends well to the shared job, and plays any other, at which a session stops, in a job of its own.
fn try_one<R: RandomSource + Threads + Wait + Sync>(
    rt: &R,
    alloc: Global,
    variables: u32,
    shared: &mut Functions,
    command: Command,
) -> Result<Tally, AllocError> {
    let made = command.made(alloc)?;
    if let (Made::Overflow, _) | (_, Made::Overflow) = (made.lists, made.words) {
        return alone(rt, alloc, variables, command, made);
    }
    shared.add(command, made)?;
    Ok(Tally::NONE)
}

/// Tries commands on functions of so many variables, and tells how many are as due.
fn try_all<R: RandomSource + Threads + Wait + Sync, F: Fn(usize) -> Command>(
    rt: &R,
    variables: u32,
    shared: &mut Functions,
    cases: usize,
    command_of: F,
) -> Result<Tally, AllocError>
    requires { F.IsAlwaysCallable command_of }
{
    let alloc = shared.job.alloc();
    if variables == 2 {
        shared.add_truths()?;
    }
    let mut tally = Tally::NONE;
    for case in 0..cases {
        tally.add(try_one(rt, alloc, variables, shared, command_of(case))?);
    }
    tally.add(shared.job.tally(rt)?);
    Ok(tally)
}

/// Tries commands, and prints how many are as due.
fn tried<R: Print + RandomSource + Threads + Wait + Sync, F: Fn(usize) -> Command>(
    rt: &R,
    alloc: Global,
    variables: u32,
    name: &str,
    cases: usize,
    command_of: F,
) -> io::Result<()>
    requires { F.IsAlwaysCallable command_of }
{
    let mut shared = Functions::new(alloc, variables, 10_000)?;
    let tally = try_all(rt, variables, &mut shared, cases, command_of)?;
    show(rt, name, cases, tally)
}

/// Plays a command in a job of its own.
fn alone<R: RandomSource + Threads + Wait + Sync>(
    rt: &R,
    alloc: Global,
    variables: u32,
    command: Command,
    made: Oracles<Made>,
) -> Result<Tally, AllocError> {
    let mut functions = Functions::new(alloc, variables, 64)?;
    functions.add(command, made)?;
    functions.job.tally(rt)
}
