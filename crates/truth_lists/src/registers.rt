//! Registers, and the commands that put all functions of some variables into them.

ghost use Rattle.std.specs.Prelude.{◌<◌, ◌^◌};

use crate::digits::Digit;
use crate::jobs::Job;
use std::alloc::AllocError;
use std::fmt;
use std::fmt::Display;

/// A register of a table.
#[derive(Clone, Copy)]
pub struct Register {
    table: char,
    number: usize,
}

impl Register {
    /// The register with this number.
    pub fn new(table: char, number: usize) -> Register {
        Register { table, number }
    }
}

impl Display for Register {
    fn fmt<W: fmt::Write>(&self, f: &mut fmt::Formatter<W>) -> fmt::Result {
        write!(f, "{}{}", self.table, self.number)
    }
}

/// Adds the truth functions of one variable more: the choices by that variable between two functions of a table of so many.
pub fn choices(
    job: &mut Job,
    variable: Digit,
    below: char,
    size: usize,
    table: char,
) -> Result<(), AllocError>
    requires some { 0 < size }
    requires few { size < 2 ^ 16 }
{
    for number in 0..size * size {
        let (with, without) = (number / size, number % size);
        job.tell(&format_args!(
            "{table}{number} = ite v{variable} {below}{with} {below}{without}"
        ))?;
    }
    Ok(())
}

/// Adds the families of one element more: the members of one family of a table of so many, with that element, and those of
/// another.
pub fn joins(
    job: &mut Job,
    element: Digit,
    below: char,
    size: usize,
    table: char,
) -> Result<(), AllocError>
    requires some { 0 < size }
    requires few { size < 2 ^ 16 }
{
    for number in 0..size * size {
        let (with, without) = (number / size, number % size);
        job.tell(&format_args!("{table}{number}with = flip {below}{with} {element}"))?;
        job.tell(&format_args!("{table}{number} = union {table}{number}with {below}{without}"))?;
    }
    Ok(())
}
