//! The three binary digits of a place in a list of eight values.

ghost use Rattle.std.specs.Prelude.{◌<◌};

use std::fmt;
use std::fmt::Display;

/// A digit of a place: a variable of a function of three variables, or an element of a combination of three.
#[derive(Clone, Copy)]
pub enum Digit {
    First,
    Second,
    Third,
}

/// All digits.
pub const DIGITS: [Digit; 3] = [Digit::First, Digit::Second, Digit::Third];

impl Digit {
    /// A digit of three for each number, in turn.
    pub fn of(number: usize) -> Digit {
        DIGITS[number % 3]
    }

    /// Its number.
    pub fn number(self) -> u32
        ensures { result < 3 }
    {
        match self {
            Digit::First => 0,
            Digit::Second => 1,
            Digit::Third => 2,
        }
    }

    /// What it is worth in a place.
    pub fn weight(self) -> u32
        ensures { result < 8 }
    {
        match self {
            Digit::First => 1,
            Digit::Second => 2,
            Digit::Third => 4,
        }
    }
}

impl Display for Digit {
    fn fmt<W: fmt::Write>(&self, f: &mut fmt::Formatter<W>) -> fmt::Result {
        write!(f, "{}", self.number())
    }
}
