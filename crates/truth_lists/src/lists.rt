//! The plain calls on lists of values, from numbers to numbers: bit k of the number of a function of three variables, or of a
//! family of combinations of three elements, is its value at place k of the list.

ghost use Rattle.std.specs.Prelude.{◌≡◌, ◌<◌, All, length, IfOk, IsTrue};
ghost use Rattle.function_laws.specs.Lists.{is_size};

use crate::digits::{DIGITS, Digit};
use crate::families::Command;
use edge_bits::Memory;
use function_laws::{
    compose_of, diff_of, exists_of, flip_of, forall_of, ite_of, meet_of, off_of, on_of, plus_of,
    product_of, quotient_of, restrict_holds, sum_of, union_of,
};
use std::alloc::Global;

/// The function that is false everywhere.
pub const NEVER: u8 = 0;

/// The function that is true everywhere.
pub const ALWAYS: u8 = 255;

/// The values of a function, or the members of a family.
#[tactic(auto, using(crate::proofs::EightLemmas::size_of_eight))]
fn values_of(number: u8) -> [bool; 8]
    ensures length { length result ≡ 8 }
    ensures size { IsTrue (is_size (length result)) }
{
    [
        number & 1 != 0,
        number & 2 != 0,
        number & 4 != 0,
        number & 8 != 0,
        number & 16 != 0,
        number & 32 != 0,
        number & 64 != 0,
        number & 128 != 0,
    ]
}

/// The number of these values.
pub fn number_of(values: &[bool]) -> u8 {
    values.iter().rev().fold(0, |number, value| number << 1 | if *value { 1 } else { 0 })
}

/// The numbers of some variables.
fn numbers_of(alloc: Global, variables: &[Digit]) -> Result<Vec<u32>, Memory>
    ensures { IfOk result (λ v. All (λ var. var < 3) v.items) }
{
    Ok(variables.iter().map(|v| v.number()).collect(alloc)?)
}

/// The projection of a variable.
fn projection(variable: Digit) -> u8 {
    match variable {
        Digit::First => number_of(&[false, true, false, true, false, true, false, true]),
        Digit::Second => number_of(&[false, false, true, true, false, false, true, true]),
        Digit::Third => number_of(&[false, false, false, false, true, true, true, true]),
    }
}

/// `ite_of` of three functions.
pub fn ite(alloc: Global, f: u8, g: u8, h: u8) -> Result<u8, Memory> {
    let values = ite_of(alloc, &values_of(f), &values_of(g), &values_of(h))?;
    Ok(number_of(&values))
}

/// The complement.
pub fn not(alloc: Global, f: u8) -> Result<u8, Memory> {
    ite(alloc, f, NEVER, ALWAYS)
}

/// The function that is true where just one of two is.
pub fn xor(alloc: Global, f: u8, g: u8) -> Result<u8, Memory> {
    let not_g = not(alloc, g)?;
    ite(alloc, f, not_g, g)
}

/// Whether g is true wherever f is.
pub fn leq(alloc: Global, f: u8, g: u8) -> Result<bool, Memory> {
    Ok(ite(alloc, f, g, ALWAYS)? == ALWAYS)
}

/// `compose_of`.
#[tactic(auto, using(crate::proofs::EightLemmas::variable_of_eight))]
pub fn compose(alloc: Global, f: u8, variable: Digit, g: u8) -> Result<u8, Memory> {
    let values = compose_of(alloc, &values_of(f), variable.number(), &values_of(g))?;
    Ok(number_of(&values))
}

/// A function of the first two variables, with two others put for both at once. With the third variable in place of the
/// first, one after the other is both at once.
pub fn compose_both(alloc: Global, f: u8, g: u8, h: u8) -> Result<u8, Memory> {
    let renamed = compose(alloc, f, Digit::First, projection(Digit::Third))?;
    let with_second = compose(alloc, renamed, Digit::Second, h)?;
    compose(alloc, with_second, Digit::Third, g)
}

/// `exists_of`.
#[tactic(auto, using(crate::proofs::EightLemmas::variables_of_eight))]
pub fn exists(alloc: Global, f: u8, variables: &[Digit]) -> Result<u8, Memory> {
    let variables = numbers_of(alloc, variables)?;
    let values = exists_of(alloc, &values_of(f), &variables)?;
    Ok(number_of(&values))
}

/// `forall_of`.
#[tactic(auto, using(crate::proofs::EightLemmas::variables_of_eight))]
pub fn forall(alloc: Global, f: u8, variables: &[Digit]) -> Result<u8, Memory> {
    let variables = numbers_of(alloc, variables)?;
    let values = forall_of(alloc, &values_of(f), &variables)?;
    Ok(number_of(&values))
}

/// The product of the variables by which the cofactors of a function differ.
pub fn support(alloc: Global, f: u8) -> Result<u8, Memory> {
    let mut support = ALWAYS;
    for variable in DIGITS {
        let with = compose(alloc, f, variable, ALWAYS)?;
        let without = compose(alloc, f, variable, NEVER)?;
        if with != without {
            support = ite(alloc, support, projection(variable), NEVER)?;
        }
    }
    Ok(support)
}

/// `restrict_holds`.
pub fn restricts(f: u8, c: u8, r: u8) -> bool {
    restrict_holds(&values_of(f), &values_of(c), &values_of(r))
}

/// The family that a command is to make.
#[tactic(auto, using(crate::proofs::EightLemmas::variable_of_eight))]
pub fn family(alloc: Global, command: Command) -> Result<u8, Memory> {
    let members = match command {
        Command::Union(p, q) => union_of(alloc, &values_of(p), &values_of(q))?,
        Command::Meet(p, q) => meet_of(alloc, &values_of(p), &values_of(q))?,
        Command::Diff(p, q) => diff_of(alloc, &values_of(p), &values_of(q))?,
        Command::On(p, e) => on_of(alloc, &values_of(p), e.number())?,
        Command::Off(p, e) => off_of(alloc, &values_of(p), e.number())?,
        Command::Flip(p, e) => flip_of(alloc, &values_of(p), e.number())?,
        Command::Product(p, q) => product_of(alloc, &values_of(p), &values_of(q))?,
        Command::Quotient(p, q) => quotient_of(alloc, &values_of(p), &values_of(q))?,
    };
    Ok(number_of(&members))
}

/// `plus_of` of the values of two functions of two variables.
pub fn plus(alloc: Global, f: [i64; 4], g: [i64; 4]) -> Result<Option<Vec<i64>>, Memory> {
    plus_of(alloc, &f, &g)
}

/// `sum_of` of the values of a function of two variables.
#[tactic(auto, using(crate::proofs::FourLemmas::size_of_four, crate::proofs::FourLemmas::variable_of_four))]
pub fn sum(alloc: Global, f: [i64; 4], variable: u32) -> Result<Option<Vec<i64>>, Memory>
    requires { variable < 2 }
{
    sum_of(alloc, &f, variable)
}
