//! Arithmetic on machine words. A function of three variables, or a family of combinations of three elements, is a word of
//! eight bits: bit k is its value at place k. Nothing here uses a plain call on lists.

use crate::digits::{DIGITS, Digit};

/// The values of functions of numbers are below 2^46, and at least its opposite.
const LIMIT: i128 = 1 << 46;

/// The places that have the digit: those of its projection.
pub fn with(digit: Digit) -> u8 {
    match digit {
        Digit::First => 0b1010_1010,
        Digit::Second => 0b1100_1100,
        Digit::Third => 0b1111_0000,
    }
}

/// Each value where the place has the digit, put where it has not.
pub fn down(word: u8, digit: Digit) -> u8 {
    (word & with(digit)) >> digit.weight()
}

/// Each value where the place has not the digit, put where it has.
pub fn up(word: u8, digit: Digit) -> u8 {
    (word & !with(digit)) << digit.weight()
}

/// g where f holds, else h.
pub fn ite(f: u8, g: u8, h: u8) -> u8 {
    f & g | !f & h
}

/// Whether g holds wherever f does.
pub fn leq(f: u8, g: u8) -> bool {
    f & !g == 0
}

/// f with a variable set.
pub fn cofactor(f: u8, variable: Digit, value: bool) -> u8 {
    if value {
        f & with(variable) | down(f, variable)
    } else {
        f & !with(variable) | up(f, variable)
    }
}

/// Whether f depends on a variable.
fn depends(f: u8, variable: Digit) -> bool {
    cofactor(f, variable, true) != cofactor(f, variable, false)
}

/// The or of both cofactors, for each of the variables.
pub fn exists(f: u8, variables: &[Digit]) -> u8 {
    variables
        .iter()
        .fold(f, |f, v| cofactor(f, *v, true) | cofactor(f, *v, false))
}

/// The and of both cofactors, for each of the variables.
pub fn forall(f: u8, variables: &[Digit]) -> u8 {
    variables
        .iter()
        .fold(f, |f, v| cofactor(f, *v, true) & cofactor(f, *v, false))
}

/// f with g put for a variable.
pub fn compose(f: u8, variable: Digit, g: u8) -> u8 {
    ite(g, cofactor(f, variable, true), cofactor(f, variable, false))
}

/// f with g put for the first variable and h for the second, both at once.
pub fn compose_both(f: u8, g: u8, h: u8) -> u8 {
    let with_first = cofactor(f, Digit::First, true);
    let without_first = cofactor(f, Digit::First, false);
    ite(
        h,
        ite(
            g,
            cofactor(with_first, Digit::Second, true),
            cofactor(without_first, Digit::Second, true),
        ),
        ite(
            g,
            cofactor(with_first, Digit::Second, false),
            cofactor(without_first, Digit::Second, false),
        ),
    )
}

/// The product of the variables on which f depends.
pub fn support(f: u8) -> u8 {
    DIGITS
        .iter()
        .filter(|v| depends(f, **v))
        .fold(u8::MAX, |product, v| product & with(*v))
}

/// Whether r may be the answer of a restrict of f by c.
pub fn restricts(f: u8, c: u8, r: u8) -> bool {
    let agrees = (f ^ r) & c == 0;
    let depends_on_no_more = DIGITS.iter().all(|v| depends(f, *v) || !depends(r, *v));
    let is_constant_on = f & c == 0 || f & c == c;
    let keeps_constants = c == 0 || !is_constant_on || r == 0 || r == u8::MAX;
    let keeps_false = c != 0 || r == 0;
    agrees && depends_on_no_more && keeps_constants && takes_cofactors(f, c, r) && keeps_false
}

/// If c is the product of some literals, r is the cofactor of f by them. The literals can only be those that hold wherever
/// c does.
fn takes_cofactors(f: u8, c: u8, r: u8) -> bool {
    let mut product = u8::MAX;
    let mut cofactor_of_f = f;
    for v in DIGITS {
        let (is_positive, is_negative) = (leq(c, with(v)), leq(c, !with(v)));
        if is_positive {
            product &= with(v);
            cofactor_of_f = cofactor(cofactor_of_f, v, true);
        }
        if is_negative {
            product &= !with(v);
            cofactor_of_f = cofactor(cofactor_of_f, v, false);
        }
    }
    c == 0 || c != product || r == cofactor_of_f
}

/// Whether a word has a value at a place.
fn has(word: u8, place: u32) -> bool {
    match word.checked_shr(place) {
        Some(rest) => rest & 1 == 1,
        None => false,
    }
}

/// Each combination of p, the elements of one more combination put to it.
fn joined(p: u8, combination: u32) -> u8 {
    DIGITS
        .iter()
        .filter(|e| has(with(**e), combination))
        .fold(p, |p, e| p & with(*e) | up(p, *e))
}

/// The combinations that have no element of one more combination, and give one of p with its elements.
fn parted(p: u8, combination: u32) -> u8 {
    DIGITS
        .iter()
        .filter(|e| has(with(**e), combination))
        .fold(p, |p, e| down(p, *e))
}

/// The unions of a combination of p and one of q.
pub fn product(p: u8, q: u8) -> u8 {
    (0..8)
        .filter(|b| has(q, *b))
        .fold(0, |product, b| product | joined(p, b))
}

/// The combinations that have no element of a combination of q, and give one of p with it, for each of them; none where q is
/// empty.
pub fn quotient(p: u8, q: u8) -> u8 {
    if q == 0 {
        return 0;
    }
    (0..8)
        .filter(|b| has(q, *b))
        .fold(u8::MAX, |quotient, b| quotient & parted(p, b))
}

/// The value, if functions may have it.
pub fn in_range(value: i128) -> Option<i64> {
    if -LIMIT <= value && value < LIMIT {
        Some(value as i64)
    } else {
        None
    }
}

/// The sum of two values, whatever its range.
fn plus(a: i64, b: i64) -> i128 {
    i128::from(a) + i128::from(b)
}

/// The sums of the values with the variable and without it, at each of four places.
pub fn sum([a, b, c, d]: [i64; 4], variable: u32) -> [i128; 4] {
    match variable {
        0 => [plus(a, b), plus(a, b), plus(c, d), plus(c, d)],
        _ => [plus(a, c), plus(b, d), plus(a, c), plus(b, d)],
    }
}

/// The values of f where a truth function of two variables, by number, holds, and those of g elsewhere.
pub fn choice(truth: u8, f: [i64; 4], g: [i64; 4]) -> [i64; 4] {
    [
        if truth & 1 != 0 { f[0] } else { g[0] },
        if truth & 2 != 0 { f[1] } else { g[1] },
        if truth & 4 != 0 { f[2] } else { g[2] },
        if truth & 8 != 0 { f[3] } else { g[3] },
    ]
}

/// The number of the truth function of two variables with these values.
pub fn truth([a, b, c, d]: [bool; 4]) -> u8 {
    u8::from(a) | u8::from(b) << 1 | u8::from(c) << 2 | u8::from(d) << 3
}
