//! Plain tables of functions of three variables and of families of combinations of six elements, and what operations make of them: what
//! is due, reckoned without a node.

use edge_bits::Kind;

/// How many variables there are.
pub const VARIABLES: u32 = 3;

/// How many elements: two for each variable, so that a family may be a cover.
pub const ELEMENTS: u32 = 6;

/// How many patterns of six bits there are.
pub const PATTERNS: usize = 64;

/// How many patterns of three bits.
pub const ASSIGNMENTS: usize = 8;

/// The value at each pattern. Bit i of a pattern's number is the value of variable i, or says whether element i is in a combination. The
/// bits behind those of the variables make no difference to a function of variables.
pub type Values = [i64; PATTERNS];

/// A function of a kind, as its whole list of values.
#[derive(Clone, Copy, PartialEq, Eq)]
pub struct Table {
    pub kind: Kind,
    pub values: Values,
}

/// What a bit counts in a number.
fn weight(place: u32) -> usize {
    match place {
        0 => 1,
        1 => 2,
        2 => 4,
        3 => 8,
        4 => 16,
        _ => 32,
    }
}

/// Whether a bit of a pattern is set.
pub fn bit(number: usize, place: u32) -> bool {
    number & weight(place) != 0
}

/// The six bits of a pattern.
pub fn bits_of(number: usize) -> [bool; 6] {
    [
        bit(number, 0),
        bit(number, 1),
        bit(number, 2),
        bit(number, 3),
        bit(number, 4),
        bit(number, 5),
    ]
}

impl Table {
    /// The table of a function of a pattern's number.
    fn of<F: Fn(usize) -> i64>(kind: Kind, value: F) -> Table
        requires { F.IsAlwaysCallable value }
    {
        let mut values = [0; PATTERNS];
        for (number, place) in values.iter_mut().enumerate() {
            *place = value(number);
        }
        Table { kind, values }
    }

    /// The table of a function that holds at some patterns.
    fn truths<F: Fn(usize) -> bool>(kind: Kind, holds: F) -> Table
        requires { F.IsAlwaysCallable holds }
    {
        Table::of(kind, |number| i64::from(holds(number)))
    }

    /// The value at a pattern.
    pub fn at(&self, number: usize) -> i64 {
        self.values.get(number).copied().unwrap_or(0)
    }

    /// The same values at the first patterns, again and again behind them.
    pub fn repeated(&self) -> Table {
        Table::of(self.kind, |number| self.at(number % ASSIGNMENTS))
    }

    /// Whether the function holds at a pattern, or the family has the combination.
    pub fn holds(&self, number: usize) -> bool {
        self.at(number) != 0
    }
}

/// The function that holds where a variable does.
pub fn variable(v: u32) -> Table {
    Table::truths(Kind::Bdd, |number| bit(number, v))
}

/// The function that holds everywhere.
pub fn one() -> Table {
    Table::truths(Kind::Bdd, |_| true)
}

/// The function that holds where another does not.
pub fn complement(f: &Table) -> Table {
    Table::truths(Kind::Bdd, |number| !f.holds(number))
}

/// The function that holds where both do.
pub fn conjunction(f: &Table, g: &Table) -> Table {
    Table::truths(Kind::Bdd, |number| f.holds(number) && g.holds(number))
}

/// The function that holds where either does.
pub fn disjunction(f: &Table, g: &Table) -> Table {
    Table::truths(Kind::Bdd, |number| f.holds(number) || g.holds(number))
}

/// The function that holds where just one of two does.
pub fn difference(f: &Table, g: &Table) -> Table {
    Table::truths(Kind::Bdd, |number| f.holds(number) != g.holds(number))
}

/// The second function where the first holds, and the third elsewhere.
pub fn choice(f: &Table, g: &Table, h: &Table) -> Table {
    Table::truths(
        Kind::Bdd,
        |number| if f.holds(number) {
            g.holds(number)
        } else {
            h.holds(number)
        },
    )
}

/// The function that holds where another does for some value of a variable.
pub fn exists(f: &Table, v: u32) -> Table {
    Table::truths(
        Kind::Bdd,
        |number| f.holds(number) || f.holds(number ^ weight(v)),
    )
}

/// A function with two others put for its first two variables, both at once.
pub fn composed(f: &Table, first: &Table, second: &Table) -> Table {
    Table::truths(Kind::Bdd, |number| {
        let zero = if first.holds(number) { weight(0) } else { 0 };
        let one = if second.holds(number) { weight(1) } else { 0 };
        f.holds(number & weight(2) | zero | one)
    })
}

/// The constant function of a number.
pub fn constant(value: i64) -> Table {
    Table::of(Kind::Add, |_| value)
}

/// The function that is 1 where another holds.
pub fn number_of(f: &Table) -> Table {
    Table::of(Kind::Add, |number| f.at(number))
}

/// The sum of two functions of small numbers.
pub fn sum(m: &Table, n: &Table) -> Table {
    Table::of(Kind::Add, |number| m.at(number).wrapping_add(n.at(number)))
}

/// The function that holds where a function of numbers is at least a number.
pub fn at_least(m: &Table, value: i64) -> Table {
    Table::truths(Kind::Bdd, |number| m.at(number) >= value)
}

/// The family of some combinations, by their numbers.
pub fn family(members: &[usize]) -> Table {
    Table::truths(Kind::Zdd, |number| members.contains(&number))
}

/// The family of the combination of one element.
pub fn single(e: u32) -> Table {
    family(&[weight(e)])
}

/// The family of the unions of a combination of each of two families.
pub fn product(p: &Table, q: &Table) -> Table {
    let mut values = [0; PATTERNS];
    for first in 0..PATTERNS {
        for second in 0..PATTERNS {
            if p.holds(first) && q.holds(second) {
                if let Some(place) = values.get_mut(first | second) {
                    *place = 1;
                }
            }
        }
    }
    Table {
        kind: Kind::Zdd,
        values,
    }
}

/// Whether all literals of a combination hold at a pattern: element 2v is the variable v, 2v + 1 its complement.
fn fits(members: usize, number: usize) -> bool {
    for v in 0..VARIABLES {
        let literal = if bit(number, v) { 2 * v + 1 } else { 2 * v };
        if bit(members, literal) {
            return false;
        }
    }
    true
}

/// The function that holds where all literals of some combination of a family do.
pub fn of_cover(p: &Table) -> Table {
    let mut values = [0; PATTERNS];
    for (number, place) in values.iter_mut().enumerate() {
        for members in 0..PATTERNS {
            if p.holds(members) && fits(members, number) {
                *place = 1;
            }
        }
    }
    Table {
        kind: Kind::Bdd,
        values,
    }
}

/// Whether one function holds wherever another does.
pub fn is_implied(f: &Table, g: &Table) -> bool {
    (0..PATTERNS).all(|number| !f.holds(number) || g.holds(number))
}

/// Whether two functions agree where a third holds.
pub fn agree_where(f: &Table, g: &Table, care: &Table) -> bool {
    (0..PATTERNS).all(|number| !care.holds(number) || f.holds(number) == g.holds(number))
}
