//! The functions of a listing.

use crate::tables::{ASSIGNMENTS, Table, bit};
use diagram_dumps::Listing;
use edge_bits::Line;

/// The most lines that are looked at.
const MOST: usize = 30;

/// The values of the first indices of a listing at an assignment: index 1 is the constant one.
type Read = [bool; 32];

/// The value of an index, which is negative where it is complemented. There is none beyond the indices.
fn value_of(read: &Read, index: i64) -> Option<bool> {
    let place = usize::try_from(index.unsigned_abs()).ok()?;
    let value = read.get(place).copied()?;
    Some(value != (index < 0))
}

/// The value of a line, whose arcs lead to earlier ones.
fn value_at(read: &Read, line: &Line, number: usize) -> Option<bool> {
    if bit(number, line.var) {
        value_of(read, i64::from(line.hi))
    } else {
        value_of(read, i64::from(line.lo))
    }
}

/// The values of a listing's indices at an assignment.
fn read_at(lines: &[Line], number: usize) -> Option<Read> {
    if lines.len() > MOST {
        return None;
    }
    let mut read = [true; 32];
    for (at, line) in lines.iter().enumerate() {
        let value = value_at(&read, line, number)?;
        if let Some(place) = read.get_mut(at + 2) {
            *place = value;
        }
    }
    Some(read)
}

/// Whether both roots of a listing have these functions.
pub fn lists(listing: &Listing, first: &Table, second: &Table) -> bool {
    let [one, two] = listing.roots.as_slice() else {
        return false;
    };
    (0..ASSIGNMENTS).all(|number| match read_at(listing.nodes.as_slice(), number) {
        Some(read) => {
            value_of(&read, i64::from(*one)) == Some(first.holds(number))
                && value_of(&read, i64::from(*two)) == Some(second.holds(number))
        }
        None => false,
    })
}
