//! What comes of a call, and of a kind of call.

use std::fmt;

/// What is not as it is due.
#[derive(Clone, Copy)]
pub enum Wrong {
    /// A row is not of the kind that the call takes, or there are too many rows or calls.
    Rows,
    /// The store is full.
    Full,
    /// Nothing was made.
    Unmade,
    /// A new row has another function.
    Made,
    /// There are more rows, or fewer.
    Count,
    /// A row has another function than before.
    Row,
    /// Two rows are told to be the same, and are not, or the other way round.
    Same,
    /// The board has another function.
    Board,
    /// A question is answered wrongly.
    Answer,
    /// A listing tells other functions.
    Listing,
    /// There is less room for rows than was asked for, or than before.
    Room,
    /// A refused call drew a place.
    Place,
    /// A call was refused that takes no memory.
    Refused,
}

impl fmt::Display for Wrong {
    fn fmt<W: fmt::Write>(&self, f: &mut fmt::Formatter<W>) -> fmt::Result {
        f.write_str(match self {
            Wrong::Rows => "rows that it does not take",
            Wrong::Full => "full",
            Wrong::Unmade => "nothing made",
            Wrong::Made => "another function made",
            Wrong::Count => "more rows or fewer",
            Wrong::Row => "another function of a row",
            Wrong::Same => "same told wrongly",
            Wrong::Board => "another function on the board",
            Wrong::Answer => "another answer",
            Wrong::Listing => "another listing",
            Wrong::Room => "less room for rows",
            Wrong::Place => "a place for a refused call",
            Wrong::Refused => "refused what takes no memory",
        })
    }
}

/// Why a call did not come out as it is due.
#[derive(Clone, Copy)]
pub enum Stop {
    Memory,
    Wrong(Wrong),
}

/// How often a kind of call was refused.
#[derive(Clone, Copy, PartialEq, Eq)]
pub enum Outcome {
    Served,
    /// Once, and the same call was served then.
    Refused,
    /// And the same call again.
    RefusedTwice,
}

impl Outcome {
    /// The one of two with more refusals.
    pub fn worse(self, other: Outcome) -> Outcome {
        match (self, other) {
            (Outcome::RefusedTwice, _) => self,
            (Outcome::Refused, Outcome::Served) => self,
            _ => other,
        }
    }
}

impl fmt::Display for Outcome {
    fn fmt<W: fmt::Write>(&self, f: &mut fmt::Formatter<W>) -> fmt::Result {
        f.write_str(match self {
            Outcome::Served => "served",
            Outcome::Refused => "refused",
            Outcome::RefusedTwice => "refused twice",
        })
    }
}
