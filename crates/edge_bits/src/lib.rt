//! Kinds of diagram, edges, the words of the one node table, and the lists that public types hold.
#![tactic(auto)]

mod edges;
mod limits;
mod lists;
mod mixing;
mod permanent;
mod words;

pub use edges::{Edge, Kind, Line};
pub use limits::{
    CELLS, LONGEST_PATTERN, LONGEST_TEXT, MOST_BITS, MOST_COUNT, MOST_ELEMENTS, MOST_LEVELS,
    MOST_LIMIT, MOST_OUTPUTS, MOST_ROWS, MOST_SESSIONS, MOST_SIGNALS, MOST_SLOTS, MOST_VARIABLES,
    USUAL_LIMIT,
};
pub use lists::{List, Memory};
pub use mixing::{scatter, spread};
pub use permanent::{
    BASE_SLOT, EMPTY_SLOT, FIRST_ELEMENT, FIRST_PROJECTION, LEAST_VALUE, ONE_SLOT, TRUE_SLOT,
    VALUE_END, ZERO_SLOT,
};
pub use words::{Node, Word, pack, unpack};
