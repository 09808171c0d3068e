//! The greatest numbers of things, each told once. Code and clauses cite them by these names, and rest on the bounds between them
//! alone: what one of them is can be changed here.

use crate::permanent::{FIRST_ELEMENT, FIRST_PROJECTION};

/// The most levels of an order.
pub const MOST_LEVELS: u32 = 1_024;

/// The most variables of a manager, inputs of a network and variables of a stored diagram.
pub const MOST_VARIABLES: u32 = MOST_LEVELS;

/// The most elements of a manager.
pub const MOST_ELEMENTS: u32 = MOST_LEVELS;

/// The most slots of a store. A word has 23 bits for a slot, and the last number is none.
pub const MOST_SLOTS: u32 = 8_388_607;

/// The most sessions of a manager, and sections of a job.
pub const MOST_SESSIONS: u32 = 64;

/// The most rows of a session.
pub const MOST_ROWS: u32 = 1 << 25;

/// The cells of the board.
pub const CELLS: u32 = 256;

/// The most that a slot is counted: by every row of all sessions and every cell.
pub const MOST_COUNT: u32 = MOST_SESSIONS * MOST_ROWS + CELLS;

/// The most bits of the two numbers whose network is generated.
pub const MOST_BITS: u32 = 256;

/// The most inputs and outputs of covers of a network together.
pub const MOST_SIGNALS: u32 = 1_048_576;

/// The most outputs of a network.
pub const MOST_OUTPUTS: u32 = 1_048_576;

/// The most slots beyond the permanent ones that the command line may ask for.
pub const MOST_LIMIT: u32 = 8_000_000;

/// How many slots there are where no limit is given: of a job all, of a network those beyond the permanent ones.
pub const USUAL_LIMIT: u32 = 262_144;

/// The bytes of the longest text that is read.
pub const LONGEST_TEXT: u32 = 67_108_864;

/// The most bits of a pattern that a network is played on.
pub const LONGEST_PATTERN: u32 = 16_384;

// The bounds by which they are used: a node's number tells variables from elements and fits 15 bits, a slot fits 23, a row's count fits
// 32, and what a job, a network or a text is made of is counted in 32 bits.
const _: () = prove!(MOST_VARIABLES <= FIRST_ELEMENT);

const _: () = prove!(FIRST_ELEMENT + MOST_ELEMENTS <= 1 << 15);

const _: () = prove!(MOST_SLOTS < 1 << 23);

const _: () = prove!(FIRST_PROJECTION + MOST_VARIABLES <= USUAL_LIMIT);

const _: () = prove!(USUAL_LIMIT <= MOST_LIMIT);

const _: () = prove!(FIRST_PROJECTION + MOST_VARIABLES + MOST_LIMIT <= MOST_SLOTS);

const _: () = prove!(2 * MOST_BITS <= MOST_VARIABLES);

const _: () = prove!(LONGEST_TEXT <= 2 * MOST_ROWS);
