//! Where each word of the table stands. Words that threads fight for stand eight apart, so that no two lie in one line of a cache.

/// The number of calls so far.
pub const JOURNAL: usize = 0;

/// The shares and the bits of the holds.
pub const PHASE: usize = 8;

/// 0, or one more than the number of the session that has the turn.
pub const TURN: usize = 16;

/// The number of sessions that the table was made for. No step stores to it.
pub const SESSIONS: usize = 24;

/// Behind the others the count words, one for each slot.
pub const COUNTS: usize = 32;
