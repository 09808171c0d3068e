//! What a session has in memory.

use handle_count::Rows;

/// The rows of a session, how many calls it made, and how many of them were refused for a full table.
#[derive(Drop)]
pub struct Book {
    pub rows: Rows,
    pub calls: u64,
    pub fulls: u64,
}
