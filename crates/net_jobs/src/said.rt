//! A line of a history, as it was written.

/// The text of a line, and the place of its call in the history of all sessions.
#[derive(Debug, Drop)]
pub struct Said {
    pub place: u64,
    pub text: Vec<u8>,
}
