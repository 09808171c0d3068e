//! A job as it was read: its sizes, its sections and their commands.

use crate::line_words::Words;
use edge_bits::{Kind, List};
use job_commands::Act;

/// A command: its words as in the text, and what it does.
#[derive(Drop)]
pub struct Command {
    pub words: Words,
    pub act: Act,
}

/// A script: the numbers of variables and elements, at most 1,024 each, the limit of slots, and the commands of each session.
#[derive(Drop)]
pub struct Job {
    pub vars: u32,
    pub elements: u32,
    pub limit: u32,
    pub sections: List<List<Command>>,
}

/// A register of a section: its name, whether it was not dropped, and its kind of diagram.
#[derive(Drop)]
pub struct Register {
    pub name: List<u8>,
    pub live: bool,
    pub kind: Kind,
}

/// How many variables and elements there are, at most 1,024 each.
#[derive(Clone, Copy, Drop)]
pub struct Counts {
    pub vars: u32,
    pub elements: u32,
}
