//! The entries of a history. Contracts speak of them and views carry them; of all this a program makes names alone.

use crate::making::Making;
use std::collections::LinkedList;

/// A row of one session.
#[derive(Debug, Clone, Copy, PartialEq, Eq, Drop)]
pub struct Name {
    /// The place of the row.
    pub row: u32,
    /// How many rows the session had added before it.
    pub generation: u64,
}

/// The whole list of a function's values, the value at assignment k at place k.
#[derive(Drop)]
pub enum Function {
    /// A function of the n variables: 2^n truth values.
    Bdd(LinkedList<bool>),
    /// A function of the n variables: 2^n whole numbers from -2^46 to 2^46 - 1.
    Add(LinkedList<i64>),
    /// A family of combinations of the m elements: 2^m truth values.
    Zdd(LinkedList<bool>),
}

/// What a sift found at its start, and the order that it left.
#[derive(Drop)]
pub struct Sifting {
    /// The variables by position.
    pub variables: LinkedList<u32>,
    /// The elements by position.
    pub elements: LinkedList<u32>,
    /// The functions that it pinned.
    pub functions: LinkedList<Function>,
    /// What it sifted, the variables or the elements, by position at its end.
    pub order: LinkedList<u32>,
}

/// A call with a place. Operands are names of the session; variables, elements, levels and cells are numbers from 0 on.
#[derive(Drop)]
pub enum Call {
    /// A function is made of others.
    Makes(Making<Name, LinkedList<u32>, LinkedList<(u32, Name)>>),
    // Rows and the board.
    Copy(Name),
    DropRow(Name),
    Same(Name, Name),
    /// The second holds wherever the first does.
    Leq(Name, Name),
    /// The value at the bits of variables 0, 1, .., or of elements.
    Eval(Name, LinkedList<bool>),
    Post(u32, Name),
    /// The name stands for the function where the cell has none of its kind.
    Fetch(u32, Name),
    // What changes no function.
    Sweep,
    Swap(u32),
    SwapElements(u32),
    Sift(Sifting),
    SiftElements(Sifting),
    // One more variable or element.
    AddVar,
    AddElement,
}

/// What a call replied.
#[derive(Drop)]
pub enum Reply {
    /// A new name.
    Made(Name),
    /// A new name, and the function that was chosen for it: by a restrict, or as a cover between two functions.
    Chose(Name, Function),
    /// A new name, and whether its function came from the board.
    Fetched(Name, bool),
    /// A new name, and the number of the new variable or element.
    Numbered(Name, u32),
    Done,
    /// Yes or no.
    Truth(bool),
    Value(i64),
    /// A value of the result is out of range.
    Overflow,
    /// The function that a cover is to reach holds somewhere where the one that it is to stay within does not.
    Apart,
    /// There are as many variables or elements as there may be.
    Most,
    /// The node table is full: the slots in use, and those that were needed.
    Full(u32, u32),
}

/// A call at its place.
#[derive(Drop)]
pub struct Entry {
    /// How many calls of all sessions stand before it.
    pub place: u64,
    /// The session's number.
    pub session: u32,
    pub call: Call,
    pub reply: Reply,
}
