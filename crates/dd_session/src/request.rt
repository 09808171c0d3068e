//! A call and its answer, as data of one type each, so that one function draws the places of all calls.

use function_laws::{Making, Name, Order};
use operator_calls::Unmade;
use shared_store::Cell;

/// A call, with what was passed.
#[derive(Clone, Copy)]
pub enum Request<'a> {
    /// A function is made of others.
    Makes(Making<Name, &'a [u32], &'a [(u32, Name)]>),
    Leq(Name, Name),
    Eval(Name, &'a [bool]),
    Post(u32, Name),
    Fetch(u32, Name),
    Sweep,
    /// A level of an order and the next are exchanged.
    Swap(Order, u32),
}

/// A call on the rows of a session alone, with its answer.
#[derive(Clone, Copy)]
pub enum Alone {
    /// A row was copied, under this name. Its slot has this generation.
    Copied(Name, Name, u32),
    /// The row of this name is gone.
    Dropped(Name),
    /// Two rows were compared.
    Compared(Name, Name, bool),
}

/// How a row came to be.
#[derive(Clone, Copy)]
pub enum Adding {
    /// The call has one function.
    Made,
    /// It is one of several functions.
    Chosen,
    /// It is that of a cell, or not.
    Taken(bool),
}

/// What a call is answered.
#[derive(Clone, Copy)]
pub enum Answer {
    /// A new row, under this name. Its slot has this generation.
    Added(Adding, Name, Cell, u32),
    /// This stands in the cell from now on.
    Posted(u32, Cell),
    Truth(bool),
    Value(i64),
    Done,
    /// The call ran to its end and made nothing.
    Unmade(Unmade),
    /// The slots in use, and those that were needed.
    Full(u32, u32),
}
