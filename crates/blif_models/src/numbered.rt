//! Models with numbers in the place of names, and what is laid out of them.

use edge_bits::List;

/// A cover: its line, and the numbers of its inputs' names and of its own.
#[derive(Drop)]
pub struct NumberedCover {
    pub line: u64,
    pub ins: List<u32>,
    pub name: u32,
}

/// A latch: its line, and the numbers of the names of the signal that it reads and of the one that it shows.
#[derive(Debug, Clone, Copy, PartialEq, Eq, Drop)]
pub struct NumberedLatch {
    pub line: u64,
    pub input: u32,
    pub output: u32,
}

/// A formal name's number in its own model, and the number of the actual name that is joined to it.
#[derive(Debug, Clone, Copy, PartialEq, Eq, Drop)]
pub struct NumberedJoin {
    pub formal: u32,
    pub actual: u32,
}

/// An instance: its line, the number of its model, and what it joins.
#[derive(Drop)]
pub struct NumberedInstance {
    pub line: u64,
    pub model: u32,
    pub joins: List<NumberedJoin>,
}

/// What stands in a model, one by one in the order of the lines.
#[derive(Drop)]
pub enum Entry {
    Cover(NumberedCover),
    Latch(NumberedLatch),
    Instance(NumberedInstance),
}

/// A model: how many names it has, which are numbered from 0, and what stands in it.
#[derive(Drop)]
pub struct NumberedModel {
    pub names: u32,
    pub entries: List<Entry>,
}

/// Where a name of the whole stands: the number of the copy, which is 0 for the main model, the copy's model, and the number of
/// the name there.
#[derive(Debug, Clone, Copy, PartialEq, Eq, Drop)]
pub struct Spot {
    pub copy: u64,
    pub model: u32,
    pub name: u32,
}

/// A cover or a latch of the whole, with numbers of its names. A cover tells at which place of which model it stands.
#[derive(Drop)]
pub enum Laid {
    Cover {
        cover: NumberedCover,
        model: u32,
        place: usize,
    },
    Latch(NumberedLatch),
}
