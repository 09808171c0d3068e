//! Models while their lines are read.

use blif_formals::{Call, Definition, Heading, Words};
use blif_models::{Adding, NumberedCover, NumberedLatch};
use edge_bits::List;

/// What stands in a model, by number, where it is not yet known which models its instances are of.
#[derive(Drop)]
pub enum DraftItem {
    Cover(NumberedCover),
    Latch(NumberedLatch),
    /// An instance: the numbers of the actual names that its words join, or none where one of them joins nothing.
    Instance(Option<List<u32>>),
}

/// A model while its lines are read: what begins it, its own names, the definitions of its inputs, its outputs, what each of its lines of
/// inputs adds, and what stands in it in the order of the lines. For each instance among it, in their order, stand the instance's line
/// and the number of the name of its model, and the words behind that name.
#[derive(Drop)]
pub struct Draft<'a> {
    pub heading: Heading,
    pub names: Words,
    pub inputs: List<Definition>,
    pub outputs: List<u32>,
    pub added: List<Adding>,
    pub items: List<DraftItem>,
    pub calls: List<Call>,
    pub joined: List<List<&'a [u8]>>,
}
