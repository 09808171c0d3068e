//! The operands of a command.

ghost use Rattle.std.specs.Prelude.{◌≡◌};
ghost use Rattle.job_commands.specs.Commands.{no_operands};

use edge_bits::{Kind, List};
use std::alloc::Global;

/// The operands of a command, each sort in the order of their words.
#[derive(Drop)]
pub struct Operands {
    pub registers: List<u32>,
    /// The kind of the last register, or that of a BDD where there is none.
    pub kind: Kind,
    pub variables: List<u32>,
    pub elements: List<u32>,
    pub levels: List<u32>,
    pub cells: List<u8>,
    pub values: List<i64>,
    pub bits: List<bool>,
}

impl Operands {
    /// No operand yet.
    pub fn new(alloc: Global) -> Operands
        ensures { result ≡ no_operands }
    {
        Operands {
            registers: List::new(alloc),
            kind: Kind::Bdd,
            variables: List::new(alloc),
            elements: List::new(alloc),
            levels: List::new(alloc),
            cells: List::new(alloc),
            values: List::new(alloc),
            bits: List::new(alloc),
        }
    }
}
