//! Networks of covers, as the Berkeley Logic Interchange Format describes them.

ghost use Rattle.std.specs.Prelude.{◌≡◌};

use crate::rows::Rows;
use edge_bits::List;

/// What a row asks of an input: to be 0, to be 1, or nothing.
#[derive(Debug, Clone, Copy, PartialEq, Eq, Drop)]
pub enum Literal {
    Zero,
    One,
    Any,
}

const _: () = prove!(std::mem::size_of::<Literal>() == 1);

/// A row of a cover: `0`, `1` or `-` for each input.
#[derive(Drop)]
pub struct Cube {
    pub literals: List<Literal>,
}

/// A gate: the signals that it reads, its rows, and whether it is 1 or 0 where a row matches.
#[derive(Drop)]
pub struct Cover {
    pub ins: List<u32>,
    pub rows: Rows,
    pub on: bool,
}

/// An output: its name and its signal.
#[derive(Drop)]
pub struct Output {
    pub name: List<u8>,
    pub signal: u32,
}

/// A network. Its signals are the inputs, and then the gates; each gate stands after the signals that it reads.
#[derive(Drop)]
pub struct Net {
    pub inputs: List<List<u8>>,
    pub outputs: List<Output>,
    pub gates: List<Cover>,
}

impl Net {
    /// The names of the inputs. Input i is signal i.
    pub fn inputs(&self) -> &[List<u8>]
        ensures { result.now ≡ self.now.inputs }
    {
        self.inputs.as_slice()
    }

    /// The outputs, in the order in which the text names them.
    pub fn outputs(&self) -> &[Output]
        ensures { result.now ≡ self.now.outputs }
    {
        self.outputs.as_slice()
    }

    /// The gates, each behind those that it reads. Gate i is the signal behind the inputs and the i gates before it.
    pub fn gates(&self) -> &[Cover]
        ensures { result.now ≡ self.now.gates }
    {
        self.gates.as_slice()
    }
}
