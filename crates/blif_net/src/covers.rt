//! Covers as they are read, row by row.

ghost use Rattle.std.specs.Prelude.{◌≡◌, length, map, codes, IfOk, IfErr, MatchOption, OnOk, true, false};
ghost use Rattle.std.specs.List.{list_all};
ghost use Rattle.std.specs.Str.{bytes_eq};
ghost use Rattle.blif_net.specs.CoverTexts.{is_bit, is_literal};
ghost use Rattle.blif_net.specs.OpenCovers.{CubeStop, IsRead, IsReadRow, RowStop, StopsRow, TakesRow, WordsStop, takes_output};
ghost use Rattle.blif_wholes.specs.Networks.{literal_of};

use crate::faults::{BlifStop, FaultKind};
use cover_nets::{Cube, Literal};
use edge_bits::List;
use std::alloc::Global;

/// A cover while its rows are read: how many inputs it has, its rows, and their output, which is true where there are none.
#[derive(Drop)]
pub struct OpenCover {
    pub ins: usize,
    pub rows: List<Cube>,
    pub on: bool,
}

/// A row that was read: what it asks of the inputs, and its output.
#[derive(Drop)]
pub struct ReadRow {
    pub cube: Cube,
    pub output: bool,
}

fn literal(b: u8) -> Option<Literal>
    ensures { MatchOption result (is_literal b ≡ false) (λ literal. (is_literal b ≡ true) × (literal ≡ literal_of b)) }
{
    match b {
        b'0' => Some(Literal::Zero),
        b'1' => Some(Literal::One),
        b'-' => Some(Literal::Any),
        _ => None,
    }
}

fn bit(word: &[u8]) -> Option<bool>
    ensures { MatchOption result (is_bit word.now ≡ false) (λ output. (is_bit word.now ≡ true) × (output ≡ bytes_eq word.now (codes "1"))) }
{
    if word == b"1".as_slice() {
        Some(true)
    } else if word == b"0".as_slice() {
        Some(false)
    } else {
        None
    }
}

/// What a word of 0, 1 and - asks of the inputs.
fn cube(alloc: Global, word: &[u8]) -> Result<Cube, BlifStop>
    ensures ok { IfOk result (λ cube. (list_all is_literal word.now ≡ true) × (cube.literals ≡ map literal_of word.now)) }
    ensures stop { IfErr result (CubeStop word.now) }
{
    let mut literals = Vec::with_capacity(alloc, word.len())?;
    for b in word {
        let Some(literal) = literal(*b) else {
            return Err(BlifStop::Fault(FaultKind::Row));
        };
        literals.push(literal)?;
    }
    Ok(Cube {
        literals: List::from_vec(literals),
    })
}

/// The row of a word of 0, 1 and - and an output.
fn row_of_words(alloc: Global, literals: &[u8], output: &[u8]) -> Result<ReadRow, BlifStop>
    ensures ok { IfOk result (IsReadRow literals.now output.now) }
    ensures stop { IfErr result (WordsStop literals.now output.now) }
{
    let Some(output) = bit(output) else {
        return Err(BlifStop::Fault(FaultKind::Row));
    };
    let cube = cube(alloc, literals)?;
    Ok(ReadRow { cube, output })
}

/// The row of these words in a cover with so many inputs.
fn read_row(alloc: Global, ins: usize, words: &[&[u8]]) -> Result<ReadRow, BlifStop>
    ensures ok { IfOk result (IsRead ins (map (λ word. word.now) words.now)) }
    ensures stop { IfErr result (RowStop ins (map (λ word. word.now) words.now)) }
{
    match words {
        [output] => {
            if ins != 0 {
                return Err(BlifStop::Fault(FaultKind::Row));
            }
            row_of_words(alloc, b"".as_slice(), output)
        }
        [literals, output] => {
            if ins == 0 || literals.len() != ins {
                return Err(BlifStop::Fault(FaultKind::Row));
            }
            row_of_words(alloc, literals, output)
        }
        _ => Err(BlifStop::Fault(FaultKind::Row)),
    }
}

impl OpenCover {
    /// Whether a row of this output may stand behind those before it.
    fn takes_output(&self, output: bool) -> bool
        ensures { result ≡ takes_output self.now output }
    {
        self.rows.as_slice().is_empty() || self.on == output
    }

    /// Adds the row of these words.
    pub fn add_row(&mut self, alloc: Global, words: &[&[u8]]) -> Result<(), BlifStop>
        ensures ok { OnOk result (TakesRow self.old (map (λ word. word.now) words.now) self.new) }
        ensures stop { IfErr result (StopsRow self.old (map (λ word. word.now) words.now)) }
    {
        let ReadRow { cube, output } = read_row(alloc, self.ins, words)?;
        if !self.takes_output(output) {
            return Err(BlifStop::Fault(FaultKind::Mixed));
        }
        self.rows.push(cube)?;
        self.on = output;
        Ok(())
    }
}
