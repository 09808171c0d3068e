//! The node lines.

ghost use Rattle.std.specs.Prelude.{◌≡◌, ◌==◌, ◌≤◌, ◌<◌, ◌^◌, IfErr, IfOk, MatchOption, None, OnOk, Some, length, false};
ghost use Rattle.job_words.specs.Text.{split_words};
ghost use Rattle.dddmp_text.specs.Fields.{is_node, is_terminal};
ghost use Rattle.dddmp_text.specs.Faults.{listing, next_index, words_fault};
ghost use Rattle.dddmp_text.specs.Reading.{AreOfHeader, IsEmptyAtStart, ListsOn, StopIs, TakesNode, fields_in, has_count, line_fault, line_of, read_fault, words_in};

use crate::faults::{DddmpStop, FaultKind};
use crate::fields::{Field, Given, number_in};
use crate::numbers::{END, integer_below};
use edge_bits::{Line, List};
use job_words::{first_word, is_integer, is_number, number_value};
use std::alloc::AllocError;

/// The words of a node line. The id of its variable may be left out.
#[derive(Clone, Copy)]
pub struct NodeWords<'a> {
    pub index: &'a [u8],
    pub id: Option<&'a [u8]>,
    pub internal: &'a [u8],
    pub hi: &'a [u8],
    pub lo: &'a [u8],
}

/// The nodes of the lines so far, and whether that of the constant came.
#[derive(Drop)]
pub struct Listed {
    pub started: bool,
    pub nodes: List<Line>,
}

/// The words of a line, if they are four or five.
fn node_words(line: &[u8]) -> Option<NodeWords<'_>>
    ensures { MatchOption result (has_count (split_words line.now) ≡ false) (λ words. split_words line.now ≡ words_in words) }
{
    let (index, rest) = first_word(line)?;
    let (second, rest) = first_word(rest)?;
    let (third, rest) = first_word(rest)?;
    let (fourth, rest) = first_word(rest)?;
    let Some((fifth, rest)) = first_word(rest) else {
        return Some(NodeWords {
            index,
            id: None,
            internal: second,
            hi: third,
            lo: fourth,
        });
    };
    if first_word(rest).is_some() {
        return None;
    }
    Some(NodeWords {
        index,
        id: Some(second),
        internal: third,
        hi: fourth,
        lo: fifth,
    })
}

/// Whether the line is that of the constant one.
fn is_terminal(words: &NodeWords) -> bool
    ensures { result ≡ is_terminal (words_in words.now) }
{
    let one = b"1".as_slice();
    let zero = b"0".as_slice();
    if words.index != one || words.hi != zero || words.lo != zero {
        return false;
    }
    match words.id {
        Some(id) => id == b"T".as_slice() && words.internal == one,
        None => words.internal == b"T".as_slice() || words.internal == one,
    }
}

/// Whether the line has the form of the node of this index.
fn is_node(words: &NodeWords, index: u32) -> bool
    requires { index < 2 ^ 31 }
    ensures { result ≡ is_node index (fields_in words.now) }
{
    is_number(words.index)
        && number_value(words.index) == index
        && is_number(words.internal)
        && is_number(words.hi)
        && number_value(words.hi) != 0
        && is_integer(words.lo)
        && integer_below(words.lo, 1).is_none()
}

/// The node of a line of this index, by the variables of the internal indices.
fn node(words: &NodeWords, index: u32, variables: &[u32]) -> Result<Line, FaultKind>
    requires index { index < 2 ^ 31 }
    requires few { length variables.now ≤ 2 ^ 31 }
    ensures ok { IfOk result (λ line. (read_fault (length variables.now) index (fields_in words.now) ≡ None) × (line ≡ line_of variables.now (fields_in words.now))) }
    ensures err { IfErr result (λ what. read_fault (length variables.now) index (fields_in words.now) ≡ Some what) }
{
    if !is_node(words, index) {
        return Err(FaultKind::Node);
    }
    let hi = number_value(words.hi);
    if hi >= index {
        return Err(FaultKind::Order);
    }
    let Some(lo) = integer_below(words.lo, index) else {
        return Err(FaultKind::Order);
    };
    let internal = number_value(words.internal) as usize;
    if internal >= variables.len() {
        return Err(FaultKind::Variable);
    }
    Ok(Line {
        var: variables[internal],
        hi,
        lo,
    })
}

impl Listed {
    /// The index of the next line. For so many that it is not below 2^31 there is no memory.
    fn next_index(&self) -> Result<u32, AllocError>
        ensures { IfOk result (λ index. (index ≡ next_index self.now.started self.now.nodes) × (1 ≤ index) × (index < 2 ^ 31)) }
    {
        if !self.started {
            return Ok(1);
        }
        let count = self.nodes.len();
        if count < END as usize - 2 {
            Ok(count as u32 + 2)
        } else {
            Err(AllocError)
        }
    }

    /// Takes a node line of this index.
    fn take_node(&mut self, index: u32, variables: &[u32], line: &[u8]) -> Result<(), DddmpStop>
        requires index { index < 2 ^ 31 }
        requires few { length variables.now ≤ 2 ^ 31 }
        ensures ok { OnOk result (TakesNode self.old index variables.now (split_words line.now) self.new) }
        ensures stop { IfErr result (StopIs (line_fault self.old.started index (length variables.now) (split_words line.now))) }
    {
        let Some(words) = node_words(line) else {
            return Err(DddmpStop::Fault(FaultKind::Node));
        };
        if self.started {
            let node = node(&words, index, variables)?;
            self.nodes.push(node)?;
        } else if is_terminal(&words) {
            self.started = true;
        } else {
            return Err(DddmpStop::Fault(FaultKind::Node));
        }
        Ok(())
    }

    /// Takes a line behind `.nodes`. Whether it is `.end`.
    pub fn take_line(
        &mut self,
        given: &[Given],
        variables: &[u32],
        line: &[u8],
    ) -> Result<bool, DddmpStop>
        requires variables { AreOfHeader given.now variables.now }
        requires empty { IsEmptyAtStart self.old }
        ensures ok { IfOk result (ListsOn given.now self.old (split_words line.now) self.new) }
        ensures stop { IfErr result (StopIs (words_fault (listing given.now self.old.started self.old.nodes) (split_words line.now))) }
    {
        let Some((word, _)) = first_word(line) else {
            return Ok(false);
        };
        let index = self.next_index()?;
        if word != b".end".as_slice() {
            self.take_node(index, variables, line)?;
            return Ok(false);
        }
        if index - 1 != number_in(given, Field::Nnodes) {
            return Err(DddmpStop::Fault(FaultKind::Count));
        }
        Ok(true)
    }
}
