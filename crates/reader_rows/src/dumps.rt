//! A stored diagram, as lines.

use dddmp_text::{DddmpError, Dump, read};
use edge_bits::Memory;
use std::alloc::{AllocError, Global};

/// Adds a line of a word and numbers.
fn add_numbers(text: &mut String, word: &str, numbers: &[u32]) -> Result<(), AllocError> {
    text.push_str(word)?;
    for number in numbers {
        write!(text, " {number}")?;
    }
    text.push_str("\n")
}

/// Adds the node lines.
fn add_nodes(text: &mut String, dump: &Dump) -> Result<(), AllocError> {
    for line in dump.nodes.as_slice() {
        write!(text, "node {} {} {}\n", line.var, line.hi, line.lo)?;
    }
    Ok(())
}

/// Adds the roots.
fn add_roots(text: &mut String, dump: &Dump) -> Result<(), AllocError> {
    text.push_str("roots")?;
    for root in dump.roots.as_slice() {
        write!(text, " {root}")?;
    }
    text.push_str("\n")
}

/// A stored diagram, as lines.
fn told_of(alloc: Global, dump: &Dump) -> Result<Vec<u8>, AllocError> {
    let mut text = format!(in alloc; "variables {}\n", dump.nvars)?;
    add_numbers(&mut text, "ids", dump.ids.as_slice())?;
    add_numbers(&mut text, "permids", dump.permids.as_slice())?;
    add_nodes(&mut text, dump)?;
    add_roots(&mut text, dump)?;
    Ok(text.into_bytes())
}

/// The stored diagram of a text, as lines, or why it was not read.
pub fn told(alloc: Global, text: &[u8]) -> Result<Vec<u8>, Memory> {
    match read(alloc, text) {
        Ok(dump) => Ok(told_of(alloc, &dump)?),
        Err(DddmpError::Memory) => Err(Memory),
        Err(DddmpError::Fault(fault)) => {
            let line = format!(in alloc; "fault {fault}\n")?;
            Ok(line.into_bytes())
        }
    }
}
