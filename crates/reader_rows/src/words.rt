//! What each line of a file asks for as the words of a command line.

use crate::orders::told;
use command_words::read_words;
use edge_bits::Memory;
use std::alloc::{AllocError, Global};
use std::io;

/// Adds the words of a line.
fn add_words(words: &mut Vec<String>, alloc: Global, line: &str) -> Result<(), AllocError> {
    for word in line.split_whitespace() {
        let word = String::from_str(alloc, word)?;
        words.push(word)?;
    }
    Ok(())
}

/// The words of a line.
fn words_of(alloc: Global, line: &str) -> Result<Vec<String>, AllocError> {
    let mut words = Vec::new(alloc);
    add_words(&mut words, alloc, line)?;
    Ok(words)
}

/// What a line asks for.
fn answer(alloc: Global, line: &str) -> Result<String, AllocError> {
    let words = words_of(alloc, line)?;
    match read_words(alloc, &words) {
        Ok(order) => told(alloc, &order),
        Err(Memory) => String::from_str(alloc, "want of memory"),
    }
}

/// Tells what each line of a text asks for.
pub fn tell_lines<R: AllocGlobal + Print>(rt: &R, text: &str) -> io::Result<()> {
    for line in text.lines() {
        let answer = answer(rt.alloc(), line)?;
        println!(rt; "{line} -> {answer}")?;
    }
    Ok(())
}
