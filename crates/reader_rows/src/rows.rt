//! The rows of a file.
//!
//! A row is the text of a network, and what has to be read of it; or what is known of its outputs as well, and what has to be written
//! of it; or the text of a stored diagram, and what has to be read of that. Each line begins with a word, and a blank:
//!
//! - `row NAME` begins a row, and `dump NAME` one of a stored diagram.
//! - `> LINE` is a line of the text.
//! - `! FAULT` says that the text has this fault, as `4 mixed`.
//! - `nodes NUMBER` says that a report has to be written, of so many nodes.
//! - `class FIRST SIGN` is the class of the next output: the first output that is equal to it up to complement, and `-` where it
//!   is the complement of that.
//! - `eval BITS VALUES` is a pattern, and the outputs' values there.
//! - `order VARIABLE ..` are the variables from the top.
//! - `< LINE` is a line of the report and of the summary behind it; or, where none has to be written, of the network that has to be
//!   read: `inputs` and their names; for each gate, in some order of them, `gate`, the signals that it reads, `on` or `off`, and `|`
//!   with its word for each row; for each output `output`, its name and its signal. Of a stored diagram they are `variables` and how
//!   many; `ids`; `permids`; for each node `node`, its variable, its then and its else child; `roots`.
//!
//! In a LINE `%HH` stands for the byte of these two digits, and a `%` at its end drops its line feed. Other lines say nothing.

use edge_bits::List;
use net_reports::{Class, Evaluation};
use std::alloc::{AllocError, Global};

/// What a text is that of.
#[derive(Clone, Copy, PartialEq, Eq)]
pub enum Subject {
    Network,
    StoredDiagram,
}

/// A text, what is known of the network's outputs, and what is due.
#[derive(Drop)]
pub struct Row {
    pub name: String,
    pub subject: Subject,
    pub text: Vec<u8>,
    pub classes: Vec<Class>,
    pub evaluations: Vec<Evaluation>,
    pub order: Vec<u32>,
    /// The number of nodes, where a report has to be written.
    pub nodes: Option<usize>,
    pub due: Vec<u8>,
}

/// The byte of the first two digits, and what stands behind them.
fn escaped(piece: &str) -> Option<(u8, &str)> {
    let (digits, rest) = piece.split_at_checked(2)?;
    let byte = u8::from_str_radix(digits, 16).ok()?;
    Some((byte, rest))
}

/// Adds the bytes for which a piece behind a `%` stands.
fn add_piece(bytes: &mut Vec<u8>, piece: &str) -> Result<(), AllocError> {
    match escaped(piece) {
        Some((byte, rest)) => {
            bytes.push(byte)?;
            bytes.extend_from_slice(rest.as_bytes())
        }
        None => bytes.extend_from_slice(piece.as_bytes()),
    }
}

/// Adds the bytes for which a line stands.
fn add_bytes(bytes: &mut Vec<u8>, line: &str) -> Result<(), AllocError> {
    let mut pieces = line.split('%');
    bytes.extend_from_slice(pieces.next().unwrap_or("").as_bytes())?;
    for piece in pieces {
        add_piece(bytes, piece)?;
    }
    Ok(())
}

/// Adds the bytes for which a line stands, and a line feed unless a `%` ends it.
fn add_line(bytes: &mut Vec<u8>, line: &str) -> Result<(), AllocError> {
    match line.strip_suffix('%') {
        Some(front) => add_bytes(bytes, front),
        None => {
            add_bytes(bytes, line)?;
            bytes.push(b'\n')?;
            Ok(())
        }
    }
}

/// The bits of a word.
fn bits_of(alloc: Global, word: &str) -> Result<List<bool>, AllocError> {
    let mut bits = Vec::new(alloc);
    for byte in word.as_bytes() {
        bits.push(*byte == b'1')?;
    }
    Ok(List::from_vec(bits))
}

impl Row {
    /// A row of which only the name is said.
    fn new(alloc: Global, name: &str, subject: Subject) -> Result<Row, AllocError> {
        Ok(Row {
            name: name.to_string(alloc)?,
            subject,
            text: Vec::new(alloc),
            classes: Vec::new(alloc),
            evaluations: Vec::new(alloc),
            order: Vec::new(alloc),
            nodes: None,
            due: Vec::new(alloc),
        })
    }

    /// Takes the class of the next output.
    fn add_class(&mut self, rest: &str) -> Result<(), AllocError> {
        let (first, sign) = rest.split_once(' ').unwrap_or((rest, ""));
        if let Ok(first) = first.parse::<usize>() {
            self.classes.push(Class {
                first,
                complement: sign == "-",
            })?;
        }
        Ok(())
    }

    /// Takes a pattern and the outputs' values.
    fn add_evaluation(&mut self, alloc: Global, rest: &str) -> Result<(), AllocError> {
        let (pattern, values) = rest.split_once(' ').unwrap_or((rest, ""));
        self.evaluations.push(Evaluation {
            pattern: bits_of(alloc, pattern)?,
            values: bits_of(alloc, values)?,
        })?;
        Ok(())
    }

    /// Takes the order of the variables.
    fn add_order(&mut self, rest: &str) -> Result<(), AllocError> {
        for word in rest.split(' ') {
            if let Ok(variable) = word.parse::<u32>() {
                self.order.push(variable)?;
            }
        }
        Ok(())
    }

    /// Takes what a line says of the row.
    fn say(&mut self, alloc: Global, word: &str, rest: &str) -> Result<(), AllocError> {
        match word {
            ">" => add_line(&mut self.text, rest),
            "<" => add_line(&mut self.due, rest),
            "!" => {
                self.due.extend_from_slice("fault ".as_bytes())?;
                add_line(&mut self.due, rest)
            }
            "class" => self.add_class(rest),
            "eval" => self.add_evaluation(alloc, rest),
            "order" => self.add_order(rest),
            "nodes" => {
                self.nodes = rest.parse::<usize>().ok();
                Ok(())
            }
            _ => Ok(()),
        }
    }
}

/// What a row is about that begins with the word.
fn subject_of(word: &str) -> Option<Subject> {
    match word {
        "row" => Some(Subject::Network),
        "dump" => Some(Subject::StoredDiagram),
        _ => None,
    }
}

/// Begins the row that a line names, or takes what a line says of the last one.
fn add_to(rows: &mut Vec<Row>, alloc: Global, line: &str) -> Result<(), AllocError> {
    let (word, rest) = line.split_once(' ').unwrap_or((line, ""));
    if let Some(subject) = subject_of(word) {
        let row = Row::new(alloc, rest, subject)?;
        rows.push(row)?;
    } else if let Some(row) = rows.last_mut() {
        row.say(alloc, word, rest)?;
    }
    Ok(())
}

/// Adds the rows of a file.
fn add_rows(rows: &mut Vec<Row>, alloc: Global, text: &str) -> Result<(), AllocError> {
    for line in text.lines() {
        add_to(rows, alloc, line)?;
    }
    Ok(())
}

/// The rows of a file, in order.
pub fn rows(alloc: Global, text: &str) -> Result<Vec<Row>, AllocError> {
    let mut rows = Vec::new(alloc);
    add_rows(&mut rows, alloc, text)?;
    Ok(rows)
}
