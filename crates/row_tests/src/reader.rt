//! The rows of a file.
//!
//! A row says what goes into a run, and what has to come out. Each line begins with a word, and a blank:
//!
//! - `row NAME` begins a row. No other row of the file has its name.
//! - `> LINE` is a line of the row's standard input, which is the text of a job where the words are `play`.
//! - `< LINE` is a line of the text that is due.
//! - `! FAULT` says that the input has this fault, as `4 name`: status 9, and `fault: job FAULT` is due.
//! - `status N` is the exit status that is due, `passed N` how often worker 0 passes the gate, with the items 0, 1, 2 and so on,
//!   and `others N` how often it is passed else: by other workers, or by worker 0 with other items.
//! - `words WORDS` are the words of the command line.
//! - `source STEP CALLS` gives at most STEP bytes a call, and `sink STEP CALLS` takes at most so many. Of CALLS, which may be
//!   left out, each character is for a call, from the first on: `1` fails, and `0` does not, nor does a call behind them.
//! - `feeds N` adds N line feeds to the input.
//! - `legal` says that the text that is due is not the only one: it is judged elsewhere, and here only the status and the
//!   calls of the gate are compared.
//!
//! What is not said of a row is: the words `play`, no input, no text, status 0, no call of the gate, and a source and a sink
//! that pass as many bytes in a call as there are, and never fail.
//!
//! Many rows that are refused differ in one line alone:
//!
//! - `| LINE` is a line that stands at the head of each of them. A `| LINE` behind a row begins this head anew.
//! - `! FAULT: LINE` is a whole row: its input is the head and this line, without a line feed, and has this fault. Its name is
//!   `FAULT: LINE`.
//!
//! In a LINE `\t`, `\r` and `\xHH` stand for one byte, and a `\` at the end of `> LINE`, `< LINE` or `| LINE` drops its line
//! feed. Empty lines and those that begin with `#` say nothing. Any other line is malformed: the row where it stands is not
//! played, and not as due. Where it stands in no row, as at the head of a file, it is told as one.

use crate::line::{LineError, add_bytes, add_line, parse_pace};
use crate::row::{Judge, Row};
use std::alloc::{AllocError, Global};
use std::str::FromStr;

/// The file so far.
#[derive(Drop)]
struct Reading {
    alloc: Global,
    rows: Vec<Row>,
    /// What stands at the head of the rows that differ in one line.
    head: Vec<u8>,
    /// Whether no row stands behind the head.
    is_head_open: bool,
}

/// The number that is the whole text.
fn number<N: FromStr>(text: &str) -> Result<N, LineError>
where
    N::Err: Drop,
{
    text.parse::<N>().map_err(|_| LineError::Malformed)
}

impl Reading {
    /// Begins a row of which only the name is said.
    fn begin(&mut self, name: &str) -> Result<(), LineError> {
        let is_taken = self.rows.iter().any(|row| row.name.as_str() == name);
        self.rows.push(Row::new(self.alloc, name)?)?;
        self.is_head_open = false;
        if is_taken || name.is_empty() {
            return Err(LineError::Malformed);
        }
        Ok(())
    }

    /// Adds a line to the head.
    fn add_to_head(&mut self, line: &str) -> Result<(), LineError> {
        if !self.is_head_open {
            self.head.clear();
            self.is_head_open = true;
        }
        add_line(&mut self.head, line)
    }

    /// Adds a row whose input is the head and this line.
    fn add_refused(&mut self, name: &str, fault: &str, line: &str) -> Result<(), LineError> {
        self.begin(name)?;
        if let Some(row) = self.rows.last_mut() {
            row.input.extend_from_slice(self.head.as_slice())?;
            add_bytes(&mut row.input, line)?;
        }
        self.say("!", fault)
    }

    /// Takes what a line says of the last row.
    fn say(&mut self, word: &str, rest: &str) -> Result<(), LineError> {
        if self.is_head_open {
            return Err(LineError::Malformed);
        }
        let Some(row) = self.rows.last_mut() else {
            return Err(LineError::Malformed);
        };
        match word {
            ">" => add_line(&mut row.input, rest)?,
            "<" => add_line(&mut row.due.text, rest)?,
            "!" => row.due.refuse(self.alloc, rest)?,
            "status" => row.due.status = number(rest)?,
            "passed" => row.due.passed = number(rest)?,
            "others" => row.due.others = number(rest)?,
            "words" => row.words = rest.to_string(self.alloc)?,
            "source" => row.source = parse_pace(self.alloc, rest)?,
            "sink" => row.sink = parse_pace(self.alloc, rest)?,
            "feeds" => row.add_feeds(number(rest)?)?,
            "legal" if rest.is_empty() => row.due.judge = Judge::Elsewhere,
            _ => return Err(LineError::Malformed),
        }
        Ok(())
    }

    /// Takes what a line says.
    fn take(&mut self, line: &str) -> Result<(), LineError> {
        if line.is_empty() || line.starts_with('#') {
            return Ok(());
        }
        let (word, rest) = line.split_once(' ').unwrap_or((line, ""));
        match (word, rest.split_once(": ")) {
            ("row", _) => self.begin(rest),
            ("|", _) => self.add_to_head(rest),
            ("!", Some((fault, last))) => self.add_refused(rest, fault, last),
            _ => self.say(word, rest),
        }
    }

    /// Keeps a malformed line with the row where it stands. Where that is no row, it is one of its own.
    fn keep_malformed(&mut self, line: &str) -> Result<(), AllocError> {
        if self.is_head_open {
            self.rows.push(Row::new(self.alloc, line)?)?;
        }
        if let Some(row) = self.rows.last_mut() {
            row.malformed = Some(line.to_string(self.alloc)?);
        }
        Ok(())
    }

    /// Reads a line.
    fn read(&mut self, line: &str) -> Result<(), AllocError> {
        match self.take(line) {
            Ok(()) => Ok(()),
            Err(LineError::Malformed) => self.keep_malformed(line),
            Err(LineError::Memory) => Err(AllocError),
        }
    }

    /// Reads all lines of a text.
    fn read_all(&mut self, text: &str) -> Result<(), AllocError> {
        for line in text.lines() {
            self.read(line)?;
        }
        Ok(())
    }
}

/// The rows of a file, in order.
pub fn rows(alloc: Global, text: &str) -> Result<Vec<Row>, AllocError> {
    let mut reading = Reading {
        alloc,
        rows: Vec::new(alloc),
        head: Vec::new(alloc),
        is_head_open: true,
    };
    reading.read_all(text)?;
    let Reading { rows, .. } = reading;
    Ok(rows)
}
