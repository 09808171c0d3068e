//! What a row's run answers, and what is told of it.

use crate::row::{Due, Judge, Row};
use net_jobs::{Bytes, Gate, Pieces, run};
use std::alloc::{AllocError, Global};
use std::fmt;
use std::random::RandomSource;
use std::sync::Wait;
use std::sync::atomic::{AtomicU32, Ordering};
use std::thread::Threads;

/// A gate that counts the calls of worker 0 in the order of their items, and the others.
#[derive(Drop)]
struct Counting {
    passed: AtomicU32,
    others: AtomicU32,
}

impl Gate for Counting {
    fn pass(&self, worker: u32, item: u32) {
        if worker == 0 && item == self.passed.load(Ordering::SeqCst) {
            self.passed.fetch_add(1, Ordering::SeqCst);
        } else {
            self.others.fetch_add(1, Ordering::SeqCst);
        }
    }
}

/// What came of a run.
#[derive(Drop)]
struct Answer {
    status: u8,
    /// How often the gate was passed in order.
    passed: u32,
    /// The other calls of the gate.
    others: u32,
    text: Vec<u8>,
}

/// How a row went.
#[derive(Drop)]
enum Outcome {
    /// As it says.
    AsDue,
    /// Not as it says: what came, with its text for a person.
    NotAsDue { answer: Answer, text: String },
    /// It was not played, for this line.
    Malformed { line: String },
}

/// What is told of a row.
#[derive(Drop)]
pub struct Told {
    name: String,
    outcome: Outcome,
}

impl Due {
    /// Whether the answer is as it has to be.
    fn is_met_by(&self, answer: &Answer) -> bool {
        self.status == answer.status
            && self.passed == answer.passed
            && self.others == answer.others
            && (self.judge == Judge::Elsewhere || self.text.as_slice() == answer.text.as_slice())
    }
}

/// Adds the words of a command line.
fn add_words(words: &mut Vec<String>, alloc: Global, line: &str) -> Result<(), AllocError> {
    for word in line.split_whitespace() {
        let word = word.to_string(alloc)?;
        words.push(word)?;
    }
    Ok(())
}

/// The words of a command line.
fn words_of(alloc: Global, line: &str) -> Result<Vec<String>, AllocError> {
    let mut words = Vec::new(alloc);
    add_words(&mut words, alloc, line)?;
    Ok(words)
}

/// Runs a command line from the source to the sink.
fn answer_of<R: Threads + Wait + Sync + RandomSource>(
    rt: &R,
    alloc: Global,
    line: &str,
    source: &mut Bytes,
    sink: &mut Pieces,
) -> Result<Answer, AllocError> {
    let words = words_of(alloc, line)?;
    let gate = Counting {
        passed: AtomicU32::new(0),
        others: AtomicU32::new(0),
    };
    let status = run(rt, alloc, &words, source, sink, &gate);
    Ok(Answer {
        status: status.code(),
        passed: gate.passed.load(Ordering::SeqCst),
        others: gate.others.load(Ordering::SeqCst),
        text: Vec::from_slice(alloc, sink.written())?,
    })
}

/// How a row went that was played.
fn judged(alloc: Global, due: &Due, answer: Answer) -> Result<Outcome, AllocError> {
    if due.is_met_by(&answer) {
        return Ok(Outcome::AsDue);
    }
    let text = String::from_utf8_lossy(alloc, answer.text.as_slice())?;
    Ok(Outcome::NotAsDue { answer, text })
}

/// How a row goes that is played, where no line of it is malformed.
fn outcome_of<R: Threads + Wait + Sync + RandomSource>(
    rt: &R,
    alloc: Global,
    row: Row,
) -> Result<Outcome, AllocError> {
    let Row {
        words,
        source,
        sink,
        input,
        due,
        malformed,
        ..
    } = row;
    if let Some(line) = malformed {
        return Ok(Outcome::Malformed { line });
    }
    let mut source = Bytes::new(input, source.step.get(), source.fails);
    let mut sink = Pieces::new(Vec::new(alloc), sink.step.get(), sink.fails);
    let answer = answer_of(rt, alloc, words.as_str(), &mut source, &mut sink)?;
    judged(alloc, &due, answer)
}

/// Plays a row.
pub fn play<R: Threads + Wait + Sync + RandomSource>(
    rt: &R,
    alloc: Global,
    row: Row,
) -> Result<Told, AllocError> {
    let name = row.name.clone()?;
    let outcome = outcome_of(rt, alloc, row)?;
    Ok(Told { name, outcome })
}

impl fmt::Display for Told {
    fn fmt<W: fmt::Write>(&self, f: &mut fmt::Formatter<W>) -> fmt::Result {
        let name = self.name.as_str();
        match &self.outcome {
            Outcome::AsDue => write!(f, "ok {name}"),
            Outcome::NotAsDue { answer, text } => {
                let Answer {
                    status,
                    passed,
                    others,
                    ..
                } = answer;
                write!(
                    f,
                    "NOT AS DUE {name}\nstatus {status}, passed {passed}, other calls of the gate {others}, and this text:\n{text}"
                )
            }
            Outcome::Malformed { line } => write!(f, "NOT AS DUE {name}\na malformed line: {line}"),
        }
    }
}
