//! A row: what goes into a run, and what has to come out.

use net_jobs::Status;
use std::alloc::{AllocError, Global};
use std::num::NonZeroUsize;

/// How many bytes pass in a call at most, and for each of the first calls whether it fails.
#[derive(Drop)]
pub struct Pace {
    pub step: NonZeroUsize,
    pub fails: Vec<bool>,
}

/// Where a text is judged.
#[derive(Clone, Copy, PartialEq, Eq)]
pub enum Judge {
    /// Here: it has to be the row's.
    Here,
    /// Elsewhere, since there may be another one that is right.
    Elsewhere,
}

/// What has to come of a run.
#[derive(Drop)]
pub struct Due {
    /// The exit status.
    pub status: u8,
    /// How often worker 0 passes the gate, and how often the others do.
    pub passed: u32,
    pub others: u32,
    pub text: Vec<u8>,
    pub judge: Judge,
}

/// A run that is due.
#[derive(Drop)]
pub struct Row {
    pub name: String,
    pub words: String,
    pub source: Pace,
    pub sink: Pace,
    /// What the source gives.
    pub input: Vec<u8>,
    pub due: Due,
    /// A malformed line that stands in this row of the file.
    pub malformed: Option<String>,
}

impl Pace {
    /// As many bytes in a call as there are, and no failing call.
    fn free(alloc: Global) -> Pace {
        Pace {
            step: NonZeroUsize::MAX,
            fails: Vec::new(alloc),
        }
    }
}

impl Due {
    /// Has the input be refused for this fault.
    pub fn refuse(&mut self, alloc: Global, fault: &str) -> Result<(), AllocError> {
        let line = format!(in alloc; "fault: job {fault}\n")?;
        self.text.extend_from_slice(line.as_bytes())?;
        self.status = Status::Job.code();
        Ok(())
    }
}

impl Row {
    /// A row of which only the name is said.
    pub fn new(alloc: Global, name: &str) -> Result<Row, AllocError> {
        Ok(Row {
            name: name.to_string(alloc)?,
            words: "play".to_string(alloc)?,
            source: Pace::free(alloc),
            sink: Pace::free(alloc),
            input: Vec::new(alloc),
            due: Due {
                status: Status::Ok.code(),
                passed: 0,
                others: 0,
                text: Vec::new(alloc),
                judge: Judge::Here,
            },
            malformed: None,
        })
    }

    /// Adds so many line feeds to the input.
    pub fn add_feeds(&mut self, count: u32) -> Result<(), AllocError> {
        let len = self.input.len().saturating_add(count as usize);
        self.input.resize(len, b'\n')?;
        Ok(())
    }
}
