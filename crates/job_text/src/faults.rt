//! Why a text is not read.

ghost use Rattle.std.specs.Prelude.{◌≡◌};

use std::alloc::{AllocError, AllocFailed};

/// What is wrong with a line.
#[derive(Debug, Clone, Copy, PartialEq, Eq)]
pub enum FaultKind {
    /// An unknown word, a wrong number of words, a word of another form than is due, a line out of its order, a byte that may not stand in a text, or an end before any session.
    Word,
    /// A register that was not assigned before in this section, or was dropped.
    Name,
    /// A register of another kind of diagram than is due.
    Kind,
    /// A number out of its range, bits of a wrong length, a variable that stands twice in `vcompose`, or too few elements for literals.
    Range,
    /// A session too many, or a limit out of its range.
    Limit,
    /// A target that was assigned before in this section.
    Again,
}

/// The first faulty line of a text, counted from 1, and its first fault. Where a text ends before any session, the line is the one behind its last.
#[derive(Debug, Clone, Copy, PartialEq, Eq)]
pub struct JobFault {
    pub line: u64,
    pub what: FaultKind,
}

/// Why a text was not read.
#[derive(Debug, Clone, Copy, PartialEq, Eq)]
pub enum JobError {
    /// Memory was wanting.
    Memory,
    /// The text is not that of a job.
    Fault(JobFault),
}

/// Why a line was not taken.
#[derive(Debug, Clone, Copy, PartialEq, Eq)]
pub enum JobStop {
    Memory,
    Fault(FaultKind),
}

impl From<FaultKind> for JobStop {
    ghost use Rattle.job_text.specs.declared.faults.JobStop.TheVariants.{Fault};

    ghost from_gives = { λ kind stop. stop ≡ Fault kind };

    fn from(kind: FaultKind) -> JobStop {
        JobStop::Fault(kind)
    }
}

impl From<AllocError> for JobStop {
    ghost use Rattle.job_text.specs.declared.faults.JobStop.TheVariants.{Memory};

    ghost from_gives = { λ _ e. e ≡ Memory };

    fn from(_: AllocError) -> JobStop {
        JobStop::Memory
    }
}

impl<T: Drop> From<AllocFailed<T>> for JobStop {
    ghost use Rattle.job_text.specs.declared.faults.JobStop.TheVariants.{Memory};

    ghost from_gives = { λ _ e. e ≡ Memory };

    fn from(_: AllocFailed<T>) -> JobStop {
        JobStop::Memory
    }
}
