//! Why a text is not read.

ghost use Rattle.std.specs.Prelude.{◌≡◌};
ghost use Rattle.dddmp_text.specs.Reading.{stopped_at};

use std::alloc::{AllocError, AllocFailed};
use thiserror::Error;

/// What is wrong with a line.
#[derive(Debug, Clone, Copy, PartialEq, Eq, Error)]
pub enum FaultKind {
    /// Before `.nodes` an unknown word, a due word twice, or a line of another form than is due.
    #[error("header")]
    Header,
    /// One of the ten due words did not come before `.nodes`, or `.nodes` did not come.
    #[error("missing")]
    Missing,
    /// A list of another length than is said, or another number of node lines.
    #[error("count")]
    Count,
    /// A node line of another form than is due, or of another index than the next.
    #[error("node")]
    Node,
    /// A child whose index is not below that of its parent.
    #[error("order")]
    Order,
    /// More variables than `MOST_VARIABLES`, or one that is not among them.
    #[error("variable")]
    Variable,
    /// A root that is 0 or beyond the nodes.
    #[error("root")]
    Root,
    /// The text ends before `.end`.
    #[error("end")]
    End,
}

/// The first faulty line of a text, counted from 1, and its first fault. Where a text ends too early, the line is the one behind
/// its last.
#[derive(Debug, Clone, Copy, PartialEq, Eq, Error)]
#[error("{line} {what}")]
pub struct DddmpFault {
    pub line: u64,
    pub what: FaultKind,
}

/// Why a text was not read.
#[derive(Debug, Clone, Copy, PartialEq, Eq, Error)]
pub enum DddmpError {
    /// Memory was wanting.
    #[error("memory")]
    Memory,
    /// The text is not that of a stored diagram.
    #[error("{0}")]
    Fault(DddmpFault),
}

/// Why a line was not taken.
#[derive(Debug, Clone, Copy, PartialEq, Eq)]
pub enum DddmpStop {
    Memory,
    Fault(FaultKind),
}

impl DddmpStop {
    /// Why a text was not read of which the line of this number was not taken.
    pub fn at(self, line: u64) -> DddmpError
        ensures { result ≡ stopped_at line self }
    {
        match self {
            DddmpStop::Memory => DddmpError::Memory,
            DddmpStop::Fault(what) => DddmpError::Fault(DddmpFault { line, what }),
        }
    }
}

impl From<FaultKind> for DddmpStop {
    ghost use Rattle.dddmp_text.specs.declared.faults.DddmpStop.TheVariants.{Fault};

    ghost from_gives = { λ what e. e ≡ Fault what };

    fn from(what: FaultKind) -> DddmpStop {
        DddmpStop::Fault(what)
    }
}

impl From<AllocError> for DddmpStop {
    ghost use Rattle.dddmp_text.specs.declared.faults.DddmpStop.TheVariants.{Memory};

    ghost from_gives = { λ _ e. e ≡ Memory };

    fn from(_: AllocError) -> DddmpStop {
        DddmpStop::Memory
    }
}

impl<T: Drop> From<AllocFailed<T>> for DddmpStop {
    ghost use Rattle.dddmp_text.specs.declared.faults.DddmpStop.TheVariants.{Memory};

    ghost from_gives = { λ _ e. e ≡ Memory };

    fn from(_: AllocFailed<T>) -> DddmpStop {
        DddmpStop::Memory
    }
}

impl From<AllocError> for DddmpError {
    ghost use Rattle.dddmp_text.specs.declared.faults.DddmpError.TheVariants.{Memory};

    ghost from_gives = { λ _ e. e ≡ Memory };

    fn from(_: AllocError) -> DddmpError {
        DddmpError::Memory
    }
}
