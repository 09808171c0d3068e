//! Why a text is not read.

ghost use Rattle.std.specs.Prelude.{◌≡◌};

use blif_drafts::{LineStop, Refusal};
use std::alloc::{AllocError, AllocFailed};
use thiserror::Error;

/// What is wrong with a line, or with the whole network.
#[derive(Debug, Clone, Copy, PartialEq, Eq, Error)]
pub enum FaultKind {
    /// An unknown word after `.`, a row with no open cover, `.names` without a name, a byte out of range, words behind `.end`.
    #[error("word")]
    Word,
    /// A row of another form.
    #[error("row")]
    Row,
    /// A row whose output differs from that of the cover's first.
    #[error("mixed")]
    Mixed,
    /// An input or an output of a cover that is an input or another cover's output.
    #[error("twice")]
    Twice,
    /// More inputs, signals or outputs than are read.
    #[error("too-many")]
    TooMany,
    /// A form that this reader leaves out.
    #[error("left-out")]
    LeftOut,
    /// A `.subckt` of no model, or a further `.model` without a name or with that of another model.
    #[error("model")]
    Model,
    /// A `.subckt` that joins formal names wrongly: a word without `=` between two names, a formal that the model lacks or that stands
    /// twice, or an input that is not joined.
    #[error("formal")]
    Formal,
    /// A used signal that is neither an input nor the output of a cover.
    #[error("undefined")]
    Undefined,
    /// A cover on a cycle, or one that depends on such.
    #[error("cycle")]
    Cycle,
    /// No output is named.
    #[error("no-outputs")]
    NoOutputs,
}

/// The first faulty line, by the number of its first physical line from 1, and its first fault.
/// A text without outputs is faulty at its last line, and at 0 where it has none.
#[derive(Debug, Clone, Copy, PartialEq, Eq, Error)]
#[error("{line} {what}")]
pub struct BlifFault {
    pub line: u64,
    pub what: FaultKind,
}

/// Why a text was not read.
#[derive(Debug, Clone, Copy, PartialEq, Eq, Error)]
pub enum BlifError {
    /// Memory was wanting.
    #[error("memory")]
    Memory,
    /// The text is not that of a network.
    #[error("{0}")]
    Fault(BlifFault),
}

/// Why a line was not taken.
#[derive(Debug, Clone, Copy, PartialEq, Eq)]
pub enum BlifStop {
    Memory,
    Fault(FaultKind),
}

impl From<AllocError> for BlifStop {
    ghost use Rattle.blif_net.specs.declared.faults.BlifStop.TheVariants.{Memory};

    ghost from_gives = { λ _ e. e ≡ Memory };

    fn from(_: AllocError) -> BlifStop {
        BlifStop::Memory
    }
}

impl<T: Drop> From<AllocFailed<T>> for BlifStop {
    ghost use Rattle.blif_net.specs.declared.faults.BlifStop.TheVariants.{Memory};

    ghost from_gives = { λ _ e. e ≡ Memory };

    fn from(_: AllocFailed<T>) -> BlifStop {
        BlifStop::Memory
    }
}

impl From<LineStop> for BlifStop {
    ghost use Rattle.std.specs.Prelude.{◌≡◌};
    ghost use Rattle.blif_net.specs.ModelLines.{stop_of};

    ghost from_gives = { λ stop e. e ≡ stop_of stop };

    fn from(stop: LineStop) -> BlifStop {
        match stop {
            LineStop::Memory => BlifStop::Memory,
            LineStop::Refused(Refusal::Twice) => BlifStop::Fault(FaultKind::Twice),
            LineStop::Refused(Refusal::TooMany) => BlifStop::Fault(FaultKind::TooMany),
        }
    }
}

impl From<AllocError> for BlifError {
    ghost use Rattle.blif_net.specs.declared.faults.BlifError.TheVariants.{Memory};

    ghost from_gives = { λ _ e. e ≡ Memory };

    fn from(_: AllocError) -> BlifError {
        BlifError::Memory
    }
}

impl<T: Drop> From<AllocFailed<T>> for BlifError {
    ghost use Rattle.blif_net.specs.declared.faults.BlifError.TheVariants.{Memory};

    ghost from_gives = { λ _ e. e ≡ Memory };

    fn from(_: AllocFailed<T>) -> BlifError {
        BlifError::Memory
    }
}
