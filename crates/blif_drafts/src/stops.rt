//! Why a line of a model is not taken.

ghost use Rattle.std.specs.Prelude.{◌≡◌};

use std::alloc::{AllocError, AllocFailed};

/// What is wrong with a line where it stands.
#[derive(Debug, Clone, Copy, PartialEq, Eq)]
pub enum Refusal {
    /// It defines a signal that is one already.
    Twice,
    /// With it the model has more inputs, signals or outputs than are read.
    TooMany,
}

/// Why a line was not taken.
#[derive(Debug, Clone, Copy, PartialEq, Eq)]
pub enum LineStop {
    /// Memory was wanting.
    Memory,
    /// The line may not stand where it does.
    Refused(Refusal),
}

impl From<AllocError> for LineStop {
    ghost use Rattle.blif_drafts.specs.declared.stops.LineStop.TheVariants.{Memory};

    ghost from_gives = { λ _ e. e ≡ Memory };

    fn from(_: AllocError) -> LineStop {
        LineStop::Memory
    }
}

impl<T: Drop> From<AllocFailed<T>> for LineStop {
    ghost use Rattle.blif_drafts.specs.declared.stops.LineStop.TheVariants.{Memory};

    ghost from_gives = { λ _ e. e ≡ Memory };

    fn from(_: AllocFailed<T>) -> LineStop {
        LineStop::Memory
    }
}
