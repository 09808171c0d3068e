//! Why no text is written.

ghost use Rattle.std.specs.Prelude.{◌≡◌};

use std::alloc::AllocError;
use thiserror::Error;

/// Why a dump is not written as a network.
#[derive(Debug, Clone, Copy, PartialEq, Eq, Error)]
pub enum DumpStop {
    /// Memory was wanting.
    #[error("memory")]
    Memory,
    /// Inputs, node lines with the constant, and outputs are more than the signals of a network that is read.
    #[error("large {signals}")]
    Large {
        /// How many they are.
        signals: u64,
    },
}

impl From<AllocError> for DumpStop {
    ghost use Rattle.blif_dump.specs.declared.stops.DumpStop.TheVariants.{Memory};

    ghost from_gives = { λ _ e. e ≡ Memory };

    fn from(_: AllocError) -> DumpStop {
        DumpStop::Memory
    }
}
