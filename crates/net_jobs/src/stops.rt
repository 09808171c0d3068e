//! Why a part has nothing to tell.

ghost use Rattle.std.specs.Prelude.{◌≡◌};

use blif_dump::DumpStop;
use dd_session::Full;
use edge_bits::Memory;
use net_builds::HostRefusal;
use std::alloc::AllocError;

/// Why a part has nothing to tell.
#[derive(Debug, Clone, Copy, PartialEq, Eq)]
pub enum PartStop {
    /// Memory was wanting.
    Memory,
    /// A call of a session was refused for a full node table.
    Full(Full),
    /// The outputs' diagram as a network has more signals than are read.
    Large {
        /// How many they are.
        signals: u64,
    },
}

impl From<AllocError> for PartStop {
    ghost use Rattle.net_jobs.specs.declared.stops.PartStop.TheVariants as stops;

    ghost from_gives = { λ _ stop. stop ≡ stops.Memory };

    fn from(_: AllocError) -> PartStop {
        PartStop::Memory
    }
}

impl From<Memory> for PartStop {
    ghost use Rattle.net_jobs.specs.declared.stops.PartStop.TheVariants as stops;

    ghost from_gives = { λ _ stop. stop ≡ stops.Memory };

    fn from(_: Memory) -> PartStop {
        PartStop::Memory
    }
}

impl From<HostRefusal<Full>> for PartStop {
    ghost use Rattle.net_jobs.specs.Networks.{part_stop};

    ghost from_gives = { λ refusal stop. stop ≡ part_stop refusal };

    fn from(refusal: HostRefusal<Full>) -> PartStop {
        match refusal {
            HostRefusal::Memory => PartStop::Memory,
            HostRefusal::Full(full) => PartStop::Full(full),
        }
    }
}

impl From<DumpStop> for PartStop {
    ghost use Rattle.net_jobs.specs.Texts.{written_stop};

    ghost from_gives = { λ stop part. part ≡ written_stop stop };

    fn from(stop: DumpStop) -> PartStop {
        match stop {
            DumpStop::Memory => PartStop::Memory,
            DumpStop::Large { signals } => PartStop::Large { signals },
        }
    }
}
