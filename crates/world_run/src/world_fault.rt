ghost use Rattle.std.specs.Prelude.{◌≡◌};
ghost use Rattle.world_run.specs.declared.world_fault.WorldFault.TheVariants.{NoMemory as Memory, Sink};

use nim_base::NoMemory;
use nim_outside::Fault;
use std::alloc::{AllocError, AllocFailed};
use thiserror::Error;

/// Why a run gave no record.
#[derive(Clone, Copy, Debug, PartialEq, Eq, Error)]
pub enum WorldFault {
    /// The sink failed at a line.
    #[error("the sink failed")]
    Sink,
    /// Want of memory.
    #[error("out of memory")]
    NoMemory,
}

impl From<Fault> for WorldFault {
    ghost from_gives = { λ _ fault. fault ≡ Sink };

    fn from(_: Fault) -> WorldFault {
        WorldFault::Sink
    }
}

impl From<NoMemory> for WorldFault {
    ghost from_gives = { λ _ fault. fault ≡ Memory };

    fn from(_: NoMemory) -> WorldFault {
        WorldFault::NoMemory
    }
}

impl From<AllocError> for WorldFault {
    ghost from_gives = { λ _ fault. fault ≡ Memory };

    fn from(_: AllocError) -> WorldFault {
        WorldFault::NoMemory
    }
}

impl<T: Drop> From<AllocFailed<T>> for WorldFault {
    ghost from_gives = { λ _ fault. fault ≡ Memory };

    fn from(_: AllocFailed<T>) -> WorldFault {
        WorldFault::NoMemory
    }
}
