ghost use Rattle.std.specs.Prelude.{◌≡◌};
ghost use Rattle.view_ledger.specs.declared.view_fault.ViewFault.TheVariants as faults;

use nim_base::NoMemory;
use std::alloc::{AllocError, AllocFailed};
use thiserror::Error;

/// Why a view is no next one of a chain. The first of these that applies is answered.
#[derive(Clone, Copy, Debug, PartialEq, Eq, Error)]
pub enum ViewFault {
    /// The block isn't the one that makes the config the next view. The view of the greatest number has no
    /// next one.
    #[error("a block that doesn't follow")]
    BadLink,
    /// The first final whose id isn't above the one before, isn't a member's, or whose signature isn't
    /// accepted.
    #[error("a mark that isn't accepted")]
    BadMark { id: u32 },
    /// The members that ended the view weigh `got` together, and a quorum `need`.
    #[error("too few members")]
    NoQuorum { got: u64, need: u64 },
    /// The first member that isn't in the roster with its key.
    #[error("a member that isn't in the roster")]
    NotGenuine { id: u32 },
    /// There was too little memory.
    #[error("out of memory")]
    NoMemory,
}

impl From<AllocError> for ViewFault {
    ghost from_gives = { λ _ fault. fault ≡ faults.NoMemory };

    fn from(_: AllocError) -> ViewFault {
        ViewFault::NoMemory
    }
}

impl<T: Drop> From<AllocFailed<T>> for ViewFault {
    ghost from_gives = { λ _ fault. fault ≡ faults.NoMemory };

    fn from(_: AllocFailed<T>) -> ViewFault {
        ViewFault::NoMemory
    }
}

impl From<NoMemory> for ViewFault {
    ghost from_gives = { λ _ fault. fault ≡ faults.NoMemory };

    fn from(_: NoMemory) -> ViewFault {
        ViewFault::NoMemory
    }
}
