ghost use Rattle.std.specs.Prelude.{◌≡◌};
ghost use Rattle.client_pass.specs.declared.take_fault.TakeFault.TheVariants as faults;

use nim_base::NoMemory;
use std::alloc::{AllocError, AllocFailed};
use thiserror::Error;
use verifier::ReplyFault;
use view_ledger::ViewFault;

/// Why a reply or a view wasn't accepted, or why nothing was noted.
#[derive(Clone, Copy, Debug, PartialEq, Eq, Error)]
pub enum TakeFault {
    /// The check of the reply said so. A line has it.
    #[error("a reply that isn't accepted")]
    Reply { fault: ReplyFault },
    /// The check of the view said so. A line has it.
    #[error("a view that isn't accepted")]
    View { fault: ViewFault },
    /// The draw has an accepted reply already. There is no stamp and no line.
    #[error("a draw that has its reply")]
    Again,
    /// There was too little memory. There is no stamp and no line.
    #[error("out of memory")]
    NoMemory,
}

impl From<AllocError> for TakeFault {
    ghost from_gives = { λ _ fault. fault ≡ faults.NoMemory };

    fn from(_: AllocError) -> TakeFault {
        TakeFault::NoMemory
    }
}

impl<T: Drop> From<AllocFailed<T>> for TakeFault {
    ghost from_gives = { λ _ fault. fault ≡ faults.NoMemory };

    fn from(_: AllocFailed<T>) -> TakeFault {
        TakeFault::NoMemory
    }
}

impl From<NoMemory> for TakeFault {
    ghost from_gives = { λ _ fault. fault ≡ faults.NoMemory };

    fn from(_: NoMemory) -> TakeFault {
        TakeFault::NoMemory
    }
}
