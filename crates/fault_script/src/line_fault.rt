ghost use Rattle.std.specs.Prelude.{◌≡◌};
ghost use Rattle.fault_script.specs.declared.line_fault.LineFault.TheVariants.{NoMemory as Memory};

use crate::bad_cause::BadCause;
use nim_base::NoMemory;
use std::alloc::{AllocError, AllocFailed};

/// Why a line isn't read.
#[derive(Debug, Drop)]
pub(crate) enum LineFault {
    Bad(BadCause),
    NoMemory,
}

impl From<AllocError> for LineFault {
    ghost from_gives = { λ _ fault. fault ≡ Memory };

    fn from(_: AllocError) -> LineFault {
        LineFault::NoMemory
    }
}

impl<T: Drop> From<AllocFailed<T>> for LineFault {
    ghost from_gives = { λ _ fault. fault ≡ Memory };

    fn from(_: AllocFailed<T>) -> LineFault {
        LineFault::NoMemory
    }
}

impl From<NoMemory> for LineFault {
    ghost from_gives = { λ _ fault. fault ≡ Memory };

    fn from(_: NoMemory) -> LineFault {
        LineFault::NoMemory
    }
}
