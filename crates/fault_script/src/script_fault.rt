ghost use Rattle.std.specs.Prelude.{◌≡◌};
ghost use Rattle.fault_script.specs.declared.script_fault.ScriptFault.TheVariants.{NoMemory as Memory};

use crate::bad_cause::BadCause;
use nim_base::NoMemory;
use std::alloc::{AllocError, AllocFailed};
use thiserror::Error;

/// Why a text isn't read as a script.
#[derive(Clone, Copy, Debug, PartialEq, Eq, Error)]
pub enum ScriptFault {
    /// The first bad line, counted from 1, and its first cause. The number is 0 where the text is too
    /// long, 65,537 where it has too many lines, and one more than there are lines where `end` is
    /// missing.
    #[error("bad line {number}: {cause}")]
    BadLine { number: u64, cause: BadCause },
    /// There was too little memory.
    #[error("out of memory")]
    NoMemory,
}

impl From<AllocError> for ScriptFault {
    ghost from_gives = { λ _ fault. fault ≡ Memory };

    fn from(_: AllocError) -> ScriptFault {
        ScriptFault::NoMemory
    }
}

impl<T: Drop> From<AllocFailed<T>> for ScriptFault {
    ghost from_gives = { λ _ fault. fault ≡ Memory };

    fn from(_: AllocFailed<T>) -> ScriptFault {
        ScriptFault::NoMemory
    }
}

impl From<NoMemory> for ScriptFault {
    ghost from_gives = { λ _ fault. fault ≡ Memory };

    fn from(_: NoMemory) -> ScriptFault {
        ScriptFault::NoMemory
    }
}
