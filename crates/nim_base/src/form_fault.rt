ghost use Rattle.std.specs.Prelude.{◌≡◌};
ghost use Rattle.nim_base.specs.declared.form_fault.FormFault.TheVariants as faults;

use crate::no_memory::NoMemory;
use std::alloc::{AllocError, AllocFailed};
use thiserror::Error;

/// Why bytes can't be read as what they should be. Each reader says which fault comes where.
#[derive(Clone, Copy, Debug, PartialEq, Eq, Error)]
pub enum FormFault {
    /// The bytes end inside a field.
    #[error("the bytes end too early")]
    Short,
    /// The first byte is that of another kind.
    #[error("the bytes are of another kind")]
    Kind,
    /// A number is out of its limits.
    #[error("a number is out of its limits")]
    Value,
    /// What has to rise doesn't.
    #[error("the order is wrong")]
    Order,
    /// Bytes stand after the last field.
    #[error("bytes stand after the end")]
    Trailing,
    /// There was too little memory.
    #[error("out of memory")]
    NoMemory,
}

impl From<AllocError> for FormFault {
    ghost from_gives = { λ _ fault. fault ≡ faults.NoMemory };

    fn from(_: AllocError) -> FormFault {
        FormFault::NoMemory
    }
}

impl<T: Drop> From<AllocFailed<T>> for FormFault {
    ghost from_gives = { λ _ fault. fault ≡ faults.NoMemory };

    fn from(_: AllocFailed<T>) -> FormFault {
        FormFault::NoMemory
    }
}

impl From<NoMemory> for FormFault {
    ghost from_gives = { λ _ fault. fault ≡ faults.NoMemory };

    fn from(_: NoMemory) -> FormFault {
        FormFault::NoMemory
    }
}
