ghost use Rattle.std.specs.Prelude.{◌≡◌};
ghost use Rattle.statement.specs.declared.config_fault.ConfigFault.TheVariants as faults;

use std::alloc::AllocError;
use thiserror::Error;

/// Why members make no config. The first of these that applies is answered.
#[derive(Clone, Copy, Debug, PartialEq, Eq, Error)]
pub enum ConfigFault {
    /// There is no member.
    #[error("no member")]
    Empty,
    /// There are more than 15 members.
    #[error("too many members")]
    Many,
    /// This is the first id that isn't above the one before it.
    #[error("an id that isn't above the one before")]
    Order { id: u32 },
    /// There was too little memory.
    #[error("out of memory")]
    NoMemory,
}

impl From<AllocError> for ConfigFault {
    ghost from_gives = { λ _ fault. fault ≡ faults.NoMemory };

    fn from(_: AllocError) -> ConfigFault {
        ConfigFault::NoMemory
    }
}
