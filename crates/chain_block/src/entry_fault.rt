ghost use Rattle.std.specs.Prelude.{◌≡◌};
ghost use Rattle.chain_block.specs.declared.entry_fault.EntryFault.TheVariants.{NoMemory as Memory};

use nim_base::NoMemory;
use thiserror::Error;

/// Why bytes can't be read as an entry. The reader asks for the causes in this order, and answers
/// the first that is there: no byte (`Short`), `Kind`, fewer bytes than the fields before the payload
/// have (`Short`), `Height`, `Length`, fewer bytes than the payload has (`Short`), `Trailing`.
/// Memory is taken once none is there.
#[derive(Clone, Copy, Debug, PartialEq, Eq, Error)]
pub enum EntryFault {
    /// The bytes end before the entry does.
    #[error("the entry ends too early")]
    Short,
    /// The first byte is neither `01` nor `02`.
    #[error("no such kind of entry")]
    Kind,
    /// The height of a later entry is 0 or above the greatest one.
    #[error("a height out of its limits")]
    Height,
    /// The payload's length is above the limit.
    #[error("a payload over the limit")]
    Length,
    /// Bytes follow the payload.
    #[error("bytes after the entry")]
    Trailing,
    /// There is no memory for the payload.
    #[error("out of memory")]
    NoMemory,
}

impl From<NoMemory> for EntryFault {
    ghost from_gives = { λ _ fault. fault ≡ Memory };

    fn from(_: NoMemory) -> EntryFault {
        EntryFault::NoMemory
    }
}
