ghost use Rattle.std.specs.Prelude.{◌≡◌};
ghost use Rattle.seal.specs.declared.sign_fault.SignFault.TheVariants as faults;

use nim_base::NoMemory;
use thiserror::Error;

/// Why a signer gave no signature.
#[derive(Clone, Copy, Debug, PartialEq, Eq, Error)]
pub enum SignFault {
    /// The signer has no signature left.
    #[error("no signature is left")]
    Spent,
    /// There was too little memory.
    #[error("out of memory")]
    NoMemory,
}

impl From<NoMemory> for SignFault {
    ghost from_gives = { λ _ fault. fault ≡ faults.NoMemory };

    fn from(_: NoMemory) -> SignFault {
        SignFault::NoMemory
    }
}
