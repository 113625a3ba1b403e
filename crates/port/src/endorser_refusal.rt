use crate::phase::Phase;
use crate::proof_cause::ProofCause;
use nim_base::{Digest, Text};
use statement::Statement;

/// Why an endorser didn't do as it was asked.
#[derive(Debug, Drop)]
pub enum EndorserRefusal {
    /// The ledger has this count, which is below the height.
    Behind { count: u64 },
    /// The ledger has this count, above the height, and this tail.
    Stands { count: u64, tail: Digest },
    /// The ledger's tail is this one.
    OtherTail { tail: Digest },
    /// A first entry whose digest isn't the handle.
    NotGenesis,
    /// The map has no place for another ledger.
    Full,
    /// The ledger has as many entries as it can have.
    Tall,
    /// The endorser is no member of the config.
    NotMember,
    /// The view isn't the one that it could be.
    BadView,
    /// The activation proof wasn't accepted.
    BadProof { cause: ProofCause },
    /// Not in this phase.
    WrongPhase { phase: Phase },
    /// The view has ended, by this statement and signature.
    Finalized { statement: Statement, sig: Text },
    /// The view has ended for another one, whose tail is this.
    OtherNext { next: Digest },
    /// The signer has no signature left.
    Spent,
    /// There is no stamp left for the call.
    LogFull,
}
