use nim_base::Digest;

/// Why an activation proof wasn't accepted. The first of these that applies is answered.
#[derive(Clone, Copy, Debug, PartialEq, Eq)]
pub enum ProofCause {
    /// View 0 begins with no proof, on no view and with an empty map; every other view with a proof.
    First,
    /// The old view isn't the one below.
    OldBlock,
    /// The ids of the finals don't rise, or one is no old member's.
    Order,
    /// The signature of this member's final isn't accepted.
    Mark { id: u32 },
    /// The finals are no quorum of the old members.
    Few { got: u64, need: u64 },
    /// The chains hold more than 65,536 metablocks together.
    TooLong,
    /// No final has this ledger.
    Extra { handle: Digest },
    /// The own row of this ledger is absent, or is no final's.
    Missing { handle: Digest },
    /// A final has a row of this ledger with a greater count than the own one.
    Lower { handle: Digest },
    /// The chain of this ledger is out of order, isn't asked for, or doesn't lead from the finals' rows
    /// to the own one.
    Chain { handle: Digest },
}
