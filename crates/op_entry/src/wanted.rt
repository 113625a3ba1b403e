use chain_block::Entry;
use nim_base::Digest;

/// What an operation is asked for.
#[derive(Debug, Drop)]
pub enum Wanted {
    /// A ledger with this first entry.
    New { entry: Entry },
    /// This entry above the newest one of its ledger.
    Append { entry: Entry },
    /// The entry of a ledger at a height.
    At { handle: Digest, height: u64 },
}
