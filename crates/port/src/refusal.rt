use crate::key::Key;
use crate::reason::Reason;
use crate::standing::Standing;
use nim_base::{Digest, Text};
use statement::Statement;

/// Why a service didn't do as it was asked. Each but `NoMemory` holds what showed its cause in this call.
#[derive(Debug, Drop)]
pub enum Refusal {
    /// Another entry stands at that height, this one.
    Conflict {
        standing: Standing,
    },
    /// Nothing stands at this height of the ledger.
    Gap {
        handle: Digest,
        missing: u64,
    },
    /// So many members have a reason, by their ids, that the others are no quorum, which needs this many.
    NoQuorum {
        need: u64,
        reasons: Vec<(u32, Reason)>,
    },
    /// The view of this number has ended: this member of it signed so.
    ViewMoved {
        from: u64,
        id: u32,
        statement: Statement,
        sig: Text,
    },
    /// A call of the store failed.
    StoreFault,
    /// The store gave these bytes for the key, which aren't what stands there, or none though something does.
    BadRow {
        key: Key,
        bytes: Option<Text>,
    },
    /// The call was for the count `first`, and this member had come to `later`.
    Contended {
        member: u32,
        first: u64,
        later: u64,
    },
    /// This member's map has no place for another ledger.
    Full {
        member: u32,
    },
    /// So many metablocks or handles are needed, which are too many.
    TooFar {
        needed: u64,
    },
    /// This id stands in an earlier config.
    Reused {
        id: u32,
    },
    NoMemory,
}
