use thiserror::Error;

/// Why a receipt isn't accepted. The first of these that applies is answered.
#[derive(Clone, Copy, Debug, PartialEq, Eq, Error)]
pub enum ReceiptFault {
    /// No view of the chain has the tail in the statement.
    #[error("no such view")]
    UnknownView,
    /// This is the first id that isn't above the one before it.
    #[error("an id that isn't above the one before")]
    Order { id: u32 },
    /// This is the first id that is no member's.
    #[error("an id that is no member's")]
    NotMember { id: u32 },
    /// The signature of this member, the first such one, isn't accepted.
    #[error("a signature that isn't accepted")]
    BadMark { id: u32 },
    /// The members weigh `got` together, and a quorum `need`.
    #[error("too few members")]
    Few { got: u64, need: u64 },
}
