use thiserror::Error;
use view_ledger::ReceiptFault;

/// Why a reply isn't accepted. The first of these that applies is answered.
#[derive(Clone, Copy, Debug, PartialEq, Eq, Error)]
pub enum ReplyFault {
    /// The statement is of another kind than such a reply has.
    #[error("a statement of another kind")]
    WrongKind,
    /// No view of the chain has the statement's tail of a view.
    #[error("no such view")]
    UnknownView,
    /// The statement is of another ledger.
    #[error("another ledger")]
    WrongHandle,
    /// The metablock has another height than was asked for, or the statement's count isn't the number of
    /// entries up to the last block.
    #[error("another height")]
    WrongHeight,
    /// The statement has another nonce.
    #[error("another nonce")]
    WrongNonce,
    /// The entry isn't the own one, is of another ledger, or isn't the one that the metablock has, by height
    /// and digest; or there is no row though the count isn't 0.
    #[error("another entry")]
    WrongEntry,
    /// The metablock and the chain don't lead to the statement's tail, or the tail isn't zeros where there is
    /// no entry.
    #[error("another tail")]
    WrongTail,
    /// The receipt isn't accepted. The cause is never an unknown view, which shows before.
    #[error("a receipt that isn't accepted")]
    BadReceipt { cause: ReceiptFault },
}
