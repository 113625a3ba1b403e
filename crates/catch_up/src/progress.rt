use nim_base::Digest;
use port::{Reason, Refusal};

/// How a catch-up stands after a step. After every answer but `More` it has ended.
#[derive(Debug, Drop)]
pub enum Progress {
    /// The wanted count isn't reached yet.
    More,
    /// The member told the wanted count.
    Reached,
    /// The member told this count, which is above the wanted one, and its tail.
    Ahead { count: u64, tail: Digest },
    /// The member's answer is the reason why it doesn't count.
    Member { reason: Reason },
    /// The next row isn't to be had: `StoreFault`, `Gap` or `BadRow`.
    Row { refusal: Refusal },
}
