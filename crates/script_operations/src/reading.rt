use nim_base::{Digest, Nonce};

/// Whose read of a newest row is open: its client, the ledger, and the nonce that the client drew.
#[derive(Clone, Copy, Debug, PartialEq, Eq)]
pub struct Reading {
    pub client: usize,
    pub handle: Digest,
    pub nonce: Nonce,
}
