use nim_base::Digest;

/// The tail of one ledger and its number of entries, from 1 to 2^32 where the row stands in a map.
#[derive(Clone, Copy, Debug, PartialEq, Eq)]
pub struct TailRow {
    pub handle: Digest,
    pub tail: Digest,
    pub count: u64,
}
