use nim_base::Digest;

/// Where a store has a value: an entry of a ledger by its handle and height, or a view or what ended one by
/// the view's number.
#[derive(Clone, Copy, Debug, PartialEq, Eq, PartialOrd, Ord)]
pub enum Key {
    /// The entry of a ledger at a height, with what was attached to it.
    Row { handle: Digest, height: u64 },
    /// A view, marked as complete by what is attached to it.
    View { number: u64 },
    /// What the members of this view left when it ended.
    Finals { number: u64 },
}
