use chain_block::MetaBlock;

/// What a catch-up does next.
#[derive(Clone, Copy, Debug)]
pub enum Stage {
    /// It gets the row at this height, which is the count that the member told last.
    Get { height: u64 },
    /// It appends the row with this metablock.
    Append { block: MetaBlock },
    /// It has ended.
    Ended,
}
