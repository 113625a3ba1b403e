// A ledger's rows by a plain program.
ghost use Rattle.std.specs.Prelude.{◌≡◌, All};
ghost use Rattle.chain_block.specs.Entry.{IsWithinLimits};
ghost use Rattle.calm.specs.Ledgers.{row_above, tail_of};

use chain_block::{Entry, MetaBlock};
use nim_base::Digest;

/// The tail of a ledger with these entries, the oldest first: 32 zeros where there is none.
pub fn tail_of_entries(entries: &[Entry]) -> Digest
    requires { All IsWithinLimits entries.now }
    ensures { result ≡ tail_of entries.now }
{
    let mut tail = Digest::ZERO;
    let mut height = 0;
    for entry in entries {
        tail = chain_block::tail_of(&tail, &entry.entry_digest(), height);
        height += 1;
    }
    tail
}

/// The metablock of an entry on top of these.
pub fn next_block(below: &[Entry], entry: &Entry) -> MetaBlock
    requires below { All IsWithinLimits below.now }
    requires own { IsWithinLimits entry.now }
    ensures { result ≡ (row_above below.now entry.now).metablock }
{
    MetaBlock {
        prev: tail_of_entries(below),
        entry: entry.entry_digest(),
        height: below.len() as u64,
    }
}
