ghost use Rattle.std.specs.Prelude.{◌≡◌, ◌+◌, ◌^◌, ◌<◌, length, option_copied};
ghost use Rattle.chain_block.specs.Entry.{entry_digest, handle_of};
ghost use Rattle.verifier.specs.Outcomes.{is_entry, is_own, is_row_of, row_tail, are_linked, is_newest, has_row, is_tail};
ghost use Rattle.chain_block.specs.Entry.{bare};

use chain_block::{Entry, MetaBlock, links};
use nim_base::Digest;
use port::Row;

/// Whether the row has the own entry, if there is one.
pub(crate) fn is_own(own: Option<&Entry>, row: &Row) -> bool
    ensures { result ≡ is_own (option_copied own.entry) row.now }
{
    match own {
        None => true,
        Some(entry) => has_entry(entry, row),
    }
}

fn has_entry(entry: &Entry, row: &Row) -> bool
    ensures { result ≡ is_entry (bare entry.now) row.now.entry }
{
    row.has_entry(entry)
}

/// Whether the row's entry is of this ledger, and its metablock has the entry's height and digest.
pub(crate) fn is_row_of(handle: &Digest, row: &Row) -> bool
    ensures { result ≡ is_row_of handle.now row.now }
{
    let digest = row.entry_digest();
    let own = handle_by(row, digest);
    own == *handle && row.height() == row.metablock.height && digest == row.metablock.entry
}

// The handle of the row's ledger, by the digest of its entry, which a first entry has as its handle.
fn handle_by(row: &Row, digest: Digest) -> Digest
    requires { digest ≡ entry_digest row.now.entry }
    ensures { result ≡ handle_of row.now.entry }
{
    match &row.entry {
        Entry::Genesis { .. } => digest,
        Entry::Later { handle, .. } => *handle,
    }
}

/// Whether the row and the blocks behind it lead to the tail.
pub(crate) fn leads(row: &Row, chain: &[MetaBlock], tail: &Digest) -> bool
    requires { row.now.metablock.height + 1 + length chain.now < 2 ^ 64 }
    ensures { result ≡ are_linked chain.now (row_tail row.now) (row.now.metablock.height + 1) tail.now }
{
    let block = &row.metablock;
    are_linked(chain, &block.tail(), block.height + 1, tail)
}

fn are_linked(blocks: &[MetaBlock], prev: &Digest, count: u64, to: &Digest) -> bool
    requires { count + length blocks.now < 2 ^ 64 }
    ensures { result ≡ are_linked blocks.now prev.now count to.now }
{
    links(blocks, prev, count, to)
}

/// Whether the row, if there is one, stands just below the count.
pub(crate) fn is_newest(count: u64, row: &Option<Row>) -> bool
    ensures { result ≡ is_newest count row.now }
{
    match row {
        None => true,
        Some(row) => count != 0 && row.metablock.height == count - 1,
    }
}

/// Whether there is a row of this ledger, or none where the count is 0.
pub(crate) fn has_row(handle: &Digest, count: u64, row: &Option<Row>) -> bool
    ensures { result ≡ has_row handle.now count row.now }
{
    match row {
        None => count == 0,
        Some(row) => is_row_of(handle, row),
    }
}

/// Whether the tail is the row's, or zeros where there is none.
pub(crate) fn is_tail(tail: &Digest, row: &Option<Row>) -> bool
    ensures { result ≡ is_tail tail.now row.now }
{
    match row {
        None => Digest::ZERO == *tail,
        Some(row) => row.metablock.tail() == *tail,
    }
}
