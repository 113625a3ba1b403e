ghost use Rattle.std.specs.Prelude.{◌≡◌, ◌↔◌, ◌⊎◌, length, Ok, Err, None, IsTrue, IfOk, IfErr, IfSome, OnOk};
ghost use Rattle.nim_base.specs.declared.form_fault.FormFault.{FormFault};
ghost use Rattle.chain_block.specs.Entry.{IsWithinLimits, bare, entry_bytes, entry_digest, handle_of, height_of, nonce_of};
ghost use Rattle.statement.specs.FormFault.{Gives};
ghost use Rattle.port.specs.Row.{Content};
ghost use Rattle.port.specs.RowForm.{IsStored, IsRow, row_bytes, RowShows};
ghost use Rattle.port.specs.GoodRow.{IsRowAt, IsGoodRow, IsBadRow};

use crate::row_reading::read_whole;
use chain_block::{Entry, MetaBlock, entries_have_own_bytes, metablocks_have_own_bytes};
use nim_base::{Digest, FormFault, NoMemory, Nonce, Text};
use std::alloc::Global;
use std::marker::Model;

pub(crate) const KIND: u8 = 0x50;

/// One entry of a ledger as it is stored: the entry, within its limits, and its metablock.
#[derive(Debug, Drop)]
pub struct Row {
    pub entry: Entry,
    pub metablock: MetaBlock,
}

impl Model for Row {
    ghost use Rattle.chain_block.specs.Entry.{IsWithinLimits, bare};
    ghost use Rattle.port.specs.Row.{Content};

    ghost Value = { Content };

    ghost view = { λ row. record { entry = bare row.entry; metablock = row.metablock } };

    ghost invariant = { λ row. IsWithinLimits row.entry };
}

impl Row {
    /// The handle of the entry's ledger.
    pub fn handle(&self) -> Digest
        ensures { result ≡ handle_of self.now.entry }
    {
        self.entry.handle()
    }

    /// The entry's place in its ledger, from 0.
    pub fn height(&self) -> u64
        ensures { result ≡ height_of self.now.entry }
    {
        self.entry.height()
    }

    /// The nonce that the entry's client drew.
    pub fn nonce(&self) -> Nonce
        ensures { result ≡ nonce_of self.now.entry }
    {
        self.entry.nonce()
    }

    /// The digest of the entry's bytes.
    pub fn entry_digest(&self) -> Digest
        ensures { result ≡ entry_digest self.now.entry }
    {
        self.entry.entry_digest()
    }

    /// Whether the row's entry is this one, however much room the payloads have.
    pub fn has_entry(&self, entry: &Entry) -> bool
        ensures { IsTrue result ↔ (bare entry.now ≡ self.now.entry) }
    {
        is_same(entry, &self.entry)
    }

    /// The bytes of the row: the kind 50 in hexadecimal, the length of the entry in 4 bytes, the entry, and
    /// the metablock in 73.
    pub fn write(&self, alloc: Global) -> Result<Text, NoMemory>
        ensures bytes { IfOk result (λ text. text.bytes ≡ row_bytes self.now) }
        // It is read again as this row.
        ensures row { OnOk result (IsRow self.now) }
    {
        // The digests are opened, so that their lengths are known.
        let block = &self.metablock;
        let _ = &block.prev.0;
        let _ = &block.entry.0;
        let entry = self.entry.write(alloc)?;
        let mut text = Text::of(alloc, &[KIND])?;
        text.push(&size_of(&self.entry).to_be_bytes())?;
        text.push(entry.bytes())?;
        text.push(&block.bytes())?;
        Ok(text)
    }

    /// The row whose bytes these are. A refusal names the fault that shows first, from the front, where the
    /// fields have the lengths that [`write`](Row::write) says:
    ///
    /// - `Kind` shows at the first byte, where it isn't that of a row.
    /// - `Value` shows where the bytes of the entry are no entry's, and where those of the metablock are no
    ///   metablock's.
    /// - `Short` shows where the bytes end inside a field. What a whole field before shows comes first.
    /// - `Trailing` shows at a byte after the metablock.
    pub fn read(alloc: Global, bytes: &[u8]) -> Result<Row, FormFault>
        // What is read is what a row writes, and that row is read from it, unless memory runs out.
        ensures found { IfOk result (λ row. IsRow row × (bytes.now ≡ row_bytes row)) }
        ensures only { (row : Content) → IsRow row → bytes.now ≡ row_bytes row → Gives result (Ok row) }

        // A refusal is the fault that shows first, and that fault is the refusal, unless memory runs out.
        ensures fault { IfErr result (λ fault. (fault ≡ FormFault.NoMemory) ⊎ RowShows bytes.now fault) }
        ensures first { (fault : FormFault) → RowShows bytes.now fault → Gives result (Err fault) }
    {
        entries_have_own_bytes();
        metablocks_have_own_bytes();
        read_whole(alloc, bytes)
    }

    /// Whether the row is this ledger's at this height: its entry has them, and its metablock has the digest of
    /// the entry and the height. What it links to isn't looked at.
    pub fn is_at(&self, handle: &Digest, height: u64) -> bool
        ensures { IsTrue result ↔ IsRowAt handle.now height self.now }
    {
        self.handle() == *handle
            && self.height() == height
            && self.metablock.entry == self.entry_digest()
            && self.metablock.height == height
    }

    /// The row of this ledger at this height whose bytes these are. `None` says that they are those of no such row.
    pub fn read_at(
        alloc: Global,
        handle: &Digest,
        height: u64,
        bytes: &[u8],
    ) -> Result<Option<Row>, NoMemory>
        ensures good { IfOk result (λ found. IfSome found (IsGoodRow handle.now height bytes.now)) }
        ensures bad { result ≡ Ok None → IsBadRow handle.now height bytes.now }
    {
        match Row::read(alloc, bytes) {
            Ok(row) => Ok(if row.is_at(handle, height) {
                Some(row)
            } else {
                None
            }),
            Err(FormFault::NoMemory) => Err(NoMemory),
            Err(_) => Ok(None),
        }
    }

    /// The same row in memory of its own.
    pub fn copy(&self, alloc: Global) -> Result<Row, NoMemory>
        ensures { IfOk result (λ copy. copy ≡ self.now) }
    {
        Ok(Row {
            entry: self.entry.copy(alloc)?,
            metablock: self.metablock,
        })
    }
}

fn is_same(entry: &Entry, other: &Entry) -> bool
    ensures { IsTrue result ↔ (bare entry.now ≡ bare other.now) }
{
    match (entry, other) {
        (
            Entry::Genesis { nonce, payload },
            Entry::Genesis {
                nonce: other_nonce,
                payload: other_payload,
            },
        ) => nonce == other_nonce && payload.bytes() == other_payload.bytes(),
        (
            Entry::Later {
                handle,
                height,
                nonce,
                payload,
            },
            Entry::Later {
                handle: other_handle,
                height: other_height,
                nonce: other_nonce,
                payload: other_payload,
            },
        ) => {
            handle == other_handle
                && height == other_height
                && nonce == other_nonce
                && payload.bytes() == other_payload.bytes()
        }
        _ => false,
    }
}

// How many bytes the entry has.
fn size_of(entry: &Entry) -> u32
    requires { IsWithinLimits entry.now }
    ensures size { result ≡ length (entry_bytes entry.now) }
    ensures stored { IsStored (bare entry.now) }
{
    match entry {
        Entry::Genesis { nonce, payload } => {
            let nonce = &nonce.0;
            (1 + nonce.len() + 4 + payload.bytes().len()) as u32
        }
        Entry::Later {
            handle,
            nonce,
            payload,
            ..
        } => {
            let (handle, nonce) = (&handle.0, &nonce.0);
            (1 + handle.len() + 8 + nonce.len() + 4 + payload.bytes().len()) as u32
        }
    }
}
