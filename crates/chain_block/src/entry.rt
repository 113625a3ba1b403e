ghost use Rattle.std.specs.Prelude.{◌≡◌, ◌≤◌, ◌<◌, ◌∷◌, ◌↔◌, All, List, ℕ, length, IfOk, OnOk, MatchResult};
ghost use Rattle.std.specs.Int.{to_be_bytes, w32};
ghost use Rattle.chain_block.specs.declared.entry.Entry.{Entry};
ghost use Rattle.chain_block.specs.Entry.{entry_bytes, entry_digest, handle_of, height_of, nonce_of, IsWellFormed, IsWithinLimits, SameEntry, bare};
ghost use Rattle.chain_block.specs.EntryFault.{entry_fault, genesis_fault, later_fault, payload_fault, Reports};

use crate::entry_fault::EntryFault;
use crate::fields::{read_digest, read_nonce};
use nim_base::{Cursor, Digest, NoMemory, Nonce, Text};
use sha2::{Digest as _, Sha256};
use std::alloc::Global;

/// The most bytes that a payload has.
pub const MAX_PAYLOAD: usize = 65_536;

/// The greatest height of an entry.
pub const MAX_HEIGHT: u64 = 4_294_967_295;

const GENESIS: u8 = 0x01;

const LATER: u8 = 0x02;

/// An entry of a ledger. Its payload has at most [`MAX_PAYLOAD`] bytes, and the height of a later
/// one is from 1 to [`MAX_HEIGHT`].
#[derive(Debug, Drop)]
pub enum Entry {
    /// The first entry, at height 0. Its bytes are `01`, the nonce (16), the payload's length (4)
    /// and the payload.
    Genesis {
        nonce: Nonce,
        payload: Text,
    },
    /// An entry above the first. Its bytes are `02`, the ledger's handle (32), the height (8), the
    /// nonce (16), the payload's length (4) and the payload.
    Later {
        handle: Digest,
        height: u64,
        nonce: Nonce,
        payload: Text,
    },
}

impl Entry {
    /// The bytes of the entry, as its variants say.
    pub fn write(&self, alloc: Global) -> Result<Text, NoMemory>
        requires { IsWithinLimits self.now }
        ensures bytes { IfOk result (λ text. text.bytes ≡ entry_bytes self.now) }
        ensures room { IfOk result (λ text. text.room ≡ 0) }
    {
        let mut text = Text::of(alloc, &[])?;
        match self {
            Entry::Genesis { nonce, payload } => {
                text.push(&[GENESIS])?;
                text.push(&nonce.0)?;
                text.push(&length_bytes(payload))?;
                text.push(payload.bytes())?;
            }
            Entry::Later {
                handle,
                height,
                nonce,
                payload,
            } => {
                text.push(&[LATER])?;
                text.push(&handle.0)?;
                text.push(&height.to_be_bytes())?;
                text.push(&nonce.0)?;
                text.push(&length_bytes(payload))?;
                text.push(payload.bytes())?;
            }
        }
        Ok(text)
    }

    /// The same entry in memory of its own, with no room behind its payload.
    pub fn copy(&self, alloc: Global) -> Result<Entry, NoMemory>
        ensures { IfOk result (λ copy. copy ≡ bare self.now) }
    {
        match self {
            Entry::Genesis { nonce, payload } => Ok(Entry::Genesis {
                nonce: *nonce,
                payload: Text::of(alloc, payload.bytes())?,
            }),
            Entry::Later {
                handle,
                height,
                nonce,
                payload,
            } => Ok(Entry::Later {
                handle: *handle,
                height: *height,
                nonce: *nonce,
                payload: Text::of(alloc, payload.bytes())?,
            }),
        }
    }

    /// The entry that has these bytes, all of them.
    pub fn read(alloc: Global, bytes: &[u8]) -> Result<Entry, EntryFault>
        // What is read has these bytes.
        ensures found { IfOk result (λ entry. IsWellFormed entry × (bytes.now ≡ entry_bytes entry)) }
        // The bytes of an entry are read as this entry.
        ensures again { (entry : Entry) → IsWellFormed entry → bytes.now ≡ entry_bytes entry
            → MatchResult result (λ read. SameEntry read entry) (λ fault. fault ≡ EntryFault.NoMemory) }
        // Which fault it is, and that it is answered.
        ensures refused { Reports (entry_fault bytes.now) result }
    {
        read_by_kind(alloc, bytes)
    }

    /// The digest of the entry's bytes.
    pub fn entry_digest(&self) -> Digest
        requires { IsWithinLimits self.now }
        ensures { result ≡ entry_digest self.now }
    {
        let mut hasher = Sha256::new();
        match self {
            Entry::Genesis { nonce, payload } => {
                hasher.update(&[GENESIS]);
                hasher.update(&nonce.0);
                hasher.update(&length_bytes(payload));
                hasher.update(payload.bytes());
            }
            Entry::Later {
                handle,
                height,
                nonce,
                payload,
            } => {
                hasher.update(&[LATER]);
                hasher.update(&handle.0);
                hasher.update(&height.to_be_bytes());
                hasher.update(&nonce.0);
                hasher.update(&length_bytes(payload));
                hasher.update(payload.bytes());
            }
        }
        Digest(hasher.finalize())
    }

    /// The handle of the entry's ledger, which is the digest of the ledger's first entry.
    pub fn handle(&self) -> Digest
        requires { IsWithinLimits self.now }
        ensures { result ≡ handle_of self.now }
    {
        match self {
            Entry::Genesis { .. } => self.entry_digest(),
            Entry::Later { handle, .. } => *handle,
        }
    }

    /// The entry's place in its ledger, from 0.
    pub fn height(&self) -> u64
        ensures { result ≡ height_of self.now }
    {
        match self {
            Entry::Genesis { .. } => 0,
            Entry::Later { height, .. } => *height,
        }
    }

    /// The nonce that the entry's client drew.
    pub fn nonce(&self) -> Nonce
        ensures { result ≡ nonce_of self.now }
    {
        match self {
            Entry::Genesis { nonce, .. } | Entry::Later { nonce, .. } => *nonce,
        }
    }
}

fn length_bytes(payload: &Text) -> [u8; 4]
    requires { length payload.now.bytes ≤ MAX_PAYLOAD }
    ensures { result ≡ to_be_bytes w32 (length payload.now.bytes) }
{
    (payload.bytes().len() as u32).to_be_bytes()
}

fn read_by_kind(alloc: Global, bytes: &[u8]) -> Result<Entry, EntryFault>
    ensures found { IfOk result (λ entry. IsWellFormed entry × (bytes.now ≡ entry_bytes entry)) }
    ensures refused { Reports (entry_fault bytes.now) result }
{
    match bytes {
        [] => Err(EntryFault::Short),
        [GENESIS, rest @ ..] => read_genesis(alloc, rest),
        [LATER, rest @ ..] => read_later(alloc, rest),
        [_, ..] => Err(EntryFault::Kind),
    }
}

fn read_genesis(alloc: Global, bytes: &[u8]) -> Result<Entry, EntryFault>
    ensures found { IfOk result (λ entry. IsWellFormed entry × (1 ∷ bytes.now ≡ entry_bytes entry)) }
    ensures refused { Reports (genesis_fault bytes.now) result }
{
    let mut cursor = Cursor::new(bytes);
    let nonce = read_nonce(&mut cursor).ok_or(EntryFault::Short)?;
    let stated = cursor.u32().ok_or(EntryFault::Short)?;
    let payload = read_payload(alloc, stated, &mut cursor)?;
    Ok(Entry::Genesis { nonce, payload })
}

fn read_later(alloc: Global, bytes: &[u8]) -> Result<Entry, EntryFault>
    ensures found { IfOk result (λ entry. IsWellFormed entry × (2 ∷ bytes.now ≡ entry_bytes entry)) }
    ensures refused { Reports (later_fault bytes.now) result }
{
    let mut cursor = Cursor::new(bytes);
    let handle = read_digest(&mut cursor).ok_or(EntryFault::Short)?;
    let height = cursor.u64().ok_or(EntryFault::Short)?;
    let nonce = read_nonce(&mut cursor).ok_or(EntryFault::Short)?;
    let stated = cursor.u32().ok_or(EntryFault::Short)?;
    if height == 0 || height > MAX_HEIGHT {
        return Err(EntryFault::Height);
    }
    let payload = read_payload(alloc, stated, &mut cursor)?;
    Ok(Entry::Later {
        handle,
        height,
        nonce,
        payload,
    })
}

/// The payload that is all that is left, of the stated length.
#[tactic(auto, unfolding(crate::specs::EntryFault::payload_fault))]
fn read_payload(alloc: Global, stated: u32, cursor: &mut Cursor) -> Result<Text, EntryFault>
    ensures within { OnOk result (stated ≤ MAX_PAYLOAD) }
    ensures found { IfOk result (λ text. (text.bytes ≡ cursor.old) × (length text.bytes ≡ stated)) }
    ensures refused { Reports (payload_fault stated (length cursor.old)) result }
{
    let stated = stated as usize;
    if stated > MAX_PAYLOAD {
        return Err(EntryFault::Length);
    }
    let payload = cursor.take(stated).ok_or(EntryFault::Short)?;
    if cursor.left() > 0 {
        return Err(EntryFault::Trailing);
    }
    Ok(Text::of(alloc, payload)?)
}

/// No two entries have the same bytes.
pub fn entries_have_own_bytes()
    ensures { (a b : Entry) → IsWellFormed a → IsWellFormed b
        → entry_bytes a ≡ entry_bytes b → SameEntry a b }
{}

/// Bytes have no fault exactly where they are those of an entry.
pub fn entries_alone_have_no_fault()
    ensures { (bytes : List ℕ) → All (λ byte. byte < 256) bytes
        → ((entry_fault bytes ≡ None) ↔ ((entry : Entry) × IsWellFormed entry × (bytes ≡ entry_bytes entry))) }
{}
