ghost use Rattle.std.specs.Prelude.{◌≡◌, ◌+◌, ◌^◌, ◌<◌, ◌≤◌, ◌↔◌, ◌∷◌, ◌++◌, [], List, ℕ, take, drop, map, length, slice_index, IfSome, IsSome, IsTrue};
ghost use Rattle.chain_block.specs.Bytes.{metablock_bytes};
ghost use Rattle.chain_block.specs.declared.meta_block.MetaBlock.{MetaBlock};
ghost use Rattle.chain_block.specs.MetaBlock.{IsMetaBlock};
ghost use Rattle.chain_block.specs.Tail.{tail_after, tail_of_list};
ghost use Rattle.chain_block.specs.Links.{Links};

use crate::fields::read_digest;
use nim_base::{Cursor, Digest};
use sha2::{Digest as _, Sha256};

const METABLOCK: u8 = 0x10;

/// What is digested for the tail of a ledger: the tail below (`prev`), the digest of the entry and
/// the entry's height. At height 0 the tail below is [`Digest::ZERO`].
#[derive(Clone, Copy, Debug, PartialEq, Eq)]
pub struct MetaBlock {
    pub prev: Digest,
    pub entry: Digest,
    pub height: u64,
}

impl MetaBlock {
    /// The bytes of the metablock: `10`, prev (32), the entry's digest (32) and the height (8).
    pub fn bytes(&self) -> [u8; 73]
        ensures { result ≡ metablock_bytes self.now.prev self.now.entry self.now.height }
    {
        let mut bytes = [0; 73];
        place(&mut bytes, 0, &[METABLOCK]);
        place(&mut bytes, 1, &self.prev.0);
        place(&mut bytes, 33, &self.entry.0);
        place(&mut bytes, 65, &self.height.to_be_bytes());
        bytes
    }

    /// The metablock that has these bytes, all of them.
    pub fn read(bytes: &[u8]) -> Option<MetaBlock>
        // What is read has these bytes.
        ensures found { IfSome result (λ block. IsMetaBlock block.prev block.entry block.height
            × (bytes.now ≡ metablock_bytes block.prev block.entry block.height)) }
        // The bytes of a metablock are read as this metablock.
        ensures again { (prev entry : List ℕ) (height : ℕ) → IsMetaBlock prev entry height
            → bytes.now ≡ metablock_bytes prev entry height
            → result ≡ Some (record { prev = prev; entry = entry; height = height }) }
        // Which bytes are refused.
        ensures refused { IsSome result ↔ ((length bytes.now ≡ 73) × (slice_index bytes.now 0 ≡ METABLOCK)) }
    {
        let mut cursor = Cursor::new(bytes);
        if cursor.u8()? != METABLOCK {
            return None;
        }
        let prev = read_digest(&mut cursor)?;
        let entry = read_digest(&mut cursor)?;
        let height = cursor.u64()?;
        if cursor.left() > 0 {
            return None;
        }
        Some(MetaBlock {
            prev,
            entry,
            height,
        })
    }

    /// The digest of the metablock's bytes, which is the ledger's tail after the entry.
    pub fn tail(&self) -> Digest
        ensures { result ≡ tail_after self.now.prev self.now.entry self.now.height }
    {
        tail_of(&self.prev, &self.entry, self.height)
    }
}

fn place(bytes: &mut [u8; 73], at: usize, part: &[u8])
    requires { at + length part.now ≤ 73 }
    ensures { bytes.new ≡ take at bytes.old ++ part.now ++ drop (at + length part.now) bytes.old }
{
    bytes[at..at + part.len()].copy_from_slice(part);
}

/// The tail of a ledger after an entry with this digest and height, where `prev` is the tail below.
pub fn tail_of(prev: &Digest, entry: &Digest, height: u64) -> Digest
    ensures digest { result ≡ tail_after prev.now entry.now height }

    // Where prev is the tail of all digests below, it is the tail of these and the new one.
    ensures whole { (below : List (List ℕ)) → prev.now ≡ tail_of_list below → height ≡ length below
        → result ≡ tail_of_list (below ++ entry.now ∷ []) }
{
    let mut hasher = Sha256::new();
    hasher.update(&[METABLOCK]);
    hasher.update(&prev.0);
    hasher.update(&entry.0);
    hasher.update(&height.to_be_bytes());
    Digest(hasher.finalize())
}

/// Whether the metablocks stand at the heights from `count` on and lead from the tail `prev` to the
/// tail `to`.
pub fn links(blocks: &[MetaBlock], prev: &Digest, count: u64, to: &Digest) -> bool
    requires { count + length blocks.now < 2 ^ 64 }
    ensures { IsTrue result ↔ Links blocks.now prev.now count to.now }
{
    let mut tail = *prev;
    let mut height = count;
    for block in blocks {
        if block.height != height || block.prev != tail {
            return false;
        }
        tail = block.tail();
        height += 1;
    }
    tail == *to
}

/// Blocks that lead on from the tail of some digests lead to the tail of these and their own.
pub fn links_lead_to_the_tail()
    ensures { (below : List (List ℕ)) (blocks : List MetaBlock) (to : List ℕ)
        → Links blocks (tail_of_list below) (length below) to
        → to ≡ tail_of_list (below ++ map (λ block. block.entry) blocks) }
{}

/// No two metablocks have the same bytes.
pub fn metablocks_have_own_bytes()
    ensures { (prev prev' entry entry' : List ℕ) (height height' : ℕ)
        → IsMetaBlock prev entry height → IsMetaBlock prev' entry' height'
        → metablock_bytes prev entry height ≡ metablock_bytes prev' entry' height'
        → (prev ≡ prev') × (entry ≡ entry') × (height ≡ height') }
{}
