ghost use Rattle.std.specs.Prelude.{◌≡◌, ◌↔◌, ◌++◌, ◌∷◌, [], List, ℕ, length, Ok, Err, IfOk};
ghost use Rattle.nim_base.specs.declared.form_fault.FormFault.{FormFault};
ghost use Rattle.sha2.specs.Sha256.{sha256};
ghost use Rattle.statement.specs.declared.view_block.ViewBlock.{ViewBlock};
ghost use Rattle.statement.specs.ViewBlock.{IsViewBlock, view_block_bytes, ViewBlockShows};
ghost use Rattle.statement.specs.ViewTail.{view_tail_of_list};
ghost use Rattle.statement.specs.Reading.{GivesJust, Reads, whole, view_block_at};

use crate::reading::{end, read_byte, read_digest, read_u64};
use nim_base::{Cursor, Digest, FormFault, NoMemory, Text};
use sha2::{Digest as _, Sha256};
use std::alloc::Global;

const KIND: u8 = 0x11;

/// What is digested for the tail of a view: the tail of the view below (`prev`), the digest of the
/// config and the number of the view. For view 0 the tail below is [`Digest::ZERO`].
#[derive(Clone, Copy, Debug, PartialEq, Eq)]
pub struct ViewBlock {
    pub prev: Digest,
    pub config: Digest,
    pub number: u64,
}

impl ViewBlock {
    /// The SHA-256 digest of the bytes that [`write`](ViewBlock::write) gives, which is the tail of the
    /// view.
    pub fn tail(&self) -> Digest
        ensures digest { result ≡ sha256 (view_block_bytes self.now) }

        // Where prev is the tail of all configs below, it is the tail of these and the own one.
        ensures whole { (below : List (List ℕ)) → self.now.prev ≡ view_tail_of_list below → self.now.number ≡ length below
            → result ≡ view_tail_of_list (below ++ self.now.config ∷ []) }
    {
        let mut hasher = Sha256::new();
        hasher.update(&[KIND]);
        hasher.update(&self.prev.0);
        hasher.update(&self.config.0);
        hasher.update(&self.number.to_be_bytes());
        Digest(hasher.finalize())
    }

    /// The bytes of the view block: the kind 11 in hexadecimal, `prev` in 32 bytes, the digest of the
    /// config in 32 and the number in 8.
    pub fn write(&self, alloc: Global) -> Result<Text, NoMemory>
        ensures { IfOk result (λ text. text.bytes ≡ view_block_bytes self.now) }
    {
        let mut text = Text::with_room(alloc, 73)?;
        text.push(&[KIND])?;
        text.push(&self.prev.0)?;
        text.push(&self.config.0)?;
        text.push(&self.number.to_be_bytes())?;
        Ok(text)
    }

    /// The view block whose bytes these are. It takes no memory, and `NoMemory` is never its answer. `Short`
    /// comes where there is no byte, or the kind is right and there are fewer than 73 bytes; `Kind` where
    /// the first byte is another one; `Trailing` where more bytes follow a whole view block.
    pub fn read(bytes: &[u8]) -> Result<ViewBlock, FormFault>
        // What is read is what a view block writes, and that view block is read from it.
        ensures found { IfOk result (λ block. IsViewBlock block × (bytes.now ≡ view_block_bytes block)) }
        ensures only { (block : ViewBlock) → IsViewBlock block → bytes.now ≡ view_block_bytes block → result ≡ Ok block }

        // A refusal is just the fault that shows first.
        ensures fault { (fault : FormFault) → (result ≡ Err fault) ↔ ViewBlockShows bytes.now fault }
    {
        read_whole(bytes)
    }
}

fn read_whole(bytes: &[u8]) -> Result<ViewBlock, FormFault>
    ensures { GivesJust result (whole (view_block_at bytes.now)) }
{
    let mut cursor = Cursor::new(bytes);
    let block = read_view_block(&mut cursor)?;
    end(&cursor)?;
    Ok(block)
}

#[tactic(auto, unfolding(crate::specs::Reading::view_block_at))]
fn read_view_block(cursor: &mut Cursor) -> Result<ViewBlock, FormFault>
    ensures { Reads result cursor.new (view_block_at cursor.old) }
{
    if read_byte(cursor)? != KIND {
        return Err(FormFault::Kind);
    }
    let prev = read_digest(cursor)?;
    let config = read_digest(cursor)?;
    let number = read_u64(cursor)?;
    Ok(ViewBlock {
        prev,
        config,
        number,
    })
}
