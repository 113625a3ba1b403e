ghost use Rattle.std.specs.Prelude.{◌≡◌};
ghost use Rattle.nim_base.specs.Cursor.{Takes};

use nim_base::{Cursor, Digest, Nonce};

pub(crate) fn read_digest(cursor: &mut Cursor) -> Option<Digest>
    ensures { Takes 32 (λ bytes digest. digest ≡ bytes) cursor.old cursor.new result }
{
    let mut digest = [0; 32];
    digest.copy_from_slice(cursor.take(32)?);
    Some(Digest(digest))
}

pub(crate) fn read_nonce(cursor: &mut Cursor) -> Option<Nonce>
    ensures { Takes 16 (λ bytes nonce. nonce ≡ bytes) cursor.old cursor.new result }
{
    let mut nonce = [0; 16];
    nonce.copy_from_slice(cursor.take(16)?);
    Some(Nonce(nonce))
}
