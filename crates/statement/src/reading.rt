ghost use Rattle.std.specs.Prelude.{◌≡◌, ◌<◌, length, Ok, Err, IfOk, MatchResult};
ghost use Rattle.std.specs.Int.{w16, w32, w64};
ghost use Rattle.statement.specs.Reading.{Reads, byte_at, bytes_at, number_at};

use nim_base::{Cursor, Digest, FormFault, Nonce};

pub(crate) fn read_byte(cursor: &mut Cursor) -> Result<u8, FormFault>
    ensures { Reads result cursor.new (byte_at cursor.old) }
{
    cursor.u8().ok_or(FormFault::Short)
}

pub(crate) fn read_u16(cursor: &mut Cursor) -> Result<u16, FormFault>
    ensures { Reads result cursor.new (number_at w16 cursor.old) }
{
    cursor.u16().ok_or(FormFault::Short)
}

pub(crate) fn read_u32(cursor: &mut Cursor) -> Result<u32, FormFault>
    ensures { Reads result cursor.new (number_at w32 cursor.old) }
{
    cursor.u32().ok_or(FormFault::Short)
}

pub(crate) fn read_u64(cursor: &mut Cursor) -> Result<u64, FormFault>
    ensures { Reads result cursor.new (number_at w64 cursor.old) }
{
    cursor.u64().ok_or(FormFault::Short)
}

pub(crate) fn read_bytes<'a>(cursor: &mut Cursor<'a>, number: usize) -> Result<&'a [u8], FormFault>
    ensures read { MatchResult result (λ bytes. bytes_at number cursor.old ≡ Ok (bytes.now, cursor.new)) (λ fault. bytes_at number cursor.old ≡ Err fault) }
    ensures length { IfOk result (λ bytes. length bytes.now ≡ number) }
{
    let Some(bytes) = cursor.take(number) else {
        return Err(FormFault::Short);
    };
    Ok(bytes)
}

pub(crate) fn read_digest(cursor: &mut Cursor) -> Result<Digest, FormFault>
    ensures { Reads result cursor.new (bytes_at 32 cursor.old) }
{
    let mut digest = [0; 32];
    digest.copy_from_slice(read_bytes(cursor, 32)?);
    Ok(Digest(digest))
}

pub(crate) fn read_nonce(cursor: &mut Cursor) -> Result<Nonce, FormFault>
    ensures { Reads result cursor.new (bytes_at 16 cursor.old) }
{
    let mut nonce = [0; 16];
    nonce.copy_from_slice(read_bytes(cursor, 16)?);
    Ok(Nonce(nonce))
}

/// Whether no byte is left.
pub(crate) fn end(cursor: &Cursor) -> Result<(), FormFault>
    ensures { MatchResult result (λ _. length cursor.now ≡ 0) (λ fault. (fault ≡ FormFault.Trailing) × (0 < length cursor.now)) }
{
    if cursor.left() > 0 {
        return Err(FormFault::Trailing);
    }
    Ok(())
}
