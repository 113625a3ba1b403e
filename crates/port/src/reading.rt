ghost use Rattle.std.specs.Prelude.{◌≡◌, ◌<◌, ◌^◌, ◌++◌, ◌∷◌, length, MatchResult};
ghost use Rattle.std.specs.Int.{w16, w32, to_be_bytes};
ghost use Rattle.statement.specs.FormFault.{IsCut, byte_form};
ghost use Rattle.statement.specs.Mark.{IsSignature, SignatureBegins};
ghost use Rattle.port.specs.FinalsForm.{signature_bytes};
ghost use Rattle.port.specs.Finding.{AreBytes, Missed, Finds, KindShows, SizeShows};

use nim_base::{Cursor, FormFault, Text};
use statement::MAX_SIGNATURE;
use std::alloc::Global;

pub(crate) fn read_byte(cursor: &mut Cursor) -> Result<u8, FormFault>
    ensures { Finds (λ byte. byte) (λ byte. byte < 2 ^ 8) byte_form (IsCut 1) cursor.old cursor.new result }
{
    let Some(byte) = cursor.u8() else {
        return Err(FormFault::Short);
    };
    Ok(byte)
}

pub(crate) fn read_u16(cursor: &mut Cursor) -> Result<u16, FormFault>
    ensures { Finds (λ n. n) (λ n. n < 2 ^ 16) (to_be_bytes w16) (IsCut 2) cursor.old cursor.new result }
{
    let Some(number) = cursor.u16() else {
        return Err(FormFault::Short);
    };
    Ok(number)
}

pub(crate) fn read_u32(cursor: &mut Cursor) -> Result<u32, FormFault>
    ensures { Finds (λ n. n) (λ n. n < 2 ^ 32) (to_be_bytes w32) (IsCut 4) cursor.old cursor.new result }
{
    let Some(number) = cursor.u32() else {
        return Err(FormFault::Short);
    };
    Ok(number)
}

pub(crate) fn read_bytes<'a>(cursor: &mut Cursor<'a>, number: usize) -> Result<&'a [u8], FormFault>
    ensures { MatchResult result (λ bytes. (length bytes.now ≡ number) × (cursor.old ≡ bytes.now ++ cursor.new)) (λ fault. IsCut number cursor.old fault) }
{
    let Some(bytes) = cursor.take(number) else {
        return Err(FormFault::Short);
    };
    Ok(bytes)
}

/// The bytes of a field whose length stands before it in four bytes.
pub(crate) fn read_sized<'a>(cursor: &mut Cursor<'a>) -> Result<&'a [u8], FormFault>
    ensures { AreBytes cursor.old
        → MatchResult result (λ bytes. (length bytes.now < 2 ^ 32) × (cursor.old ≡ to_be_bytes w32 (length bytes.now) ++ (bytes.now ++ cursor.new))) (Missed SizeShows cursor.old) }
{
    let number = read_u32(cursor)? as usize;
    read_bytes(cursor, number)
}

/// All that is left.
pub(crate) fn read_rest<'a>(cursor: &mut Cursor<'a>) -> &'a [u8]
    ensures { result.now ≡ cursor.old }
{
    let left = cursor.left();
    match cursor.take(left) {
        Some(bytes) => bytes,
        None => &[],
    }
}

/// The kind, which is one byte.
pub(crate) fn read_kind(cursor: &mut Cursor, kind: u8) -> Result<(), FormFault>
    ensures { AreBytes cursor.old → MatchResult result (λ _. cursor.old ≡ kind ∷ cursor.new) (Missed (KindShows kind) cursor.old) }
{
    if read_byte(cursor)? != kind {
        return Err(FormFault::Kind);
    }
    Ok(())
}

/// A signature with its length before it.
pub(crate) fn read_signature(alloc: Global, cursor: &mut Cursor) -> Result<Text, FormFault>
    ensures { Finds (λ text. text.bytes) IsSignature signature_bytes SignatureBegins cursor.old cursor.new result }
{
    let size = read_u16(cursor)? as usize;
    if size == 0 || size > MAX_SIGNATURE {
        return Err(FormFault::Value);
    }
    Ok(Text::of(alloc, read_bytes(cursor, size)?)?)
}

/// Whether no byte is left.
pub(crate) fn end(cursor: &Cursor) -> Result<(), FormFault>
    ensures { MatchResult result (λ _. length cursor.now ≡ 0) (λ fault. (fault ≡ FormFault.Trailing) × (0 < length cursor.now)) }
{
    if cursor.left() > 0 {
        return Err(FormFault::Trailing);
    }
    Ok(())
}
