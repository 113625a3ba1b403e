ghost use Rattle.std.specs.Prelude.{◌≡◌, ◌++◌, ◌↔◌, ◌⊎◌, length, IsTrue, IfOk, IfErr};
ghost use Rattle.std.specs.List.{flat_map, AllByRecursion};
ghost use Rattle.nim_base.specs.Cursor.{Takes};
ghost use Rattle.tail_map.specs.TailMap.{IsRising, IsRow, IsMap};
ghost use Rattle.tail_map.specs.MapForm.{row_bytes, map_bytes, IsBytes};
ghost use Rattle.tail_map.specs.FormFault.{IsAbove, RowShows, ShowsAmong, Shows};

use crate::tail_map::{KIND, MAX_COUNT, MAX_ROWS};
use crate::tail_row::TailRow;
use nim_base::{Cursor, Digest, FormFault};
use std::alloc::Global;

/// The rows of the map that the bytes hold.
pub(crate) fn read_rows(alloc: Global, bytes: &[u8]) -> Result<Vec<TailRow>, FormFault>
    ensures found { IfOk result (λ rows. IsMap rows.items × (bytes.now ≡ map_bytes rows.items)) }
    ensures fault { IfErr result (λ fault. (fault ≡ FormFault.NoMemory) ⊎ Shows bytes.now fault) }
{
    let mut cursor = Cursor::new(bytes);
    let Some(kind) = cursor.u8() else {
        return Err(FormFault::Short);
    };
    if kind != KIND {
        return Err(FormFault::Kind);
    }
    let Some(number) = cursor.u32() else {
        return Err(FormFault::Short);
    };
    if number as usize > MAX_ROWS {
        return Err(FormFault::Value);
    }
    let rows = read_each(alloc, &mut cursor, number)?;
    if cursor.left() > 0 {
        return Err(FormFault::Trailing);
    }
    Ok(rows)
}

fn read_each(alloc: Global, cursor: &mut Cursor, number: u32) -> Result<Vec<TailRow>, FormFault>
    requires { IsBytes cursor.old }
    ensures number { IfOk result (λ rows. length rows.items ≡ number) }
    ensures rising { IfOk result (λ rows. IsRising rows.items) }
    ensures each { IfOk result (λ rows. AllByRecursion IsRow rows.items) }
    ensures form { IfOk result (λ rows. cursor.old ≡ flat_map row_bytes rows.items ++ cursor.new) }
    ensures fault { IfErr result (λ fault. (fault ≡ FormFault.NoMemory) ⊎ ShowsAmong number cursor.old fault) }
{
    let mut rows = Vec::with_capacity(alloc, number as usize)?;
    for _ in 0..number {
        let row = read_row(cursor, &rows)?;
        rows.push(row)?;
    }
    Ok(rows)
}

fn read_row(cursor: &mut Cursor, before: &[TailRow]) -> Result<TailRow, FormFault>
    requires bytes { IsBytes cursor.old }
    requires rising { IsRising before.now }
    ensures row { IfOk result (λ row. IsRow row) }
    ensures above { IfOk result (λ row. IsAbove before.now row.handle) }
    ensures form { IfOk result (λ row. cursor.old ≡ row_bytes row ++ cursor.new) }
    ensures fault { IfErr result (λ fault. RowShows before.now cursor.old fault) }
{
    let Some(handle) = read_digest(cursor) else {
        return Err(FormFault::Short);
    };
    if !is_above(before, &handle) {
        return Err(FormFault::Order);
    }
    let Some(tail) = read_digest(cursor) else {
        return Err(FormFault::Short);
    };
    let Some(count) = cursor.u64() else {
        return Err(FormFault::Short);
    };
    if count == 0 || count > MAX_COUNT {
        return Err(FormFault::Value);
    }
    Ok(TailRow {
        handle,
        tail,
        count,
    })
}

fn is_above(rows: &[TailRow], handle: &Digest) -> bool
    requires { IsRising rows.now }
    ensures { IsTrue result ↔ IsAbove rows.now handle.now }
{
    match rows.last() {
        None => true,
        Some(last) => last.handle.cmp(handle).is_lt(),
    }
}

fn read_digest(cursor: &mut Cursor) -> Option<Digest>
    ensures { Takes 32 (λ bytes digest. digest ≡ bytes) cursor.old cursor.new result }
{
    let bytes = cursor.take(32)?;
    let mut digest = [0; 32];
    digest.copy_from_slice(bytes);
    Some(Digest(digest))
}
