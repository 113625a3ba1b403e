ghost use Rattle.std.specs.Prelude.{◌≡◌, ◌⊎◌, IfOk, IfErr};
ghost use Rattle.chain_block.specs.Entry.{IsWithinLimits, bare, entry_bytes};
ghost use Rattle.port.specs.Field.{FieldBegins, sized, SizedBegins};
ghost use Rattle.port.specs.RowForm.{IsStored, IsBlock, block_bytes, IsRow, row_bytes, RowBegins, RowShows};
ghost use Rattle.port.specs.Finding.{Finds, Missed};

use crate::reading::{end, read_bytes, read_kind, read_sized};
use crate::row::{KIND, Row};
use chain_block::{Entry, EntryFault, MetaBlock};
use nim_base::{Cursor, FormFault};
use std::alloc::Global;

/// The row that has these bytes, all of them.
pub(crate) fn read_whole(alloc: Global, bytes: &[u8]) -> Result<Row, FormFault>
    ensures found { IfOk result (λ row. IsRow row × (bytes.now ≡ row_bytes row)) }
    ensures fault { IfErr result (λ fault. Missed RowShows bytes.now fault) }
{
    let mut cursor = Cursor::new(bytes);
    let row = read_row(alloc, &mut cursor)?;
    end(&cursor)?;
    Ok(row)
}

fn read_row(alloc: Global, cursor: &mut Cursor) -> Result<Row, FormFault>
    ensures { Finds (λ row. row) IsRow row_bytes RowBegins cursor.old cursor.new result }
{
    read_kind(cursor, KIND)?;
    let entry = read_entry(alloc, cursor)?;
    let metablock = read_metablock(cursor)?;
    Ok(Row { entry, metablock })
}

fn read_entry(alloc: Global, cursor: &mut Cursor) -> Result<Entry, FormFault>
    ensures found { Finds bare IsStored (sized entry_bytes) (SizedBegins IsStored entry_bytes) cursor.old cursor.new result }
    ensures limits { IfOk result IsWithinLimits }
{
    let bytes = read_sized(cursor)?;
    match Entry::read(alloc, bytes) {
        Ok(entry) => Ok(entry),
        Err(EntryFault::NoMemory) => Err(FormFault::NoMemory),
        Err(_) => Err(FormFault::Value),
    }
}

fn read_metablock(cursor: &mut Cursor) -> Result<MetaBlock, FormFault>
    ensures { Finds (λ block. block) IsBlock block_bytes (FieldBegins IsBlock block_bytes 73) cursor.old cursor.new result }
{
    let bytes = read_bytes(cursor, 73)?;
    let Some(block) = MetaBlock::read(bytes) else {
        return Err(FormFault::Value);
    };
    Ok(block)
}
