// What becomes of the own row that was got.
ghost use Rattle.std.specs.Prelude.{◌≡◌, ◌↔◌, Ok, None, IsTrue, IfOk, IfSome};
ghost use Rattle.chain_block.specs.Entry.{height_of};
ghost use Rattle.op_entry.specs.OwnRow.{IsInPlaceOf, IsOutOfPlace, IsWhole};
ghost use Rattle.op_entry.specs.Finding.{IsFindingAt, IsTakenFinding, IsWholeFinding};

use crate::found::Found;
use crate::own_row::ledger_of;
use nim_base::{Digest, NoMemory, Text};
use port::{Got, Key, Refusal, Row, rows_have_own_bytes};
use std::alloc::Global;

/// What became of the own row that was got.
#[derive(Drop)]
pub enum Finding {
    /// This row stands, and this is attached to it.
    Row {
        found: Found,
        attached: Option<Text>,
    },
    /// It isn't to be had.
    Refused {
        refusal: Refusal,
    },
}

impl Finding {
    /// What the store gave for the own row, whose place it had called taken.
    pub fn of_taken(alloc: Global, own: &Row, got: Got) -> Result<Finding, NoMemory>
        requires { IsWhole own.now }
        ensures found { IfOk result (IsTakenFinding own.now got) }
        ensures whole { IfOk result IsWholeFinding }
    {
        let handle = ledger_of(own);
        let height = own.height();
        match got {
            Got::Some(stored) => match row_in_place(alloc, own, stored.body.bytes())? {
                Some(row) => {
                    let is_own = row.has_entry(&own.entry);
                    Ok(Finding::row(row, is_own, stored.attached))
                }
                None => Ok(Finding::bad_row(handle, height, Some(stored.body))),
            },
            Got::None => Ok(Finding::bad_row(handle, height, None)),
            Got::Failed => Ok(Finding::refused(Refusal::StoreFault)),
            Got::NoMemory => Err(NoMemory),
        }
    }

    /// What the store gave for the row of the ledger at the height.
    pub fn at(alloc: Global, handle: &Digest, height: u64, got: Got) -> Result<Finding, NoMemory>
        ensures found { IfOk result (IsFindingAt handle.now height got) }
        ensures whole { IfOk result IsWholeFinding }
    {
        let handle = *handle;
        match got {
            Got::Some(stored) => match Row::read_at(alloc, &handle, height, stored.body.bytes())? {
                Some(row) => Ok(Finding::row(row, true, stored.attached)),
                None => Ok(Finding::bad_row(handle, height, Some(stored.body))),
            },
            Got::None => Ok(Finding::refused(Refusal::Gap {
                handle,
                missing: height,
            })),
            Got::Failed => Ok(Finding::refused(Refusal::StoreFault)),
            Got::NoMemory => Err(NoMemory),
        }
    }

    fn row(row: Row, is_own: bool, attached: Option<Text>) -> Finding
        ensures { result ≡ Finding.Row (record { row = row; is_own = is_own }) attached }
    {
        Finding::Row {
            found: Found { row, is_own },
            attached,
        }
    }

    fn refused(refusal: Refusal) -> Finding
        ensures { result ≡ Finding.Refused refusal }
    {
        Finding::Refused { refusal }
    }

    fn bad_row(handle: Digest, height: u64, bytes: Option<Text>) -> Finding
        ensures { result ≡ Finding.Refused (Refusal.BadRow (Key.Row handle height) bytes) }
    {
        let key = Key::Row { handle, height };
        Finding::refused(Refusal::BadRow { key, bytes })
    }
}

// The row whose bytes these are, where it may stand in the place of the own one.
fn row_in_place(alloc: Global, own: &Row, bytes: &[u8]) -> Result<Option<Row>, NoMemory>
    requires { IsWhole own.now }
    ensures some { IfOk result (λ found. IfSome found (λ row. IsInPlaceOf own.now bytes.now row)) }
    ensures none { result ≡ Ok None → IsOutOfPlace own.now bytes.now }
{
    let Some(row) = Row::read_at(alloc, &ledger_of(own), own.height(), bytes)? else {
        return Ok(None);
    };
    rows_have_own_bytes();
    if may_stand(own, &row) {
        return Ok(Some(row));
    }
    Ok(None)
}

fn may_stand(own: &Row, row: &Row) -> bool
    ensures { IsTrue result ↔ ((row.now.metablock.prev ≡ own.now.metablock.prev) × (height_of own.now.entry ≡ 0 → row.now.entry ≡ own.now.entry)) }
{
    row.metablock.prev == own.metablock.prev && may_have_entry(own, row)
}

// No other entry is the first of its ledger.
fn may_have_entry(own: &Row, row: &Row) -> bool
    ensures { IsTrue result ↔ (height_of own.now.entry ≡ 0 → row.now.entry ≡ own.now.entry) }
{
    own.height() > 0 || row.has_entry(&own.entry)
}
