// The row whose tail was signed.
ghost use Rattle.std.specs.Prelude.{◌≡◌, ◌<◌, None, Ok, IfOk, IfSome};
ghost use Rattle.port.specs.declared.store_answers.Got.TheVariants as gots;
ghost use Rattle.op_latest.specs.LatestRow.{IsRowOf, IsNoRowOf, TakesRow};
ghost use Rattle.op_latest.specs.LatestState.{outcome_of};

use crate::latest_head::LatestHead;
use nim_base::{Digest, NoMemory};
use port::{Got, Key, LatestReply, Refusal, Row, Stored, rows_have_own_bytes};
use statement::Receipt;
use std::alloc::Global;

/// The answer by what the store gave for the row below the head.
pub fn answer_of(
    alloc: Global,
    handle: &Digest,
    head: &LatestHead,
    receipt: Receipt,
    got: Got,
) -> Result<LatestReply, Refusal>
    requires { 0 < head.now.count }
    ensures { TakesRow handle.now head.now receipt got (outcome_of result) }
{
    let height = head.count - 1;
    match got {
        Got::Some(stored) => answer_with(alloc, handle, head, receipt, stored),
        Got::None => Err(Refusal::Gap {
            handle: *handle,
            missing: height,
        }),
        Got::Failed => Err(Refusal::StoreFault),
        Got::NoMemory => Err(Refusal::NoMemory),
    }
}

fn answer_with(
    alloc: Global,
    handle: &Digest,
    head: &LatestHead,
    receipt: Receipt,
    stored: Stored,
) -> Result<LatestReply, Refusal>
    requires { 0 < head.now.count }
    ensures { TakesRow handle.now head.now receipt (gots.Some stored) (outcome_of result) }
{
    let Stored { body, attached: _ } = stored;
    let height = head.count - 1;
    match row_of(alloc, handle, head, body.bytes()) {
        Ok(Some(row)) => Ok(LatestReply {
            row: Some(row),
            receipt,
        }),
        Ok(None) => Err(Refusal::BadRow {
            key: Key::Row {
                handle: *handle,
                height,
            },
            bytes: Some(body),
        }),
        Err(NoMemory) => Err(Refusal::NoMemory),
    }
}

// The ledger's row below the head, where these are its bytes.
fn row_of(
    alloc: Global,
    handle: &Digest,
    head: &LatestHead,
    bytes: &[u8],
) -> Result<Option<Row>, NoMemory>
    requires { 0 < head.now.count }
    ensures some { IfOk result (λ found. IfSome found (IsRowOf handle.now head.now bytes.now)) }
    ensures none { result ≡ Ok None → IsNoRowOf handle.now head.now bytes.now }
{
    rows_have_own_bytes();
    let Some(row) = Row::read_at(alloc, handle, head.count - 1, bytes)? else {
        return Ok(None);
    };
    if row.metablock.tail() == head.tail {
        return Ok(Some(row));
    }
    Ok(None)
}
