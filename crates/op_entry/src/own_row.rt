// The own row of an operation: how it is made, and what becomes of its put.
ghost use Rattle.std.specs.Prelude.{◌≡◌, ◌^◌, ◌<◌, List, true, replicate, Ok, IfOk};
ghost use Rattle.chain_block.specs.Entry.{IsWithinLimits, bare, handle_of};
ghost use Rattle.statement.specs.declared.member.Member.{Member};
ghost use Rattle.op_parts.specs.RefreshState.{is_live as is_refreshing};
ghost use Rattle.op_entry.specs.Ask.{IsAllowed, IsLater, ask_of};
ghost use Rattle.op_entry.specs.OwnRow.{IsWhole, row_on};
ghost use Rattle.op_entry.specs.State.{Ended, IsReady, Putting, stage_of};
ghost use Rattle.op_entry.specs.Turns.{Starts, TakesBelow, TakesProgress, TakesPut, stage_after};

use crate::found::Found;
use crate::settling::{refused, settle};
use crate::stage::Stage;
use crate::wanted::Wanted;
use chain_block::{Entry, MetaBlock};
use nim_base::{Digest, NoMemory, Text};
use op_parts::{Refresh, RefreshProgress};
use port::{Got, Key, Put, Refusal, Row};
use std::alloc::Global;
use view_ledger::ViewChain;

/// The ledger of a row whose metablock is its entry's, without digesting the entry again.
pub(crate) fn ledger_of(row: &Row) -> Digest
    requires { IsWhole row.now }
    ensures ledger { result ≡ handle_of row.now.entry }
    ensures height { row.now.metablock.height < 2 ^ 32 }
{
    match &row.entry {
        Entry::Genesis { .. } => row.metablock.entry,
        Entry::Later { handle, .. } => *handle,
    }
}

/// How an operation goes on by how its refresh stands.
pub(crate) fn take_refreshed(
    alloc: Global,
    wanted: Wanted,
    refresh: Refresh,
    progress: Result<RefreshProgress, NoMemory>,
) -> Result<Stage, NoMemory>
    requires allowed { IsAllowed wanted }
    requires live { progress ≡ Ok RefreshProgress.More → is_refreshing refresh ≡ true }
    ensures takes { TakesProgress (ask_of wanted) refresh progress (stage_after result) }
    ensures ready { (configs : List (List Member)) → IfOk result (IsReady configs) }
{
    match progress? {
        RefreshProgress::More => Ok(Stage::Refresh { wanted, refresh }),
        RefreshProgress::Fresh => start(alloc, wanted),
        RefreshProgress::Refused { refusal } => Ok(refused(refusal)),
    }
}

// How an operation goes on once its chain is refreshed.
fn start(alloc: Global, wanted: Wanted) -> Result<Stage, NoMemory>
    requires { IsAllowed wanted }
    ensures starts { Starts (ask_of wanted) (stage_after result) }
    ensures ready { (configs : List (List Member)) → IfOk result (IsReady configs) }
{
    match wanted {
        Wanted::New { entry } => put_on(alloc, &Digest::default(), entry),
        Wanted::Append { entry } => Ok(Stage::GetBelow { entry }),
        Wanted::At { handle, height } => Ok(Stage::GetAt { handle, height }),
    }
}

// The row of the entry on this tail is to be put.
fn put_on(alloc: Global, prev: &Digest, entry: Entry) -> Result<Stage, NoMemory>
    requires { IsWithinLimits entry }
    ensures row { IfOk result (λ stage. stage_of stage ≡ Putting (row_on prev.now (bare entry))) }
    ensures ready { (configs : List (List Member)) → IfOk result (IsReady configs) }
{
    let metablock = MetaBlock {
        prev: *prev,
        entry: entry.entry_digest(),
        height: entry.height(),
    };
    let row = Row { entry, metablock };
    let body = row.write(alloc)?;
    Ok(Stage::Put { row, body })
}

/// By what the store gave for the row below the entry.
pub(crate) fn take_below(alloc: Global, entry: Entry, got: Got) -> Result<Stage, NoMemory>
    requires { IsLater entry }
    ensures takes { TakesBelow (bare entry) got (stage_after result) }
    ensures ready { (configs : List (List Member)) → IfOk result (IsReady configs) }
{
    let handle = entry.handle();
    let height = entry.height() - 1;
    match got {
        Got::Some(stored) => match Row::read_at(alloc, &handle, height, stored.body.bytes())? {
            Some(below) => put_on(alloc, &below.metablock.tail(), entry),
            None => Ok(bad_row(handle, height, Some(stored.body))),
        },
        Got::None => Ok(refused(Refusal::Gap {
            handle,
            missing: height,
        })),
        Got::Failed => Ok(refused(Refusal::StoreFault)),
        Got::NoMemory => Err(NoMemory),
    }
}

/// By what the store answered to the put of the row.
pub(crate) fn take_put(
    alloc: Global,
    chain: &ViewChain,
    row: Row,
    put: Put,
) -> Result<Stage, NoMemory>
    requires { IsWhole row }
    ensures takes { TakesPut chain.now.configs row put (stage_after result) }
    ensures ready { IfOk result (IsReady chain.now.configs) }
{
    match put {
        Put::Done => Ok(settle(alloc, chain, Found { row, is_own: true })),
        Put::Taken => Ok(Stage::GetTaken { row }),
        Put::Failed => Ok(refused(Refusal::StoreFault)),
        Put::NoMemory => Err(NoMemory),
    }
}

// The end with `BadRow` of this row.
fn bad_row(handle: Digest, height: u64, bytes: Option<Text>) -> Stage
    ensures { result ≡ Stage.Ended (Err (Refusal.BadRow (Key.Row handle height) bytes)) }
{
    refused(Refusal::BadRow {
        key: Key::Row { handle, height },
        bytes,
    })
}
