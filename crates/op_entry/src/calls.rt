// The calls of an operation, one a stage, and what becomes of the operation by the answer.
ghost use Rattle.std.specs.Prelude.{◌≡◌, ◌<◌, true, List, [], ◌∷◌, Result, IfOk};
ghost use Rattle.nim_base.specs.declared.no_memory.NoMemory.{NoMemory as MemoryWanted};
ghost use Rattle.chain_block.specs.Entry.{bare, handle_of};
ghost use Rattle.statement.specs.declared.member.Member.{Member};
ghost use Rattle.port.specs.declared.key.Key.TheVariants as keys;
ghost use Rattle.port.specs.declared.store_answers.Got.{Got};
ghost use Rattle.port.specs.declared.store_answers.Put.{Put};
ghost use Rattle.port.specs.RowForm.{row_bytes};
ghost use Rattle.port.specs.Store.{Get, PutNew, StoreStep, WasGot, WasPut};
ghost use Rattle.port.specs.Trace.{Event, Ran};
ghost use Rattle.op_parts.specs.declared.refresh_turn.RefreshProgress.{RefreshProgress};
ghost use Rattle.op_parts.specs.RefreshSound.{Goes, Leads as RefreshLeads, key_of as key_of_refresh};
ghost use Rattle.op_parts.specs.RefreshState.{RefreshState, calls_left as refresh_calls, is_live as is_refreshing};
ghost use Rattle.settle.specs.declared.progress.SettleProgress.{SettleProgress};
ghost use Rattle.settle.specs.Leads.{Leads as SettleLeads};
ghost use Rattle.settle.specs.State.{State as SettleState, calls_left as settle_calls, is_live as is_settling};
ghost use Rattle.op_entry.specs.Ask.{IsAllowed, IsLater, ask_of};
ghost use Rattle.op_entry.specs.Finding.{IsFindingAt, IsTakenFinding};
ghost use Rattle.op_entry.specs.OwnRow.{IsWhole, get_of, height_below, key_of};
ghost use Rattle.op_entry.specs.State.{IsReady, members_in};
ghost use Rattle.op_entry.specs.Turns.{TakesBelow, TakesGot, TakesProgress, TakesPut, TakesSettled, stage_after};

use crate::finding::Finding;
use crate::found::Found;
use crate::own_row::{ledger_of, take_below, take_put, take_refreshed};
use crate::settling::{conclude, take_settled};
use crate::stage::Stage;
use crate::wanted::Wanted;
use chain_block::Entry;
use nim_base::{Digest, NoMemory, Text};
use op_parts::Refresh;
use port::{Key, Link, Row, Store};
use seal::Checker;
use settle::Settle;
use std::alloc::Global;
use view_ledger::ViewChain;

/// The next call of the refresh.
pub(crate) fn refresh_chain<S: Store, C: Checker>(
    alloc: Global,
    chain: &mut ViewChain,
    wanted: Wanted,
    refresh: Refresh,
    store: &mut S,
    checker: &C,
) -> Result<Stage, NoMemory>
    requires allowed { IsAllowed wanted }
    requires live { is_refreshing refresh ≡ true }
    ensures call { let key = key_of_refresh refresh chain.old in (got : Got) × (new : RefreshState) × (progress : Result RefreshProgress MemoryWanted)
        × StoreStep S.view store.old store.new (Get key) (WasGot got)
        × Goes (C.accepts checker.now) refresh chain.old (get_of key got) new chain.new progress
        × RefreshLeads (C.accepts checker.now) refresh chain.old (get_of key got) new chain.new
        × (refresh_calls new chain.new < refresh_calls refresh chain.old)
        × TakesProgress (ask_of wanted) new progress (stage_after result) }
    ensures ready { IfOk result (IsReady chain.new.configs) }
{
    let mut refresh = refresh;
    let progress = refresh.step(alloc, chain, store, checker);
    take_refreshed(alloc, wanted, refresh, progress)
}

/// The get of the row below the entry.
pub(crate) fn get_below<S: Store>(
    alloc: Global,
    entry: Entry,
    store: &mut S,
) -> Result<Stage, NoMemory>
    requires { IsLater entry }
    ensures call { (got : Got) × StoreStep S.view store.old store.new (Get (keys.Row (handle_of (bare entry)) (height_below (bare entry)))) (WasGot got) × TakesBelow (bare entry) got (stage_after result) }
    ensures ready { (configs : List (List Member)) → IfOk result (IsReady configs) }
{
    let key = Key::Row {
        handle: entry.handle(),
        height: entry.height() - 1,
    };
    let got = store.get(alloc, &key);
    take_below(alloc, entry, got)
}

/// The put of the own row, which has these bytes.
pub(crate) fn put_own<S: Store>(
    alloc: Global,
    chain: &ViewChain,
    row: Row,
    body: &Text,
    store: &mut S,
) -> Result<Stage, NoMemory>
    requires whole { IsWhole row }
    requires bytes { body.now.bytes ≡ row_bytes row }
    ensures call { (put : Put) × StoreStep S.view store.old store.new (PutNew (key_of row) (row_bytes row)) (WasPut put) × TakesPut chain.now.configs row put (stage_after result) }
    ensures ready { IfOk result (IsReady chain.now.configs) }
{
    let key = Key::Row {
        handle: ledger_of(&row),
        height: row.height(),
    };
    let put = store.put_new(alloc, &key, body.bytes());
    take_put(alloc, chain, row, put)
}

/// The get of what stands in the place of the own row.
pub(crate) fn get_taken<S: Store, C: Checker>(
    alloc: Global,
    chain: &ViewChain,
    own: Row,
    store: &mut S,
    checker: &C,
) -> Result<Stage, NoMemory>
    requires { IsWhole own }
    ensures call { (got : Got) × StoreStep S.view store.old store.new (Get (key_of own)) (WasGot got) × TakesGot (C.accepts checker.now) chain.now.configs (IsTakenFinding own got) (stage_after result) }
    ensures ready { IfOk result (IsReady chain.now.configs) }
{
    let key = Key::Row {
        handle: ledger_of(&own),
        height: own.height(),
    };
    let got = store.get(alloc, &key);
    let finding = Finding::of_taken(alloc, &own, got)?;
    conclude(alloc, chain, checker, finding)
}

/// The get of the row of the ledger at the height.
pub(crate) fn get_at<S: Store, C: Checker>(
    alloc: Global,
    chain: &ViewChain,
    handle: &Digest,
    height: u64,
    store: &mut S,
    checker: &C,
) -> Result<Stage, NoMemory>
    ensures call { (got : Got) × StoreStep S.view store.old store.new (Get (keys.Row handle.now height)) (WasGot got) × TakesGot (C.accepts checker.now) chain.now.configs (IsFindingAt handle.now height got) (stage_after result) }
    ensures ready { IfOk result (IsReady chain.now.configs) }
{
    let key = Key::Row {
        handle: *handle,
        height,
    };
    let got = store.get(alloc, &key);
    let finding = Finding::at(alloc, handle, height, got)?;
    conclude(alloc, chain, checker, finding)
}

/// The next call of the settling of the row.
pub(crate) fn settle_row<S: Store, L: Link, C: Checker>(
    alloc: Global,
    chain: &ViewChain,
    found: Found,
    settle: Settle,
    store: &mut S,
    link: &mut L,
    checker: &C,
) -> Result<Stage, NoMemory>
    requires { is_settling (members_in chain.now.configs) settle ≡ true }
    ensures call { (event : Event) × (new : SettleState) × (progress : Result SettleProgress MemoryWanted)
        × Ran S.view L.view store.old link.old (event ∷ []) store.new link.new
        × SettleLeads (C.accepts checker.now) chain.now.configs settle event new progress
        × (settle_calls (members_in chain.now.configs) new < settle_calls (members_in chain.now.configs) settle)
        × TakesSettled found new progress (stage_after result) }
    ensures ready { IfOk result (IsReady chain.now.configs) }
{
    let mut settle = settle;
    let progress = settle.step(alloc, chain, store, link, checker);
    take_settled(found, settle, progress)
}
