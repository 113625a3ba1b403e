// Whole operations on one row of a ledger.
ghost use Rattle.std.specs.Prelude.{◌≡◌, ◌≤◌, ◌<◌, ◌^◌, List};
ghost use Rattle.chain_block.specs.Entry.{IsWithinLimits, bare, height_of};
ghost use Rattle.port.specs.RowForm.{IsStored};
ghost use Rattle.op_entry.specs.Ask as asks;
ghost use Rattle.op_entry.specs.State.{answer_of};
ghost use Rattle.coordinator.specs.Entries.{EntryRan};

use crate::ended::Ended;
use calm_entry::{
    calm_runs_know_views, calm_services_give_entries, calm_services_make_ledgers,
    calm_services_take_entries,
};
use chain_block::Entry;
use nim_base::Digest;
use op_entry::{AppendOp, AtOp, NewOp};
use port::{Link, Standing, Store};
use seal::Checker;
use std::alloc::Global;
use view_ledger::ViewChain;

/// Makes a ledger with this first entry.
pub(crate) fn make<S: Store, L: Link, C: Checker>(
    alloc: Global,
    chain: ViewChain,
    entry: Entry,
    store: &mut S,
    link: &mut L,
    checker: &C,
) -> Ended<Standing>
    requires first { height_of entry ≡ 0 }
    requires limits { IsWithinLimits entry }
    ensures { EntryRan (C.accepts checker.now) S.view L.view (asks.NewLedger (bare entry)) chain store.old link.old result.chain store.new link.new (answer_of result.answer) }
{
    calm_services_make_ledgers();
    calm_runs_know_views();
    stored(&entry);
    let mut op = NewOp::new(chain, entry);
    while op.step(alloc, store, link, checker) {}
    let (chain, answer) = op.into_parts();
    match answer {
        Some(answer) => Ended { chain, answer },
        None => unreachable!(),
    }
}

/// Appends this entry to its ledger.
pub(crate) fn append<S: Store, L: Link, C: Checker>(
    alloc: Global,
    chain: ViewChain,
    entry: Entry,
    store: &mut S,
    link: &mut L,
    checker: &C,
) -> Ended<Standing>
    requires later { 1 ≤ height_of entry }
    requires limits { IsWithinLimits entry }
    ensures { EntryRan (C.accepts checker.now) S.view L.view (asks.AppendEntry (bare entry)) chain store.old link.old result.chain store.new link.new (answer_of result.answer) }
{
    calm_services_take_entries();
    calm_runs_know_views();
    stored(&entry);
    let mut op = AppendOp::new(chain, entry);
    while op.step(alloc, store, link, checker) {}
    let (chain, answer) = op.into_parts();
    match answer {
        Some(answer) => Ended { chain, answer },
        None => unreachable!(),
    }
}

/// Reads the entry of the ledger at the height.
pub(crate) fn read_at<S: Store, L: Link, C: Checker>(
    alloc: Global,
    chain: ViewChain,
    handle: Digest,
    height: u64,
    store: &mut S,
    link: &mut L,
    checker: &C,
) -> Ended<Standing>
    requires { height < 2 ^ 32 }
    ensures { EntryRan (C.accepts checker.now) S.view L.view (asks.ReadAt handle height) chain store.old link.old result.chain store.new link.new (answer_of result.answer) }
{
    calm_services_give_entries();
    calm_runs_know_views();
    let mut op = AtOp::new(chain, handle, height);
    while op.step(alloc, store, link, checker) {}
    let (chain, answer) = op.into_parts();
    match answer {
        Some(answer) => Ended { chain, answer },
        None => unreachable!(),
    }
}

// An entry of the code has fields of their lengths.
fn stored(entry: &Entry)
    requires { IsWithinLimits entry.now }
    ensures { IsStored (bare entry.now) }
{
    match entry {
        Entry::Genesis { nonce, .. } => {
            let nonce = &nonce.0;
            let _ = nonce.len();
        }
        Entry::Later { handle, nonce, .. } => {
            let (handle, nonce) = (&handle.0, &nonce.0);
            let _ = handle.len() + nonce.len();
        }
    }
}
