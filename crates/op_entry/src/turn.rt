// One call of an operation, by its stage.
ghost use Rattle.std.specs.Prelude.{◌≡◌, ◌<◌, true, false, [], ◌∷◌, IfOk};
ghost use Rattle.port.specs.Trace.{Event, Ran};
ghost use Rattle.op_entry.specs.State.{IsReady, calls_at, is_live_at, stage_of};
ghost use Rattle.op_entry.specs.Sound.{LeadsOn};
ghost use Rattle.op_entry.specs.Turns.{stage_after};

use crate::calls::{get_at, get_below, get_taken, put_own, refresh_chain, settle_row};
use crate::stage::Stage;
use nim_base::NoMemory;
use port::{Link, Store};
use seal::Checker;
use std::alloc::Global;
use view_ledger::ViewChain;

/// Makes the next call, and gives the next stage. A stage that is the end stays, and no call is made.
pub(crate) fn next_stage<S: Store, L: Link, C: Checker>(
    alloc: Global,
    chain: &mut ViewChain,
    stage: Stage,
    store: &mut S,
    link: &mut L,
    checker: &C,
) -> Result<Stage, NoMemory>
    requires { IsReady chain.old.configs stage }
    ensures call { is_live_at (stage_of stage) ≡ true → (event : Event) × Ran S.view L.view store.old link.old (event ∷ []) store.new link.new
        × LeadsOn (C.accepts checker.now) chain.old (stage_of stage) event chain.new (stage_after result) }
    ensures ended { is_live_at (stage_of stage) ≡ false → (store.new ≡ store.old) × (link.new ≡ link.old) × (chain.new ≡ chain.old) × (stage_after result ≡ stage_of stage) }
    ensures falls { is_live_at (stage_of stage) ≡ true → calls_at chain.new (stage_after result) < calls_at chain.old (stage_of stage) }
    ensures ready { IfOk result (IsReady chain.new.configs) }
{
    match stage {
        Stage::Refresh { wanted, refresh } => {
            refresh_chain(alloc, chain, wanted, refresh, store, checker)
        }
        Stage::GetBelow { entry } => get_below(alloc, entry, store),
        Stage::Put { row, body } => put_own(alloc, chain, row, &body, store),
        Stage::GetTaken { row } => get_taken(alloc, chain, row, store, checker),
        Stage::GetAt { handle, height } => get_at(alloc, chain, &handle, height, store, checker),
        Stage::Settle { found, settle } => {
            settle_row(alloc, chain, found, settle, store, link, checker)
        }
        Stage::Ended { answer } => Ok(Stage::Ended { answer }),
    }
}
