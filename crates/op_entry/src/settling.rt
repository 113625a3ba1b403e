// How the own row comes to its end: it stands by what is attached to it, or it is settled.
ghost use Rattle.std.specs.Prelude.{◌≡◌, List, true, Ok, IfOk};
ghost use Rattle.std.specs.Option.{option_map};
ghost use Rattle.statement.specs.declared.member.Member.{Member};
ghost use Rattle.settle.specs.State.{State as SettleState, is_live as is_settling};
ghost use Rattle.op_entry.specs.Finding.{IsWholeFinding};
ghost use Rattle.op_entry.specs.OwnRow.{IsWhole};
ghost use Rattle.op_entry.specs.Standing.{answer_with, head_of};
ghost use Rattle.op_entry.specs.State.{Ended, IsReady, Settling, members_in, stage_of};
ghost use Rattle.op_entry.specs.Turns.{Begins, TakesFinding, TakesFound, TakesSettled, stage_after};

use crate::finding::Finding;
use crate::found::Found;
use crate::own_row::ledger_of;
use crate::stage::Stage;
use chain_block::MetaBlock;
use nim_base::{NoMemory, Text};
use op_parts::{Head, accepted_receipt, members};
use port::{Refusal, Standing};
use seal::Checker;
use settle::{Settle, SettleProgress};
use statement::Receipt;
use std::alloc::Global;
use view_ledger::ViewChain;

/// How an operation goes on by what became of the own row that was got.
pub(crate) fn conclude<C: Checker>(
    alloc: Global,
    chain: &ViewChain,
    checker: &C,
    finding: Finding,
) -> Result<Stage, NoMemory>
    requires { IsWholeFinding finding }
    ensures takes { TakesFinding (C.accepts checker.now) chain.now.configs finding (stage_after result) }
    ensures ready { IfOk result (IsReady chain.now.configs) }
{
    match finding {
        Finding::Row { found, attached } => weigh(alloc, chain, checker, found, &attached),
        Finding::Refused { refusal } => Ok(refused(refusal)),
    }
}

// With an accepted receipt the row stands; without one it is to be settled.
fn weigh<C: Checker>(
    alloc: Global,
    chain: &ViewChain,
    checker: &C,
    found: Found,
    attached: &Option<Text>,
) -> Result<Stage, NoMemory>
    requires { IsWhole found.row }
    ensures takes { TakesFound (C.accepts checker.now) chain.now.configs found (option_map (λ text. text.bytes) attached.now) (stage_after result) }
    ensures ready { IfOk result (IsReady chain.now.configs) }
{
    let head = head_after(&found);
    match accepted_receipt(alloc, chain, checker, &head, attached)? {
        Some(receipt) => Ok(stand(found, Vec::new(alloc), receipt)),
        None => Ok(settle(alloc, chain, found)),
    }
}

// What a receipt of the row is to say.
fn head_after(found: &Found) -> Head
    requires { IsWhole found.now.row }
    ensures { result ≡ head_of found.now.row }
{
    Head {
        handle: ledger_of(&found.row),
        tail: found.row.metablock.tail(),
        count: found.row.metablock.height + 1,
    }
}

/// The row is to be settled.
pub(crate) fn settle(alloc: Global, chain: &ViewChain, found: Found) -> Stage
    requires { IsWhole found.row }
    ensures settling { (settle : SettleState) × (stage_of result ≡ Settling found settle) × Begins chain.now.configs found.row settle }
    ensures ready { IsReady chain.now.configs result }
{
    // There are some, and few.
    let _members = members(chain);
    let settle = Settle::new(alloc, &ledger_of(&found.row), &found.row.metablock);
    Stage::Settle { found, settle }
}

/// How an operation goes on by how the settling of its row stands.
pub(crate) fn take_settled(
    found: Found,
    settle: Settle,
    progress: Result<SettleProgress, NoMemory>,
) -> Result<Stage, NoMemory>
    ensures takes { TakesSettled found settle progress (stage_after result) }
    ensures ready { (configs : List (List Member)) → (progress ≡ Ok SettleProgress.More → is_settling (members_in configs) settle ≡ true) → IfOk result (IsReady configs) }
{
    match progress? {
        SettleProgress::More => Ok(Stage::Settle { found, settle }),
        SettleProgress::Stands { chain, receipt } => Ok(stand(found, chain, receipt)),
        SettleProgress::Refused { refusal } => Ok(refused(refusal)),
    }
}

/// The end with the row, the metablocks that lead on from it, and the receipt.
fn stand(found: Found, chain: Vec<MetaBlock>, receipt: Receipt) -> Stage
    ensures stands { stage_of result ≡ Ended (answer_with found chain.items receipt) }
    ensures ready { (configs : List (List Member)) → IsReady configs result }
{
    let standing = Standing {
        row: found.row,
        chain,
        receipt,
    };
    if found.is_own {
        return Stage::Ended {
            answer: Ok(standing),
        };
    }
    refused(Refusal::Conflict { standing })
}

/// The end with this refusal.
pub(crate) fn refused(refusal: Refusal) -> Stage
    ensures { result ≡ Stage.Ended (Err refusal) }
{
    Stage::Ended {
        answer: Err(refusal),
    }
}
