// What a settling does after a call.
ghost use Rattle.std.specs.Prelude.{◌≡◌, ◌↔◌, ◌≤◌, ◌-◌, true, length, Ok, IsTrue};
ghost use Rattle.statement.specs.Config.{quorum};
ghost use Rattle.statement.specs.Mark.{AreMarks};
ghost use Rattle.port.specs.Cause.{cause_of};
ghost use Rattle.view_ledger.specs.Views.{newest_tail, newest_config};
ghost use Rattle.op_parts.specs.RoundRefusal.{causes, cause_without_quorum};
ghost use Rattle.settle.specs.State.{IsReady, stage_of};
ghost use Rattle.settle.specs.Turn.{AreEnough, GoesOn, IsRefusedBy, IsRefusedFor, Lacks, StandsBy, TakesAsked, TakesAttached, TakesMarks, TakesReasons, TakesRound, TakesTop, TakesWalk};

use crate::marks::are_marks;
use crate::progress::SettleProgress;
use crate::stage::Stage;
use crate::top::Top;
use chain_block::MetaBlock;
use nim_base::{Digest, NoMemory};
use op_parts::{
    Contention, Round, RoundProgress, Walk, WalkProgress, are_quorum, first_above, needed,
    refusal_of,
};
use port::{Attached, Reason, Refusal};
use statement::{Mark, Receipt, Statement};
use std::alloc::Global;
use view_ledger::ViewChain;

/// What a settling does next, and what it says.
#[derive(Drop)]
pub struct Turn {
    pub stage: Stage,
    pub answer: Result<SettleProgress, NoMemory>,
}

impl Turn {
    fn goes_on(stage: Stage) -> Turn
        requires { IsReady (stage_of stage) }
        ensures takes { GoesOn (stage_of stage) (stage_of result.stage) result.answer }
        ensures ready { IsReady (stage_of result.stage) }
    {
        Turn {
            stage,
            answer: Ok(SettleProgress::More),
        }
    }

    fn refused(refusal: Refusal) -> Turn
        ensures takes { IsRefusedBy refusal (stage_of result.stage) result.answer }
        ensures ready { IsReady (stage_of result.stage) }
    {
        Turn {
            stage: Stage::Ended,
            answer: Ok(SettleProgress::Refused { refusal }),
        }
    }

    fn stands(chain: Vec<MetaBlock>, receipt: Receipt) -> Turn
        ensures takes { StandsBy chain.items receipt (stage_of result.stage) result.answer }
        ensures ready { IsReady (stage_of result.stage) }
    {
        Turn {
            stage: Stage::Ended,
            answer: Ok(SettleProgress::Stands { chain, receipt }),
        }
    }

    fn lacks() -> Turn
        ensures takes { Lacks (stage_of result.stage) result.answer }
        ensures ready { IsReady (stage_of result.stage) }
    {
        Turn {
            stage: Stage::Ended,
            answer: Err(NoMemory),
        }
    }

    /// By how the round over the row at the top stands.
    pub fn of_round(
        alloc: Global,
        chain: &ViewChain,
        handle: &Digest,
        round: Round,
        top: Top,
        progress: Result<RoundProgress, NoMemory>,
    ) -> Turn
        ensures takes { TakesRound chain.now.configs handle.now round top progress (stage_of result.stage) result.answer }
        ensures ready { IsReady (stage_of result.stage) }
    {
        match progress {
            Ok(RoundProgress::More) => Turn::goes_on(Stage::Round { round, top }),
            Ok(RoundProgress::Asked) => Turn::of_asked(alloc, chain, handle, round, top),
            Ok(RoundProgress::Row { refusal }) => Turn::refused(refusal),
            Err(NoMemory) => Turn {
                stage: Stage::Round { round, top },
                answer: Err(NoMemory),
            },
        }
    }

    // By the marks and reasons of a round that has asked all.
    fn of_asked(alloc: Global, chain: &ViewChain, handle: &Digest, round: Round, top: Top) -> Turn
        ensures takes { TakesAsked chain.now.configs handle.now round top (stage_of result.stage) result.answer }
        ensures ready { IsReady (stage_of result.stage) }
    {
        let (marks, reasons) = round.into_parts();
        if are_enough(chain, marks.as_slice()) {
            return Turn::of_marks(alloc, chain, handle, marks, top);
        }
        Turn::of_reasons(alloc, chain, handle, reasons, top)
    }

    // Marks that are enough make a receipt.
    fn of_marks(
        alloc: Global,
        chain: &ViewChain,
        handle: &Digest,
        marks: Vec<Mark>,
        top: Top,
    ) -> Turn
        requires { AreMarks marks.items }
        ensures takes { TakesMarks chain.now.configs handle.now marks.items top (stage_of result.stage) result.answer }
        ensures ready { IsReady (stage_of result.stage) }
    {
        let statement = Statement::Held {
            view: newest_view(chain),
            handle: *handle,
            tail: top.tail,
            count: top.height,
        };
        let receipt = Receipt { statement, marks };
        match receipt.write(alloc) {
            Ok(bytes) => Turn::goes_on(Stage::Attach {
                receipt,
                bytes,
                top,
            }),
            Err(NoMemory) => Turn::lacks(),
        }
    }

    // Where marks are too few, the rows above the one that is settled may help.
    fn of_reasons(
        alloc: Global,
        chain: &ViewChain,
        handle: &Digest,
        reasons: Vec<(u32, Reason)>,
        top: Top,
    ) -> Turn
        ensures takes { TakesReasons chain.now.configs handle.now (causes reasons.items) top (stage_of result.stage) result.answer }
        ensures ready { IsReady (stage_of result.stage) }
    {
        let further = first_above(reasons.as_slice(), top.height);
        if further.is_some() && top.blocks.is_empty() {
            let walk = Walk::new(alloc, handle, &top.tail, top.height);
            return Turn::goes_on(Stage::Walk { walk, reasons });
        }
        Turn::refused(without_quorum(chain, further, reasons))
    }

    /// By how the walk stands.
    pub fn of_walk(
        alloc: Global,
        chain: &ViewChain,
        handle: &Digest,
        walk: Walk,
        reasons: Vec<(u32, Reason)>,
        progress: Result<WalkProgress, NoMemory>,
    ) -> Turn
        requires above { 1 ≤ walk.place.height }
        requires live { progress ≡ Ok WalkProgress.More → walk.live ≡ true }
        ensures takes { TakesWalk chain.now.configs handle.now walk (causes reasons.items) progress (stage_of result.stage) result.answer }
        ensures ready { IsReady (stage_of result.stage) }
    {
        match progress {
            Ok(WalkProgress::More) => Turn::goes_on(Stage::Walk { walk, reasons }),
            Ok(WalkProgress::Stands { receipt }) => Turn::stands(walk.into_blocks(), receipt),
            Ok(WalkProgress::Top) => Turn::of_top(alloc, chain, handle, walk, reasons),
            Ok(WalkProgress::Refused { refusal }) => Turn::refused(refusal),
            Err(NoMemory) => Turn::lacks(),
        }
    }

    // No row stands above those of the walk.
    fn of_top(
        alloc: Global,
        chain: &ViewChain,
        handle: &Digest,
        walk: Walk,
        reasons: Vec<(u32, Reason)>,
    ) -> Turn
        requires { 1 ≤ walk.place.height }
        ensures takes { TakesTop chain.now.configs handle.now walk.place (causes reasons.items) (stage_of result.stage) result.answer }
        ensures ready { IsReady (stage_of result.stage) }
    {
        let tail = walk.tail();
        let height = walk.height();
        let blocks = walk.into_blocks();
        let Some(block) = blocks.last().copied() else {
            let further = first_above(reasons.as_slice(), height);
            return Turn::refused(without_quorum(chain, further, reasons));
        };
        let top = Top {
            tail,
            height,
            blocks,
        };
        Turn::goes_on(Stage::Round {
            round: Round::new(alloc, handle, &block),
            top,
        })
    }

    /// By what the store answered to the attach of the receipt to the row at the top.
    pub fn of_attached(attached: Attached, receipt: Receipt, top: Top) -> Turn
        ensures takes { TakesAttached receipt top attached (stage_of result.stage) result.answer }
        ensures ready { IsReady (stage_of result.stage) }
    {
        match attached {
            Attached::NoMemory => Turn::lacks(),
            Attached::Done | Attached::Absent | Attached::Failed => {
                Turn::stands(top.blocks, receipt)
            }
        }
    }
}

// Whether marks are a quorum. Those of a round are marks of a receipt, too, but their type doesn't say so.
fn are_enough(chain: &ViewChain, marks: &[Mark]) -> bool
    ensures { IsTrue result ↔ AreEnough chain.now.configs marks.now }
{
    are_quorum(chain, marks) && are_marks(marks)
}

// The tail of the newest view.
fn newest_view(chain: &ViewChain) -> Digest
    ensures { result ≡ newest_tail chain.now.configs }
{
    match chain.tail(chain.number()) {
        Some(view) => view,
        None => Digest::default(),
    }
}

// The refusal where all were asked and no quorum stands.
fn without_quorum(
    chain: &ViewChain,
    further: Option<Contention>,
    reasons: Vec<(u32, Reason)>,
) -> Refusal
    ensures { cause_of result ≡ cause_without_quorum (length chain.now.configs - 1) (quorum (newest_config chain.now.configs)) further (causes reasons.items) }
{
    refusal_of(chain.number(), needed(chain), further, reasons)
}
