ghost use Rattle.std.specs.Prelude.{◌≡◌, ◌<◌, true, false, List, [], ◌∷◌, Some, None, Result, Ok, Err, IfSome, MatchOption, MatchResult};
ghost use Rattle.port.specs.Cause.{cause_of};
ghost use Rattle.port.specs.Trace.{Event, Ran};
ghost use Rattle.view_ledger.specs.Views.{ViewChain};
ghost use Rattle.view_ledger.specs.Receipts.{Accepts};
ghost use Rattle.op_latest.specs.LatestState.{Ended, is_live_at, outcome_of, stage_of};

use crate::latest_stage::LatestStage;
use catch_up::answers_are_shown;
use nim_base::{Digest, Nonce};
use op_parts::{Refresh, refreshes_grow};
use port::{LatestReply, Link, Refusal, Store};
use seal::Checker;
use std::alloc::Global;
use std::marker::Model;
use std::mem::replace;
use view_ledger::ViewChain;

/// A read of a ledger's newest row, with a receipt over a nonce, one call of the store or the link a step.
///
/// The chain of views is refreshed. Each member of its newest view is asked for the ledger's tail and count, in rising
/// ids. Where a quorum told one head, a tail and a count, that is the answer's. Else the target is the first head with
/// the greatest count: each member that told another one is caught up, where its count is lower, and asked once more.
/// Then the row below the head is got, where the count isn't 0.
#[derive(Drop)]
pub struct LatestOp {
    pub(crate) chain: ViewChain,
    pub(crate) handle: Digest,
    pub(crate) nonce: Nonce,
    pub(crate) stage: LatestStage,
}

impl Model for LatestOp {
    ghost use Rattle.op_latest.specs.LatestState.{State, IsReady, stage_of};

    ghost Value = { State };

    ghost view = { λ op. record { chain = op.chain; handle = op.handle; nonce = op.nonce; stage = stage_of op.stage } };

    ghost invariant = { λ op. IsReady op.chain (stage_of op.stage) };
}

impl LatestOp {
    ghost use Rattle.op_parts.specs.Refresh.{HasGrown};
    ghost use Rattle.op_latest.specs.LatestState.{Ended, IsReady, calls_left, is_live, outcome_of, stage_of};
    ghost use Rattle.op_latest.specs.LatestAsked.{LatestAsk, asking_of};
    ghost use Rattle.op_latest.specs.LatestOwn.{OwnCalls};
    ghost use Rattle.op_latest.specs.LatestSays.{LatestSays};
    ghost use Rattle.op_latest.specs.LatestSound.{Leads, LatestSound};
    ghost use Rattle.op_latest.specs.LatestSteps.{at};

    /// A read of this ledger for the one who drew the nonce. Nothing is asked yet, and no memory is taken.
    pub fn new(chain: ViewChain, handle: Digest, nonce: Nonce) -> LatestOp
        ensures sound { (accepts : Accepts) → LatestSound accepts (record { handle = handle; nonce = nonce }) chain result [] }
        ensures live { is_live result ≡ true }
    {
        LatestOp {
            chain,
            handle,
            nonce,
            stage: LatestStage::Refresh {
                refresh: Refresh::new(),
            },
        }
    }

    /// Makes the next call, of the store or the link; `false` says that an answer stands. The store, the link and the checker
    /// are those of the earlier steps. After the end no call is made.
    ///
    /// - What the refresh refuses, a row that the store hasn't (`Gap`) or gave other bytes for (`BadRow`), a get that failed
    ///   (`StoreFault`) and want of memory end the read at once.
    /// - Where all members were asked and no quorum told the target's head: a member whose view has ended comes first
    ///   (`ViewMoved`), then one whose map is full (`Full`), then one that came to a count above the target's (`Contended`),
    ///   and else it is `NoQuorum`. The reason of a member that signed another tail or count is `Other` with these, and with
    ///   zeros where its answer was none to the read.
    pub fn step<S: Store, L: Link, C: Checker>(
        &mut self,
        alloc: Global,
        store: &mut S,
        link: &mut L,
        checker: &C,
    ) -> bool
        // While it is live it makes one call.
        ensures call { is_live self.old ≡ true → (event : Event) × Ran S.view L.view store.old link.old (event ∷ []) store.new link.new
            × Leads (C.accepts checker.now) self.old event self.new }
        ensures ended { is_live self.old ≡ false → (store.new ≡ store.old) × (link.new ≡ link.old) × (self.new ≡ self.old) }

        // So a loop ends that goes on until an answer stands.
        ensures live { result ≡ is_live self.new }
        ensures falls { is_live self.old ≡ true → calls_left self.new < calls_left self.old }
    {
        answers_are_shown();
        let answer = Err(Refusal::NoMemory);
        match replace(&mut self.stage, LatestStage::Ended { answer }) {
            LatestStage::Refresh { refresh } => self.refresh(alloc, store, checker, refresh),
            LatestStage::First { votes } => self.ask_first(alloc, link, checker, votes),
            LatestStage::CatchUp { second, catch_up } => {
                self.catch_up(alloc, store, link, second, catch_up)
            }
            LatestStage::Again { second } => self.ask_again(alloc, link, checker, second),
            LatestStage::Row { head, receipt } => self.get_row(alloc, store, head, receipt),
            LatestStage::Ended { answer } => self.end(answer),
        }
    }

    /// The answer, once it stands.
    pub fn answer(&self) -> Option<Result<&LatestReply, &Refusal>>
        ensures { MatchOption result (is_live self.now ≡ true) (λ answer. MatchResult answer (λ reply. self.now.stage ≡ Ended (Ok reply.now)) (λ refusal. self.now.stage ≡ Ended (Err (cause_of refusal.now)))) }
    {
        match &self.stage {
            LatestStage::Ended { answer: Ok(reply) } => Some(Ok(reply)),
            LatestStage::Ended {
                answer: Err(refusal),
            } => Some(Err(refusal)),
            _ => None,
        }
    }

    /// The chain of views, as far as the read has refreshed it.
    pub fn into_chain(self) -> ViewChain
        ensures { result ≡ self.chain }
    {
        self.chain
    }

    /// The chain of views, and the answer, where it stands.
    pub fn into_parts(self) -> (ViewChain, Option<Result<LatestReply, Refusal>>)
        ensures chain { result.0 ≡ self.chain }
        ensures answer { MatchOption result.1 (is_live self ≡ true) (λ answer. self.stage ≡ Ended (outcome_of answer)) }

        // What its calls were, how the chain grew by them, and what they say of the answer.
        ensures own { (accepts : Accepts) (ask : LatestAsk) (from : ViewChain) (past : List Event) → LatestSound accepts ask from self past
            → OwnCalls accepts (asking_of ask result.0) past }
        ensures grown { (accepts : Accepts) (ask : LatestAsk) (from : ViewChain) (past : List Event) → LatestSound accepts ask from self past
            → HasGrown accepts from result.0 past }
        ensures says { (accepts : Accepts) (ask : LatestAsk) (from : ViewChain) (past : List Event) → LatestSound accepts ask from self past
            → IfSome result.1 (λ answer. LatestSays accepts ask result.0 past (outcome_of answer)) }
    {
        refreshes_grow();
        (self.chain, answer_of(self.stage))
    }

    pub(crate) fn is_live(&self) -> bool
        ensures { result ≡ is_live self.now }
    {
        match &self.stage {
            LatestStage::Ended { .. } => false,
            _ => true,
        }
    }
}

fn answer_of(stage: LatestStage) -> Option<Result<LatestReply, Refusal>>
    ensures { MatchOption result (is_live_at (stage_of stage) ≡ true) (λ answer. stage_of stage ≡ Ended (outcome_of answer)) }
{
    match stage {
        LatestStage::Ended { answer } => Some(answer),
        _ => None,
    }
}
