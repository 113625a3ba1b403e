ghost use Rattle.std.specs.Prelude.{◌≡◌, ◌<◌, true, false, [], List, IfSome};
ghost use Rattle.std.specs.Option.{option_map};
ghost use Rattle.std.specs.Result.{result_copied};
ghost use Rattle.statement.specs.Config.{IsConfig};
ghost use Rattle.port.specs.Trace.{Event, Ran};
ghost use Rattle.view_ledger.specs.Views.{ViewChain};
ghost use Rattle.view_ledger.specs.Receipts.{Accepts};
ghost use Rattle.op_reconf.specs.First.{first_config};
ghost use Rattle.op_reconf.specs.OwnCalls.{OwnCalls};
ghost use Rattle.op_reconf.specs.Says.{Says};
ghost use Rattle.op_reconf.specs.Sound.{Sound, Leads, MakesOne};
ghost use Rattle.op_reconf.specs.State.{AtPut, IsReady, answer_at, answer_of, calls_left, is_live, stage_of};
ghost use Rattle.op_reconf.specs.Steps.{Takes};

use crate::first_view::{ask_member, mark, put_view};
use crate::stage::Stage;
use op_parts::quorums_are_parted;
use port::{Link, Refusal, Store, ViewRow};
use seal::Checker;
use std::alloc::Global;
use std::marker::Model;
use std::mem::replace;
use view_ledger::ViewChain;

/// An operation that brings a service to a view.
#[derive(Drop)]
pub struct ReconfOp {
    chain: ViewChain,
    stage: Stage,
}

impl Model for ReconfOp {
    ghost use Rattle.op_reconf.specs.State.{State, IsReady, stage_of};

    ghost Value = { State };

    ghost view = { λ op. record { chain = op.chain; stage = stage_of op.stage } };

    ghost invariant = { λ op. IsReady (stage_of op.stage) };
}

impl ReconfOp {
    /// The setting up of view 0, which the chain has. Nothing is asked yet, and no memory is taken.
    pub fn genesis(chain: ViewChain) -> ReconfOp
        ensures view { result ≡ record { chain = chain; stage = AtPut } }
        ensures sound { (accepts : Accepts) → Sound accepts chain result [] }
    {
        first_members(&chain);
        ReconfOp {
            chain,
            stage: Stage::Begin,
        }
    }

    /// Makes the next call, of the store or the link, and says whether there is more to do. The store and the link are those of
    /// the earlier steps; the members sign nothing, so nothing is checked. After the end no call is made.
    ///
    /// View 0 is put, whether or not another stands at its key; each of its members in rising ids is asked to belong to it,
    /// with a map of no rows, and where it answers that it is done, to begin in it, with no proof; and where a quorum is
    /// done with that, the view is marked as complete. A member that isn't done is no further asked, and has a reason:
    /// `Lost`, its refusal, or `Other` with zeros where its answer was none to what was asked.
    ///
    /// - `NoQuorum` comes where all members were asked, and has the quorum of their config and all reasons.
    /// - `StoreFault` comes where the put or the attaching of the mark failed.
    pub fn step<S: Store, L: Link, C: Checker>(
        &mut self,
        alloc: Global,
        store: &mut S,
        link: &mut L,
        checker: &C,
    ) -> bool
        // While it is live it makes one call, unless it ends for want of memory before the first one.
        ensures call { is_live self.old ≡ true → (events : List Event) × Ran S.view L.view store.old link.old events store.new link.new
            × MakesOne self.old events self.new × Leads (C.accepts checker.now) self.old events self.new }
        ensures ended { is_live self.old ≡ false → (store.new ≡ store.old) × (link.new ≡ link.old) × (self.new ≡ self.old) }
        ensures live { result ≡ is_live self.new }

        // So a loop ends that goes on while there is more to do.
        ensures falls { is_live self.old ≡ true → calls_left self.new < calls_left self.old }
    {
        first_members(&self.chain);
        let stage = replace(
            &mut self.stage,
            Stage::Ended {
                answer: Err(Refusal::NoMemory),
            },
        );
        self.stage = next_stage(alloc, &self.chain, stage, store, link);
        self.is_live()
    }

    fn is_live(&self) -> bool
        ensures { result ≡ is_live self.now }
    {
        !matches!(self.stage, Stage::Ended { .. })
    }

    /// The answer, once it stands.
    pub fn answer(&self) -> Option<Result<&ViewRow, &Refusal>>
        ensures { option_map (λ answer. answer_of (result_copied answer)) result ≡ answer_at self.now.stage }
    {
        match &self.stage {
            Stage::Ended { answer: Ok(row) } => Some(Ok(row)),
            Stage::Ended {
                answer: Err(refusal),
            } => Some(Err(refusal)),
            _ => None,
        }
    }

    /// The chain, which is as it was.
    pub fn into_chain(self) -> ViewChain
        ensures { result ≡ self.chain }
    {
        self.chain
    }

    /// The chain and the answer, once that stands.
    pub fn into_parts(self) -> (ViewChain, Option<Result<ViewRow, Refusal>>)
        ensures chain { result.0 ≡ self.chain }
        ensures answer { option_map answer_of result.1 ≡ answer_at self.stage }
        // What callers know of it by its calls.
        ensures calls { (accepts : Accepts) (from : ViewChain) (past : List Event) → Sound accepts from self past
            → (result.0 ≡ from) × OwnCalls from past × IfSome result.1 (λ answer. Says from past (answer_of answer)) }
    {
        quorums_are_parted();
        (self.chain, answer_of(self.stage))
    }
}

fn next_stage<S: Store, L: Link>(
    alloc: Global,
    chain: &ViewChain,
    stage: Stage,
    store: &mut S,
    link: &mut L,
) -> Stage
    requires { IsReady (stage_of stage) }
    ensures { (events : List Event) × Ran S.view L.view store.old link.old events store.new link.new × Takes chain.now (stage_of stage) events (stage_of result) }
{
    match stage {
        Stage::Begin => put_view(alloc, chain, store),
        Stage::Members { set_up } => ask_member(alloc, set_up, link),
        Stage::Mark { row } => mark(alloc, row, store),
        Stage::Ended { answer } => Stage::Ended { answer },
    }
}

fn answer_of(stage: Stage) -> Option<Result<ViewRow, Refusal>>
    ensures { option_map answer_of result ≡ answer_at (stage_of stage) }
{
    match stage {
        Stage::Ended { answer } => Some(answer),
        _ => None,
    }
}

// The members of view 0 are those of a config.
fn first_members(chain: &ViewChain)
    ensures { IsConfig (first_config chain.now) }
{
    let _number = chain.number();
    if let Some(config) = chain.config(0) {
        let _ = config.members();
    }
}
