ghost use Rattle.std.specs.Prelude.{◌≡◌, ◌↔◌, ◌<◌, true, false, List, [], ◌∷◌, None, Ok, Err, IfOk, IfErr, IfSome};
ghost use Rattle.std.specs.Option.{option_map};
ghost use Rattle.port.specs.Cause.{NoMemory as WantsMemory, cause_of};
ghost use Rattle.port.specs.Trace.{Event, Ran};
ghost use Rattle.view_ledger.specs.Receipts.{Accepts};
ghost use Rattle.view_ledger.specs.Views.{ViewChain};
ghost use Rattle.op_entry.specs.Ask.{Ask, IsAllowed, ask_of};
ghost use Rattle.op_entry.specs.Turns.{stage_after};

use crate::stage::Stage;
use crate::turn::next_stage;
use crate::wanted::Wanted;
use nim_base::NoMemory;
use op_parts::Refresh;
use port::{Link, Refusal, Standing, Store};
use seal::Checker;
use settle::settling_calls_are_own;
use std::alloc::Global;
use std::marker::Model;
use std::mem::replace;
use view_ledger::ViewChain;

/// An operation on one row of a ledger: its chain of views, and what it does next.
#[derive(Drop)]
pub struct Operation {
    chain: ViewChain,
    stage: Stage,
}

impl Model for Operation {
    ghost use Rattle.op_entry.specs.State.{State, IsReady, stage_of};

    ghost Value = { State };

    ghost view = { λ operation. record { chain = operation.chain; stage = stage_of operation.stage } };

    ghost invariant = { λ operation. IsReady operation.chain.configs operation.stage };
}

impl Operation {
    ghost use Rattle.op_entry.specs.State.{Ended, IsReady, answer, answer_of, calls_left, is_live};
    ghost use Rattle.op_parts.specs.Refresh.{HasGrown};
    ghost use Rattle.op_entry.specs.Laws.{OwnCalls};
    ghost use Rattle.op_entry.specs.Says.{Says};
    ghost use Rattle.op_entry.specs.Sound.{Leads, Sound};

    pub fn new(chain: ViewChain, wanted: Wanted) -> Operation
        requires { IsAllowed wanted }
        ensures sound { (accepts : Accepts) → Sound accepts (ask_of wanted) chain result [] }
        ensures live { is_live result ≡ true }
    {
        Operation {
            chain,
            stage: Stage::Refresh {
                wanted,
                refresh: Refresh::new(),
            },
        }
    }

    /// Makes the next call, and says whether there is more to do.
    pub fn step<S: Store, L: Link, C: Checker>(
        &mut self,
        alloc: Global,
        store: &mut S,
        link: &mut L,
        checker: &C,
    ) -> bool
        ensures call { is_live self.old ≡ true → (event : Event) × Ran S.view L.view store.old link.old (event ∷ []) store.new link.new × Leads (C.accepts checker.now) self.old event self.new }
        ensures ended { is_live self.old ≡ false → (store.new ≡ store.old) × (link.new ≡ link.old) × (self.new ≡ self.old) }
        ensures live { result ≡ is_live self.new }
        ensures falls { is_live self.old ≡ true → calls_left self.new < calls_left self.old }
    {
        let wants = Stage::Ended {
            answer: Err(Refusal::NoMemory),
        };
        let stage = replace(&mut self.stage, wants);
        let turn = next_stage(alloc, &mut self.chain, stage, store, link, checker);
        self.take(turn);
        self.is_live()
    }

    // The next stage is taken; where memory was wanted, the operation has ended so.
    fn take(&mut self, turn: Result<Stage, NoMemory>)
        requires ended { self.old.stage ≡ Ended (Err WantsMemory) }
        requires ready { IfOk turn (IsReady self.old.chain.configs) }
        ensures chain { self.new.chain ≡ self.old.chain }
        ensures stage { self.new.stage ≡ stage_after turn }
    {
        if let Ok(stage) = turn {
            self.stage = stage;
        }
    }

    fn is_live(&self) -> bool
        ensures { result ≡ is_live self.now }
    {
        match &self.stage {
            Stage::Ended { .. } => false,
            _ => true,
        }
    }

    /// The answer, once one stands.
    pub fn answer(&self) -> Option<Result<&Standing, &Refusal>>
        ensures ok { IfSome result (λ said. IfOk said (λ standing. answer self.now ≡ Some (Ok standing.now))) }
        ensures err { IfSome result (λ said. IfErr said (λ refusal. answer self.now ≡ Some (Err (cause_of refusal.now)))) }
        ensures live { (result ≡ None) ↔ (is_live self.now ≡ true) }
    {
        match &self.stage {
            Stage::Ended {
                answer: Ok(standing),
            } => Some(Ok(standing)),
            Stage::Ended {
                answer: Err(refusal),
            } => Some(Err(refusal)),
            _ => None,
        }
    }

    /// The chain of views, as far as it was refreshed, and the answer.
    pub fn into_parts(self) -> (ViewChain, Option<Result<Standing, Refusal>>)
        ensures chain { result.0 ≡ self.chain }
        ensures answer { option_map answer_of result.1 ≡ answer self }
        ensures live { (result.1 ≡ None) ↔ (is_live self ≡ true) }
        ensures says { (accepts : Accepts) (ask : Ask) (from : ViewChain) (past : List Event) → Sound accepts ask from self past
            → IfSome (answer self) (Says accepts ask from self.chain past) }
        ensures own { (accepts : Accepts) (ask : Ask) (from : ViewChain) (past : List Event) → Sound accepts ask from self past
            → OwnCalls accepts ask self.chain.configs past }
        ensures grown { (accepts : Accepts) (ask : Ask) (from : ViewChain) (past : List Event) → Sound accepts ask from self past
            → HasGrown accepts from self.chain past }
    {
        settling_calls_are_own();
        let Operation { chain, stage } = self;
        (chain, stage.into_answer())
    }
}
