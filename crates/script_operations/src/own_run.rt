ghost use Rattle.std.specs.Prelude.{◌≡◌, ◌<◌, ℕ, List, [], ◌∷◌, true, false};
ghost use Rattle.chain_block.specs.Entry.{IsWithinLimits, bare};
ghost use Rattle.op_entry.specs.Sound.{Leads, Sound};
ghost use Rattle.op_entry.specs.State.{answer_of, calls_left, is_live};
ghost use Rattle.port.specs.Trace.{Event};
ghost use Rattle.view_ledger.specs.Receipts.{Accepts};
ghost use Rattle.view_ledger.specs.Views.{ViewChain};
ghost use Rattle.coordinator.specs.Stepping.{Calls};
ghost use Rattle.script_operations.specs.Ending.{CameTo, EndsEntry};
ghost use Rattle.script_operations.specs.Operations.{state_of};
ghost use Rattle.script_operations.specs.Stepping.{GoesFor};
ghost use Rattle.script_operations.specs.Task.{ask_for};

use chain_block::Entry;
use coordinator::Coordinator;
use op_entry::{AppendOp, NewOp};
use port::{Link, Refusal, Standing, Store};
use seal::Checker;
use std::alloc::Global;
use view_ledger::ViewChain;

/// A new ledger or an append, while it runs.
#[derive(Drop)]
pub(crate) enum OwnRun {
    New(NewOp),
    Append(AppendOp),
}

impl OwnRun {
    /// For this entry, with nothing asked yet.
    pub(crate) fn begin(chain: ViewChain, entry: Entry) -> OwnRun
        requires { IsWithinLimits entry }
        ensures sound { (accepts : Accepts) → Sound accepts (ask_for (bare entry)) chain (state_of result) [] }
        ensures live { is_live (state_of result) ≡ true }
    {
        if entry.height() == 0 {
            OwnRun::New(NewOp::new(chain, entry))
        } else {
            OwnRun::Append(AppendOp::new(chain, entry))
        }
    }

    /// Makes the next call; `false` says that an answer stands.
    pub(crate) fn step<S: Store, L: Link, C: Checker>(
        &mut self,
        alloc: Global,
        coordinator: &mut Coordinator<S, L, C>,
    ) -> bool
        ensures call { is_live (state_of self.old) ≡ true → (event : Event) × Calls S.view L.view coordinator.old (event ∷ []) coordinator.new × Leads (C.accepts coordinator.old.checker) (state_of self.old) event (state_of self.new) }
        ensures ended { is_live (state_of self.old) ≡ false → (coordinator.new ≡ coordinator.old) × (state_of self.new ≡ state_of self.old) }
        ensures live { result ≡ is_live (state_of self.new) }
        ensures falls { result ≡ true → calls_left (state_of self.new) < calls_left (state_of self.old) }
    {
        match self {
            OwnRun::New(op) => coordinator.step_new(alloc, op),
            OwnRun::Append(op) => coordinator.step_append(alloc, op),
        }
    }

    /// Makes up to so many calls.
    pub(crate) fn steps<S: Store, L: Link, C: Checker>(
        &mut self,
        alloc: Global,
        n: u64,
        coordinator: &mut Coordinator<S, L, C>,
    )
        ensures { GoesFor S.view L.view coordinator.old coordinator.new (Sound (C.accepts coordinator.old.checker)) is_live (state_of self.old) (state_of self.new) n }
    {
        for _ in 0..n {
            if !self.step(alloc, coordinator) {
                return;
            }
        }
    }

    /// Makes all calls to the answer.
    pub(crate) fn answer<S: Store, L: Link, C: Checker>(
        self,
        alloc: Global,
        coordinator: &mut Coordinator<S, L, C>,
    ) -> Result<Standing, Refusal>
        ensures { CameTo S.view L.view coordinator.old coordinator.new (λ events. EndsEntry (C.accepts coordinator.old.checker) (state_of self) events (answer_of result)) }
    {
        let mut run = self;
        while run.step(alloc, coordinator) {}
        run.into_answer()
    }

    fn into_answer(self) -> Result<Standing, Refusal>
        requires { is_live (state_of self) ≡ false }
        ensures { (accepts : Accepts) → EndsEntry accepts (state_of self) [] (answer_of result) }
    {
        match self {
            OwnRun::New(op) => {
                let (_, answer) = op.into_parts();
                match answer {
                    Some(answer) => answer,
                    None => unreachable!(),
                }
            }
            OwnRun::Append(op) => {
                let (_, answer) = op.into_parts();
                match answer {
                    Some(answer) => answer,
                    None => unreachable!(),
                }
            }
        }
    }
}
