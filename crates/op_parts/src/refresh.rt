ghost use Rattle.std.specs.Prelude.{◌≡◌, ◌↔◌, ◌+◌, ◌^◌, ◌<◌, length, true, false, [], Ok, IsErr};
ghost use Rattle.port.specs.declared.key.Key.TheVariants as keys;
ghost use Rattle.port.specs.declared.store_answers.Got.{Got};
ghost use Rattle.port.specs.Store.{StoreStep, Get, WasGot};
ghost use Rattle.port.specs.Trace.{AtStore};
ghost use Rattle.view_ledger.specs.Views.{ViewChain};
ghost use Rattle.view_ledger.specs.Receipts.{Accepts};

use crate::refresh_stage::RefreshStage;
use crate::refresh_turn::{NextView, RefreshProgress, RefreshTurn};
use nim_base::NoMemory;
use port::{Key, Store};
use seal::Checker;
use std::alloc::Global;
use std::marker::Model;
use std::mem::replace;
use view_ledger::ViewChain;

/// The first part of every operation: a chain of views goes on by each view that the store marks as complete.
///
/// For each number the view is got from the store, and then what ended the view below. The chain belongs to whoever
/// refreshes it; it is extended in place, and stays as it was where a view is refused.
#[derive(Debug, Drop)]
pub struct Refresh {
    stage: RefreshStage,
}

impl Model for Refresh {
    ghost use Rattle.op_parts.specs.RefreshState.{RefreshState, state_of};

    ghost Value = { RefreshState };

    ghost view = { λ refresh. state_of refresh.stage };
}

impl Refresh {
    ghost use Rattle.op_parts.specs.RefreshState.{AtEnd, AtView, calls_left, is_live};
    ghost use Rattle.op_parts.specs.RefreshTurn.{GoesAtFinals, GoesAtView, IsTaken};
    ghost use Rattle.op_parts.specs.RefreshSound.{Goes, Leads, Sound, key_of};

    /// A refresh that has asked for nothing yet. It takes no memory.
    pub fn new() -> Refresh
        ensures view { result ≡ AtView }
        ensures sound { (accepts : Accepts) (chain : ViewChain) → Sound accepts chain result chain [] }
    {
        Refresh {
            stage: RefreshStage::View,
        }
    }

    /// Makes the next call of the store, and says how the refresh then stands. After the end no call is made, and nothing
    /// is left to be said but `NoMemory`.
    ///
    /// - Bytes that are no view's are `BadRow` of the view, and so is a view that doesn't follow the newest one or whose
    ///   members aren't all in the roster.
    /// - No finals, bytes that are none, and finals that don't end the newest view for this one are `BadRow` of the finals.
    /// - A get that failed is `StoreFault`.
    pub fn step<S: Store, C: Checker>(
        &mut self,
        alloc: Global,
        chain: &mut ViewChain,
        store: &mut S,
        checker: &C,
    ) -> Result<RefreshProgress, NoMemory>
        // While it is live it makes one call, of which the answer says how it went.
        ensures call { is_live self.old ≡ true → (got : Got) × StoreStep S.view store.old store.new (Get (key_of self.old chain.old)) (WasGot got)
            × Goes (C.accepts checker.now) self.old chain.old (AtStore (Get (key_of self.old chain.old)) (WasGot got)) self.new chain.new result
            × Leads (C.accepts checker.now) self.old chain.old (AtStore (Get (key_of self.old chain.old)) (WasGot got)) self.new chain.new }
        ensures ended { is_live self.old ≡ false → (store.new ≡ store.old) × (chain.new ≡ chain.old) × (self.new ≡ self.old) × IsErr result }

        // So a loop ends that goes on while there is more to do.
        ensures live { (result ≡ Ok RefreshProgress.More) ↔ (is_live self.new ≡ true) }
        ensures falls { is_live self.old ≡ true → calls_left self.new chain.new < calls_left self.old chain.old }
    {
        match replace(&mut self.stage, RefreshStage::Ended) {
            RefreshStage::View => self.get_view(alloc, chain, store),
            RefreshStage::Finals {
                body,
                block,
                config,
            } => {
                let next = NextView {
                    number: chain.number() + 1,
                    body,
                    block,
                    config,
                };
                self.get_finals(alloc, chain, store, checker, next)
            }
            RefreshStage::Ended => Err(NoMemory),
        }
    }

    fn get_view<S: Store>(
        &mut self,
        alloc: Global,
        chain: &ViewChain,
        store: &mut S,
    ) -> Result<RefreshProgress, NoMemory>
        requires { self.old ≡ AtEnd }
        ensures below { length chain.now.configs < 2 ^ 64 }
        ensures call { let number = length chain.now.configs in (got : Got) × StoreStep S.view store.old store.new (Get (keys.View number)) (WasGot got)
            × GoesAtView number (AtStore (Get (keys.View number)) (WasGot got)) self.new result }
    {
        let number = chain.number() + 1;
        let got = store.get(alloc, &Key::View { number });
        self.take(RefreshTurn::of_view(alloc, number, got))
    }

    fn get_finals<S: Store, C: Checker>(
        &mut self,
        alloc: Global,
        chain: &mut ViewChain,
        store: &mut S,
        checker: &C,
        next: NextView,
    ) -> Result<RefreshProgress, NoMemory>
        requires ended { self.old ≡ AtEnd }
        requires number { next.number ≡ length chain.old.configs }
        ensures { (got : Got) × StoreStep S.view store.old store.new (Get (keys.Finals next.number)) (WasGot got)
            × GoesAtFinals (C.accepts checker.now) chain.old next.body.bytes next.block next.config (AtStore (Get (keys.Finals next.number)) (WasGot got)) chain.new self.new result }
    {
        let number = next.number;
        let got = store.get(alloc, &Key::Finals { number });
        self.take(RefreshTurn::of_finals(alloc, chain, checker, next, got))
    }

    // The turn is taken; at want of memory the refresh has ended.
    fn take(&mut self, turn: Result<RefreshTurn, NoMemory>) -> Result<RefreshProgress, NoMemory>
        requires { self.old ≡ AtEnd }
        ensures { IsTaken turn self.new result }
    {
        let turn = turn?;
        self.stage = turn.stage;
        Ok(turn.progress)
    }
}
