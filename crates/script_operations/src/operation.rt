// An operation of any kind.
ghost use Rattle.std.specs.Prelude.{◌≡◌, ℕ, List, true, IfOk, IfSome, IfNone, MatchOption};
ghost use Rattle.answer_lines.specs.Giving.{OnlyLearned};
ghost use Rattle.client_acts.specs.ClientActs.{StaysOn};
ghost use Rattle.client_acts.specs.Turns.{TurnsAt};
ghost use Rattle.endorser_cell.specs.CellBank.{bank_view};
ghost use Rattle.roster_bank.specs.Counting.{served_count};
ghost use Rattle.script_operations.specs.Giving.{Asks, GivesEnd, TakesReply};
ghost use Rattle.script_operations.specs.Operations.{Closed, IsOpenRead, Progress, at_progress, begun_of, is_open};
ghost use Rattle.script_operations.specs.Stepping.{Steps};
ghost use Rattle.script_operations.specs.Task.{HasDraw, Newest, client_of};

use crate::height_operation::HeightOperation;
use crate::newest_operation::NewestOperation;
use crate::own_operation::OwnOperation;
use crate::reading::Reading;
use client_acts::{ClientActs, clients_stay_on};
use coordinator::Coordinator;
use nim_base::{NoMemory, Text};
use port::{LatestReply, Link, Store};
use roster_bank::{RosterBank, RunName};
use seal::{Checker, Scheme, Signer};
use std::alloc::Global;

/// An operation of a client.
pub(crate) enum Operation {
    Own(OwnOperation),
    Newest(NewestOperation),
    Height(HeightOperation),
}

impl Drop for Operation {
    fn drop(self) {
        match self {
            Operation::Own(_) => {}
            Operation::Newest(_) => {}
            Operation::Height(_) => {}
        }
    }
}

impl Operation {
    /// Makes up to so many calls, where it is open.
    pub(crate) fn step<S: Store, L: Link, C: Checker>(
        &mut self,
        alloc: Global,
        n: u64,
        coordinator: &mut Coordinator<S, L, C>,
    )
        ensures same { begun_of self.new ≡ at_progress (begun_of self.old) (begun_of self.new).progress }
        ensures steps { Steps S.view L.view coordinator.old coordinator.new (C.accepts coordinator.old.checker) (begun_of self.old).progress (begun_of self.new).progress n }
    {
        match self {
            Operation::Own(operation) => operation.step(alloc, n, coordinator),
            Operation::Newest(operation) => operation.step(alloc, n, coordinator),
            Operation::Height(operation) => operation.step(alloc, n, coordinator),
        }
    }

    /// Runs it to its answer, which its client is given, and closes it. `None` where it is closed.
    pub(crate) fn finish<S: Store, G: Scheme, K: RunName>(
        &mut self,
        alloc: Global,
        name: &[u8],
        acts: &mut ClientActs<'_, G::Checker, K>,
        coordinator: &mut Coordinator<S, RosterBank<'_, G, K>, G::Checker>,
    ) -> Result<Option<Text>, NoMemory>
        requires { HasDraw acts.old.clients (begun_of self.old).task }
        ensures closed { begun_of self.new ≡ at_progress (begun_of self.old) Closed }
        ensures stays { StaysOn acts.old acts.new }
        ensures checker { coordinator.new.checker ≡ coordinator.old.checker }
        ensures gives { IfOk result (λ line. MatchOption line (((begun_of self.old).progress ≡ Closed) × (acts.new ≡ acts.old) × (coordinator.new ≡ coordinator.old)) (λ line.
            GivesEnd G.Checker.accepts S.view (bank_view G.Signer.key_of G.Signer.left_of G.Checker.accepts) K.accepts name.now acts.old acts.new coordinator.old coordinator.new (begun_of self.old).task (begun_of self.old).label (begun_of self.old).progress line.bytes)) }
    {
        match self {
            Operation::Own(operation) => operation.finish(alloc, name, acts, coordinator),
            Operation::Newest(operation) => operation.finish(alloc, name, acts, coordinator),
            Operation::Height(operation) => operation.finish(alloc, acts, coordinator),
        }
    }

    /// Asks the coordinator for it anew.
    pub(crate) fn retry<S: Store, G: Scheme, K: RunName>(
        &self,
        alloc: Global,
        name: &[u8],
        acts: &mut ClientActs<'_, G::Checker, K>,
        coordinator: &mut Coordinator<S, RosterBank<'_, G, K>, G::Checker>,
    ) -> Result<Text, NoMemory>
        requires { HasDraw acts.old.clients (begun_of self.now).task }
        ensures stays { StaysOn acts.old acts.new }
        ensures checker { coordinator.new.checker ≡ coordinator.old.checker }
        ensures asks { IfOk result (λ line. Asks G.Checker.accepts S.view (bank_view G.Signer.key_of G.Signer.left_of G.Checker.accepts) K.accepts name.now acts.old acts.new coordinator.old coordinator.new (begun_of self.now).task (begun_of self.now).label line.bytes) }
    {
        match self {
            Operation::Own(operation) => operation.asked.retry(alloc, name, acts, coordinator),
            Operation::Newest(operation) => operation.asked.retry(alloc, name, acts, coordinator),
            Operation::Height(operation) => operation.asked.retry(alloc, acts, coordinator),
        }
    }

    /// Gives its client this reply, and closes it. `None` where it isn't an open read of a newest row.
    pub(crate) fn give<S: Store, G: Scheme, K: RunName>(
        &mut self,
        alloc: Global,
        name: &[u8],
        reply: LatestReply,
        acts: &mut ClientActs<'_, G::Checker, K>,
        coordinator: &mut Coordinator<S, RosterBank<'_, G, K>, G::Checker>,
    ) -> Result<Option<Text>, NoMemory>
        requires { HasDraw acts.old.clients (begun_of self.old).task }
        ensures stays { StaysOn acts.old acts.new }
        ensures checker { coordinator.new.checker ≡ coordinator.old.checker }
        ensures learned { OnlyLearned G.Checker.accepts S.view (bank_view G.Signer.key_of G.Signer.left_of G.Checker.accepts) coordinator.old coordinator.new }
        ensures turns { TurnsAt (client_of (begun_of self.old).task) (served_count (bank_view G.Signer.key_of G.Signer.left_of G.Checker.accepts coordinator.old.link)) acts.old.turns acts.new.turns }
        ensures given { IfOk result (λ line. MatchOption line ((IsOpenRead (begun_of self.old) → ⊥) × (begun_of self.new ≡ begun_of self.old) × (acts.new ≡ acts.old) × (coordinator.new ≡ coordinator.old)) (λ line.
            (begun_of self.new ≡ at_progress (begun_of self.old) Closed) × TakesReply K.accepts name.now (begun_of self.old) acts.old acts.new coordinator.old coordinator.new reply line.bytes)) }
        ensures task { (begun_of self.new).task ≡ (begun_of self.old).task }
    {
        clients_stay_on::<G::Checker>();
        match self {
            Operation::Newest(operation) => operation.give(alloc, name, reply, acts, coordinator),
            Operation::Own(_) | Operation::Height(_) => Ok(None),
        }
    }

    /// Closes it.
    pub(crate) fn close(&mut self)
        ensures closed { begun_of self.new ≡ at_progress (begun_of self.old) Closed }
    {
        match self {
            Operation::Own(operation) => operation.close(),
            Operation::Newest(operation) => operation.close(),
            Operation::Height(operation) => operation.close(),
        }
    }

    /// Whose read of a newest row it is, where it is an open one.
    pub(crate) fn reading(&self) -> Option<Reading>
        ensures some { IfSome result (λ reading. (draw : ℕ) × (label : List ℕ) × (progress : Progress) × (is_open progress ≡ true)
            × (begun_of self.now ≡ record { task = Newest reading.client draw reading.handle reading.nonce; label = label; progress = progress })) }
        ensures none { IfNone result (IsOpenRead (begun_of self.now) → ⊥) }
    {
        match self {
            Operation::Newest(operation) => operation.reading(),
            Operation::Own(_) | Operation::Height(_) => None,
        }
    }
}
