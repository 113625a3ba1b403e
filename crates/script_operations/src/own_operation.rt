// An operation by which a client's own entry is to stand.
ghost use Rattle.std.specs.Prelude.{◌≡◌, Some, IfOk, MatchOption};
ghost use Rattle.chain_block.specs.Entry.{IsWithinLimits, bare};
ghost use Rattle.answer_lines.specs.Giving.{OnlyLearned};
ghost use Rattle.client_acts.specs.ClientActs.{StaysOn};
ghost use Rattle.client_acts.specs.Turns.{TurnsAt};
ghost use Rattle.endorser_cell.specs.CellBank.{bank_view};
ghost use Rattle.port.specs.Service.{stood};
ghost use Rattle.roster_bank.specs.Counting.{served_count};
ghost use Rattle.script_operations.specs.Giving.{Asks, Given, GivesEnd};
ghost use Rattle.script_operations.specs.Operations.{Closed, IsFresh, own_progress};
ghost use Rattle.script_operations.specs.Stepping.{Steps};
ghost use Rattle.script_operations.specs.Task.{HasDraw, Own};

use crate::own_run::OwnRun;
use crate::served::served_so_far;
use answer_lines::{ask_own, give_own};
use chain_block::Entry;
use client_acts::{ClientActs, clients_stay_on};
use coordinator::Coordinator;
use nim_base::{NoMemory, Text};
use port::{Link, Refusal, Standing, Store};
use reply_lines::done_line;
use roster_bank::{RosterBank, RunName};
use seal::{Checker, Scheme, Signer};
use std::alloc::Global;
use view_ledger::ViewChain;

/// What the client asked for: the number of its draw, the label of the ledger, and the entry.
#[derive(Drop)]
pub(crate) struct OwnAsked {
    pub(crate) client: usize,
    pub(crate) draw: u64,
    pub(crate) label: Text,
    pub(crate) entry: Entry,
}

pub(crate) struct OwnOperation {
    pub(crate) asked: OwnAsked,
    pub(crate) running: Option<OwnRun>,
}

impl Drop for OwnOperation {
    fn drop(self) {
        let OwnOperation {
            asked: _,
            running: _,
        } = self;
    }
}

impl OwnOperation {
    /// Begins it with a copy of this chain.
    pub(crate) fn begin(
        alloc: Global,
        client: usize,
        draw: u64,
        label: &[u8],
        entry: Entry,
        chain: &ViewChain,
    ) -> Result<OwnOperation, NoMemory>
        requires { IsWithinLimits entry }
        ensures task { IfOk result (λ begun. Own begun.asked.client begun.asked.draw (bare begun.asked.entry) ≡ Own client draw (bare entry)) }
        ensures label { IfOk result (λ begun. begun.asked.label.bytes ≡ label.now) }
        ensures fresh { IfOk result (λ begun. IsFresh chain.now (Own client draw (bare entry)) (own_progress begun.running)) }
    {
        let label = Text::of(alloc, label)?;
        let copy = entry.copy(alloc)?;
        let run = OwnRun::begin(chain.copy(alloc)?, copy);
        Ok(OwnOperation {
            asked: OwnAsked {
                client,
                draw,
                label,
                entry,
            },
            running: Some(run),
        })
    }

    /// Makes up to so many calls, where it is open.
    pub(crate) fn step<S: Store, L: Link, C: Checker>(
        &mut self,
        alloc: Global,
        n: u64,
        coordinator: &mut Coordinator<S, L, C>,
    )
        ensures asked { self.new.asked ≡ self.old.asked }
        ensures steps { Steps S.view L.view coordinator.old coordinator.new (C.accepts coordinator.old.checker) (own_progress self.old.running) (own_progress self.new.running) n }
    {
        if let Some(run) = self.running.take() {
            let mut run = run;
            run.steps(alloc, n, coordinator);
            self.running = Some(run);
        }
    }

    /// Runs it to its answer, which its client is given. `None` where it is closed.
    pub(crate) fn finish<S: Store, G: Scheme, K: RunName>(
        &mut self,
        alloc: Global,
        name: &[u8],
        acts: &mut ClientActs<'_, G::Checker, K>,
        coordinator: &mut Coordinator<S, RosterBank<'_, G, K>, G::Checker>,
    ) -> Result<Option<Text>, NoMemory>
        requires { HasDraw acts.old.clients (Own self.old.asked.client self.old.asked.draw (bare self.old.asked.entry)) }
        ensures asked { self.new.asked ≡ self.old.asked }
        ensures closed { own_progress self.new.running ≡ Closed }
        ensures stays { StaysOn acts.old acts.new }
        ensures checker { coordinator.new.checker ≡ coordinator.old.checker }
        ensures gives { IfOk result (λ line. MatchOption line ((own_progress self.old.running ≡ Closed) × (acts.new ≡ acts.old) × (coordinator.new ≡ coordinator.old)) (λ line.
            GivesEnd G.Checker.accepts S.view (bank_view G.Signer.key_of G.Signer.left_of G.Checker.accepts) K.accepts name.now acts.old acts.new coordinator.old coordinator.new
            (Own self.old.asked.client self.old.asked.draw (bare self.old.asked.entry)) self.old.asked.label.bytes (own_progress self.old.running) line.bytes)) }
    {
        clients_stay_on::<G::Checker>();
        match self.running.take() {
            Some(run) => {
                let line = self.asked.end(alloc, name, run, acts, coordinator)?;
                Ok(Some(line))
            }
            None => Ok(None),
        }
    }

    /// Closes it.
    pub(crate) fn close(&mut self)
        ensures asked { self.new.asked ≡ self.old.asked }
        ensures closed { own_progress self.new.running ≡ Closed }
    {
        self.running = None;
    }
}

impl OwnAsked {
    /// Gives the client an answer, unless it has an accepted reply already.
    fn give<S: Store, G: Scheme, K: RunName>(
        &self,
        alloc: Global,
        name: &[u8],
        acts: &mut ClientActs<'_, G::Checker, K>,
        coordinator: &mut Coordinator<S, RosterBank<'_, G, K>, G::Checker>,
        answer: Result<Standing, Refusal>,
    ) -> Result<Text, NoMemory>
        requires { HasDraw acts.old.clients (Own self.now.client self.now.draw (bare self.now.entry)) }
        ensures stays { StaysOn acts.old acts.new }
        ensures checker { coordinator.new.checker ≡ coordinator.old.checker }
        ensures learned { OnlyLearned G.Checker.accepts S.view (bank_view G.Signer.key_of G.Signer.left_of G.Checker.accepts) coordinator.old coordinator.new }
        ensures turns { TurnsAt self.now.client (served_count (bank_view G.Signer.key_of G.Signer.left_of G.Checker.accepts coordinator.old.link)) acts.old.turns acts.new.turns }
        ensures given { IfOk result (λ line. Given K.accepts name.now (Own self.now.client self.now.draw (bare self.now.entry)) self.now.label.bytes acts.old acts.new coordinator.old coordinator.new (stood answer) line.bytes) }
    {
        clients_stay_on::<G::Checker>();
        if acts.is_answered(self.client, self.draw) {
            return done_line(alloc, name);
        }
        let calls = served_so_far(coordinator);
        give_own(
            alloc,
            acts,
            coordinator,
            calls,
            self.client,
            self.draw,
            self.label.bytes(),
            &self.entry,
            answer,
        )
    }

    /// Runs it to its answer, which the client is given.
    fn end<S: Store, G: Scheme, K: RunName>(
        &self,
        alloc: Global,
        name: &[u8],
        run: OwnRun,
        acts: &mut ClientActs<'_, G::Checker, K>,
        coordinator: &mut Coordinator<S, RosterBank<'_, G, K>, G::Checker>,
    ) -> Result<Text, NoMemory>
        requires { HasDraw acts.old.clients (Own self.now.client self.now.draw (bare self.now.entry)) }
        ensures stays { StaysOn acts.old acts.new }
        ensures checker { coordinator.new.checker ≡ coordinator.old.checker }
        ensures gives { IfOk result (λ line. GivesEnd G.Checker.accepts S.view (bank_view G.Signer.key_of G.Signer.left_of G.Checker.accepts) K.accepts name.now acts.old acts.new coordinator.old coordinator.new
            (Own self.now.client self.now.draw (bare self.now.entry)) self.now.label.bytes (own_progress (Some run)) line.bytes) }
    {
        let answer = run.answer(alloc, coordinator);
        self.give(alloc, name, acts, coordinator, answer)
    }

    /// Asks the coordinator for it anew, unless its client has an accepted reply already.
    pub(crate) fn retry<S: Store, G: Scheme, K: RunName>(
        &self,
        alloc: Global,
        name: &[u8],
        acts: &mut ClientActs<'_, G::Checker, K>,
        coordinator: &mut Coordinator<S, RosterBank<'_, G, K>, G::Checker>,
    ) -> Result<Text, NoMemory>
        requires { HasDraw acts.old.clients (Own self.now.client self.now.draw (bare self.now.entry)) }
        ensures stays { StaysOn acts.old acts.new }
        ensures checker { coordinator.new.checker ≡ coordinator.old.checker }
        ensures asks { IfOk result (λ line. Asks G.Checker.accepts S.view (bank_view G.Signer.key_of G.Signer.left_of G.Checker.accepts) K.accepts name.now acts.old acts.new coordinator.old coordinator.new
            (Own self.now.client self.now.draw (bare self.now.entry)) self.now.label.bytes line.bytes) }
    {
        clients_stay_on::<G::Checker>();
        if acts.is_answered(self.client, self.draw) {
            return done_line(alloc, name);
        }
        let answer = ask_own(alloc, coordinator, &self.entry);
        let calls = served_so_far(coordinator);
        give_own(
            alloc,
            acts,
            coordinator,
            calls,
            self.client,
            self.draw,
            self.label.bytes(),
            &self.entry,
            answer,
        )
    }
}
