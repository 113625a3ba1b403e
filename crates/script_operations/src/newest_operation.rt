// An operation by which a client reads the newest row of a ledger.
ghost use Rattle.std.specs.Prelude.{◌≡◌, true, Some, IfOk, IfSome, IfNone, MatchOption};
ghost use Rattle.answer_lines.specs.Giving.{OnlyLearned};
ghost use Rattle.client_acts.specs.ClientActs.{StaysOn};
ghost use Rattle.client_acts.specs.Turns.{TurnsAt};
ghost use Rattle.endorser_cell.specs.CellBank.{bank_view};
ghost use Rattle.op_latest.specs.LatestSound.{LatestSound};
ghost use Rattle.op_latest.specs.LatestState.{is_live, outcome_of};
ghost use Rattle.port.specs.Service.{Replied, replied};
ghost use Rattle.roster_bank.specs.Counting.{served_count};
ghost use Rattle.script_operations.specs.Ending.{CameTo, EndsLatest};
ghost use Rattle.script_operations.specs.Giving.{Asks, Given, GivesEnd};
ghost use Rattle.script_operations.specs.Operations.{Closed, IsFresh, is_open, newest_progress};
ghost use Rattle.script_operations.specs.Stepping.{GoesFor, Steps};
ghost use Rattle.script_operations.specs.Task.{HasDraw, Newest};

use crate::reading::Reading;
use crate::served::served_so_far;
use answer_lines::give_latest;
use client_acts::{ClientActs, clients_stay_on};
use coordinator::Coordinator;
use nim_base::{Digest, NoMemory, Nonce, Text};
use op_entry::LatestOp;
use port::{LatestReply, Link, Refusal, Service, Store};
use reply_lines::done_line;
use roster_bank::{RosterBank, RunName};
use seal::{Checker, Scheme, Signer};
use std::alloc::Global;
use view_ledger::ViewChain;

/// What the client asked for: the number of its draw, the label of the ledger, its handle, and the nonce of the draw.
#[derive(Drop)]
pub(crate) struct NewestAsked {
    pub(crate) client: usize,
    pub(crate) draw: u64,
    pub(crate) label: Text,
    pub(crate) handle: Digest,
    pub(crate) nonce: Nonce,
}

pub(crate) struct NewestOperation {
    pub(crate) asked: NewestAsked,
    pub(crate) running: Option<LatestOp>,
}

impl Drop for NewestOperation {
    fn drop(self) {
        let NewestOperation {
            asked: _,
            running: _,
        } = self;
    }
}

impl NewestOperation {
    /// Begins it with a copy of this chain.
    pub(crate) fn begin(
        alloc: Global,
        client: usize,
        draw: u64,
        label: &[u8],
        handle: Digest,
        nonce: Nonce,
        chain: &ViewChain,
    ) -> Result<NewestOperation, NoMemory>
        ensures task { IfOk result (λ begun. Newest begun.asked.client begun.asked.draw begun.asked.handle begun.asked.nonce ≡ Newest client draw handle nonce) }
        ensures label { IfOk result (λ begun. begun.asked.label.bytes ≡ label.now) }
        ensures fresh { IfOk result (λ begun. IsFresh chain.now (Newest client draw handle nonce) (newest_progress begun.running)) }
    {
        let label = Text::of(alloc, label)?;
        let run = LatestOp::new(chain.copy(alloc)?, handle, nonce);
        Ok(NewestOperation {
            asked: NewestAsked {
                client,
                draw,
                label,
                handle,
                nonce,
            },
            running: Some(run),
        })
    }

    /// Makes up to so many calls, where it is open.
    pub(crate) fn step<S: Store, L: Link, C: Checker>(
        &mut self,
        alloc: Global,
        n: u64,
        coordinator: &mut Coordinator<S, L, C>,
    )
        ensures asked { self.new.asked ≡ self.old.asked }
        ensures steps { Steps S.view L.view coordinator.old coordinator.new (C.accepts coordinator.old.checker) (newest_progress self.old.running) (newest_progress self.new.running) n }
    {
        if let Some(op) = self.running.take() {
            let mut op = op;
            steps(alloc, n, &mut op, coordinator);
            self.running = Some(op);
        }
    }

    /// Runs it to its answer, which its client is given. `None` where it is closed.
    pub(crate) fn finish<S: Store, G: Scheme, K: RunName>(
        &mut self,
        alloc: Global,
        name: &[u8],
        acts: &mut ClientActs<'_, G::Checker, K>,
        coordinator: &mut Coordinator<S, RosterBank<'_, G, K>, G::Checker>,
    ) -> Result<Option<Text>, NoMemory>
        requires { HasDraw acts.old.clients (Newest self.old.asked.client self.old.asked.draw self.old.asked.handle self.old.asked.nonce) }
        ensures asked { self.new.asked ≡ self.old.asked }
        ensures closed { newest_progress self.new.running ≡ Closed }
        ensures stays { StaysOn acts.old acts.new }
        ensures checker { coordinator.new.checker ≡ coordinator.old.checker }
        ensures gives { IfOk result (λ line. MatchOption line ((newest_progress self.old.running ≡ Closed) × (acts.new ≡ acts.old) × (coordinator.new ≡ coordinator.old)) (λ line.
            GivesEnd G.Checker.accepts S.view (bank_view G.Signer.key_of G.Signer.left_of G.Checker.accepts) K.accepts name.now acts.old acts.new coordinator.old coordinator.new
            (Newest self.old.asked.client self.old.asked.draw self.old.asked.handle self.old.asked.nonce) self.old.asked.label.bytes (newest_progress self.old.running) line.bytes)) }
    {
        clients_stay_on::<G::Checker>();
        match self.running.take() {
            Some(op) => {
                let line = self.asked.end(alloc, name, op, acts, coordinator)?;
                Ok(Some(line))
            }
            None => Ok(None),
        }
    }

    /// Gives its client this reply, and closes it. `None` where it is closed.
    pub(crate) fn give<S: Store, G: Scheme, K: RunName>(
        &mut self,
        alloc: Global,
        name: &[u8],
        reply: LatestReply,
        acts: &mut ClientActs<'_, G::Checker, K>,
        coordinator: &mut Coordinator<S, RosterBank<'_, G, K>, G::Checker>,
    ) -> Result<Option<Text>, NoMemory>
        requires { HasDraw acts.old.clients (Newest self.old.asked.client self.old.asked.draw self.old.asked.handle self.old.asked.nonce) }
        ensures asked { self.new.asked ≡ self.old.asked }
        ensures closed { newest_progress self.new.running ≡ Closed }
        ensures stays { StaysOn acts.old acts.new }
        ensures checker { coordinator.new.checker ≡ coordinator.old.checker }
        ensures learned { OnlyLearned G.Checker.accepts S.view (bank_view G.Signer.key_of G.Signer.left_of G.Checker.accepts) coordinator.old coordinator.new }
        ensures turns { TurnsAt self.old.asked.client (served_count (bank_view G.Signer.key_of G.Signer.left_of G.Checker.accepts coordinator.old.link)) acts.old.turns acts.new.turns }
        ensures given { IfOk result (λ line. MatchOption line ((newest_progress self.old.running ≡ Closed) × (acts.new ≡ acts.old) × (coordinator.new ≡ coordinator.old)) (λ line.
            (is_open (newest_progress self.old.running) ≡ true) × Given K.accepts name.now (Newest self.old.asked.client self.old.asked.draw self.old.asked.handle self.old.asked.nonce) self.old.asked.label.bytes acts.old acts.new coordinator.old coordinator.new (Replied reply) line.bytes)) }
    {
        clients_stay_on::<G::Checker>();
        if self.running.is_none() {
            return Ok(None);
        }
        self.close();
        let line = self.asked.give(alloc, name, acts, coordinator, Ok(reply))?;
        Ok(Some(line))
    }

    /// Whose read it is, where it is open.
    pub(crate) fn reading(&self) -> Option<Reading>
        ensures some { IfSome result (λ reading. (is_open (newest_progress self.now.running) ≡ true)
            × (Newest reading.client self.now.asked.draw reading.handle reading.nonce ≡ Newest self.now.asked.client self.now.asked.draw self.now.asked.handle self.now.asked.nonce)) }
        ensures none { IfNone result (newest_progress self.now.running ≡ Closed) }
    {
        match &self.running {
            Some(_) => Some(Reading {
                client: self.asked.client,
                handle: self.asked.handle,
                nonce: self.asked.nonce,
            }),
            None => None,
        }
    }

    /// Closes it.
    pub(crate) fn close(&mut self)
        ensures asked { self.new.asked ≡ self.old.asked }
        ensures closed { newest_progress self.new.running ≡ Closed }
    {
        self.running = None;
    }
}

impl NewestAsked {
    /// Gives the client an answer, unless it has an accepted reply already.
    fn give<S: Store, G: Scheme, K: RunName>(
        &self,
        alloc: Global,
        name: &[u8],
        acts: &mut ClientActs<'_, G::Checker, K>,
        coordinator: &mut Coordinator<S, RosterBank<'_, G, K>, G::Checker>,
        answer: Result<LatestReply, Refusal>,
    ) -> Result<Text, NoMemory>
        requires { HasDraw acts.old.clients (Newest self.now.client self.now.draw self.now.handle self.now.nonce) }
        ensures stays { StaysOn acts.old acts.new }
        ensures checker { coordinator.new.checker ≡ coordinator.old.checker }
        ensures learned { OnlyLearned G.Checker.accepts S.view (bank_view G.Signer.key_of G.Signer.left_of G.Checker.accepts) coordinator.old coordinator.new }
        ensures turns { TurnsAt self.now.client (served_count (bank_view G.Signer.key_of G.Signer.left_of G.Checker.accepts coordinator.old.link)) acts.old.turns acts.new.turns }
        ensures given { IfOk result (λ line. Given K.accepts name.now (Newest self.now.client self.now.draw self.now.handle self.now.nonce) self.now.label.bytes acts.old acts.new coordinator.old coordinator.new (replied answer) line.bytes) }
    {
        clients_stay_on::<G::Checker>();
        if acts.is_answered(self.client, self.draw) {
            return done_line(alloc, name);
        }
        let calls = served_so_far(coordinator);
        give_latest(
            alloc,
            acts,
            coordinator,
            calls,
            self.client,
            self.draw,
            self.label.bytes(),
            &self.handle,
            &self.nonce,
            answer,
        )
    }

    /// Runs it to its answer, which the client is given.
    fn end<S: Store, G: Scheme, K: RunName>(
        &self,
        alloc: Global,
        name: &[u8],
        op: LatestOp,
        acts: &mut ClientActs<'_, G::Checker, K>,
        coordinator: &mut Coordinator<S, RosterBank<'_, G, K>, G::Checker>,
    ) -> Result<Text, NoMemory>
        requires { HasDraw acts.old.clients (Newest self.now.client self.now.draw self.now.handle self.now.nonce) }
        ensures stays { StaysOn acts.old acts.new }
        ensures checker { coordinator.new.checker ≡ coordinator.old.checker }
        ensures gives { IfOk result (λ line. GivesEnd G.Checker.accepts S.view (bank_view G.Signer.key_of G.Signer.left_of G.Checker.accepts) K.accepts name.now acts.old acts.new coordinator.old coordinator.new
            (Newest self.now.client self.now.draw self.now.handle self.now.nonce) self.now.label.bytes (newest_progress (Some op)) line.bytes) }
    {
        let answer = answer_of(alloc, op, coordinator);
        self.give(alloc, name, acts, coordinator, answer)
    }

    /// Asks the coordinator for it anew, unless its client has an accepted reply already.
    pub(crate) fn retry<S: Store, G: Scheme, K: RunName>(
        &self,
        alloc: Global,
        name: &[u8],
        acts: &mut ClientActs<'_, G::Checker, K>,
        coordinator: &mut Coordinator<S, RosterBank<'_, G, K>, G::Checker>,
    ) -> Result<Text, NoMemory>
        requires { HasDraw acts.old.clients (Newest self.now.client self.now.draw self.now.handle self.now.nonce) }
        ensures stays { StaysOn acts.old acts.new }
        ensures checker { coordinator.new.checker ≡ coordinator.old.checker }
        ensures asks { IfOk result (λ line. Asks G.Checker.accepts S.view (bank_view G.Signer.key_of G.Signer.left_of G.Checker.accepts) K.accepts name.now acts.old acts.new coordinator.old coordinator.new
            (Newest self.now.client self.now.draw self.now.handle self.now.nonce) self.now.label.bytes line.bytes) }
    {
        clients_stay_on::<G::Checker>();
        if acts.is_answered(self.client, self.draw) {
            return done_line(alloc, name);
        }
        let answer = coordinator.latest(alloc, &self.handle, &self.nonce);
        let calls = served_so_far(coordinator);
        give_latest(
            alloc,
            acts,
            coordinator,
            calls,
            self.client,
            self.draw,
            self.label.bytes(),
            &self.handle,
            &self.nonce,
            answer,
        )
    }
}

/// Makes up to so many calls.
fn steps<S: Store, L: Link, C: Checker>(
    alloc: Global,
    n: u64,
    op: &mut LatestOp,
    coordinator: &mut Coordinator<S, L, C>,
)
    ensures { GoesFor S.view L.view coordinator.old coordinator.new (LatestSound (C.accepts coordinator.old.checker)) is_live op.old op.new n }
{
    for _ in 0..n {
        if !coordinator.step_latest(alloc, op) {
            return;
        }
    }
}

/// Makes all calls to the answer.
fn answer_of<S: Store, L: Link, C: Checker>(
    alloc: Global,
    op: LatestOp,
    coordinator: &mut Coordinator<S, L, C>,
) -> Result<LatestReply, Refusal>
    ensures { CameTo S.view L.view coordinator.old coordinator.new (λ events. EndsLatest (C.accepts coordinator.old.checker) op events (outcome_of result)) }
{
    let mut op = op;
    while coordinator.step_latest(alloc, &mut op) {}
    let (_, answer) = op.into_parts();
    match answer {
        Some(answer) => answer,
        None => unreachable!(),
    }
}
