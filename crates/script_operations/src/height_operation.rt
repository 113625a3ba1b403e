// An operation by which a client reads a ledger at a height.
ghost use Rattle.std.specs.Prelude.{◌≡◌, ◌<◌, ◌^◌, ℕ, List, Some, IfOk, MatchOption};
ghost use Rattle.client_acts.specs.ClientActs.{StaysOn};
ghost use Rattle.endorser_cell.specs.CellBank.{bank_view};
ghost use Rattle.op_entry.specs.Sound.{Sound};
ghost use Rattle.op_entry.specs.State.{answer_of as outcome_of, is_live};
ghost use Rattle.script_operations.specs.Ending.{CameTo, EndsEntry};
ghost use Rattle.script_operations.specs.Giving.{AsksAnew, GivesEnd};
ghost use Rattle.script_operations.specs.Operations.{Closed, IsFresh, height_progress};
ghost use Rattle.script_operations.specs.Stepping.{GoesFor, Steps};
ghost use Rattle.script_operations.specs.Task.{HasDraw, Height};

use crate::served::served_so_far;
use answer_lines::give_at;
use client_acts::{ClientActs, clients_stay_on};
use coordinator::Coordinator;
use nim_base::{Digest, NoMemory, Text};
use op_entry::AtOp;
use port::{Link, Refusal, Service, Standing, Store};
use roster_bank::{RosterBank, RunName};
use seal::{Checker, Scheme, Signer};
use std::alloc::Global;
use view_ledger::ViewChain;

/// What the client asked for: the label of the ledger, its handle, and the height.
#[derive(Drop)]
pub(crate) struct HeightAsked {
    pub(crate) client: usize,
    pub(crate) label: Text,
    pub(crate) handle: Digest,
    pub(crate) height: u64,
}

pub(crate) struct HeightOperation {
    pub(crate) asked: HeightAsked,
    pub(crate) running: Option<AtOp>,
}

impl Drop for HeightOperation {
    fn drop(self) {
        let HeightOperation {
            asked: _,
            running: _,
        } = self;
    }
}

impl HeightOperation {
    /// Begins it with a copy of this chain.
    pub(crate) fn begin(
        alloc: Global,
        client: usize,
        label: &[u8],
        handle: Digest,
        height: u64,
        chain: &ViewChain,
    ) -> Result<HeightOperation, NoMemory>
        requires { height < 2 ^ 32 }
        ensures task { IfOk result (λ begun. Height begun.asked.client begun.asked.handle begun.asked.height ≡ Height client handle height) }
        ensures label { IfOk result (λ begun. begun.asked.label.bytes ≡ label.now) }
        ensures fresh { IfOk result (λ begun. IsFresh chain.now (Height client handle height) (height_progress begun.running)) }
    {
        let label = Text::of(alloc, label)?;
        let run = AtOp::new(chain.copy(alloc)?, handle, height);
        Ok(HeightOperation {
            asked: HeightAsked {
                client,
                label,
                handle,
                height,
            },
            running: Some(run),
        })
    }

    /// Makes up to so many calls, where it is open.
    pub(crate) fn step<S: Store, L: Link, C: Checker>(
        &mut self,
        alloc: Global,
        n: u64,
        coordinator: &mut Coordinator<S, L, C>,
    )
        ensures asked { self.new.asked ≡ self.old.asked }
        ensures steps { Steps S.view L.view coordinator.old coordinator.new (C.accepts coordinator.old.checker) (height_progress self.old.running) (height_progress self.new.running) n }
    {
        if let Some(op) = self.running.take() {
            let mut op = op;
            steps(alloc, n, &mut op, coordinator);
            self.running = Some(op);
        }
    }

    /// Runs it to its answer, which its client is given. `None` where it is closed.
    pub(crate) fn finish<S: Store, G: Scheme, K: RunName>(
        &mut self,
        alloc: Global,
        acts: &mut ClientActs<'_, G::Checker, K>,
        coordinator: &mut Coordinator<S, RosterBank<'_, G, K>, G::Checker>,
    ) -> Result<Option<Text>, NoMemory>
        requires { HasDraw acts.old.clients (Height self.old.asked.client self.old.asked.handle self.old.asked.height) }
        ensures asked { self.new.asked ≡ self.old.asked }
        ensures closed { height_progress self.new.running ≡ Closed }
        ensures stays { StaysOn acts.old acts.new }
        ensures checker { coordinator.new.checker ≡ coordinator.old.checker }
        ensures gives { (name : List ℕ) → IfOk result (λ line. MatchOption line ((height_progress self.old.running ≡ Closed) × (acts.new ≡ acts.old) × (coordinator.new ≡ coordinator.old)) (λ line.
            GivesEnd G.Checker.accepts S.view (bank_view G.Signer.key_of G.Signer.left_of G.Checker.accepts) K.accepts name acts.old acts.new coordinator.old coordinator.new
            (Height self.old.asked.client self.old.asked.handle self.old.asked.height) self.old.asked.label.bytes (height_progress self.old.running) line.bytes)) }
    {
        clients_stay_on::<G::Checker>();
        match self.running.take() {
            Some(op) => {
                let line = self.asked.end(alloc, op, acts, coordinator)?;
                Ok(Some(line))
            }
            None => Ok(None),
        }
    }

    /// Closes it.
    pub(crate) fn close(&mut self)
        ensures asked { self.new.asked ≡ self.old.asked }
        ensures closed { height_progress self.new.running ≡ Closed }
    {
        self.running = None;
    }
}

impl HeightAsked {
    /// Runs it to its answer, which the client is given.
    fn end<S: Store, G: Scheme, K: RunName>(
        &self,
        alloc: Global,
        op: AtOp,
        acts: &mut ClientActs<'_, G::Checker, K>,
        coordinator: &mut Coordinator<S, RosterBank<'_, G, K>, G::Checker>,
    ) -> Result<Text, NoMemory>
        requires { HasDraw acts.old.clients (Height self.now.client self.now.handle self.now.height) }
        ensures stays { StaysOn acts.old acts.new }
        ensures checker { coordinator.new.checker ≡ coordinator.old.checker }
        ensures gives { (name : List ℕ) → IfOk result (λ line. GivesEnd G.Checker.accepts S.view (bank_view G.Signer.key_of G.Signer.left_of G.Checker.accepts) K.accepts name acts.old acts.new coordinator.old coordinator.new
            (Height self.now.client self.now.handle self.now.height) self.now.label.bytes (height_progress (Some op)) line.bytes) }
    {
        let answer = answer_of(alloc, op, coordinator);
        let calls = served_so_far(coordinator);
        give_at(
            alloc,
            acts,
            coordinator,
            calls,
            self.client,
            self.label.bytes(),
            &self.handle,
            self.height,
            answer,
        )
    }

    /// Asks the coordinator for it anew.
    pub(crate) fn retry<S: Store, G: Scheme, K: RunName>(
        &self,
        alloc: Global,
        acts: &mut ClientActs<'_, G::Checker, K>,
        coordinator: &mut Coordinator<S, RosterBank<'_, G, K>, G::Checker>,
    ) -> Result<Text, NoMemory>
        requires { HasDraw acts.old.clients (Height self.now.client self.now.handle self.now.height) }
        ensures stays { StaysOn acts.old acts.new }
        ensures checker { coordinator.new.checker ≡ coordinator.old.checker }
        ensures asks { (name : List ℕ) → IfOk result (λ line. AsksAnew G.Checker.accepts S.view (bank_view G.Signer.key_of G.Signer.left_of G.Checker.accepts) K.accepts name acts.old acts.new coordinator.old coordinator.new
            (Height self.now.client self.now.handle self.now.height) self.now.label.bytes line.bytes) }
    {
        let answer = coordinator.at(alloc, &self.handle, self.height);
        let calls = served_so_far(coordinator);
        give_at(
            alloc,
            acts,
            coordinator,
            calls,
            self.client,
            self.label.bytes(),
            &self.handle,
            self.height,
            answer,
        )
    }
}

/// Makes up to so many calls.
fn steps<S: Store, L: Link, C: Checker>(
    alloc: Global,
    n: u64,
    op: &mut AtOp,
    coordinator: &mut Coordinator<S, L, C>,
)
    ensures { GoesFor S.view L.view coordinator.old coordinator.new (Sound (C.accepts coordinator.old.checker)) is_live op.old op.new n }
{
    for _ in 0..n {
        if !coordinator.step_at(alloc, op) {
            return;
        }
    }
}

/// Makes all calls to the answer.
fn answer_of<S: Store, L: Link, C: Checker>(
    alloc: Global,
    op: AtOp,
    coordinator: &mut Coordinator<S, L, C>,
) -> Result<Standing, Refusal>
    ensures { CameTo S.view L.view coordinator.old coordinator.new (λ events. EndsEntry (C.accepts coordinator.old.checker) op events (outcome_of result)) }
{
    let mut op = op;
    while coordinator.step_at(alloc, &mut op) {}
    let (_, answer) = op.into_parts();
    match answer {
        Some(answer) => answer,
        None => unreachable!(),
    }
}
