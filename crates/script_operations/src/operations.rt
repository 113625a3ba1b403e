ghost use Rattle.std.specs.Prelude.{◌≡◌, ◌≤◌, ◌<◌, ◌^◌, [], ℕ, List, Some, length, IfOk, IfSome, IfNone, OnOk, OnErr, MatchOption};
ghost use Rattle.chain_block.specs.Entry.{IsWithinLimits, bare};
ghost use Rattle.client_acts.specs.ClientActs.{StaysOn};
ghost use Rattle.endorser_cell.specs.CellBank.{bank_view};
ghost use Rattle.name_map.specs.NameMap.{means};
ghost use Rattle.script_operations.specs.Giving.{HasFinished, HasGiven, HasRetried, NoneReads};
ghost use Rattle.script_operations.specs.Operations.{Begun, Closed, HasBegun, HasMore, IsOpen, NoneIsNamed, NoneIsOpen, Progress, at_progress, begun_of, tasks_of, with_begun};
ghost use Rattle.script_operations.specs.Stepping.{StepsNamed};
ghost use Rattle.script_operations.specs.Task.{AllHave, Height, Newest, Own};

use crate::height_operation::HeightOperation;
use crate::newest_operation::NewestOperation;
use crate::operation::Operation;
use crate::own_operation::OwnOperation;
use crate::reading::Reading;
use chain_block::Entry;
use client_acts::{ClientActs, clients_stay_on};
use coordinator::Coordinator;
use name_map::NameMap;
use nim_base::{Digest, NoMemory, Nonce, Text};
use port::{LatestReply, Link, Store};
use roster_bank::{RosterBank, RunName};
use seal::{Checker, Scheme, Signer};
use std::alloc::Global;
use std::marker::Model;
use view_ledger::ViewChain;

/// The operations that were begun, in the order in which they came, and which of them each name means.
pub struct Operations {
    alloc: Global,
    names: NameMap<usize>,
    operations: Vec<Operation>,
    open_from: usize,
}

impl Model for Operations {
    ghost use Rattle.std.specs.Prelude.{map};
    ghost use Rattle.script_operations.specs.Operations.{Operations, begun_of};

    ghost Value = { Operations };

    ghost view = { λ own. record { all = map begun_of own.operations.items; names = own.names; open_from = own.open_from } };
}

impl Drop for Operations {
    fn drop(self) {
        let Operations {
            alloc: _,
            names: _,
            operations: _,
            open_from: _,
        } = self;
    }
}

impl Operations {
    /// None is begun. It takes no memory.
    pub fn new(alloc: Global) -> Operations
        ensures { result ≡ record { all = []; names = []; open_from = 0 } }
    {
        Operations {
            alloc,
            names: NameMap::new(alloc),
            operations: Vec::new(alloc),
            open_from: 0,
        }
    }

    /// Begins a new ledger of this entry, or an append of it, under this name, for which the client made this draw. The label is that which
    /// its line prints.
    pub fn begin_own(
        &mut self,
        name: &[u8],
        client: usize,
        draw: u64,
        label: &[u8],
        entry: Entry,
        chain: &ViewChain,
    ) -> Result<(), NoMemory>
        requires { IsWithinLimits entry }
        ensures begun { OnOk result (HasBegun self.old self.new name.now (Own client draw (bare entry)) label.now chain.now) }
        ensures no_memory { OnErr result (self.new ≡ self.old) }
    {
        let begun = OwnOperation::begin(self.alloc, client, draw, label, entry, chain)?;
        self.begin(name, Operation::Own(begun))
    }

    /// Begins a read of the newest row of the ledger, for which the client drew this nonce.
    pub fn begin_newest(
        &mut self,
        name: &[u8],
        client: usize,
        draw: u64,
        label: &[u8],
        handle: Digest,
        nonce: Nonce,
        chain: &ViewChain,
    ) -> Result<(), NoMemory>
        ensures begun { OnOk result (HasBegun self.old self.new name.now (Newest client draw handle nonce) label.now chain.now) }
        ensures no_memory { OnErr result (self.new ≡ self.old) }
    {
        let begun = NewestOperation::begin(self.alloc, client, draw, label, handle, nonce, chain)?;
        self.begin(name, Operation::Newest(begun))
    }

    /// Begins a read of the ledger at the height.
    pub fn begin_height(
        &mut self,
        name: &[u8],
        client: usize,
        label: &[u8],
        handle: Digest,
        height: u64,
        chain: &ViewChain,
    ) -> Result<(), NoMemory>
        requires { height < 2 ^ 32 }
        ensures begun { OnOk result (HasBegun self.old self.new name.now (Height client handle height) label.now chain.now) }
        ensures no_memory { OnErr result (self.new ≡ self.old) }
    {
        let begun = HeightOperation::begin(self.alloc, client, label, handle, height, chain)?;
        self.begin(name, Operation::Height(begun))
    }

    fn begin(&mut self, name: &[u8], operation: Operation) -> Result<(), NoMemory>
        ensures begun { OnOk result (HasMore self.old self.new name.now (begun_of operation)) }
        ensures no_memory { OnErr result (self.new ≡ self.old) }
    {
        let place = self.operations.len();
        self.operations.reserve(1)?;
        self.names.set(self.alloc, name, place)?;
        self.operations.push_reserved(operation);
        Ok(())
    }

    /// Where the operation of this name stands.
    fn place(&self, name: &[u8]) -> Option<usize>
        ensures some { IfSome result (λ place. (place < length self.now.all) × (means self.now.names name.now ≡ Some place)) }
        ensures none { IfNone result (NoneIsNamed self.now name.now) }
    {
        let place = self.names.get(name)?;
        if place < self.operations.len() {
            Some(place)
        } else {
            None
        }
    }

    /// The same, where no restart closed it.
    fn since_restart(&self, name: &[u8]) -> Option<usize>
        ensures some { IfSome result (λ place. (place < length self.now.all) × (means self.now.names name.now ≡ Some place) × (self.now.open_from ≤ place)) }
        ensures none { IfNone result (NoneIsOpen self.now name.now) }
    {
        let place = self.place(name)?;
        if self.open_from <= place {
            Some(place)
        } else {
            None
        }
    }

    /// Makes up to so many outside calls of the open operation of this name, over the coordinator's store and link: none where there is no
    /// such operation, and no more than those that bring it to its answer.
    pub fn step<S: Store, L: Link, C: Checker>(
        &mut self,
        name: &[u8],
        n: u64,
        coordinator: &mut Coordinator<S, L, C>,
    )
        ensures tasks { tasks_of self.new ≡ tasks_of self.old }
        ensures steps { StepsNamed S.view L.view coordinator.old coordinator.new (C.accepts coordinator.old.checker) self.old self.new name.now n }
    {
        let alloc = self.alloc;
        if let Some(place) = self.since_restart(name) {
            self.operations[place].step(alloc, n, coordinator);
        }
    }

    /// Runs the open operation of this name to its answer, which its client is given, and closes it: the line. `None` where there is no such
    /// operation. The coordinator's chain moves only where its client has to learn of a view.
    pub fn finish<S: Store, G: Scheme, K: RunName>(
        &mut self,
        name: &[u8],
        acts: &mut ClientActs<'_, G::Checker, K>,
        coordinator: &mut Coordinator<S, RosterBank<'_, G, K>, G::Checker>,
    ) -> Result<Option<Text>, NoMemory>
        requires { AllHave acts.old.clients (tasks_of self.old) }
        ensures tasks { tasks_of self.new ≡ tasks_of self.old }
        ensures stays { StaysOn acts.old acts.new }
        ensures checker { coordinator.new.checker ≡ coordinator.old.checker }
        ensures finished { IfOk result (λ line. MatchOption line (NoneIsOpen self.old name.now × (self.new ≡ self.old) × (acts.new ≡ acts.old) × (coordinator.new ≡ coordinator.old)) (λ line.
            HasFinished G.Checker.accepts S.view (bank_view G.Signer.key_of G.Signer.left_of G.Checker.accepts) K.accepts name.now acts.old acts.new coordinator.old coordinator.new self.old self.new line.bytes)) }
    {
        clients_stay_on::<G::Checker>();
        let alloc = self.alloc;
        match self.since_restart(name) {
            Some(place) => self.operations[place].finish(alloc, name, acts, coordinator),
            None => Ok(None),
        }
    }

    /// Asks the coordinator anew for what the operation of this name was begun for, with the same nonce or entry, and gives its client the
    /// answer: the line. It is `done NAME`, and nothing is asked, where the client has accepted a reply for its draw. `None` where no
    /// operation has the name.
    pub fn retry<S: Store, G: Scheme, K: RunName>(
        &self,
        name: &[u8],
        acts: &mut ClientActs<'_, G::Checker, K>,
        coordinator: &mut Coordinator<S, RosterBank<'_, G, K>, G::Checker>,
    ) -> Result<Option<Text>, NoMemory>
        requires { AllHave acts.old.clients (tasks_of self.now) }
        ensures stays { StaysOn acts.old acts.new }
        ensures checker { coordinator.new.checker ≡ coordinator.old.checker }
        ensures retried { IfOk result (λ line. MatchOption line (NoneIsNamed self.now name.now × (acts.new ≡ acts.old) × (coordinator.new ≡ coordinator.old)) (λ line.
            HasRetried G.Checker.accepts S.view (bank_view G.Signer.key_of G.Signer.left_of G.Checker.accepts) K.accepts name.now acts.old acts.new coordinator.old coordinator.new self.now line.bytes)) }
    {
        clients_stay_on::<G::Checker>();
        let Some(place) = self.place(name) else {
            return Ok(None);
        };
        let line = self.operations[place].retry(self.alloc, name, acts, coordinator)?;
        Ok(Some(line))
    }

    /// Gives this reply to the client of the open read of a newest row that has this name, and closes it: the line. `None` where there is no
    /// such read.
    pub fn give<S: Store, G: Scheme, K: RunName>(
        &mut self,
        name: &[u8],
        reply: LatestReply,
        acts: &mut ClientActs<'_, G::Checker, K>,
        coordinator: &mut Coordinator<S, RosterBank<'_, G, K>, G::Checker>,
    ) -> Result<Option<Text>, NoMemory>
        requires { AllHave acts.old.clients (tasks_of self.old) }
        ensures tasks { tasks_of self.new ≡ tasks_of self.old }
        ensures stays { StaysOn acts.old acts.new }
        ensures checker { coordinator.new.checker ≡ coordinator.old.checker }
        ensures given { IfOk result (λ line. MatchOption line (NoneReads self.old name.now × (self.new ≡ self.old) × (acts.new ≡ acts.old) × (coordinator.new ≡ coordinator.old)) (λ line.
            HasGiven G.Checker.accepts S.view (bank_view G.Signer.key_of G.Signer.left_of G.Checker.accepts) K.accepts name.now acts.old acts.new coordinator.old coordinator.new self.old self.new reply line.bytes)) }
    {
        clients_stay_on::<G::Checker>();
        let alloc = self.alloc;
        match self.since_restart(name) {
            Some(place) => self.operations[place].give(alloc, name, reply, acts, coordinator),
            None => Ok(None),
        }
    }

    /// Whose read of a newest row has this name and is open.
    pub fn reading(&self, name: &[u8]) -> Option<Reading>
        ensures some { IfSome result (λ reading. (place : ℕ) × (draw : ℕ) × (label : List ℕ) × (progress : Progress)
            × IsOpen self.now name.now place (record { task = Newest reading.client draw reading.handle reading.nonce; label = label; progress = progress })) }
        ensures none { IfNone result (NoneReads self.now name.now) }
    {
        match self.since_restart(name) {
            Some(place) => self.operations[place].reading(),
            None => None,
        }
    }

    /// The open operation of this name closes, with no answer for its client.
    pub fn close(&mut self, name: &[u8])
        ensures tasks { tasks_of self.new ≡ tasks_of self.old }
        ensures closed { (place : ℕ) (begun : Begun) → IsOpen self.old name.now place begun → self.new ≡ with_begun self.old place (at_progress begun Closed) }
        ensures none { NoneIsOpen self.old name.now → self.new ≡ self.old }
    {
        if let Some(place) = self.since_restart(name) {
            self.operations[place].close();
        }
    }

    /// All operations close.
    pub fn restart(&mut self)
        ensures { self.new ≡ record { all = self.old.all; names = self.old.names; open_from = length self.old.all } }
    {
        self.open_from = self.operations.len();
    }
}
