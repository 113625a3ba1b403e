ghost use Rattle.std.specs.Prelude.{◌≡◌, ◌≢◌, ◌<◌, ℕ, [], length, slice_get, Some, IfOk, IfSome, IfNone, OnOk};
ghost use Rattle.op_reconf.specs.State.{answer_of};
ghost use Rattle.coordinator.specs.First.{SaysOfFirst};
ghost use Rattle.blob_store.specs.LyingStore.{lying_view};
ghost use Rattle.script_world.specs.Carried.{CameAs};
ghost use Rattle.script_world.specs.Lines.{Restarted};
ghost use Rattle.script_world.specs.Running.{acts_of, world_of};

use blob_store::LyingStore;
use client_acts::ClientActs;
use coordinator::Coordinator;
use name_map::NameMap;
use nim_base::{Digest, NoMemory};
use port::{Refusal, ViewRow};
use roster_bank::{RosterBank, RunName};
use script_operations::{Operations, operations_keep_draws};
use seal::{Checker, Scheme, Signer};
use stamp_clock::{Clock, Pass};
use std::alloc::Global;
use std::marker::Model;
use view_ledger::ViewChain;

/// What a run of a script has come to. Each operation that was begun is of a client, and of a draw of that client where it draws.
///
/// Its calls are those of a script's lines. Each that takes the place of a client wants one that is below the number of clients.
pub struct World<'w, G: Scheme, K: RunName> {
    pub(crate) alloc: Global,
    pub(crate) coordinator: Coordinator<LyingStore, RosterBank<'w, G, K>, G::Checker>,
    pub(crate) acts: ClientActs<'w, G::Checker, K>,
    pub(crate) labels: NameMap<Digest>,
    pub(crate) operations: Operations,
    pub(crate) draws: u64,
}

impl<'w, G: Scheme, K: RunName> Model for World<'w, G, K> {
    ghost use Rattle.std.specs.Coded.{codes};
    ghost use Rattle.blob_store.specs.contracts.lying_store.LyingStore as store;
    ghost use Rattle.endorser_cell.specs.CellBank.{CellBank};
    ghost use Rattle.script_world.specs.Running.{IsKept, Running};

    ghost Value = { Running (CellBank G.Signer G.Checker) G.Checker };

    ghost coded = { Prim.hlevel (codes, store.the_row.coded) };

    ghost view = { λ world. record { state = world.coordinator; first = world.acts.first; names = world.acts.names; clients = world.acts.clients; turns = world.acts.turns; operations = world.operations; ledgers = world.labels; draws = world.draws } };

    ghost invariant = { λ world. IsKept world.acts world.operations };
}

impl<'w, G: Scheme, K: RunName> Drop for World<'w, G, K> {
    fn drop(self) {
        let World {
            alloc: _,
            coordinator: _,
            acts: _,
            labels: _,
            operations: _,
            draws: _,
        } = self;
    }
}

impl<'w, G: Scheme, K: RunName> World<'w, G, K> {
    ghost use Rattle.endorser_cell.specs.CellBank.{bank_view};

    /// A run before its first line: no clients, no ledgers of labels, no operations. Clients to come begin with this chain, which has view
    /// 0 alone, and get their stamps of the pass. It takes no memory.
    pub fn new(
        alloc: Global,
        clock: &'w Clock<K>,
        pass: Pass<K>,
        first: ViewChain,
        coordinator: Coordinator<LyingStore, RosterBank<'w, G, K>, G::Checker>,
    ) -> World<'w, G, K>
        ensures { result ≡ record { state = coordinator.entry; first = first; names = []; clients = []; turns = []; operations = record { all = []; names = []; open_from = 0 }; ledgers = []; draws = 0 } }
    {
        World {
            alloc,
            coordinator,
            acts: ClientActs::new(alloc, clock, pass, first),
            labels: NameMap::new(alloc),
            operations: Operations::new(alloc),
            draws: 0,
        }
    }

    /// Sets up view 0.
    pub fn genesis(&mut self) -> Result<ViewRow, Refusal>
        ensures says { SaysOfFirst G.Checker.accepts lying_view (bank_view G.Signer.key_of G.Signer.left_of G.Checker.accepts) self.old.state self.new.state (answer_of result) }
        ensures rest { self.new ≡ record self.old { state = self.new.state } }
    {
        self.coordinator.genesis()
    }

    /// The place of the client with this name, by the order in which the clients came.
    pub fn client(&self, name: &[u8]) -> Option<usize>
        ensures some { IfSome result (λ place. (place < length self.now.clients) × (slice_get self.now.names place ≡ Some name.now)) }
        ensures none { IfNone result ((place : ℕ) → slice_get self.now.names place ≢ Some name.now) }
    {
        self.acts.place(name)
    }

    /// The place of the client with this name. Where there is none it comes now, did nothing yet and knows view 0 alone.
    pub fn add_client(&mut self, name: &[u8], checker: G::Checker) -> Result<usize, NoMemory>
        requires { G.Checker.accepts checker ≡ K.accepts }
        ensures { IfOk result (λ place. CameAs G.Checker.accepts K.accepts self.old self.new name.now place) }
    {
        operations_keep_draws::<G::Checker>();
        match self.acts.place(name) {
            Some(place) => Ok(place),
            None => {
                let place = self.acts.add(name, checker)?;
                Ok(place)
            }
        }
    }

    /// `restart`: the coordinator is a new one over view 0 alone, and all operations close.
    pub fn restart(&mut self) -> Result<(), NoMemory>
        ensures restarted { OnOk result (Restarted (world_of self.old) (world_of self.new)) }
        ensures closed { OnOk result (self.new.operations ≡ record { all = self.old.operations.all; names = self.old.operations.names; open_from = length self.old.operations.all }) }
        ensures names { self.new.names ≡ self.old.names }
        ensures turns { self.new.turns ≡ self.old.turns }
    {
        let first = self.acts.first().copy(self.alloc)?;
        self.coordinator.restart(first);
        self.operations.restart();
        Ok(())
    }

    /// The clients, and the coordinator with its store and its endorsers.
    pub fn into_parts(
        self,
    ) -> (
        ClientActs<'w, G::Checker, K>,
        Coordinator<LyingStore, RosterBank<'w, G, K>, G::Checker>,
    )
        ensures acts { result.0 ≡ acts_of self.entry }
        ensures state { result.1 ≡ self.entry.state }
    {
        let World {
            alloc: _,
            coordinator,
            acts,
            labels: _,
            operations: _,
            draws: _,
        } = self;
        (acts, coordinator)
    }
}
