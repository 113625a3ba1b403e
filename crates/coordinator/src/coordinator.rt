ghost use Rattle.std.specs.Prelude.{◌≡◌, ◌≤◌, ◌<◌, ◌^◌, length, IsSome, OnOk, OnErr};
ghost use Rattle.std.specs.Borrow.{Lends, sem};
ghost use Rattle.port.specs.Count.{next};
ghost use Rattle.port.specs.Service.{NewLedger, Append, Latest, At, Views, stood, replied, knew};
ghost use Rattle.op_reconf.specs.State.{answer_of};
ghost use Rattle.coordinator.specs.State.{chain_in};

use crate::entries::{append, make, read_at};
use crate::first::set_up;
use crate::latest::read_latest;
use crate::views::views_from;
use chain_block::Entry;
use nim_base::{Digest, Nonce, Text};
use port::{LatestReply, Link, Refusal, Service, Standing, Store, ViewRow};
use seal::Checker;
use std::alloc::Global;
use std::marker::Model;
use view_ledger::ViewChain;

/// A service over a store and the links to its endorsers. Each call first refreshes the chain of views from the store.
///
/// A call that is refused keeps the refreshed chain, and changes nothing else of the coordinator but the count of refusals. What it left
/// in the store and with the endorsers stays.
#[derive(Drop)]
pub struct Coordinator<S: Store, L: Link, C: Checker> {
    alloc: Global,
    chain: Option<ViewChain>,
    pub(crate) store: S,
    pub(crate) link: L,
    pub(crate) checker: C,
    refused: u64,
}

impl<S: Store, L: Link, C: Checker> Model for Coordinator<S, L, C> {
    ghost use Rattle.std.specs.Prelude.{IsSome};
    ghost use Rattle.coordinator.specs.State.{State, chain_in};

    ghost Value = { State S L C };

    ghost view = { λ own. record { chain = chain_in own.chain; store = own.store; link = own.link; checker = own.checker; refused = own.refused } };

    ghost invariant = { λ own. IsSome own.chain };
}

impl<S: Store, L: Link, C: Checker> Coordinator<S, L, C> {
    ghost use Rattle.coordinator.specs.Says.{coordinator_says};
    ghost use Rattle.coordinator.specs.First.{SaysOfFirst};
    ghost use Rattle.coordinator.specs.contracts.coordinator.Coordinator.{the_row};

    /// A coordinator that has refused no call. A restart is a new one over a chain that has only view 0. It takes no memory.
    pub fn new(
        alloc: Global,
        chain: ViewChain,
        store: S,
        link: L,
        checker: C,
    ) -> Coordinator<S, L, C>
        ensures { result ≡ record { chain = chain; store = store; link = link; checker = checker; refused = 0 } }
    {
        Coordinator {
            alloc,
            chain: Some(chain),
            store,
            link,
            checker,
            refused: 0,
        }
    }

    /// Restarts: it is what a new one over this chain, its store, its link and its checker would be.
    pub fn restart(&mut self, first: ViewChain)
        ensures { self.new ≡ record self.old { chain = first; refused = 0 } }
    {
        self.chain = Some(first);
        self.refused = 0;
    }

    /// Sets up view 0, which its chain has, with no refresh. Its refusals aren't counted.
    pub fn genesis(&mut self) -> Result<ViewRow, Refusal>
        ensures { SaysOfFirst C.accepts S.view L.view self.old self.new (answer_of result) }
    {
        let alloc = self.alloc;
        let chain = taken(&mut self.chain);
        let ended = set_up(alloc, chain, &mut self.store, &mut self.link, &self.checker);
        self.chain = Some(ended.chain);
        ended.answer
    }

    /// Its link.
    pub fn link(&self) -> &L
        ensures { result.now ≡ self.now.link }
    {
        &self.link
    }

    /// Its store.
    pub fn store(&self) -> &S
        ensures { result.now ≡ self.now.store }
    {
        &self.store
    }

    /// Its chain of views, as far as its last call refreshed it.
    pub fn chain(&self) -> &ViewChain
        ensures { result.now ≡ self.now.chain }
    {
        match &self.chain {
            Some(chain) => chain,
            None => unreachable!(),
        }
    }

    /// Its link, for calls that are none of the coordinator's.
    pub fn link_mut(&mut self) -> &mut L
        ensures value { result.now ≡ self.old.link }
        ensures* writes_back { sem 𝓛 (Lends (the_row S.row L.row C.row S.Store L.Link C.Checker) L.row self.entry result (λ link. record self.old { link = link })) }
    {
        &mut self.link
    }

    /// Its store, for what others do with it.
    pub fn store_mut(&mut self) -> &mut S
        ensures value { result.now ≡ self.old.store }
        ensures* writes_back { sem 𝓛 (Lends (the_row S.row L.row C.row S.Store L.Link C.Checker) S.row self.entry result (λ store. record self.old { store = store })) }
    {
        &mut self.store
    }

    /// What it holds.
    pub fn into_parts(self) -> (ViewChain, S, L, C)
        ensures { result ≡ (self.chain, self.store, self.link, self.checker) }
    {
        let Coordinator {
            chain,
            store,
            link,
            checker,
            ..
        } = self;
        match chain {
            Some(chain) => (chain, store, link, checker),
            None => unreachable!(),
        }
    }

    fn ask_new(&mut self, alloc: Global, nonce: &Nonce, payload: &[u8]) -> Result<Standing, Refusal>
        requires { length payload.now ≤ 65536 }
        ensures says { coordinator_says C.accepts S.view L.view self.old self.new (NewLedger nonce.now payload.now) (stood result) }
        ensures refused { self.new.refused ≡ self.old.refused }
    {
        let Ok(payload) = Text::of(alloc, payload) else {
            return Err(Refusal::NoMemory);
        };
        let entry = Entry::Genesis {
            nonce: *nonce,
            payload,
        };
        let chain = taken(&mut self.chain);
        let ended = make(
            alloc,
            chain,
            entry,
            &mut self.store,
            &mut self.link,
            &self.checker,
        );
        self.chain = Some(ended.chain);
        ended.answer
    }

    fn ask_append(
        &mut self,
        alloc: Global,
        handle: &Digest,
        height: u64,
        nonce: &Nonce,
        payload: &[u8],
    ) -> Result<Standing, Refusal>
        requires from { 1 ≤ height }
        requires below { height < 2 ^ 32 }
        requires payload { length payload.now ≤ 65536 }
        ensures says { coordinator_says C.accepts S.view L.view self.old self.new (Append handle.now height nonce.now payload.now) (stood result) }
        ensures refused { self.new.refused ≡ self.old.refused }
    {
        let Ok(payload) = Text::of(alloc, payload) else {
            return Err(Refusal::NoMemory);
        };
        let entry = Entry::Later {
            handle: *handle,
            height,
            nonce: *nonce,
            payload,
        };
        let chain = taken(&mut self.chain);
        let ended = append(
            alloc,
            chain,
            entry,
            &mut self.store,
            &mut self.link,
            &self.checker,
        );
        self.chain = Some(ended.chain);
        ended.answer
    }

    fn ask_latest(
        &mut self,
        alloc: Global,
        handle: &Digest,
        nonce: &Nonce,
    ) -> Result<LatestReply, Refusal>
        ensures says { coordinator_says C.accepts S.view L.view self.old self.new (Latest handle.now nonce.now) (replied result) }
        ensures refused { self.new.refused ≡ self.old.refused }
    {
        let chain = taken(&mut self.chain);
        let ended = read_latest(
            alloc,
            chain,
            *handle,
            *nonce,
            &mut self.store,
            &mut self.link,
            &self.checker,
        );
        self.chain = Some(ended.chain);
        ended.answer
    }

    fn ask_at(&mut self, alloc: Global, handle: &Digest, height: u64) -> Result<Standing, Refusal>
        requires { height < 2 ^ 32 }
        ensures says { coordinator_says C.accepts S.view L.view self.old self.new (At handle.now height) (stood result) }
        ensures refused { self.new.refused ≡ self.old.refused }
    {
        let chain = taken(&mut self.chain);
        let ended = read_at(
            alloc,
            chain,
            *handle,
            height,
            &mut self.store,
            &mut self.link,
            &self.checker,
        );
        self.chain = Some(ended.chain);
        ended.answer
    }

    fn ask_views(&mut self, alloc: Global, from: u64) -> Result<Vec<ViewRow>, Refusal>
        ensures says { coordinator_says C.accepts S.view L.view self.old self.new (Views from) (knew result) }
        ensures refused { self.new.refused ≡ self.old.refused }
    {
        let chain = taken(&mut self.chain);
        let ended = views_from(alloc, chain, from, &mut self.store, &self.checker);
        self.chain = Some(ended.chain);
        ended.answer
    }
}

// The chain, which is lent out for a call.
fn taken(chain: &mut Option<ViewChain>) -> ViewChain
    requires { IsSome chain.old }
    ensures { result ≡ chain_in chain.old }
{
    match chain.take() {
        Some(chain) => chain,
        None => unreachable!(),
    }
}

// One refusal more, where there is one.
fn count<A>(refused: u64, answer: &Result<A, Refusal>) -> u64
    ensures ok { OnOk answer.now (result ≡ refused) }
    ensures err { OnErr answer.now (result ≡ next refused) }
{
    match answer {
        Ok(_) => refused,
        Err(_) => refused.saturating_add(1),
    }
}

impl<S: Store, L: Link, C: Checker> Service for Coordinator<S, L, C> {
    ghost use Rattle.coordinator.specs.State.{service_view};
    ghost use Rattle.coordinator.specs.Says.{coordinator_says};

    ghost view = { service_view };

    ghost says = { coordinator_says C.accepts S.view L.view };

    fn new_ledger(
        &mut self,
        alloc: Global,
        nonce: &Nonce,
        payload: &[u8],
    ) -> Result<Standing, Refusal> {
        let answer = self.ask_new(alloc, nonce, payload);
        self.refused = count(self.refused, &answer);
        answer
    }

    fn append(
        &mut self,
        alloc: Global,
        handle: &Digest,
        height: u64,
        nonce: &Nonce,
        payload: &[u8],
    ) -> Result<Standing, Refusal> {
        let answer = self.ask_append(alloc, handle, height, nonce, payload);
        self.refused = count(self.refused, &answer);
        answer
    }

    fn latest(
        &mut self,
        alloc: Global,
        handle: &Digest,
        nonce: &Nonce,
    ) -> Result<LatestReply, Refusal> {
        let answer = self.ask_latest(alloc, handle, nonce);
        self.refused = count(self.refused, &answer);
        answer
    }

    fn at(&mut self, alloc: Global, handle: &Digest, height: u64) -> Result<Standing, Refusal> {
        let answer = self.ask_at(alloc, handle, height);
        self.refused = count(self.refused, &answer);
        answer
    }

    fn views(&mut self, alloc: Global, from: u64) -> Result<Vec<ViewRow>, Refusal> {
        let answer = self.ask_views(alloc, from);
        self.refused = count(self.refused, &answer);
        answer
    }

    fn refused(&self) -> u64 {
        self.refused
    }
}
