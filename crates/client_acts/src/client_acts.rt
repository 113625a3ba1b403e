ghost use Rattle.std.specs.Prelude.{◌≡◌, ◌≢◌, ◌↔◌, ◌<◌, ◌++◌, ◌∷◌, [], ℕ, List, length, slice_get, Some, None, Ok, Err, IsTrue, IfOk, IfSome, IfNone, OnOk, OnErr, option_copied, option_map, map, vec_items};
ghost use Rattle.std.specs.List.{AllByRecursion};
ghost use Rattle.std.specs.Result.{result_err};
ghost use Rattle.chain_block.specs.declared.entry.Entry.{Entry};
ghost use Rattle.chain_block.specs.Entry.{bare, nonce_of, IsWithinLimits};
ghost use Rattle.statement.specs.Statement.{view_of};
ghost use Rattle.verifier.specs.Outcomes.{append_outcome, at_outcome, latest_outcome};
ghost use Rattle.client_pass.specs.declared.take_fault.TakeFault.TheVariants.{Again};
ghost use Rattle.client_pass.specs.Answers.{IfReplyNoted};
ghost use Rattle.client_pass.specs.ClientList.{IsAnswered, IsClientList, IsForEntry, IsForRead};
ghost use Rattle.view_ledger.specs.Views.{newest_tail};
ghost use Rattle.client_pass.specs.Act.{Append, At, Draw, Latest, Look};
ghost use Rattle.client_pass.specs.ClientPass.{ClientPass as Client, Notes};
ghost use Rattle.client_acts.specs.ClientActs.{Acts, Each, IsOf, line_count};
ghost use Rattle.client_acts.specs.Taking.{Took};
ghost use Rattle.client_acts.specs.Turns.{lines_by, turn_of};

use crate::turn::Turn;
use chain_block::Entry;
use client_pass::{ClientLine, ClientPass, TakeFault};
use coordinator::Coordinator;
use nim_base::{Digest, NoMemory, Nonce};
use port::{LatestReply, Link, Standing, Store};
use reply_taking::{look, take_at, take_latest, take_own};
use roster_bank::RunName;
use run_clients::Clients;
use seal::Checker;
use stamp_clock::{Clock, Pass};
use std::alloc::Global;
use std::marker::Model;
use verifier::Verifier;
use view_ledger::ViewChain;

/// How many stamps a client gets.
const SHARE: u64 = 1 << 40;

/// The clients of a run, each with a pass of its own, and their turns. Whatever they do, each began with view 0 alone, its checker
/// accepts what the run's checkers do, and each of its lines was noted in one turn.
#[derive(Drop)]
pub struct ClientActs<'w, C: Checker, K: RunName> {
    alloc: Global,
    clock: &'w Clock<K>,
    rest: Pass<K>,
    first: ViewChain,
    clients: Clients<C, K>,
    turns: Vec<Turn>,
}

impl<'w, C: Checker, K: RunName> Model for ClientActs<'w, C, K> {
    ghost use Rattle.std.specs.Prelude.{map};
    ghost use Rattle.client_acts.specs.ClientActs.{ClientActs, AreNoted};

    ghost Value = { ClientActs C };

    ghost view = { λ acts. record { first = acts.first; names = map (λ client. client.name) acts.clients; clients = map (λ client. client.pass) acts.clients; turns = acts.turns.items } };

    ghost invariant = { λ acts. AreNoted C.accepts acts.first K.accepts (map (λ client. client.pass) acts.clients) acts.turns.items };
}

impl<'w, C: Checker, K: RunName> ClientActs<'w, C, K> {
    /// No clients yet. Those to come get their stamps of the pass, and begin with this chain.
    pub fn new(
        alloc: Global,
        clock: &'w Clock<K>,
        rest: Pass<K>,
        first: ViewChain,
    ) -> ClientActs<'w, C, K>
        ensures { result ≡ record { first = first; names = []; clients = []; turns = [] } }
    {
        ClientActs {
            alloc,
            clock,
            rest,
            first,
            clients: Clients::new(alloc),
            turns: Vec::new(alloc),
        }
    }

    /// The chain that has view 0 alone.
    pub fn first(&self) -> &ViewChain
        ensures { result.now ≡ self.now.first }
    {
        &self.first
    }

    /// How many clients there are.
    pub fn count(&self) -> usize
        ensures count { result ≡ length self.now.clients }
        ensures each { Each (IsOf C.accepts self.now.first K.accepts) self.now.clients }
    {
        self.clients.count()
    }

    /// The place of the client with this name.
    pub fn place(&self, name: &[u8]) -> Option<usize>
        ensures some { IfSome result (λ place. slice_get self.now.names place ≡ Some name.now) }
        ensures some_client { IfSome result (λ place. place < length self.now.clients) }
        ensures none { result ≡ None → (place : ℕ) → slice_get self.now.names place ≢ Some name.now }
    {
        self.clients.place(name)
    }

    /// A client more, which did nothing yet and knows view 0 alone: its place. It gets 2^40 stamps; that there aren't so many left is want
    /// of memory.
    pub fn add(&mut self, name: &[u8], checker: C) -> Result<usize, NoMemory>
        requires accepts { C.accepts checker ≡ K.accepts }
        requires new { (place : ℕ) → slice_get self.old.names place ≢ Some name.now }
        ensures place { IfOk result (λ place. place ≡ length self.old.clients) }
        ensures names { OnOk result (self.new.names ≡ self.old.names ++ name.now ∷ []) }
        ensures client { OnOk result ((client : Client C) × (client.checker ≡ checker) × (client.chain ≡ self.old.first) × (self.new.clients ≡ self.old.clients ++ client ∷ []) × (client.lines ≡ [])) }
        ensures first { self.new.first ≡ self.old.first }
        ensures turns { self.new.turns ≡ self.old.turns }
        ensures no_memory { OnErr result (self.new ≡ self.old) }
    {
        let place = self.clients.count();
        if place > u32::MAX as usize {
            return Err(NoMemory);
        }
        let first = self.first.copy(self.alloc)?;
        let pass = share_of(self.clock, &mut self.rest)?;
        let pass = ClientPass::new(
            self.alloc,
            place as u32,
            Verifier::new(first, checker),
            pass,
        );
        self.clients.add(self.alloc, name, pass)?;
        Ok(place)
    }

    /// The client at this place draws a nonce, after so many calls of endorsers, for an append of the entry where one is given and else for
    /// a latest read. The answer is the draw's number.
    pub fn draw(
        &mut self,
        place: usize,
        calls: usize,
        nonce: &Nonce,
        intent: Option<&Entry>,
    ) -> Result<u64, NoMemory>
        requires place { place < length self.old.clients }
        requires own_nonce { IfSome (option_copied intent) (λ entry. nonce_of entry ≡ nonce.now) }
        requires within { IfSome (option_copied intent) IsWithinLimits }
        ensures acts { OnOk result ((from : Client C) × (to : Client C) × Acts self.old self.new place from to × (to.chain ≡ from.chain) × Notes from to (Draw nonce.now (option_map bare (option_copied intent.entry)))) }
        ensures turn { OnOk result (self.new.turns ≡ self.old.turns ++ turn_of place calls 1 ∷ []) }
        ensures for_entry { IfOk result (λ number. IfSome (option_copied intent.entry) (λ entry. (pass : Client C) × (slice_get self.new.clients place ≡ Some pass) × IsForEntry pass.lines number (bare entry) × (IsAnswered pass.lines number → ⊥))) }
        ensures for_read { IfOk result (λ number. IfNone (option_copied intent.entry) ((pass : Client C) × (slice_get self.new.clients place ≡ Some pass) × IsForRead pass.lines number nonce.now × (IsAnswered pass.lines number → ⊥))) }
        ensures no_memory { OnErr result (self.new ≡ self.old) }
    {
        self.turns.reserve(1)?;
        if self.clients.pass(place).left() == 0 {
            return Err(NoMemory);
        }
        let pass = self.clients.pass_mut(place);
        let number = pass.draw(self.alloc, self.clock, nonce, intent)?;
        self.turns.push_reserved(Turn {
            client: place,
            calls,
            lines: 1,
        });
        Ok(number)
    }

    /// The tail of the newest view that the client at this place knows.
    pub fn newest_view(&self, place: usize) -> Digest
        requires place { place < length self.now.clients }
        ensures { (pass : Client C) → slice_get self.now.clients place ≡ Some pass → result ≡ newest_tail pass.chain.configs }
    {
        let chain = self.clients.pass(place).chain();
        match chain.tail(chain.number()) {
            Some(tail) => tail,
            None => unreachable!(),
        }
    }

    /// Whether the draw of this number of the client at this place has an accepted reply.
    pub fn is_answered(&self, place: usize, draw: u64) -> bool
        requires place { place < length self.now.clients }
        ensures { (pass : Client C) → slice_get self.now.clients place ≡ Some pass → IsTrue result ↔ IsAnswered pass.lines draw }
    {
        self.clients.pass(place).is_answered(draw)
    }

    /// The client at this place takes the reply to an append of the entry for which this draw was, or to a new ledger of it, after so many
    /// calls of endorsers.
    pub fn take_own<S: Store, L: Link>(
        &mut self,
        place: usize,
        calls: usize,
        coordinator: &mut Coordinator<S, L, C>,
        draw: u64,
        reply: &Standing,
    ) -> Result<(), TakeFault>
        requires own_draw { (pass : Client C) × (slice_get self.old.clients place ≡ Some pass) × ((entry : Entry) × IsForEntry pass.lines draw entry) }
        ensures { Took C.accepts S.view L.view self.old self.new coordinator.old coordinator.new place calls (view_of reply.now.receipt.statement) result (Append draw reply.now) (λ from to.
            ((entry : Entry) → IsForEntry from.lines draw entry → IfReplyNoted result (λ fault. fault ≡ append_outcome K.accepts to.chain.configs entry reply.now))
            × (result ≡ Err Again → IsAnswered from.lines draw)) }
    {
        self.turns.reserve(1)?;
        let pass = self.clients.pass_mut(place);
        let before = pass.lines().len();
        let taken = take_own(self.alloc, self.clock, coordinator, pass, draw, reply);
        let lines = pass.lines().len() - before;
        self.turns.push_reserved(Turn {
            client: place,
            calls,
            lines,
        });
        taken
    }

    /// The same for the reply to a latest read with the nonce of this draw: the ledger's count.
    pub fn take_latest<S: Store, L: Link>(
        &mut self,
        place: usize,
        calls: usize,
        coordinator: &mut Coordinator<S, L, C>,
        draw: u64,
        handle: &Digest,
        reply: &LatestReply,
    ) -> Result<u64, TakeFault>
        requires own_draw { (pass : Client C) × (slice_get self.old.clients place ≡ Some pass) × ((nonce : List ℕ) × IsForRead pass.lines draw nonce) }
        ensures { Took C.accepts S.view L.view self.old self.new coordinator.old coordinator.new place calls (view_of reply.now.receipt.statement) result (Latest draw handle.now reply.now) (λ from to.
            ((nonce : List ℕ) → IsForRead from.lines draw nonce → IfReplyNoted result (λ fault. fault ≡ result_err (latest_outcome K.accepts to.chain.configs handle.now nonce reply.now)))
            × ((nonce : List ℕ) → IsForRead from.lines draw nonce → IfOk result (λ count. latest_outcome K.accepts to.chain.configs handle.now nonce reply.now ≡ Ok count))
            × (result ≡ Err Again → IsAnswered from.lines draw)) }
    {
        self.turns.reserve(1)?;
        let pass = self.clients.pass_mut(place);
        let before = pass.lines().len();
        let taken = take_latest(
            self.alloc,
            self.clock,
            coordinator,
            pass,
            draw,
            handle,
            reply,
        );
        let lines = pass.lines().len() - before;
        self.turns.push_reserved(Turn {
            client: place,
            calls,
            lines,
        });
        taken
    }

    /// The same for the reply to a read of the ledger at the height.
    pub fn take_at<S: Store, L: Link>(
        &mut self,
        place: usize,
        calls: usize,
        coordinator: &mut Coordinator<S, L, C>,
        handle: &Digest,
        height: u64,
        reply: &Standing,
    ) -> Result<(), TakeFault>
        requires place { place < length self.old.clients }
        ensures { Took C.accepts S.view L.view self.old self.new coordinator.old coordinator.new place calls (view_of reply.now.receipt.statement) result (At handle.now height reply.now) (λ from to.
            IfReplyNoted result (λ fault. fault ≡ at_outcome K.accepts to.chain.configs handle.now height reply.now)
            × (result ≢ Err Again)) }
    {
        self.turns.reserve(1)?;
        let pass = self.clients.pass_mut(place);
        let before = pass.lines().len();
        let taken = take_at(
            self.alloc,
            self.clock,
            coordinator,
            pass,
            handle,
            height,
            reply,
        );
        let lines = pass.lines().len() - before;
        self.turns.push_reserved(Turn {
            client: place,
            calls,
            lines,
        });
        taken
    }

    /// The same for what is said to stand there, where the client's own entry was to stand.
    pub fn look<S: Store, L: Link>(
        &mut self,
        place: usize,
        calls: usize,
        coordinator: &mut Coordinator<S, L, C>,
        handle: &Digest,
        height: u64,
        reply: &Standing,
    ) -> Result<(), TakeFault>
        requires place { place < length self.old.clients }
        ensures { Took C.accepts S.view L.view self.old self.new coordinator.old coordinator.new place calls (view_of reply.now.receipt.statement) result (Look handle.now height reply.now) (λ from to.
            IfReplyNoted result (λ fault. fault ≡ at_outcome K.accepts to.chain.configs handle.now height reply.now)
            × (result ≢ Err Again)) }
    {
        self.turns.reserve(1)?;
        let pass = self.clients.pass_mut(place);
        let before = pass.lines().len();
        let taken = look(
            self.alloc,
            self.clock,
            coordinator,
            pass,
            handle,
            height,
            reply,
        );
        let lines = pass.lines().len() - before;
        self.turns.push_reserved(Turn {
            client: place,
            calls,
            lines,
        });
        taken
    }

    /// Who acted when, the oldest first.
    pub fn turns(&self) -> &[Turn]
        ensures turns { result.now ≡ self.now.turns }
        ensures counted { (place : ℕ) → lines_by place self.now.turns ≡ line_count self.now.clients place }
    {
        &self.turns
    }

    /// The lines of each client, in the order in which they came.
    pub fn into_lines(self) -> Result<Vec<Vec<ClientLine>>, NoMemory>
        ensures lines { IfOk result (λ lists. map vec_items lists.items ≡ map (λ client. client.lines) self.entry.clients) }
        ensures client { IfOk result (λ lists. AllByRecursion (IsClientList K.accepts self.entry.first) (map vec_items lists.items)) }
    {
        let ClientActs {
            alloc,
            clock: _,
            rest: _,
            first: _,
            clients,
            turns: _,
        } = self;
        clients.into_lines(alloc)
    }
}

/// A pass of its own with the share of a client.
fn share_of<K: RunName>(clock: &Clock<K>, rest: &mut Pass<K>) -> Result<Pass<K>, NoMemory>
    ensures { IfOk result (λ pass. pass.drawn ≡ []) }
{
    if rest.left() < SHARE {
        return Err(NoMemory);
    }
    clock.split(rest, SHARE)
}
