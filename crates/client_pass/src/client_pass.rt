ghost use Rattle.std.specs.Prelude.{◌≡◌, ◌≢◌, ◌↔◌, ◌-◌, ◌<◌, [], ℕ, List, length, Ok, Err, IsTrue, IfOk, IfSome, IfNone, OnOk, OnErr, option_map, option_copied};
ghost use Rattle.std.specs.List.Sorted.{IsStrictlyIncreasing};
ghost use Rattle.std.specs.Result.{result_err};
ghost use Rattle.chain_block.specs.declared.entry.Entry.{Entry};
ghost use Rattle.chain_block.specs.Entry.{bare, nonce_of, IsWithinLimits};
ghost use Rattle.stamp_clock.specs.Stamps.{stamps, times};
ghost use Rattle.view_ledger.specs.Extension.{extend_outcome};
ghost use Rattle.verifier.specs.Outcomes.{append_outcome, at_outcome, latest_outcome};
ghost use Rattle.client_pass.specs.declared.take_fault.TakeFault.TheVariants.{Again};
ghost use Rattle.client_pass.specs.Act.{act_of, Draw, Append, Latest, At, Look, View, IsWithin};
ghost use Rattle.client_pass.specs.ClientList.{IsForEntry, IsForRead, IsAnswered, IsClientList, IsDone, answered, chain_after, answered_by, chain_of, stamps_of};
ghost use Rattle.client_pass.specs.Answers.{IfReplyNoted, IfViewNoted, IfNotNoted};
ghost use Rattle.client_pass.specs.ClientPass.{Notes};

use crate::answer::{answer_by, view_answer_by};
use crate::checks::{append_fault, at_fault, copied, latest_count, view_fault};
use crate::client_act::ClientAct;
use crate::client_line::ClientLine;
use crate::lines::Lines;
use crate::take_fault::TakeFault;
use chain_block::Entry;
use nim_base::{Digest, NoMemory, Nonce};
use port::{LatestReply, Standing, ViewRow};
use seal::Checker;
use stamp_clock::{Clock, ClockName, Pass};
use std::alloc::Global;
use std::marker::Model;
use verifier::Verifier;
use view_ledger::ViewChain;

/// A client's verifier, the lines of what it did from the first on, and the pass that draws the stamps of
/// these lines.
///
/// Whatever is done with it, each line has the outcome of the verifier's check on the chain so far, an
/// accepted view extends the chain, no draw has two accepted replies, and the lines' stamps are those that
/// the pass drew, in order. Each call that draws or checks is one line with one stamp, also where the check
/// refuses; but at `Again` and at want of memory there is neither. All memory is taken before the stamp.
#[derive(Drop)]
pub struct ClientPass<C: Checker, K: ClockName> {
    client: u32,
    began: u64,
    verifier: Verifier<C>,
    lines: Lines,
    pass: Pass<K>,
}

impl<C: Checker, K: ClockName> Model for ClientPass<C, K> {
    ghost use Rattle.std.specs.Prelude.{◌≡◌, ◌<◌, length};
    ghost use Rattle.std.specs.List.Sorted.{IsStrictlyIncreasing};
    ghost use Rattle.client_pass.specs.ClientList.{IsClientList, chain_of, stamps_of};
    ghost use Rattle.client_pass.specs.ClientPass.{ClientPass, up_to};

    ghost Value = { ClientPass C };

    ghost view = { λ own. record { client = own.client; checker = own.verifier.checker; first = up_to own.began own.verifier.chain; chain = own.verifier.chain; lines = own.lines.lines; left = own.pass.left } };

    ghost invariant = { λ own. IsClientList (C.accepts own.verifier.checker) (up_to own.began own.verifier.chain) own.lines.lines
        × (chain_of (up_to own.began own.verifier.chain) own.lines.lines ≡ own.verifier.chain)
        × (own.began < length own.verifier.chain.configs)
        × (stamps_of own.lines.lines ≡ own.pass.drawn)
        × IsStrictlyIncreasing own.pass.drawn };
}

impl<C: Checker, K: ClockName> ClientPass<C, K> {
    /// The pass of a client that did nothing yet. It takes no memory.
    pub fn new(alloc: Global, client: u32, verifier: Verifier<C>, pass: Pass<K>) -> ClientPass<C, K>
        requires undrawn { pass.drawn ≡ [] }
        ensures { result ≡ record { client = client; checker = verifier.checker; first = verifier.chain; chain = verifier.chain; lines = []; left = pass.left } }
    {
        ClientPass {
            client,
            began: verifier.chain().number(),
            verifier,
            lines: Lines::new(alloc),
            pass,
        }
    }

    /// Draws a nonce, for an append of the entry where one is given, and else for a latest read. The answer
    /// is the draw's number: the place of its line, from 0.
    pub fn draw(
        &mut self,
        alloc: Global,
        clock: &Clock<K>,
        nonce: &Nonce,
        intent: Option<&Entry>,
    ) -> Result<u64, NoMemory>
        requires left { 0 < self.old.left }
        requires own_nonce { IfSome (option_copied intent) (λ entry. nonce_of entry ≡ nonce.now) }
        requires within { IfSome (option_copied intent) IsWithinLimits }
        ensures number { IfOk result (λ number. number ≡ length self.old.lines) }
        ensures noted { OnOk result (Notes self.old self.new (Draw nonce.now (option_map bare (option_copied intent.entry)))) }
        ensures no_memory { OnErr result (self.new ≡ self.old) }

        // What the number is good for.
        ensures for_entry { IfOk result (λ number. IfSome (option_copied intent.entry) (λ entry. IsForEntry self.new.lines number (bare entry))) }
        ensures for_read { IfOk result (λ number. IfNone (option_copied intent.entry) (IsForRead self.new.lines number nonce.now)) }
        ensures open { IfOk result (λ number. IsAnswered self.new.lines number → ⊥) }
    {
        let number = self.lines.next();
        let intent = copied(alloc, intent)?;
        self.note(
            clock,
            ClientAct::Draw {
                nonce: *nonce,
                intent,
            },
        )?;
        Ok(number)
    }

    /// Takes the reply to an append of the entry for which this draw was, or to a new ledger of it, as the
    /// verifier checks it.
    pub fn take_append(
        &mut self,
        alloc: Global,
        clock: &Clock<K>,
        draw: u64,
        reply: &Standing,
    ) -> Result<(), TakeFault>
        requires left { 0 < self.old.left }
        requires own_draw { (entry : Entry) × IsForEntry self.old.lines draw entry }
        ensures outcome { (entry : Entry) → IsForEntry self.old.lines draw entry
            → IfReplyNoted result (λ fault. fault ≡ append_outcome (C.accepts self.old.checker) self.old.chain.configs entry reply.now) }
        ensures noted { IfReplyNoted result (λ fault. Notes self.old self.new (Append draw reply.now fault)) }
        ensures again { (result ≡ Err Again) ↔ IsAnswered self.old.lines draw }
        ensures same { IfNotNoted result (self.new ≡ self.old) }
    {
        if self.lines.is_answered(draw) {
            return Err(TakeFault::Again);
        }
        let fault = append_fault(&self.verifier, self.lines.as_slice(), draw, reply);
        let reply = reply.copy(alloc)?;
        self.note(clock, ClientAct::Append { draw, reply, fault })?;
        answer_by(fault)
    }

    /// Takes the reply to a latest read of a ledger with the nonce of this draw, as the verifier checks it,
    /// and gives the ledger's count.
    pub fn take_latest(
        &mut self,
        alloc: Global,
        clock: &Clock<K>,
        draw: u64,
        handle: &Digest,
        reply: &LatestReply,
    ) -> Result<u64, TakeFault>
        requires left { 0 < self.old.left }
        requires own_draw { (nonce : List ℕ) × IsForRead self.old.lines draw nonce }
        ensures outcome { (nonce : List ℕ) → IsForRead self.old.lines draw nonce
            → IfReplyNoted result (λ fault. fault ≡ result_err (latest_outcome (C.accepts self.old.checker) self.old.chain.configs handle.now nonce reply.now)) }
        ensures count { (nonce : List ℕ) → IsForRead self.old.lines draw nonce
            → IfOk result (λ count. latest_outcome (C.accepts self.old.checker) self.old.chain.configs handle.now nonce reply.now ≡ Ok count) }
        ensures noted { IfReplyNoted result (λ fault. Notes self.old self.new (Latest draw handle.now reply.now fault)) }
        ensures again { (result ≡ Err Again) ↔ IsAnswered self.old.lines draw }
        ensures same { IfNotNoted result (self.new ≡ self.old) }
    {
        if self.lines.is_answered(draw) {
            return Err(TakeFault::Again);
        }
        let checked = latest_count(&self.verifier, self.lines.as_slice(), draw, handle, reply);
        let reply = reply.copy(alloc)?;
        self.note(
            clock,
            ClientAct::Latest {
                draw,
                handle: *handle,
                reply,
                fault: checked.err(),
            },
        )?;
        match checked {
            Ok(count) => Ok(count),
            Err(fault) => Err(TakeFault::Reply { fault }),
        }
    }

    /// Takes the reply to a read of this ledger at this height, as the verifier checks it.
    pub fn take_at(
        &mut self,
        alloc: Global,
        clock: &Clock<K>,
        handle: &Digest,
        height: u64,
        reply: &Standing,
    ) -> Result<(), TakeFault>
        requires left { 0 < self.old.left }
        ensures outcome { IfReplyNoted result (λ fault. fault ≡ at_outcome (C.accepts self.old.checker) self.old.chain.configs handle.now height reply.now) }
        ensures noted { IfReplyNoted result (λ fault. Notes self.old self.new (At handle.now height reply.now fault)) }
        ensures never_again { result ≢ Err Again }
        ensures same { IfNotNoted result (self.new ≡ self.old) }
    {
        let fault = at_fault(&self.verifier, handle, height, reply);
        let reply = reply.copy(alloc)?;
        self.note(
            clock,
            ClientAct::At {
                handle: *handle,
                height,
                reply,
                fault,
            },
        )?;
        answer_by(fault)
    }

    /// Checks what is said to stand in this ledger at this height, where the client's own entry was to
    /// stand. It is checked as the reply to a read is, but isn't kept as a reply.
    pub fn look(
        &mut self,
        alloc: Global,
        clock: &Clock<K>,
        handle: &Digest,
        height: u64,
        reply: &Standing,
    ) -> Result<(), TakeFault>
        requires left { 0 < self.old.left }
        ensures outcome { IfReplyNoted result (λ fault. fault ≡ at_outcome (C.accepts self.old.checker) self.old.chain.configs handle.now height reply.now) }
        ensures noted { IfReplyNoted result (λ fault. Notes self.old self.new (Look handle.now height reply.now fault)) }
        ensures never_again { result ≢ Err Again }
        ensures same { IfNotNoted result (self.new ≡ self.old) }
    {
        let fault = at_fault(&self.verifier, handle, height, reply);
        let reply = reply.copy(alloc)?;
        self.note(
            clock,
            ClientAct::Look {
                handle: *handle,
                height,
                reply,
                fault,
            },
        )?;
        answer_by(fault)
    }

    /// Takes a next view, as the verifier's chain does. An accepted one extends it.
    pub fn take_view(
        &mut self,
        alloc: Global,
        clock: &Clock<K>,
        next: &ViewRow,
    ) -> Result<(), TakeFault>
        requires left { 0 < self.old.left }
        ensures outcome { IfViewNoted result (λ fault. fault ≡ result_err (extend_outcome (C.accepts self.old.checker) self.old.chain next.now)) }
        ensures noted { IfViewNoted result (λ fault. Notes self.old self.new (View next.now fault)) }
        ensures same { IfNotNoted result (self.new ≡ self.old) }
    {
        let row = next.copy(alloc)?;
        self.lines.reserve()?;
        let fault = view_fault(&mut self.verifier, next)?;
        let stamp = clock.stamp(&mut self.pass);
        self.lines.add(stamp, ClientAct::View { row, fault });
        view_answer_by(fault)
    }

    /// Whether the draw of this number has an accepted reply.
    pub fn is_answered(&self, draw: u64) -> bool
        ensures { IsTrue result ↔ IsAnswered self.now.lines draw }
    {
        self.lines.is_answered(draw)
    }

    /// The client's number.
    pub fn client(&self) -> u32
        ensures { result ≡ self.now.client }
    {
        self.client
    }

    /// The chain of views so far.
    pub fn chain(&self) -> &ViewChain
        ensures chain { result.now ≡ self.now.chain }
        ensures replayed { chain_of self.now.first self.now.lines ≡ self.now.chain }
    {
        self.verifier.chain()
    }

    /// How many stamps the pass has left.
    pub fn left(&self) -> u64
        ensures { result ≡ self.now.left }
    {
        self.pass.left()
    }

    /// The lines of all that was done, from the first on.
    pub fn lines(&self) -> &[ClientLine]
        ensures lines { result.now ≡ self.now.lines }
        ensures client { IsClientList (C.accepts self.now.checker) self.now.first self.now.lines }
        ensures replayed { chain_of self.now.first self.now.lines ≡ self.now.chain }
        ensures rising { IsStrictlyIncreasing (stamps_of self.now.lines) }
    {
        self.lines.as_slice()
    }

    /// The lines of all that was done, and the pass that drew their stamps.
    pub fn take(self) -> (Vec<ClientLine>, Pass<K>)
        ensures lines { result.0.items ≡ self.lines }
        ensures stamps { result.1 ≡ stamps (stamps_of self.lines) self.left }
        ensures client { IsClientList (C.accepts self.checker) self.first self.lines }
        ensures replayed { chain_of self.first self.lines ≡ self.chain }
        ensures rising { IsStrictlyIncreasing (stamps_of self.lines) }
    {
        let ClientPass {
            client: _,
            began: _,
            verifier: _,
            lines,
            pass,
        } = self;
        (lines.into_vec(), pass)
    }

    // Adds the line of an act that leaves the chain as it is. The memory of its place comes before the stamp.
    fn note(&mut self, clock: &Clock<K>, act: ClientAct) -> Result<(), NoMemory>
        requires left { 0 < self.old.left }
        requires within { IsWithin act }
        requires done { IsDone (C.accepts self.old.checker) self.old.chain self.old.lines (act_of act) }
        requires open { IfSome (answered_by (act_of act)) (λ draw. times draw (answered self.old.lines) ≡ 0) }
        requires same { chain_after self.old.chain (act_of act) ≡ self.old.chain }
        ensures noted { OnOk result (Notes self.old self.new (act_of act)) }
        ensures no_memory { OnErr result (self.new ≡ self.old) }
    {
        self.lines.reserve()?;
        let stamp = clock.stamp(&mut self.pass);
        self.lines.add(stamp, act);
        Ok(())
    }
}
