ghost use Rattle.std.specs.Prelude.{◌≡◌, ◌≢◌, ◌<◌, ℕ, List, true, Ok, Err, IfOk};
ghost use Rattle.std.specs.Result.{result_err};
ghost use Rattle.chain_block.specs.declared.entry.Entry.{Entry};
ghost use Rattle.statement.specs.Statement.{view_of};
ghost use Rattle.verifier.specs.Outcomes.{append_outcome, at_outcome, is_known, latest_outcome};
ghost use Rattle.client_pass.specs.declared.take_fault.TakeFault.TheVariants.{Again};
ghost use Rattle.client_pass.specs.Act.{Append, At, Latest, Look};
ghost use Rattle.client_pass.specs.Answers.{IfNotNoted, IfReplyNoted};
ghost use Rattle.client_pass.specs.ClientList.{IsAnswered, IsForEntry, IsForRead};
ghost use Rattle.reply_taking.specs.Learning.{Grows, Learns, NotedAfterViews, TakesViews};

use crate::learning::learn;
use client_pass::{ClientPass, TakeFault, draws_stay};
use coordinator::Coordinator;
use nim_base::{Digest, NoMemory};
use port::{LatestReply, Link, Standing, Store};
use seal::Checker;
use stamp_clock::{Clock, ClockName};
use std::alloc::Global;

/// Takes the reply to an append of the entry for which this draw was, or to a new ledger of it.
pub fn take_own<S: Store, L: Link, C: Checker, K: ClockName>(
    alloc: Global,
    clock: &Clock<K>,
    coordinator: &mut Coordinator<S, L, C>,
    pass: &mut ClientPass<C, K>,
    draw: u64,
    reply: &Standing,
) -> Result<(), TakeFault>
    requires own_draw { (entry : Entry) × IsForEntry pass.old.lines draw entry }
    ensures grows { Grows pass.old pass.new }
    ensures learns { Learns C.accepts S.view L.view coordinator.old coordinator.new pass.old pass.new (view_of reply.now.receipt.statement) }
    ensures noted { IfReplyNoted result (λ fault. NotedAfterViews pass.old pass.new (Append draw reply.now fault)) }
    ensures unnoted { IfNotNoted result (TakesViews pass.old pass.new) }
    ensures outcome { (entry : Entry) → IsForEntry pass.old.lines draw entry
        → IfReplyNoted result (λ fault. fault ≡ append_outcome (C.accepts pass.old.checker) pass.new.chain.configs entry reply.now) }
    ensures again { result ≡ Err Again → IsAnswered pass.old.lines draw }
{
    draws_stay();
    learn(
        alloc,
        clock,
        coordinator,
        pass,
        &reply.receipt.statement.view(),
    )?;
    if pass.left() == 0 {
        return Err(TakeFault::NoMemory);
    }
    pass.take_append(alloc, clock, draw, reply)
}

/// Takes the reply to a latest read of the ledger with the nonce of this draw, and gives the ledger's count.
pub fn take_latest<S: Store, L: Link, C: Checker, K: ClockName>(
    alloc: Global,
    clock: &Clock<K>,
    coordinator: &mut Coordinator<S, L, C>,
    pass: &mut ClientPass<C, K>,
    draw: u64,
    handle: &Digest,
    reply: &LatestReply,
) -> Result<u64, TakeFault>
    requires own_draw { (nonce : List ℕ) × IsForRead pass.old.lines draw nonce }
    ensures grows { Grows pass.old pass.new }
    ensures learns { Learns C.accepts S.view L.view coordinator.old coordinator.new pass.old pass.new (view_of reply.now.receipt.statement) }
    ensures noted { IfReplyNoted result (λ fault. NotedAfterViews pass.old pass.new (Latest draw handle.now reply.now fault)) }
    ensures unnoted { IfNotNoted result (TakesViews pass.old pass.new) }
    ensures outcome { (nonce : List ℕ) → IsForRead pass.old.lines draw nonce
        → IfReplyNoted result (λ fault. fault ≡ result_err (latest_outcome (C.accepts pass.old.checker) pass.new.chain.configs handle.now nonce reply.now)) }
    ensures count { (nonce : List ℕ) → IsForRead pass.old.lines draw nonce
        → IfOk result (λ count. latest_outcome (C.accepts pass.old.checker) pass.new.chain.configs handle.now nonce reply.now ≡ Ok count) }
    ensures again { result ≡ Err Again → IsAnswered pass.old.lines draw }
{
    draws_stay();
    learn(
        alloc,
        clock,
        coordinator,
        pass,
        &reply.receipt.statement.view(),
    )?;
    if pass.left() == 0 {
        return Err(TakeFault::NoMemory);
    }
    pass.take_latest(alloc, clock, draw, handle, reply)
}

/// Takes the reply to a read of the ledger at the height.
pub fn take_at<S: Store, L: Link, C: Checker, K: ClockName>(
    alloc: Global,
    clock: &Clock<K>,
    coordinator: &mut Coordinator<S, L, C>,
    pass: &mut ClientPass<C, K>,
    handle: &Digest,
    height: u64,
    reply: &Standing,
) -> Result<(), TakeFault>
    ensures grows { Grows pass.old pass.new }
    ensures learns { Learns C.accepts S.view L.view coordinator.old coordinator.new pass.old pass.new (view_of reply.now.receipt.statement) }
    ensures noted { IfReplyNoted result (λ fault. NotedAfterViews pass.old pass.new (At handle.now height reply.now fault)) }
    ensures unnoted { IfNotNoted result (TakesViews pass.old pass.new) }
    ensures outcome { IfReplyNoted result (λ fault. fault ≡ at_outcome (C.accepts pass.old.checker) pass.new.chain.configs handle.now height reply.now) }
    ensures never_again { result ≢ Err Again }
{
    learn(
        alloc,
        clock,
        coordinator,
        pass,
        &reply.receipt.statement.view(),
    )?;
    if pass.left() == 0 {
        return Err(TakeFault::NoMemory);
    }
    pass.take_at(alloc, clock, handle, height, reply)
}

/// Looks at what is said to stand in the ledger at the height, where the client's own entry was to stand.
pub fn look<S: Store, L: Link, C: Checker, K: ClockName>(
    alloc: Global,
    clock: &Clock<K>,
    coordinator: &mut Coordinator<S, L, C>,
    pass: &mut ClientPass<C, K>,
    handle: &Digest,
    height: u64,
    reply: &Standing,
) -> Result<(), TakeFault>
    ensures grows { Grows pass.old pass.new }
    ensures learns { Learns C.accepts S.view L.view coordinator.old coordinator.new pass.old pass.new (view_of reply.now.receipt.statement) }
    ensures noted { IfReplyNoted result (λ fault. NotedAfterViews pass.old pass.new (Look handle.now height reply.now fault)) }
    ensures unnoted { IfNotNoted result (TakesViews pass.old pass.new) }
    ensures outcome { IfReplyNoted result (λ fault. fault ≡ at_outcome (C.accepts pass.old.checker) pass.new.chain.configs handle.now height reply.now) }
    ensures never_again { result ≢ Err Again }
{
    learn(
        alloc,
        clock,
        coordinator,
        pass,
        &reply.receipt.statement.view(),
    )?;
    if pass.left() == 0 {
        return Err(TakeFault::NoMemory);
    }
    pass.look(alloc, clock, handle, height, reply)
}
