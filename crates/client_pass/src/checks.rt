ghost use Rattle.std.specs.Prelude.{◌≡◌, ◌<◌, ℕ, List, None, Some, Ok, Err, IfOk, IfSome, IfNone, OnErr, option_map, option_copied};
ghost use Rattle.std.specs.Result.{result_err};
ghost use Rattle.chain_block.specs.declared.entry.Entry.{Entry};
ghost use Rattle.chain_block.specs.Entry.{bare, IsWithinLimits};
ghost use Rattle.view_ledger.specs.Extension.{extend_outcome};
ghost use Rattle.verifier.specs.Outcomes.{append_outcome, at_outcome, latest_outcome};
ghost use Rattle.client_pass.specs.ClientList.{IsForEntry, IsForRead, chain_after};
ghost use Rattle.client_pass.specs.Act.{View};

use crate::client_act::ClientAct;
use crate::client_line::ClientLine;
use chain_block::Entry;
use nim_base::{Digest, NoMemory};
use port::{LatestReply, Standing, ViewRow};
use seal::Checker;
use std::alloc::Global;
use verifier::{ReplyFault, Verifier};
use view_ledger::ViewFault;

/// The entry in memory of its own, where there is one.
pub(crate) fn copied(alloc: Global, entry: Option<&Entry>) -> Result<Option<Entry>, NoMemory>
    requires { IfSome (option_copied entry) IsWithinLimits }
    ensures copy { IfOk result (λ copy. copy ≡ option_map bare (option_copied entry.entry)) }
{
    match entry {
        None => Ok(None),
        Some(entry) => Ok(Some(entry.copy(alloc)?)),
    }
}

/// The fault of a reply to an append of the entry for which this draw is.
pub(crate) fn append_fault<C: Checker>(
    verifier: &Verifier<C>,
    lines: &[ClientLine],
    draw: u64,
    reply: &Standing,
) -> Option<ReplyFault>
    requires { (entry : Entry) × IsForEntry lines.now draw entry }
    ensures fault { (entry : Entry) → IsForEntry lines.now draw entry → result ≡ append_outcome (C.accepts verifier.now.checker) verifier.now.chain.configs entry reply.now }
    ensures own { (entry : Entry) → IsForEntry lines.now draw entry → IfNone result (reply.now.row.entry ≡ entry) }
{
    let drawn = &lines[draw as usize];
    match &drawn.act {
        ClientAct::Draw { nonce: _, intent } => match intent {
            Some(entry) => verifier.check_append(entry, reply).err(),
            None => unreachable!(),
        },
        _ => unreachable!(),
    }
}

/// The count in a reply to a latest read with the nonce of this draw, or its fault.
pub(crate) fn latest_count<C: Checker>(
    verifier: &Verifier<C>,
    lines: &[ClientLine],
    draw: u64,
    handle: &Digest,
    reply: &LatestReply,
) -> Result<u64, ReplyFault>
    requires { (nonce : List ℕ) × IsForRead lines.now draw nonce }
    ensures { (nonce : List ℕ) → IsForRead lines.now draw nonce → result ≡ latest_outcome (C.accepts verifier.now.checker) verifier.now.chain.configs handle.now nonce reply.now }
{
    let drawn = &lines[draw as usize];
    match &drawn.act {
        ClientAct::Draw { nonce, intent: _ } => verifier.check_latest(handle, nonce, reply),
        _ => unreachable!(),
    }
}

/// The fault of a reply to a read of this ledger at this height.
pub(crate) fn at_fault<C: Checker>(
    verifier: &Verifier<C>,
    handle: &Digest,
    height: u64,
    reply: &Standing,
) -> Option<ReplyFault>
    ensures { result ≡ at_outcome (C.accepts verifier.now.checker) verifier.now.chain.configs handle.now height reply.now }
{
    verifier.check_at(handle, height, reply).err()
}

/// The fault of a view, or none where it was taken. It is no want of memory.
pub(crate) fn view_fault<C: Checker>(
    verifier: &mut Verifier<C>,
    next: &ViewRow,
) -> Result<Option<ViewFault>, NoMemory>
    ensures fault { IfOk result (λ fault. fault ≡ result_err (extend_outcome (C.accepts verifier.old.checker) verifier.old.chain next.now)) }
    ensures chain { IfOk result (λ fault. verifier.new.chain ≡ chain_after verifier.old.chain (View next.now fault)) }
    ensures no_memory { OnErr result (verifier.new.chain ≡ verifier.old.chain) }
    ensures checker { verifier.new.checker ≡ verifier.old.checker }
{
    match verifier.accept_view(next) {
        Ok(()) => Ok(None),
        Err(ViewFault::NoMemory) => Err(NoMemory),
        Err(fault) => Ok(Some(fault)),
    }
}
