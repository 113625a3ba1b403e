ghost use Rattle.std.specs.Prelude.{◌≡◌, ◌≢◌, ◌↔◌, ◌⊎◌, option_copied, None, Ok, Err, IsOk, IfOk, IfErr, OnOk, OnErr, ℕ};
ghost use Rattle.std.specs.Result.{result_err};
ghost use Rattle.chain_block.specs.Entry.{IsWithinLimits, bare, handle_of, height_of};
ghost use Rattle.view_ledger.specs.declared.view_fault.ViewFault.{ViewFault};
ghost use Rattle.view_ledger.specs.declared.receipt_fault.ReceiptFault.TheVariants.{UnknownView as NoView};
ghost use Rattle.view_ledger.specs.Extension.{extend_outcome, Follows};
ghost use Rattle.verifier.specs.Outcomes.{standing_fault, append_outcome, at_outcome, latest_by, latest_outcome};
ghost use Rattle.verifier.specs.Yes.{Stands, IsLatest};

use crate::faults::{latest_fault, receipt_fault, standing_fault};
use crate::reply_fault::ReplyFault;
use chain_block::Entry;
use nim_base::{Digest, Nonce};
use port::{LatestReply, Standing, ViewRow};
use seal::Checker;
use statement::Statement;
use view_ledger::{ViewChain, ViewFault};

/// A client's own chain of views and checker, by which it judges what a service replies. The checks take no
/// memory.
#[derive(Drop)]
pub struct Verifier<C: Checker> {
    pub chain: ViewChain,
    pub checker: C,
}

impl<C: Checker> Verifier<C> {
    pub fn new(chain: ViewChain, checker: C) -> Verifier<C>
        ensures chain { result.chain ≡ chain }
        ensures checker { result.checker ≡ checker }
    {
        Verifier { chain, checker }
    }

    /// Takes a next view, as [`ViewChain::extend`] does.
    pub fn accept_view(&mut self, next: &ViewRow) -> Result<(), ViewFault>
        ensures ok { OnOk result (extend_outcome (C.accepts self.old.checker) self.old.chain next.now ≡ Ok self.new.chain) }
        ensures refused { (fault : ViewFault) → extend_outcome (C.accepts self.old.checker) self.old.chain next.now ≡ Err fault → result ≡ Err fault }
        ensures cause { IfErr result (λ fault. (fault ≡ ViewFault.NoMemory) ⊎ (extend_outcome (C.accepts self.old.checker) self.old.chain next.now ≡ Err fault)) }
        ensures same { OnErr result (self.new.chain ≡ self.old.chain) }
        ensures checker { self.new.checker ≡ self.old.checker }

        // What an Ok says of the view.
        ensures follows { OnOk result (Follows (C.accepts self.old.checker) self.old.chain next.now) }
    {
        self.chain.extend(&self.checker, next)
    }

    /// The chain of views.
    pub fn chain(&self) -> &ViewChain
        ensures { result.now ≡ self.now.chain }
    {
        &self.chain
    }

    /// Checks the reply to an append of this entry, or to a new ledger that begins with it.
    #[tactic(auto, unfolding(crate::specs::Outcomes::append_outcome))]
    pub fn check_append(&self, entry: &Entry, reply: &Standing) -> Result<(), ReplyFault>
        requires { IsWithinLimits entry.now }
        ensures outcome { result_err result ≡ append_outcome (C.accepts self.now.checker) self.now.chain.configs entry.now reply.now }

        // What a yes says, and that it comes wherever that holds.
        ensures yes { IsOk result ↔ (Stands (C.accepts self.now.checker) self.now.chain.configs (handle_of entry.now) (height_of entry.now) reply.now × (bare entry.now ≡ reply.now.row.entry)) }
    {
        let handle = entry.handle();
        match standing(
            &self.checker,
            &self.chain,
            &handle,
            entry.height(),
            Some(entry),
            reply,
        ) {
            Some(fault) => Err(fault),
            None => Ok(()),
        }
    }

    /// Checks the reply to a read of this ledger at this height.
    #[tactic(auto, unfolding(crate::specs::Outcomes::at_outcome))]
    pub fn check_at(&self, handle: &Digest, height: u64, reply: &Standing) -> Result<(), ReplyFault>
        ensures outcome { result_err result ≡ at_outcome (C.accepts self.now.checker) self.now.chain.configs handle.now height reply.now }

        // What a yes says, and that it comes wherever that holds.
        ensures yes { IsOk result ↔ Stands (C.accepts self.now.checker) self.now.chain.configs handle.now height reply.now }
    {
        match standing(&self.checker, &self.chain, handle, height, None, reply) {
            Some(fault) => Err(fault),
            None => Ok(()),
        }
    }

    /// Checks the reply to a latest read of this ledger with this nonce, and gives the count, 0 where the
    /// ledger has no entry.
    #[tactic(auto, unfolding(crate::specs::Outcomes::latest_outcome))]
    pub fn check_latest(
        &self,
        handle: &Digest,
        nonce: &Nonce,
        reply: &LatestReply,
    ) -> Result<u64, ReplyFault>
        ensures outcome { result ≡ latest_outcome (C.accepts self.now.checker) self.now.chain.configs handle.now nonce.now reply.now }

        // What a yes says, and that it comes wherever that holds.
        ensures yes { (count : ℕ) → (result ≡ Ok count) ↔ IsLatest (C.accepts self.now.checker) self.now.chain.configs handle.now nonce.now count reply.now }
    {
        latest(&self.checker, &self.chain, handle, nonce, reply)
    }
}

// The first fault of a reply that is to stand in the ledger at the height.
fn standing<C: Checker>(
    checker: &C,
    chain: &ViewChain,
    asked: &Digest,
    height: u64,
    own: Option<&Entry>,
    reply: &Standing,
) -> Option<ReplyFault>
    ensures { result ≡ standing_fault (C.accepts checker.now) chain.now.configs asked.now height (option_copied own.entry) reply.now reply.now.receipt.statement }
{
    let receipt = &reply.receipt;
    let Statement::Held {
        view,
        handle,
        tail,
        count,
    } = &receipt.statement
    else {
        return Some(ReplyFault::WrongKind);
    };
    let fault = standing_fault(
        chain,
        asked,
        height,
        own,
        &reply.row,
        reply.chain.as_slice(),
        view,
        handle,
        tail,
        *count,
    );
    match fault {
        Some(fault) => Some(fault),
        None => receipt_fault(checker, chain, receipt),
    }
}

// The count of a reply to a latest read, or its first fault.
fn latest<C: Checker>(
    checker: &C,
    chain: &ViewChain,
    asked: &Digest,
    asked_nonce: &Nonce,
    reply: &LatestReply,
) -> Result<u64, ReplyFault>
    ensures { result ≡ latest_by (C.accepts checker.now) chain.now.configs asked.now asked_nonce.now reply.now reply.now.receipt.statement }
{
    let receipt = &reply.receipt;
    let Statement::Latest {
        view,
        handle,
        tail,
        count,
        nonce,
    } = &receipt.statement
    else {
        return Err(ReplyFault::WrongKind);
    };
    if let Some(fault) = latest_fault(
        chain,
        asked,
        asked_nonce,
        &reply.row,
        view,
        handle,
        tail,
        *count,
        nonce,
    ) {
        return Err(fault);
    }
    match receipt_fault(checker, chain, receipt) {
        Some(fault) => Err(fault),
        None => Ok(*count),
    }
}
