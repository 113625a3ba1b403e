ghost use Rattle.std.specs.Prelude.{◌≡◌, ◌↔◌, ◌⊎◌, ◌+◌, ◌^◌, ◌<◌, ◌≤◌, ◌++◌, ◌∷◌, [], ℕ, length, slice_get, option_copied, Some, None, Ok, Err, IfOk, IfErr, IfSome, IfNone, OnOk, OnErr};
ghost use Rattle.statement.specs.Statement.{view_of};
ghost use Rattle.view_ledger.specs.declared.receipt_fault.ReceiptFault.TheVariants.{UnknownView};
ghost use Rattle.view_ledger.specs.declared.view_fault.ViewFault.{ViewFault};
ghost use Rattle.view_ledger.specs.Views.{newest_tail, tail_of_view, number_of};
ghost use Rattle.view_ledger.specs.Receipts.{IsAcceptedIn, receipt_outcome};
ghost use Rattle.view_ledger.specs.Extension.{AreGenuine, Follows, extended, start_outcome, extend_outcome};
ghost use Rattle.view_ledger.specs.Numbered.{chain_below, row_at};

use crate::finals::first_not_genuine;
use crate::kept::{block_at, copy_views, fault_at, find_view, first_view, judge, tail_of_next};
use crate::receipt_fault::ReceiptFault;
use crate::view::View;
use crate::view_fault::ViewFault;
use nim_base::{Digest, NoMemory};
use port::{FinalMark, ViewRow};
use seal::Checker;
use statement::{Config, Member, Receipt};
use std::alloc::Global;
use std::marker::Model;

/// The views of a service, from view 0 to the newest, each of which the one below ended for. The members of
/// all of them stand in one roster.
#[derive(Drop)]
pub struct ViewChain {
    alloc: Global,
    roster: Vec<Member>,
    views: Vec<View>,
}

impl Model for ViewChain {
    ghost use Rattle.view_ledger.specs.Views.{ViewChain};

    ghost Value = { ViewChain };

    ghost use Rattle.view_ledger.specs.Kept.{kept_chain, AreViews};

    ghost view = { λ chain. kept_chain chain.roster.items chain.views.items };

    ghost invariant = { λ chain. AreViews chain.roster.items chain.views.items };
}

impl ViewChain {
    /// The chain that has view 0 alone, the view of this config. `NotGenuine` names the first member that
    /// isn't in the roster with its key.
    pub fn start(alloc: Global, config: &Config, roster: &[Member]) -> Result<ViewChain, ViewFault>
        ensures ok { IfOk result (λ chain. start_outcome roster.now config.now ≡ Ok chain) }
        ensures refused { (fault : ViewFault) → start_outcome roster.now config.now ≡ Err fault → result ≡ Err fault }
        ensures cause { IfErr result (λ fault. (fault ≡ ViewFault.NoMemory) ⊎ (start_outcome roster.now config.now ≡ Err fault)) }
    {
        if let Some(id) = first_not_genuine(roster, config.members()) {
            return Err(ViewFault::NotGenuine { id });
        }
        let roster = Vec::from_slice(alloc, roster)?;
        let mut views = Vec::with_capacity(alloc, 1)?;
        views.push(first_view(alloc, config)?)?;
        Ok(ViewChain {
            alloc,
            roster,
            views,
        })
    }

    /// Adds the next view. The block has to be the one that makes the config the next view; the finals, in
    /// rising ids, are marks of members of the newest view over a final statement of its tail, the tail of
    /// the next view and the digest of a map, and these members are a quorum; each member of the config
    /// stands in the roster with its key. What memory it needs comes from the allocator that the chain was
    /// made with.
    pub fn extend<C: Checker>(&mut self, checker: &C, next: &ViewRow) -> Result<(), ViewFault>
        ensures ok { OnOk result (extend_outcome (C.accepts checker.now) self.old next.now ≡ Ok self.new) }
        ensures refused { (fault : ViewFault) → extend_outcome (C.accepts checker.now) self.old next.now ≡ Err fault → result ≡ Err fault }
        ensures cause { IfErr result (λ fault. (fault ≡ ViewFault.NoMemory) ⊎ (extend_outcome (C.accepts checker.now) self.old next.now ≡ Err fault)) }
        ensures same { OnErr result (self.new ≡ self.old) }

        // What an Ok says of the view.
        ensures follows { OnOk result (Follows (C.accepts checker.now) self.old next.now) }
    {
        let judged = tail_of_next(
            checker,
            self.roster.as_slice(),
            self.views.as_slice(),
            &next.block,
            &next.config,
            next.finals.as_slice(),
        );
        match judged {
            Ok(tail) => Ok(self.add(tail, &next.config)?),
            Err(fault) => Err(fault),
        }
    }

    // Adds a view that follows.
    fn add(&mut self, tail: Digest, config: &Config) -> Result<(), NoMemory>
        requires tail { tail ≡ newest_tail (self.old.configs ++ config.now ∷ []) }
        requires genuine { AreGenuine self.old.roster config.now }
        ensures ok { OnOk result (self.new ≡ extended self.old config.now) }
        ensures err { OnErr result (self.new ≡ self.old) }
    {
        let config = config.copy(self.alloc)?;
        self.views.push(View { tail, config })?;
        Ok(())
    }

    /// The number of the view under which the receipt is accepted: the newest one with the tail in its
    /// statement.
    pub fn check_receipt<C: Checker>(
        &self,
        checker: &C,
        receipt: &Receipt,
    ) -> Result<u64, ReceiptFault>
        ensures outcome { result ≡ receipt_outcome (C.accepts checker.now) self.now.configs receipt.now }

        // What an Ok says, and that it comes wherever that holds.
        ensures accepted { (number : ℕ) → (result ≡ Ok number) ↔ IsAcceptedIn (C.accepts checker.now) self.now.configs number receipt.now }
        ensures unknown { (result ≡ Err UnknownView) ↔ (number_of self.now.configs (view_of receipt.now.statement) ≡ None) }
    {
        judge(
            checker,
            self.views.as_slice(),
            &receipt.statement,
            receipt.marks.as_slice(),
        )
    }

    /// The number of the newest view that has this tail.
    pub fn find(&self, view: &Digest) -> Option<u64>
        ensures found { result ≡ number_of self.now.configs view.now }

        // What the number says.
        ensures view { IfSome result (λ number. tail_of_view self.now.configs number ≡ Some view.now) }
    {
        match find_view(self.views.as_slice(), view) {
            Some(number) => Some(number as u64),
            None => None,
        }
    }

    /// The number of the newest view, which has a next one.
    pub fn number(&self) -> u64
        ensures number { result + 1 ≡ length self.now.configs }
        ensures next { result + 1 < 2 ^ 64 }
    {
        self.views.len() as u64 - 1
    }

    /// The tail of the view of this number. That of view 0 is the identity of the service.
    pub fn tail(&self, number: u64) -> Option<Digest>
        ensures { result ≡ tail_of_view self.now.configs number }
    {
        let number = number as usize;
        if number >= self.views.len() {
            return None;
        }
        Some(self.views[number].tail)
    }

    /// The config of the view of this number.
    pub fn config(&self, number: u64) -> Option<&Config>
        ensures config { option_copied result ≡ slice_get self.now.configs number }
        ensures genuine { IfSome result (λ config. AreGenuine self.now.roster config.now) }
    {
        let number = number as usize;
        if number >= self.views.len() {
            return None;
        }
        Some(&self.views[number].config)
    }

    /// The view of this number, for which these finals ended the one below.
    pub fn row(
        &self,
        alloc: Global,
        number: u64,
        finals: Vec<FinalMark>,
    ) -> Result<ViewRow, NoMemory>
        requires { number < length self.now.configs }
        ensures { IfOk result (λ row. row ≡ row_at self.now.configs number finals.items) }
    {
        let number = number as usize;
        Ok(ViewRow {
            block: block_at(self.views.as_slice(), number),
            config: self.views[number].config.copy(alloc)?,
            finals,
        })
    }

    /// The first cause for which these finals don't end the view below that of this number for it. It takes no memory.
    pub fn finals_fault<C: Checker>(
        &self,
        checker: &C,
        number: u64,
        finals: &[FinalMark],
    ) -> Option<ViewFault>
        requires first { 1 ≤ number }
        requires known { number < length self.now.configs }
        ensures none { IfNone result (Follows (C.accepts checker.now) (chain_below self.now number) (row_at self.now.configs number finals.now)) }
        ensures fault { (fault : ViewFault) → (result ≡ Some fault) ↔ (extend_outcome (C.accepts checker.now) (chain_below self.now number) (row_at self.now.configs number finals.now) ≡ Err fault) }
    {
        fault_at(checker, self.views.as_slice(), number as usize, finals)
    }

    /// The same chain in memory of its own.
    pub fn copy(&self, alloc: Global) -> Result<ViewChain, NoMemory>
        ensures { IfOk result (λ copy. copy ≡ self.now) }
    {
        Ok(ViewChain {
            alloc,
            roster: Vec::from_slice(alloc, self.roster.as_slice())?,
            views: copy_views(alloc, self.views.as_slice())?,
        })
    }
}
