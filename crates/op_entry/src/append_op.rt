ghost use Rattle.std.specs.Prelude.{◌≡◌, ◌↔◌, ◌<◌, ◌≤◌, List, true, false, [], ◌∷◌, Some, None, Ok, Err, IfOk, IfErr, IfSome};
ghost use Rattle.std.specs.Option.{option_map};
ghost use Rattle.chain_block.specs.Entry.{IsWithinLimits, bare, height_of};
ghost use Rattle.port.specs.Cause.{cause_of};
ghost use Rattle.port.specs.Trace.{Event, Ran};
ghost use Rattle.view_ledger.specs.Receipts.{Accepts};
ghost use Rattle.view_ledger.specs.Views.{ViewChain};
ghost use Rattle.op_entry.specs.Ask.{Ask, AppendEntry};

use crate::operation::Operation;
use crate::wanted::Wanted;
use chain_block::Entry;
use port::{Link, Refusal, Standing, Store};
use seal::Checker;
use std::alloc::Global;
use std::marker::Model;
use view_ledger::ViewChain;

/// An entry is appended to its ledger at its height.
///
/// After the refresh of its chain of views the row below is got, and the entry is put on that row's tail, where nothing stands. Where
/// something does, that is got, and has to link to the same tail. The row then stands by the receipt that is attached to it, or is
/// settled; where its entry is another one, the answer is `Conflict`.
#[derive(Drop)]
pub struct AppendOp {
    operation: Operation,
}

impl Model for AppendOp {
    ghost use Rattle.op_entry.specs.State.{State};

    ghost Value = { State };

    ghost view = { λ op. op.operation };
}

impl AppendOp {
    ghost use Rattle.op_entry.specs.State.{answer, answer_of, calls_left, is_live};
    ghost use Rattle.op_entry.specs.Sound.{Leads, Sound};
    ghost use Rattle.op_parts.specs.Refresh.{HasGrown};
    ghost use Rattle.op_entry.specs.Laws.{OwnCalls};
    ghost use Rattle.op_entry.specs.Says.{Says};

    /// The operation that appends this entry. It has asked for nothing yet, and takes no memory.
    pub fn new(chain: ViewChain, entry: Entry) -> AppendOp
        requires later { 1 ≤ height_of entry }
        requires limits { IsWithinLimits entry }
        ensures sound { (accepts : Accepts) → Sound accepts (AppendEntry (bare entry)) chain result [] }
        ensures live { is_live result ≡ true }
    {
        AppendOp {
            operation: Operation::new(chain, Wanted::Append { entry }),
        }
    }

    /// Makes the next call, of the store or the link, and says whether there is more to do; it is false once an answer stands. The
    /// store, the link and the checker are those of the earlier steps; between two steps others may have called them.
    ///
    /// - `Gap` of the row below comes where the store has none, and `BadRow` of it where the store gave bytes that are no row of the
    ///   ledger at that height.
    /// - `BadRow` of the own row comes where the store has none though it had said that something stands there, and where it gave
    ///   bytes that are no row of the ledger at the height, or whose row doesn't link to the row below.
    /// - `Conflict` comes only with a receipt. What keeps another entry from one is told as it is for the own entry.
    /// - `BadRow` of a view or of what ended one comes from the refresh. All other refusals but `StoreFault` come from the settling.
    pub fn step<S: Store, L: Link, C: Checker>(
        &mut self,
        alloc: Global,
        store: &mut S,
        link: &mut L,
        checker: &C,
    ) -> bool
        // While it is live it makes one call.
        ensures call { is_live self.old ≡ true → (event : Event) × Ran S.view L.view store.old link.old (event ∷ []) store.new link.new × Leads (C.accepts checker.now) self.old event self.new }
        // An answer that stands never changes.
        ensures ended { is_live self.old ≡ false → (store.new ≡ store.old) × (link.new ≡ link.old) × (self.new ≡ self.old) }
        ensures live { result ≡ is_live self.new }

        // So a loop ends that goes on while there is more to do.
        ensures falls { is_live self.old ≡ true → calls_left self.new < calls_left self.old }
    {
        self.operation.step(alloc, store, link, checker)
    }

    /// The answer, once one stands.
    pub fn answer(&self) -> Option<Result<&Standing, &Refusal>>
        ensures ok { IfSome result (λ said. IfOk said (λ standing. answer self.now ≡ Some (Ok standing.now))) }
        ensures err { IfSome result (λ said. IfErr said (λ refusal. answer self.now ≡ Some (Err (cause_of refusal.now)))) }
        ensures live { (result ≡ None) ↔ (is_live self.now ≡ true) }
    {
        self.operation.answer()
    }

    /// The chain of views, as far as it was refreshed.
    pub fn into_chain(self) -> ViewChain
        ensures { result ≡ self.chain }
    {
        self.into_parts().0
    }

    /// The chain of views, as far as it was refreshed, and the answer, once one stands.
    pub fn into_parts(self) -> (ViewChain, Option<Result<Standing, Refusal>>)
        ensures chain { result.0 ≡ self.chain }
        ensures answer { option_map answer_of result.1 ≡ answer self }
        ensures live { (result.1 ≡ None) ↔ (is_live self ≡ true) }

        // What its calls are, how the chain grew by them, and what the answer says of them.
        ensures own { (accepts : Accepts) (ask : Ask) (from : ViewChain) (past : List Event) → Sound accepts ask from self past
            → OwnCalls accepts ask self.chain.configs past }
        ensures grown { (accepts : Accepts) (ask : Ask) (from : ViewChain) (past : List Event) → Sound accepts ask from self past
            → HasGrown accepts from self.chain past }
        ensures says { (accepts : Accepts) (ask : Ask) (from : ViewChain) (past : List Event) → Sound accepts ask from self past
            → IfSome (answer self) (Says accepts ask from self.chain past) }
    {
        self.operation.into_parts()
    }
}
