// Operations that are run by hand over a coordinator's store and link.
ghost use Rattle.std.specs.Prelude.{◌≡◌, ◌<◌, [], ◌∷◌, true, false};
ghost use Rattle.port.specs.Trace.{Event};
ghost use Rattle.op_entry.specs.State as entry;
ghost use Rattle.op_entry.specs.Sound as entry_calls;
ghost use Rattle.op_latest.specs.LatestState as latest;
ghost use Rattle.op_latest.specs.LatestSound as latest_calls;

use crate::coordinator::Coordinator;
use op_entry::{AppendOp, AtOp, LatestOp, NewOp};
use port::{Link, Store};
use seal::Checker;
use std::alloc::Global;

impl<S: Store, L: Link, C: Checker> Coordinator<S, L, C> {
    ghost use Rattle.coordinator.specs.Stepping.{Calls};

    /// Makes the next call of a new ledger, over its store and link. Its chain of views is none of the operation's, and stays.
    pub fn step_new(&mut self, alloc: Global, op: &mut NewOp) -> bool
        ensures call { entry.is_live op.old ≡ true → (event : Event) × Calls S.view L.view self.old (event ∷ []) self.new × entry_calls.Leads (C.accepts self.old.checker) op.old event op.new }
        ensures ended { entry.is_live op.old ≡ false → (self.new ≡ self.old) × (op.new ≡ op.old) }
        ensures live { result ≡ entry.is_live op.new }
        ensures falls { entry.is_live op.old ≡ true → entry.calls_left op.new < entry.calls_left op.old }
    {
        op.step(alloc, &mut self.store, &mut self.link, &self.checker)
    }

    /// Makes the next call of an append, in the same way.
    pub fn step_append(&mut self, alloc: Global, op: &mut AppendOp) -> bool
        ensures call { entry.is_live op.old ≡ true → (event : Event) × Calls S.view L.view self.old (event ∷ []) self.new × entry_calls.Leads (C.accepts self.old.checker) op.old event op.new }
        ensures ended { entry.is_live op.old ≡ false → (self.new ≡ self.old) × (op.new ≡ op.old) }
        ensures live { result ≡ entry.is_live op.new }
        ensures falls { entry.is_live op.old ≡ true → entry.calls_left op.new < entry.calls_left op.old }
    {
        op.step(alloc, &mut self.store, &mut self.link, &self.checker)
    }

    /// Makes the next call of a read at a height, in the same way.
    pub fn step_at(&mut self, alloc: Global, op: &mut AtOp) -> bool
        ensures call { entry.is_live op.old ≡ true → (event : Event) × Calls S.view L.view self.old (event ∷ []) self.new × entry_calls.Leads (C.accepts self.old.checker) op.old event op.new }
        ensures ended { entry.is_live op.old ≡ false → (self.new ≡ self.old) × (op.new ≡ op.old) }
        ensures live { result ≡ entry.is_live op.new }
        ensures falls { entry.is_live op.old ≡ true → entry.calls_left op.new < entry.calls_left op.old }
    {
        op.step(alloc, &mut self.store, &mut self.link, &self.checker)
    }

    /// Makes the next call of a read of a newest entry, in the same way.
    pub fn step_latest(&mut self, alloc: Global, op: &mut LatestOp) -> bool
        ensures call { latest.is_live op.old ≡ true → (event : Event) × Calls S.view L.view self.old (event ∷ []) self.new × latest_calls.Leads (C.accepts self.old.checker) op.old event op.new }
        ensures ended { latest.is_live op.old ≡ false → (self.new ≡ self.old) × (op.new ≡ op.old) }
        ensures live { result ≡ latest.is_live op.new }
        ensures falls { latest.is_live op.old ≡ true → latest.calls_left op.new < latest.calls_left op.old }
    {
        op.step(alloc, &mut self.store, &mut self.link, &self.checker)
    }
}
