// Operations that a script begins. Each draws as the line does that is done at once, and makes no call.
ghost use Rattle.std.specs.Prelude.{◌≡◌, ◌++◌, ◌∷◌, ◌≤◌, ◌<◌, ◌^◌, [], ℕ, length, OnOk};
ghost use Rattle.answer_lines.specs.Draws.{DrewEntry, DrewRead};
ghost use Rattle.client_acts.specs.Turns.{turn_of};
ghost use Rattle.coordinator.specs.Entries.{first_entry, later_entry};
ghost use Rattle.endorser_cell.specs.CellBank.{bank_view};
ghost use Rattle.roster_bank.specs.Counting.{served_count};
ghost use Rattle.script_operations.specs.Task.{Height, Newest, Own};
ghost use Rattle.script_world.specs.Begun.{BeganAppend, BeganLatest, BeganNew};
ghost use Rattle.script_world.specs.Carried.{Opened};
ghost use Rattle.script_world.specs.Going.{GoesOn};
ghost use Rattle.script_world.specs.Labels.{handle_for};
ghost use Rattle.script_world.specs.Nonce.{nonce};
ghost use Rattle.script_world.specs.Running.{world_of};

use crate::asking::{draw_entry, draw_read};
use crate::entries::{after, first_of, later_of};
use crate::labels::handle_for;
use crate::nonces::nonce;
use crate::world::World;
use nim_base::NoMemory;
use roster_bank::RunName;
use script_operations::{operations_keep_draws, served_so_far};
use seal::{Checker, Scheme, Signer};

impl<'w, G: Scheme, K: RunName> World<'w, G, K> {
    /// `begin OP new`: the label means the ledger of the entry from now on. What an operation of this name was before is forgotten, here as
    /// in each of the other beginnings.
    pub fn begin_new(
        &mut self,
        op: &[u8],
        client: usize,
        label: &[u8],
        payload: &[u8],
    ) -> Result<(), NoMemory>
        requires client { client < length self.old.clients }
        requires payload { length payload.now ≤ 65536 }
        ensures began { OnOk result (BeganNew (world_of self.old) (world_of self.new) client label.now payload.now) }
        ensures goes { OnOk result (GoesOn (world_of self.old) (world_of self.new)) }
        ensures turns { OnOk result (self.new.turns ≡ self.old.turns ++ turn_of client (served_count (bank_view G.Signer.key_of G.Signer.left_of G.Checker.accepts self.old.state.link)) 1 ∷ []) }
        ensures opened { OnOk result ((draw : ℕ) × DrewEntry self.new.clients client draw (first_entry (nonce self.old.draws) payload.now)
            × Opened self.old self.new op.now (Own client draw (first_entry (nonce self.old.draws) payload.now)) label.now) }
    {
        operations_keep_draws::<G::Checker>();
        let next = after(self.draws)?;
        let entry = first_of(self.alloc, self.draws, payload)?;
        let calls = served_so_far(&self.coordinator);
        let draw = draw_entry(&mut self.acts, client, calls, &entry)?;
        self.labels.set(self.alloc, label, entry.handle())?;
        self.draws = next;
        let chain = self.coordinator.chain();
        self.operations
            .begin_own(op, client, draw, label, entry, chain)?;
        Ok(())
    }

    /// `begin OP append`, at a height from 1 to 2^32 - 1.
    pub fn begin_append(
        &mut self,
        op: &[u8],
        client: usize,
        label: &[u8],
        height: u64,
        payload: &[u8],
    ) -> Result<(), NoMemory>
        requires client { client < length self.old.clients }
        requires from { 1 ≤ height }
        requires below { height < 2 ^ 32 }
        requires payload { length payload.now ≤ 65536 }
        ensures began { OnOk result (BeganAppend (world_of self.old) (world_of self.new) client label.now height payload.now) }
        ensures goes { OnOk result (GoesOn (world_of self.old) (world_of self.new)) }
        ensures turns { OnOk result (self.new.turns ≡ self.old.turns ++ turn_of client (served_count (bank_view G.Signer.key_of G.Signer.left_of G.Checker.accepts self.old.state.link)) 1 ∷ []) }
        ensures opened { OnOk result ((draw : ℕ) × DrewEntry self.new.clients client draw (later_entry (handle_for (world_of self.old).labels label.now) height (nonce self.old.draws) payload.now)
            × Opened self.old self.new op.now (Own client draw (later_entry (handle_for (world_of self.old).labels label.now) height (nonce self.old.draws) payload.now)) label.now) }
    {
        operations_keep_draws::<G::Checker>();
        let next = after(self.draws)?;
        let handle = handle_for(&self.labels, label);
        let entry = later_of(self.alloc, handle, height, self.draws, payload)?;
        let calls = served_so_far(&self.coordinator);
        let draw = draw_entry(&mut self.acts, client, calls, &entry)?;
        self.draws = next;
        let chain = self.coordinator.chain();
        self.operations
            .begin_own(op, client, draw, label, entry, chain)?;
        Ok(())
    }

    /// `begin OP latest`.
    pub fn begin_latest(&mut self, op: &[u8], client: usize, label: &[u8]) -> Result<(), NoMemory>
        requires { client < length self.old.clients }
        ensures began { OnOk result (BeganLatest (world_of self.old) (world_of self.new) client) }
        ensures goes { OnOk result (GoesOn (world_of self.old) (world_of self.new)) }
        ensures turns { OnOk result (self.new.turns ≡ self.old.turns ++ turn_of client (served_count (bank_view G.Signer.key_of G.Signer.left_of G.Checker.accepts self.old.state.link)) 1 ∷ []) }
        ensures opened { OnOk result ((draw : ℕ) × DrewRead self.new.clients client draw (nonce self.old.draws)
            × Opened self.old self.new op.now (Newest client draw (handle_for (world_of self.old).labels label.now) (nonce self.old.draws)) label.now) }
    {
        operations_keep_draws::<G::Checker>();
        let next = after(self.draws)?;
        let handle = handle_for(&self.labels, label);
        let nonce = nonce(self.draws);
        let calls = served_so_far(&self.coordinator);
        let draw = draw_read(&mut self.acts, client, calls, &nonce)?;
        self.draws = next;
        let chain = self.coordinator.chain();
        self.operations
            .begin_newest(op, client, draw, label, handle, nonce, chain)?;
        Ok(())
    }

    /// `begin OP at`, at a height below 2^32. It draws nothing.
    pub fn begin_at(
        &mut self,
        op: &[u8],
        client: usize,
        label: &[u8],
        height: u64,
    ) -> Result<(), NoMemory>
        requires client { client < length self.old.clients }
        requires below { height < 2 ^ 32 }
        ensures rest { self.new ≡ record self.old { operations = self.new.operations } }
        ensures opened { OnOk result (Opened self.old self.new op.now (Height client (handle_for (world_of self.old).labels label.now) height) label.now) }
    {
        operations_keep_draws::<G::Checker>();
        let handle = handle_for(&self.labels, label);
        let chain = self.coordinator.chain();
        self.operations
            .begin_height(op, client, label, handle, height, chain)?;
        Ok(())
    }
}
