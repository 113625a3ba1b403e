// The entries that clients make, done at once.
ghost use Rattle.std.specs.Prelude.{◌≡◌, ◌≤◌, ◌<◌, ◌+◌, ◌^◌, length, IfOk};
ghost use Rattle.chain_block.specs.Entry.{IsWithinLimits};
ghost use Rattle.coordinator.specs.Entries.{first_entry, later_entry};
ghost use Rattle.script_world.specs.Carried.{KeepsNames};
ghost use Rattle.script_world.specs.Lines.{Appended, MadeLedger};
ghost use Rattle.script_world.specs.Nonce.{nonce};
ghost use Rattle.script_world.specs.Running.{world_of};

use crate::asking::ask_for_entry;
use crate::labels::handle_for;
use crate::nonces::nonce;
use crate::world::World;
use chain_block::Entry;
use nim_base::{Digest, NoMemory, Text};
use roster_bank::RunName;
use script_operations::operations_keep_draws;
use seal::{Checker, Scheme, Signer};
use std::alloc::Global;

/// The number after this one. The last of a run's nonces can't be drawn, which is want of memory.
pub(crate) fn after(number: u64) -> Result<u64, NoMemory>
    ensures { IfOk result (λ next. next ≡ number + 1) }
{
    match number.checked_add(1) {
        Some(next) => Ok(next),
        None => Err(NoMemory),
    }
}

/// The first entry of a ledger with the nonce of this number.
pub(crate) fn first_of(alloc: Global, number: u64, payload: &[u8]) -> Result<Entry, NoMemory>
    requires { length payload.now ≤ 65536 }
    ensures entry { IfOk result (λ entry. entry ≡ first_entry (nonce number) payload.now) }
    ensures within { IfOk result IsWithinLimits }
{
    Ok(Entry::Genesis {
        nonce: nonce(number),
        payload: Text::of(alloc, payload)?,
    })
}

/// The entry of a ledger at this height with the nonce of this number.
pub(crate) fn later_of(
    alloc: Global,
    handle: Digest,
    height: u64,
    number: u64,
    payload: &[u8],
) -> Result<Entry, NoMemory>
    requires from { 1 ≤ height }
    requires below { height < 2 ^ 32 }
    requires payload { length payload.now ≤ 65536 }
    ensures entry { IfOk result (λ entry. entry ≡ later_entry handle height (nonce number) payload.now) }
    ensures within { IfOk result IsWithinLimits }
{
    Ok(Entry::Later {
        handle,
        height,
        nonce: nonce(number),
        payload: Text::of(alloc, payload)?,
    })
}

impl<'w, G: Scheme, K: RunName> World<'w, G, K> {
    ghost use Rattle.endorser_cell.specs.CellBank.{bank_view};

    /// `new`: the client draws a nonce and makes the ledger, which the label means from now on. The payload has at most 65,536 bytes. The
    /// line that is printed comes with its line feed.
    pub fn new_ledger(
        &mut self,
        client: usize,
        label: &[u8],
        payload: &[u8],
    ) -> Result<Text, NoMemory>
        requires client { client < length self.old.clients }
        requires payload { length payload.now ≤ 65536 }
        ensures line { IfOk result (λ line. MadeLedger G.Checker.accepts (bank_view G.Signer.key_of G.Signer.left_of G.Checker.accepts) (world_of self.old) (world_of self.new) client label.now payload.now line.bytes) }
        ensures keeps { KeepsNames self.old self.new }
    {
        operations_keep_draws::<G::Checker>();
        let next = after(self.draws)?;
        let entry = first_of(self.alloc, self.draws, payload)?;
        let line = ask_for_entry(
            self.alloc,
            &mut self.acts,
            &mut self.coordinator,
            client,
            label,
            &entry,
        )?;
        self.labels.set(self.alloc, label, entry.handle())?;
        self.draws = next;
        Ok(line)
    }

    /// `append`: the client draws a nonce and appends, at a height from 1 to 2^32 - 1.
    pub fn append(
        &mut self,
        client: usize,
        label: &[u8],
        height: u64,
        payload: &[u8],
    ) -> Result<Text, NoMemory>
        requires client { client < length self.old.clients }
        requires from { 1 ≤ height }
        requires below { height < 2 ^ 32 }
        requires payload { length payload.now ≤ 65536 }
        ensures line { IfOk result (λ line. Appended G.Checker.accepts (bank_view G.Signer.key_of G.Signer.left_of G.Checker.accepts) (world_of self.old) (world_of self.new) client label.now height payload.now line.bytes) }
        ensures keeps { KeepsNames self.old self.new }
    {
        operations_keep_draws::<G::Checker>();
        let next = after(self.draws)?;
        let handle = handle_for(&self.labels, label);
        let entry = later_of(self.alloc, handle, height, self.draws, payload)?;
        let line = ask_for_entry(
            self.alloc,
            &mut self.acts,
            &mut self.coordinator,
            client,
            label,
            &entry,
        )?;
        self.draws = next;
        Ok(line)
    }
}
