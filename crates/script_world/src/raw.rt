// Endorsers that are asked directly: such a call passes no link.
ghost use Rattle.std.specs.Prelude.{◌≡◌, ◌≤◌, ◌<◌, ◌^◌, ℕ, length, None, IfOk, IfSome, IfNone};
ghost use Rattle.statement.specs.Config.{ids};
ghost use Rattle.roster_bank.specs.Places.{place_in};
ghost use Rattle.endorser_cell.specs.Cells.{cell_of};
ghost use Rattle.port.specs.Call.{Latest, Show, call_of};
ghost use Rattle.script_world.specs.Going.{GoesOn};
ghost use Rattle.script_world.specs.Labels.{handle_for};
ghost use Rattle.script_world.specs.Nonce.{nonce};
ghost use Rattle.script_world.specs.Raw.{AnsweredRaw, AppendedRaw, IsPrevFor, IsPrevOf, OnlyLink};
ghost use Rattle.script_world.specs.Running.{world_of};

use crate::entries::later_of;
use crate::held::{held_row, tail_or_zeros};
use crate::labels::handle_for;
use crate::nonces::nonce;
use crate::world::World;
use blob_store::LyingStore;
use coordinator::Coordinator;
use endorser_cell::EndorserCell;
use nim_base::{Digest, NoMemory, Text};
use port::EndorserCall;
use reply_lines::raw_line;
use roster_bank::{RosterBank, RunName};
use seal::{Checker, Scheme, Signer};
use std::alloc::Global;

/// The tail on which a direct append to this endorser builds.
fn prev_of<G: Scheme, K: RunName>(
    alloc: Global,
    store: &LyingStore,
    cell: &EndorserCell<G, K>,
    handle: &Digest,
    height: u64,
) -> Result<Digest, NoMemory>
    requires { 1 ≤ height }
    ensures { IfOk result (IsPrevOf store.now cell.now handle.now height) }
{
    let (tail, count) = cell.endorser().row(handle);
    if count == height {
        return Ok(tail);
    }
    let row = held_row(alloc, store, handle, height - 1)?;
    Ok(tail_or_zeros(&row))
}

/// The same for the endorser of the id, `None` where there is none.
fn prev_for<G: Scheme, K: RunName>(
    alloc: Global,
    coordinator: &Coordinator<LyingStore, RosterBank<'_, G, K>, G::Checker>,
    id: u32,
    handle: &Digest,
    height: u64,
) -> Result<Option<Digest>, NoMemory>
    requires { 1 ≤ height }
    ensures prev { IfOk result (λ prev. IfSome prev (IsPrevFor coordinator.now id handle.now height)) }
    ensures none { IfOk result (λ prev. IfNone prev (place_in (ids K.members) id ≡ None)) }
{
    see_members(coordinator.link());
    let Some(cell) = coordinator.link().cell(id) else {
        return Ok(None);
    };
    let prev = prev_of(alloc, coordinator.store(), cell, handle, height)?;
    Ok(Some(prev))
}

/// Who has no cell is none of the roster.
fn see_members<G: Scheme, K: RunName>(bank: &RosterBank<'_, G, K>)
    ensures { (id : ℕ) → cell_of bank.now.cells id ≡ None → place_in (ids K.members) id ≡ None }
{
    let _ = bank.log();
}

/// Asks the endorser of the id: the line that says what it answered, `None` where no endorser has the id.
fn ask_raw<G: Scheme, K: RunName>(
    alloc: Global,
    bank: &mut RosterBank<'_, G, K>,
    id: u32,
    call: &EndorserCall,
) -> Result<Option<Text>, NoMemory>
    ensures answered { IfOk result (λ line. IfSome line (λ line. AnsweredRaw G.Signer.key_of G.Signer.left_of G.Signer.size_of G.Signer.signs G.fits bank.old bank.new id (call_of call.now) line.bytes)) }
    ensures none { IfOk result (λ line. IfNone line (place_in (ids K.members) id ≡ None)) }
{
    see_members(bank);
    let Some(asked) = bank.raw(alloc, id, call) else {
        return Ok(None);
    };
    let answer = asked?;
    let line = raw_line(alloc, &answer)?;
    Ok(Some(line))
}

impl<'w, G: Scheme, K: RunName> World<'w, G, K> {
    /// `raw append ID LABEL HEIGHT PAYLOAD NUMBER`: the endorser of the id is asked to append the entry of the label's ledger at that height
    /// with the nonce of this number. It builds on the endorser's own tail where the endorser has as many entries as the height, else on
    /// the row below that really stands, on zeros where none does. The line that is printed, `None` where no endorser has the id.
    pub fn raw_append(
        &mut self,
        id: u32,
        label: &[u8],
        height: u64,
        payload: &[u8],
        number: u64,
    ) -> Result<Option<Text>, NoMemory>
        requires from { 1 ≤ height }
        requires below { height < 2 ^ 32 }
        requires payload { length payload.now ≤ 65536 }
        ensures rest { OnlyLink self.old self.new }
        ensures answered { IfOk result (λ line. IfSome line (λ line. AppendedRaw G.Signer.key_of G.Signer.left_of G.Signer.size_of G.Signer.signs G.fits self.old.state self.new.state.link id
            (handle_for (world_of self.old).labels label.now) height (nonce number) payload.now line.bytes)) }
        ensures none { IfOk result (λ line. IfNone line (place_in (ids K.members) id ≡ None)) }
        ensures goes { GoesOn (world_of self.old) (world_of self.new) }
    {
        let handle = handle_for(&self.labels, label);
        let entry = later_of(self.alloc, handle, height, number, payload)?;
        let Some(prev) = prev_for(self.alloc, &self.coordinator, id, &handle, height)? else {
            return Ok(None);
        };
        let digest = entry.entry_digest();
        let call = EndorserCall::Append {
            handle,
            prev,
            entry: digest,
            height,
        };
        let line = ask_raw(self.alloc, self.coordinator.link_mut(), id, &call)?;
        Ok(line)
    }

    /// `raw latest ID LABEL NUMBER`: the endorser of the id is asked for the ledger's tail and count, with the nonce of this number.
    pub fn raw_latest(
        &mut self,
        id: u32,
        label: &[u8],
        number: u64,
    ) -> Result<Option<Text>, NoMemory>
        ensures rest { OnlyLink self.old self.new }
        ensures answered { IfOk result (λ line. IfSome line (λ line. AnsweredRaw G.Signer.key_of G.Signer.left_of G.Signer.size_of G.Signer.signs G.fits self.old.state.link self.new.state.link id
            (Latest (handle_for (world_of self.old).labels label.now) (nonce number)) line.bytes)) }
        ensures none { IfOk result (λ line. IfNone line (place_in (ids K.members) id ≡ None)) }
        ensures goes { GoesOn (world_of self.old) (world_of self.new) }
    {
        let handle = handle_for(&self.labels, label);
        let nonce = nonce(number);
        let call = EndorserCall::Latest { handle, nonce };
        let line = ask_raw(self.alloc, self.coordinator.link_mut(), id, &call)?;
        Ok(line)
    }

    /// `raw show ID LABEL`: the endorser of the id is asked for its phase and the ledger's count.
    pub fn raw_show(&mut self, id: u32, label: &[u8]) -> Result<Option<Text>, NoMemory>
        ensures rest { OnlyLink self.old self.new }
        ensures answered { IfOk result (λ line. IfSome line (λ line. AnsweredRaw G.Signer.key_of G.Signer.left_of G.Signer.size_of G.Signer.signs G.fits self.old.state.link self.new.state.link id
            (Show (handle_for (world_of self.old).labels label.now)) line.bytes)) }
        ensures none { IfOk result (λ line. IfNone line (place_in (ids K.members) id ≡ None)) }
        ensures goes { GoesOn (world_of self.old) (world_of self.new) }
    {
        let call = EndorserCall::Show {
            handle: handle_for(&self.labels, label),
        };
        let line = ask_raw(self.alloc, self.coordinator.link_mut(), id, &call)?;
        Ok(line)
    }
}
