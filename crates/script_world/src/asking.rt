// What a client does that draws, asks the coordinator and takes its answer, one after the other. Each is over the clients and the coordinator
// alone: what else there is of a run stands beside it.
ghost use Rattle.std.specs.Prelude.{◌≡◌, ◌++◌, ◌∷◌, ◌<◌, ◌^◌, [], length, Some, None, IfOk, OnOk};
ghost use Rattle.chain_block.specs.declared.entry.Entry.{Entry};
ghost use Rattle.chain_block.specs.Entry.{IsWithinLimits, bare, nonce_of};
ghost use Rattle.endorser_cell.specs.CellBank.{bank_view};
ghost use Rattle.port.specs.Service.{Latest, At};
ghost use Rattle.client_pass.specs.Act.{Draw};
ghost use Rattle.client_acts.specs.ClientActs.{Each, IsOf, StaysOn};
ghost use Rattle.client_acts.specs.Turns.{turn_of};
ghost use Rattle.answer_lines.specs.Asking.{call_for};
ghost use Rattle.answer_lines.specs.Draws.{DrewEntry, DrewRead, IsOpen};
ghost use Rattle.answer_lines.specs.Taken.{TookAt, TookLatest, TookOwn};
ghost use Rattle.script_world.specs.Begun.{DrewOf};
ghost use Rattle.script_world.specs.Lines.{Asked};
ghost use Rattle.script_world.specs.Running.{seen};

use answer_lines::{ask_own, give_at, give_latest, give_own};
use blob_store::LyingStore;
use chain_block::Entry;
use client_acts::{ClientActs, clients_stay_on};
use coordinator::Coordinator;
use nim_base::{Digest, NoMemory, Nonce, Text};
use port::Service;
use roster_bank::{RosterBank, RunName};
use script_operations::served_so_far;
use seal::{Checker, Scheme, Signer};
use std::alloc::Global;

/// The checker of each client accepts what those of the run do.
fn see_checkers<C: Checker, K: RunName>(acts: &ClientActs<'_, C, K>)
    ensures { Each (IsOf C.accepts acts.now.first K.accepts) acts.now.clients }
{
    let _ = acts.count();
}

/// The client draws the nonce of the entry for it: the draw's number.
pub(crate) fn draw_entry<C: Checker, K: RunName>(
    acts: &mut ClientActs<'_, C, K>,
    client: usize,
    calls: usize,
    entry: &Entry,
) -> Result<u64, NoMemory>
    requires client { client < length acts.old.clients }
    requires within { IsWithinLimits entry.now }
    ensures drew { OnOk result (DrewOf acts.old acts.new client (Draw (nonce_of entry.now) (Some (bare entry.now)))) }
    ensures entry { IfOk result (λ draw. DrewEntry acts.new.clients client draw (bare entry.now)) }
    ensures open { IfOk result (λ draw. IsOpen acts.new.clients client draw) }
    ensures turn { OnOk result (acts.new.turns ≡ acts.old.turns ++ turn_of client calls 1 ∷ []) }
    ensures stays { StaysOn acts.old acts.new }
{
    clients_stay_on::<C>();
    let draw = acts.draw(client, calls, &entry.nonce(), Some(entry))?;
    Ok(draw)
}

/// The client draws the nonce for a latest read: the draw's number.
pub(crate) fn draw_read<C: Checker, K: RunName>(
    acts: &mut ClientActs<'_, C, K>,
    client: usize,
    calls: usize,
    nonce: &Nonce,
) -> Result<u64, NoMemory>
    requires client { client < length acts.old.clients }
    ensures drew { OnOk result (DrewOf acts.old acts.new client (Draw nonce.now None)) }
    ensures read { IfOk result (λ draw. DrewRead acts.new.clients client draw nonce.now) }
    ensures open { IfOk result (λ draw. IsOpen acts.new.clients client draw) }
    ensures turn { OnOk result (acts.new.turns ≡ acts.old.turns ++ turn_of client calls 1 ∷ []) }
    ensures stays { StaysOn acts.old acts.new }
{
    clients_stay_on::<C>();
    let draw = acts.draw(client, calls, nonce, None)?;
    Ok(draw)
}

/// The client draws for the entry, asks for it and takes the answer.
pub(crate) fn ask_for_entry<G: Scheme, K: RunName>(
    alloc: Global,
    acts: &mut ClientActs<'_, G::Checker, K>,
    coordinator: &mut Coordinator<LyingStore, RosterBank<'_, G, K>, G::Checker>,
    client: usize,
    label: &[u8],
    entry: &Entry,
) -> Result<Text, NoMemory>
    requires client { client < length acts.old.clients }
    requires within { IsWithinLimits entry.now }
    ensures asked { IfOk result (λ line. Asked G.Checker.accepts (bank_view G.Signer.key_of G.Signer.left_of G.Checker.accepts) (seen coordinator.old acts.old) (seen coordinator.new acts.new) client
        (Some (Draw (nonce_of entry.now) (Some (bare entry.now)))) (call_for entry.now) (λ checks sides answer. TookOwn checks sides label.now (bare entry.now) answer line.bytes)) }
    ensures stays { StaysOn acts.old acts.new }
{
    clients_stay_on::<G::Checker>();
    see_checkers(acts);
    let draw = draw_entry(acts, client, served_so_far(coordinator), entry)?;
    let answer = ask_own(alloc, coordinator, entry);
    let before = served_so_far(coordinator);
    let line = give_own(
        alloc,
        acts,
        coordinator,
        before,
        client,
        draw,
        label,
        entry,
        answer,
    )?;
    Ok(line)
}

/// The client draws the nonce, asks for the newest row and takes the answer.
pub(crate) fn ask_for_newest<G: Scheme, K: RunName>(
    alloc: Global,
    acts: &mut ClientActs<'_, G::Checker, K>,
    coordinator: &mut Coordinator<LyingStore, RosterBank<'_, G, K>, G::Checker>,
    client: usize,
    label: &[u8],
    handle: &Digest,
    nonce: &Nonce,
) -> Result<Text, NoMemory>
    requires client { client < length acts.old.clients }
    ensures asked { IfOk result (λ line. Asked G.Checker.accepts (bank_view G.Signer.key_of G.Signer.left_of G.Checker.accepts) (seen coordinator.old acts.old) (seen coordinator.new acts.new) client
        (Some (Draw nonce.now None)) (Latest handle.now nonce.now) (λ checks sides answer. TookLatest checks sides label.now handle.now nonce.now answer line.bytes)) }
    ensures stays { StaysOn acts.old acts.new }
{
    clients_stay_on::<G::Checker>();
    see_checkers(acts);
    let draw = draw_read(acts, client, served_so_far(coordinator), nonce)?;
    let answer = coordinator.latest(alloc, handle, nonce);
    let before = served_so_far(coordinator);
    let line = give_latest(
        alloc,
        acts,
        coordinator,
        before,
        client,
        draw,
        label,
        handle,
        nonce,
        answer,
    )?;
    Ok(line)
}

/// The client asks for the row at the height and takes the answer.
pub(crate) fn ask_for_row<G: Scheme, K: RunName>(
    alloc: Global,
    acts: &mut ClientActs<'_, G::Checker, K>,
    coordinator: &mut Coordinator<LyingStore, RosterBank<'_, G, K>, G::Checker>,
    client: usize,
    label: &[u8],
    handle: &Digest,
    height: u64,
) -> Result<Text, NoMemory>
    requires client { client < length acts.old.clients }
    requires below { height < 2 ^ 32 }
    ensures asked { IfOk result (λ line. Asked G.Checker.accepts (bank_view G.Signer.key_of G.Signer.left_of G.Checker.accepts) (seen coordinator.old acts.old) (seen coordinator.new acts.new) client
        None (At handle.now height) (λ checks sides answer. TookAt checks sides label.now handle.now height answer line.bytes)) }
    ensures stays { StaysOn acts.old acts.new }
{
    see_checkers(acts);
    let answer = coordinator.at(alloc, handle, height);
    let before = served_so_far(coordinator);
    let line = give_at(
        alloc,
        acts,
        coordinator,
        before,
        client,
        label,
        handle,
        height,
        answer,
    )?;
    Ok(line)
}
