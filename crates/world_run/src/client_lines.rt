// What clients ask for, at once or as an operation that is begun.
ghost use Rattle.std.specs.Prelude.{◌≡◌, ◌++◌, ◌<◌, true, length, IfOk, OnOk};
ghost use Rattle.fault_script.specs.Command.{Plain};
ghost use Rattle.fault_script.specs.Limits.{is_served};
ghost use Rattle.fault_script.specs.Seen.{request_of};
ghost use Rattle.fault_script.specs.Within.{IsRequestWithin};
ghost use Rattle.endorser_cell.specs.CellBank.{bank_view};
ghost use Rattle.roster_bank.specs.Counting.{served_count};
ghost use Rattle.script_world.specs.Carried.{CameAs, KeepsNames};
ghost use Rattle.script_world.specs.Going.{GoesOn};
ghost use Rattle.script_world.specs.Running.{world_of};
ghost use Rattle.script_runs.specs.Runs.{Does, Began, DidBegin, DidRequest, Opens, client_in, said_in, turns_begun};

use crate::seals::Seals;
use fault_script::Act;
use nim_base::{NoMemory, Text};
use roster_bank::RunName;
use script_world::World;
use seal::{Checker, Scheme, Signer};
use std::alloc::Global;

/// The name of the client of an act. A reconfigure has none.
fn client_name(act: &Act) -> &[u8]
    ensures { result.now ≡ client_in (request_of act.now) }
{
    match act {
        Act::New { client, .. } => client.bytes(),
        Act::Append { client, .. } => client.bytes(),
        Act::Latest { client, .. } => client.bytes(),
        Act::At { client, .. } => client.bytes(),
        Act::Reconfigure { .. } => b"",
    }
}

/// The place of the client of an act, who comes where it wasn't there.
fn client_of<M: Seals, N: RunName>(
    alloc: Global,
    seals: &M,
    world: &mut World<'_, M::Scheme, N>,
    act: &Act,
) -> Result<usize, NoMemory>
    requires checks { M.accepts seals.now ≡ N.accepts }
    ensures came { IfOk result (λ place. CameAs M.Scheme.Checker.accepts N.accepts world.old world.new (client_in (request_of act.now)) place) }
    ensures place { IfOk result (λ place. place < length world.new.clients) }
{
    if let Some(place) = world.client(client_name(act)) {
        return Ok(place);
    }
    // a checker takes the keys of all ids, so it is made for those who come alone
    let checker = seals.checker(alloc)?;
    world.add_client(client_name(act), checker)
}

/// What a client asks for is done at once.
fn ask<G: Scheme, N: RunName>(
    world: &mut World<'_, G, N>,
    client: usize,
    act: &Act,
) -> Result<Text, NoMemory>
    requires client { client < length world.old.clients }
    requires served { is_served (Plain (request_of act.now)) ≡ true }
    requires within { IsRequestWithin (request_of act.now) }
    ensures does { IfOk result (λ line. Does G.Checker.accepts (bank_view G.Signer.key_of G.Signer.left_of G.Checker.accepts) (world_of world.old) (world_of world.new) client (request_of act.now) line.bytes) }
    ensures keeps { KeepsNames world.old world.new }
{
    match act {
        Act::New { label, payload, .. } => {
            world.new_ledger(client, label.bytes(), payload.bytes())
        }
        Act::Append {
            label,
            height,
            payload,
            ..
        } => world.append(client, label.bytes(), *height, payload.bytes()),
        Act::Latest { label, .. } => world.latest(client, label.bytes()),
        Act::At { label, height, .. } => world.at(client, label.bytes(), *height),
        Act::Reconfigure { .. } => unreachable!(),
    }
}

/// A client asks for something, and takes the answer.
pub(crate) fn run_act<M: Seals, N: RunName>(
    alloc: Global,
    seals: &M,
    world: &mut World<'_, M::Scheme, N>,
    act: &Act,
) -> Result<Option<Text>, NoMemory>
    requires checks { M.accepts seals.now ≡ N.accepts }
    requires served { is_served (Plain (request_of act.now)) ≡ true }
    requires within { IsRequestWithin (request_of act.now) }
    ensures { IfOk result (λ said. DidRequest M.Scheme.Signer.key_of M.Scheme.Signer.left_of M.Scheme.Signer.size_of M.Scheme.Signer.signs M.Scheme.fits M.Scheme.Checker.accepts N.accepts world.old world.new (said_in said) (request_of act.now)) }
{
    let client = client_of(alloc, seals, world, act)?;
    let line = ask(world, client, act)?;
    world.turns_are_counted();
    Ok(Some(line))
}

/// An operation for what a client asks for is begun.
fn begin<G: Scheme, N: RunName>(
    world: &mut World<'_, G, N>,
    op: &[u8],
    client: usize,
    act: &Act,
) -> Result<(), NoMemory>
    requires client { client < length world.old.clients }
    requires served { is_served (Plain (request_of act.now)) ≡ true }
    requires within { IsRequestWithin (request_of act.now) }
    ensures began { OnOk result (Began (world_of world.old) (world_of world.new) client (request_of act.now)) }
    ensures opens { OnOk result (Opens world.old world.new client op.now (request_of act.now)) }
    ensures goes { OnOk result (GoesOn (world_of world.old) (world_of world.new)) }
    ensures turns { OnOk result (world.new.turns ≡ world.old.turns ++ turns_begun client (served_count (bank_view G.Signer.key_of G.Signer.left_of G.Checker.accepts world.old.state.link)) (request_of act.now)) }
{
    match act {
        Act::New { label, payload, .. } => {
            world.begin_new(op, client, label.bytes(), payload.bytes())
        }
        Act::Append {
            label,
            height,
            payload,
            ..
        } => world.begin_append(op, client, label.bytes(), *height, payload.bytes()),
        Act::Latest { label, .. } => world.begin_latest(op, client, label.bytes()),
        Act::At { label, height, .. } => world.begin_at(op, client, label.bytes(), *height),
        Act::Reconfigure { .. } => unreachable!(),
    }
}

/// `begin OP ACT`. It prints nothing.
pub(crate) fn run_begin<M: Seals, N: RunName>(
    alloc: Global,
    seals: &M,
    world: &mut World<'_, M::Scheme, N>,
    op: &[u8],
    act: &Act,
) -> Result<Option<Text>, NoMemory>
    requires checks { M.accepts seals.now ≡ N.accepts }
    requires served { is_served (Plain (request_of act.now)) ≡ true }
    requires within { IsRequestWithin (request_of act.now) }
    ensures { IfOk result (λ said. DidBegin M.Scheme.Signer.key_of M.Scheme.Signer.left_of M.Scheme.Signer.size_of M.Scheme.Signer.signs M.Scheme.fits M.Scheme.Checker.accepts N.accepts world.old world.new (said_in said) op.now (request_of act.now)) }
{
    let client = client_of(alloc, seals, world, act)?;
    begin(world, op, client, act)?;
    world.turns_are_counted();
    Ok(None)
}
