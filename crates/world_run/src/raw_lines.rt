// Endorsers that are asked directly.
ghost use Rattle.std.specs.Prelude.{◌≡◌, ◌≤◌, ◌<◌, ◌^◌, length, IfOk};
ghost use Rattle.statement.specs.Config.{ids};
ghost use Rattle.port.specs.Call.{Latest, Show};
ghost use Rattle.script_world.specs.Labels.{handle_for};
ghost use Rattle.script_world.specs.Nonce.{nonce};
ghost use Rattle.script_world.specs.Raw.{AnsweredRaw, AppendedRaw};
ghost use Rattle.script_world.specs.Running.{world_of};
ghost use Rattle.script_runs.specs.Runs.{DidRaw, said_in};
ghost use Rattle.script_runs.specs.Ids.{IsId, all_ids};

use nim_base::{NoMemory, Text};
use roster_bank::RunName;
use script_world::World;
use seal::{Checker, Scheme, Signer};

/// `raw append ID LABEL HEIGHT PAYLOAD NUMBER`.
pub(crate) fn raw_append<G: Scheme, N: RunName>(
    world: &mut World<'_, G, N>,
    id: u32,
    label: &[u8],
    height: u64,
    payload: &[u8],
    number: u64,
) -> Result<Option<Text>, NoMemory>
    requires members { ids N.members ≡ all_ids }
    requires id { IsId id }
    requires from { 1 ≤ height }
    requires below { height < 2 ^ 32 }
    requires payload { length payload.now ≤ 65536 }
    ensures { IfOk result (λ said. DidRaw G.Signer.key_of G.Signer.left_of G.Signer.size_of G.Signer.signs G.fits G.Checker.accepts N.accepts world.old world.new (said_in said)
        (AppendedRaw G.Signer.key_of G.Signer.left_of G.Signer.size_of G.Signer.signs G.fits world.old.state world.new.state.link id (handle_for (world_of world.old).labels label.now) height (nonce number) payload.now)) }
{
    world.calls_are_kept();
    let said = world.raw_append(id, label, height, payload, number);
    world.calls_are_kept();
    said
}

/// `raw latest ID LABEL NUMBER`.
pub(crate) fn raw_latest<G: Scheme, N: RunName>(
    world: &mut World<'_, G, N>,
    id: u32,
    label: &[u8],
    number: u64,
) -> Result<Option<Text>, NoMemory>
    requires members { ids N.members ≡ all_ids }
    requires id { IsId id }
    ensures { IfOk result (λ said. DidRaw G.Signer.key_of G.Signer.left_of G.Signer.size_of G.Signer.signs G.fits G.Checker.accepts N.accepts world.old world.new (said_in said)
        (AnsweredRaw G.Signer.key_of G.Signer.left_of G.Signer.size_of G.Signer.signs G.fits world.old.state.link world.new.state.link id (Latest (handle_for (world_of world.old).labels label.now) (nonce number)))) }
{
    world.calls_are_kept();
    let said = world.raw_latest(id, label, number);
    world.calls_are_kept();
    said
}

/// `raw show ID LABEL`.
pub(crate) fn raw_show<G: Scheme, N: RunName>(
    world: &mut World<'_, G, N>,
    id: u32,
    label: &[u8],
) -> Result<Option<Text>, NoMemory>
    requires members { ids N.members ≡ all_ids }
    requires id { IsId id }
    ensures { IfOk result (λ said. DidRaw G.Signer.key_of G.Signer.left_of G.Signer.size_of G.Signer.signs G.fits G.Checker.accepts N.accepts world.old world.new (said_in said)
        (AnsweredRaw G.Signer.key_of G.Signer.left_of G.Signer.size_of G.Signer.signs G.fits world.old.state.link world.new.state.link id (Show (handle_for (world_of world.old).labels label.now)))) }
{
    world.calls_are_kept();
    let said = world.raw_show(id, label);
    world.calls_are_kept();
    said
}
