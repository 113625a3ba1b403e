// What each kind of line makes of a run, and what it prints.
ghost use Rattle.std.specs.Prelude.{◌≡◌, [], IfOk};
ghost use Rattle.statement.specs.Config.{ids};
ghost use Rattle.fault_script.specs.Seen.{command_of};
ghost use Rattle.script_runs.specs.Ids.{all_ids};
ghost use Rattle.script_runs.specs.Runs.{CanRun, DidGenesis, DidLine, DidRestart, said_in};

use crate::client_lines::{run_act, run_begin};
use crate::fault_lines::{fail, fork, hide, honest, lose, stale};
use crate::operation_lines::{finish, forge, offer, retry, step};
use crate::raw_lines::{raw_append, raw_latest, raw_show};
use crate::seals::Seals;
use endorser_cell::Loss;
use fault_script::Line;
use nim_base::{NoMemory, Text};
use reply_lines::{refusal_line, view_line};
use roster_bank::RunName;
use script_world::World;
use seal::{Checker, Scheme, Signer};
use std::alloc::Global;

/// The first line: the coordinator sets up view 0.
fn run_genesis<G: Scheme, N: RunName>(
    alloc: Global,
    world: &mut World<'_, G, N>,
    ids: &[u32],
) -> Result<Option<Text>, NoMemory>
    ensures { IfOk result (λ said. DidGenesis G.Signer.key_of G.Signer.left_of G.Signer.size_of G.Signer.signs G.fits G.Checker.accepts N.accepts world.old world.new (said_in said) ids.now) }
{
    match world.genesis() {
        Ok(_) => Ok(Some(view_line(alloc, 0, ids)?)),
        Err(refusal) => Ok(Some(refusal_line(alloc, b"", &refusal)?)),
    }
}

fn restart<G: Scheme, N: RunName>(world: &mut World<'_, G, N>) -> Result<Option<Text>, NoMemory>
    ensures { IfOk result (λ said. DidRestart world.old world.new × (said_in said ≡ [])) }
{
    world.restart()?;
    Ok(None)
}

/// A line makes of the run what its kind does, and this is what it prints. Its one error is want of memory.
pub(crate) fn run_line<M: Seals, N: RunName>(
    alloc: Global,
    seals: &M,
    world: &mut World<'_, M::Scheme, N>,
    line: &Line,
) -> Result<Option<Text>, NoMemory>
    requires checks { M.accepts seals.now ≡ N.accepts }
    requires members { ids N.members ≡ all_ids }
    requires can_run { CanRun (command_of line.now) }
    ensures { IfOk result (λ said. DidLine M.Scheme.Signer.key_of M.Scheme.Signer.left_of M.Scheme.Signer.size_of M.Scheme.Signer.signs M.Scheme.fits M.Scheme.Checker.accepts (M.key_of seals.now) (M.left_of seals.now) N.accepts world.old world.new (said_in said) (command_of line.now)) }
{
    match line {
        Line::Genesis { ids } => run_genesis(alloc, world, ids),
        Line::Plain { act } => run_act(alloc, seals, world, act),
        Line::Restart => restart(world),
        Line::Begin { op, act } => run_begin(alloc, seals, world, op.bytes(), act),
        Line::Step { op, n } => step(world, op.bytes(), *n),
        Line::Finish { op } => finish(world, op.bytes()),
        Line::Retry { op } => retry(world, op.bytes()),
        Line::LoseRequest { id, n } => lose(world, *id, Loss::Request, *n),
        Line::LoseReply { id, n } => lose(world, *id, Loss::Reply, *n),
        Line::StoreFail { n } => fail(world, *n),
        Line::StoreHide { label, height } => hide(world, label.bytes(), *height),
        Line::StoreStale {
            label,
            height,
            from,
        } => stale(world, label.bytes(), *height, *from),
        Line::StoreFork { label, height } => fork(world, label.bytes(), *height),
        Line::StoreHonest => honest(world),
        Line::RawAppend {
            id,
            label,
            height,
            payload,
            nonce,
        } => raw_append(world, *id, label.bytes(), *height, payload.bytes(), *nonce),
        Line::RawLatest { id, label, nonce } => raw_latest(world, *id, label.bytes(), *nonce),
        Line::RawShow { id, label } => raw_show(world, *id, label.bytes()),
        Line::RawFinalize { .. } => unreachable!(),
        Line::Offer { op, ids } => offer(world, op.bytes(), ids),
        Line::Forge { op, count, ids } => forge(alloc, seals, world, op.bytes(), *count, ids),
        Line::End => Ok(None),
    }
}
