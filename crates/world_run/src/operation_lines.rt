// Operations that were begun and go on, and replies that are made up for them.
ghost use Rattle.std.specs.Prelude.{◌≡◌, map, IfOk};
ghost use Rattle.std.specs.List.{AllByRecursion};
ghost use Rattle.fault_script.specs.Within.{AreIds};
ghost use Rattle.script_runs.specs.Runs.{DidFinish, DidForge, DidOffer, DidRetry, DidStep, said_in};

use crate::seals::Seals;
use nim_base::{NoMemory, Text};
use roster_bank::RunName;
use script_world::{MemberSigner, World};
use seal::{Checker, Scheme, Signer};
use std::alloc::Global;

/// `step OP N`.
pub(crate) fn step<G: Scheme, N: RunName>(
    world: &mut World<'_, G, N>,
    op: &[u8],
    n: u64,
) -> Result<Option<Text>, NoMemory>
    ensures { IfOk result (λ said. DidStep G.Signer.key_of G.Signer.left_of G.Signer.size_of G.Signer.signs G.fits G.Checker.accepts N.accepts world.old world.new (said_in said) op.now n) }
{
    world.step(op, n);
    Ok(None)
}

/// `finish OP`.
pub(crate) fn finish<G: Scheme, N: RunName>(
    world: &mut World<'_, G, N>,
    op: &[u8],
) -> Result<Option<Text>, NoMemory>
    ensures { IfOk result (λ said. DidFinish G.Signer.key_of G.Signer.left_of G.Signer.size_of G.Signer.signs G.fits G.Checker.accepts N.accepts world.old world.new (said_in said) op.now) }
{
    let said = world.finish(op);
    world.turns_are_counted();
    said
}

/// `retry OP`.
pub(crate) fn retry<G: Scheme, N: RunName>(
    world: &mut World<'_, G, N>,
    op: &[u8],
) -> Result<Option<Text>, NoMemory>
    ensures { IfOk result (λ said. DidRetry G.Signer.key_of G.Signer.left_of G.Signer.size_of G.Signer.signs G.fits G.Checker.accepts N.accepts world.old world.new (said_in said) op.now) }
{
    let said = world.retry(op);
    world.turns_are_counted();
    said
}

/// `offer OP IDS`.
pub(crate) fn offer<G: Scheme, N: RunName>(
    world: &mut World<'_, G, N>,
    op: &[u8],
    ids: &[u32],
) -> Result<Option<Text>, NoMemory>
    ensures { IfOk result (λ said. DidOffer G.Signer.key_of G.Signer.left_of G.Signer.size_of G.Signer.signs G.fits G.Checker.accepts N.accepts world.old world.new (said_in said) op.now ids.now) }
{
    world.calls_are_kept();
    world.lists_are_lawful(ids);
    let said = world.offer(op, ids);
    world.turns_are_counted();
    said
}

/// New signers of these ids.
fn signers_of<M: Seals>(
    alloc: Global,
    seals: &M,
    ids: &[u32],
) -> Result<Vec<MemberSigner<<M::Scheme as Scheme>::Signer>>, NoMemory>
    requires { AreIds ids.now }
    ensures ids { IfOk result (λ signers. map (λ signer. signer.id) signers.items ≡ ids.now) }
    ensures keys { IfOk result (λ signers. AllByRecursion (λ signer. (M.Scheme.Signer.key_of signer.signer ≡ M.key_of seals.now signer.id) × (M.Scheme.Signer.left_of signer.signer ≡ M.left_of seals.now signer.id)) signers.items) }
{
    let mut signers = Vec::with_capacity(alloc, ids.len())?;
    for id in ids {
        let signer = seals.signer(alloc, *id)?;
        signers.push(MemberSigner { id: *id, signer })?;
    }
    Ok(signers)
}

/// `forge OP COUNT IDS`.
pub(crate) fn forge<M: Seals, N: RunName>(
    alloc: Global,
    seals: &M,
    world: &mut World<'_, M::Scheme, N>,
    op: &[u8],
    count: u64,
    ids: &[u32],
) -> Result<Option<Text>, NoMemory>
    requires { AreIds ids.now }
    ensures { IfOk result (λ said. DidForge M.Scheme.Signer.key_of M.Scheme.Signer.left_of M.Scheme.Signer.size_of M.Scheme.Signer.signs M.Scheme.fits M.Scheme.Checker.accepts (M.key_of seals.now) (M.left_of seals.now) N.accepts world.old world.new (said_in said) op.now count ids.now) }
{
    let signers = signers_of(alloc, seals, ids)?;
    let said = world.forge(op, count, signers);
    world.turns_are_counted();
    said
}
