// Calls that get lost, and a store that lies or fails. Such lines print nothing.
ghost use Rattle.std.specs.Prelude.{◌≡◌, [], IfOk};
ghost use Rattle.blob_store.specs.declared.lie.Lie.TheVariants as lies;
ghost use Rattle.script_runs.specs.Runs.{DidLose, EndsLies, FailsMore, Lies, row_at, said_in};

use endorser_cell::Loss;
use nim_base::{NoMemory, Text};
use roster_bank::RunName;
use script_world::World;
use seal::{Checker, Scheme, Signer};

/// `lose request ID N` and `lose reply ID N`.
pub(crate) fn lose<G: Scheme, N: RunName>(
    world: &mut World<'_, G, N>,
    id: u32,
    which: Loss,
    n: u64,
) -> Result<Option<Text>, NoMemory>
    ensures { IfOk result (λ said. DidLose G.Signer.key_of G.Signer.left_of G.Signer.size_of G.Signer.signs G.fits G.Checker.accepts N.accepts world.old world.new (said_in said) id which n) }
{
    world.calls_are_kept();
    world.lose(id, which, n);
    world.calls_are_kept();
    Ok(None)
}

/// `store fail N`.
pub(crate) fn fail<G: Scheme, N: RunName>(
    world: &mut World<'_, G, N>,
    n: u64,
) -> Result<Option<Text>, NoMemory>
    ensures { IfOk result (λ said. FailsMore world.old world.new n × (said_in said ≡ [])) }
{
    world.fail_next(n);
    Ok(None)
}

/// `store hide LABEL HEIGHT`.
pub(crate) fn hide<G: Scheme, N: RunName>(
    world: &mut World<'_, G, N>,
    label: &[u8],
    height: u64,
) -> Result<Option<Text>, NoMemory>
    ensures { IfOk result (λ said. Lies world.old world.new (lies.Hide (row_at world.old world.new label.now height)) × (said_in said ≡ [])) }
{
    world.hide(label, height)?;
    Ok(None)
}

/// `store stale LABEL HEIGHT FROM`.
pub(crate) fn stale<G: Scheme, N: RunName>(
    world: &mut World<'_, G, N>,
    label: &[u8],
    height: u64,
    from: u64,
) -> Result<Option<Text>, NoMemory>
    ensures { IfOk result (λ said. Lies world.old world.new (lies.Stale (row_at world.old world.new label.now height) (row_at world.old world.new label.now from)) × (said_in said ≡ [])) }
{
    world.stale(label, height, from)?;
    Ok(None)
}

/// `store fork LABEL HEIGHT`.
pub(crate) fn fork<G: Scheme, N: RunName>(
    world: &mut World<'_, G, N>,
    label: &[u8],
    height: u64,
) -> Result<Option<Text>, NoMemory>
    ensures { IfOk result (λ said. Lies world.old world.new (lies.Fork (row_at world.old world.new label.now height)) × (said_in said ≡ [])) }
{
    world.fork(label, height)?;
    Ok(None)
}

/// `store honest`.
pub(crate) fn honest<G: Scheme, N: RunName>(
    world: &mut World<'_, G, N>,
) -> Result<Option<Text>, NoMemory>
    ensures { IfOk result (λ said. EndsLies world.old world.new × (said_in said ≡ [])) }
{
    world.honest();
    Ok(None)
}
