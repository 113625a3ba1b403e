// The lines of a script, one after the other, and what is put of each.
ghost use Rattle.std.specs.Prelude.{◌≡◌, ◌≤◌, IsErrOf, OnOk};
ghost use Rattle.std.specs.List.{concat};
ghost use Rattle.statement.specs.Config.{ids};
ghost use Rattle.fault_script.specs.Seen.{command_of, commands_of};
ghost use Rattle.nim_outside.specs.Causes.{HasCause, Puts, Rose};
ghost use Rattle.script_runs.specs.Runs.{AllCanRun, CanRun, said_in};
ghost use Rattle.script_runs.specs.Ids.{all_ids};
ghost use Rattle.world_run.specs.Printing.{DidAndPut, RanAndPut, RanFrontAndPut, Wrote, WroteFront};

use crate::run_line::run_line;
use crate::seals::Seals;
use crate::world_fault::WorldFault;
use fault_script::Line;
use nim_base::Text;
use nim_outside::{Fault, Sink};
use roster_bank::RunName;
use script_world::World;
use seal::{Checker, Scheme, Signer};
use std::alloc::Global;

/// Puts the line, where there is one.
fn put_line<K: Sink>(said: &Option<Text>, sink: &mut K) -> Result<(), Fault>
    ensures bytes { Puts (K.written sink.old) (K.written sink.new) result (concat (said_in said.now)) }
    ensures cause { HasCause (K.fault_count sink.old) (K.fault_count sink.new) result }
{
    match said {
        Some(line) => sink.put(line.bytes()),
        None => Ok(()),
    }
}

/// Runs a line, and puts what it prints with one `put`.
fn run_and_put<M: Seals, N: RunName, K: Sink>(
    alloc: Global,
    seals: &M,
    world: &mut World<'_, M::Scheme, N>,
    line: &Line,
    sink: &mut K,
) -> Result<(), WorldFault>
    requires checks { M.accepts seals.now ≡ N.accepts }
    requires members { ids N.members ≡ all_ids }
    requires can_run { CanRun (command_of line.now) }
    ensures did { OnOk result (DidAndPut M.Scheme.Signer.key_of M.Scheme.Signer.left_of M.Scheme.Signer.size_of M.Scheme.Signer.signs M.Scheme.fits M.Scheme.Checker.accepts (M.key_of seals.now) (M.left_of seals.now) N.accepts
        (command_of line.now) world.old world.new (Wrote (K.written sink.old) (K.written sink.new))) }
    ensures write { IsErrOf result WorldFault.Sink → Rose (K.fault_count sink.old) (K.fault_count sink.new)
        × DidAndPut M.Scheme.Signer.key_of M.Scheme.Signer.left_of M.Scheme.Signer.size_of M.Scheme.Signer.signs M.Scheme.fits M.Scheme.Checker.accepts (M.key_of seals.now) (M.left_of seals.now) N.accepts
        (command_of line.now) world.old world.new (WroteFront (K.written sink.old) (K.written sink.new)) }
    ensures no_memory { IsErrOf result WorldFault.NoMemory → sink.new ≡ sink.old }
    ensures faults { K.fault_count sink.old ≤ K.fault_count sink.new }
{
    let said = run_line(alloc, seals, world, line)?;
    put_line(&said, sink)?;
    Ok(())
}

/// Runs all lines, one after the other.
pub(crate) fn run_lines<M: Seals, N: RunName, K: Sink>(
    alloc: Global,
    seals: &M,
    world: &mut World<'_, M::Scheme, N>,
    lines: &[Line],
    sink: &mut K,
) -> Result<(), WorldFault>
    requires checks { M.accepts seals.now ≡ N.accepts }
    requires members { ids N.members ≡ all_ids }
    requires can_run { AllCanRun (commands_of lines.now) }
    ensures ran { OnOk result (RanAndPut M.Scheme.Signer.key_of M.Scheme.Signer.left_of M.Scheme.Signer.size_of M.Scheme.Signer.signs M.Scheme.fits M.Scheme.Checker.accepts (M.key_of seals.now) (M.left_of seals.now) N.accepts
        (commands_of lines.now) world.old world.new (Wrote (K.written sink.old) (K.written sink.new))) }
    ensures write { IsErrOf result WorldFault.Sink → Rose (K.fault_count sink.old) (K.fault_count sink.new)
        × RanFrontAndPut M.Scheme.Signer.key_of M.Scheme.Signer.left_of M.Scheme.Signer.size_of M.Scheme.Signer.signs M.Scheme.fits M.Scheme.Checker.accepts (M.key_of seals.now) (M.left_of seals.now) N.accepts
        (commands_of lines.now) world.old (WroteFront (K.written sink.old) (K.written sink.new)) }
    ensures no_memory { IsErrOf result WorldFault.NoMemory →
        RanFrontAndPut M.Scheme.Signer.key_of M.Scheme.Signer.left_of M.Scheme.Signer.size_of M.Scheme.Signer.signs M.Scheme.fits M.Scheme.Checker.accepts (M.key_of seals.now) (M.left_of seals.now) N.accepts
        (commands_of lines.now) world.old (Wrote (K.written sink.old) (K.written sink.new)) }
{
    for line in lines {
        run_and_put(alloc, seals, world, line, sink)?;
    }
    Ok(())
}
