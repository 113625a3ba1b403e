// The run of a script from its first line to its record.
ghost use Rattle.std.specs.Prelude.{◌≡◌, ℕ, List, take, IfOk, IsErrOf};
ghost use Rattle.std.specs.List.{concat};
ghost use Rattle.std.specs.Io.KnownBytes.{Appends};
ghost use Rattle.client_pass.specs.Record.{IsRecord};
ghost use Rattle.least_collision.specs.Collision.{NoCollision};
ghost use Rattle.nim_outside.specs.Causes.{Rose};
ghost use Rattle.seal.specs.KeyBook.{book_accepts};
ghost use Rattle.world_run.specs.Printed.{MacPrints, MacPrintsFront};
ghost use Rattle.world_run.specs.Printing.{Wrote, WroteFront};
ghost use Rattle.world_run.specs.Replayed.{Prints, PrintsFirst};
ghost use Rattle.script_runs.specs.Begins.{first_ids};
ghost use Rattle.script_runs.specs.Roster.{KeysAreApart, all_members, members_by};
ghost use Rattle.script_runs.specs.Ids.{all_ids};
ghost use Rattle.world_run.specs.Seals.{mac_texts};
ghost use Rattle.world_run.specs.SetUp.{set_up_texts};

use crate::beginning::begin;
use crate::mac_seals::MacSeals;
use crate::recorded::run_begun;
use crate::seals::Seals;
use crate::world_fault::WorldFault;
use client_pass::Record;
use fault_script::Script;
use nim_outside::Sink;
use roster_bank::RunName;
use seal::{Checker, Scheme, Signer};
use stamp_clock::ClockStart;
use std::alloc::Global;
use std::marker::Brand;

/// The whole run, with the clock, the members and what is accepted by the name `N`.
fn run_all<M: Seals, N: RunName, K: Sink>(
    alloc: Global,
    seals: &M,
    start: ClockStart,
    script: &Script,
    sink: &mut K,
) -> Result<Record, WorldFault>
    requires names { start ≡ N.clock }
    requires members { N.members ≡ all_members (M.key_of seals.now) }
    requires accepts { N.accepts ≡ M.accepts seals.now }
    requires no_collision { NoCollision (set_up_texts (M.texts_of seals.now) script.now) }
    requires keys { KeysAreApart (M.key_of seals.now) }
    ensures record { IfOk result (λ made. IsRecord (M.accepts seals.now) made) }
    ensures roster { IfOk result (λ made. made.roster ≡ all_members (M.key_of seals.now)) }
    ensures genesis { IfOk result (λ made. made.genesis ≡ members_by (M.key_of seals.now) (first_ids script.now)) }
    ensures ran { IfOk result (λ made. (printed : List (List ℕ))
        × Prints M.Scheme.Signer.key_of M.Scheme.Signer.left_of M.Scheme.Signer.size_of M.Scheme.Signer.signs M.Scheme.fits M.Scheme.Checker.accepts (M.key_of seals.now) (M.left_of seals.now) (M.accepts seals.now) script.now made printed
        × Wrote (K.written sink.old) (K.written sink.new) printed) }
    ensures write { IsErrOf result WorldFault.Sink → Rose (K.fault_count sink.old) (K.fault_count sink.new) × ((printed : List (List ℕ))
        × PrintsFirst M.Scheme.Signer.key_of M.Scheme.Signer.left_of M.Scheme.Signer.size_of M.Scheme.Signer.signs M.Scheme.fits M.Scheme.Checker.accepts (M.key_of seals.now) (M.left_of seals.now) (M.accepts seals.now) script.now printed
        × WroteFront (K.written sink.old) (K.written sink.new) printed) }
    ensures no_memory { IsErrOf result WorldFault.NoMemory → (printed : List (List ℕ))
        × PrintsFirst M.Scheme.Signer.key_of M.Scheme.Signer.left_of M.Scheme.Signer.size_of M.Scheme.Signer.signs M.Scheme.fits M.Scheme.Checker.accepts (M.key_of seals.now) (M.left_of seals.now) (M.accepts seals.now) script.now printed
        × Wrote (K.written sink.old) (K.written sink.new) printed }
{
    let (clock, rest) = start.open::<N>();
    let begun = begin(alloc, seals, &clock, rest, script)?;
    run_begun(alloc, seals, begun, script, sink)
}

/// Runs a script with these signers and checkers, and puts each line that it prints with one `put`: the record of the run.
///
/// The roster is the ids 1 to 64, and view 0 has those of the first line. A refusal ends no run; want of memory and a failure of the sink
/// do. The sink has the lines of all script lines that were done then, and perhaps the front of one more where it failed.
pub fn replay_with<M: Seals, K: Sink>(
    alloc: Global,
    seals: &M,
    script: &Script,
    sink: &mut K,
) -> Result<Record, WorldFault>
    requires no_collision { NoCollision (set_up_texts (M.texts_of seals.now) script.now) }
    requires keys { KeysAreApart (M.key_of seals.now) }
    ensures record { IfOk result (λ made. IsRecord (M.accepts seals.now) made) }
    ensures roster { IfOk result (λ made. made.roster ≡ all_members (M.key_of seals.now)) }
    ensures genesis { IfOk result (λ made. made.genesis ≡ members_by (M.key_of seals.now) (first_ids script.now)) }
    ensures ran { IfOk result (λ made. (printed : List (List ℕ))
        × Prints M.Scheme.Signer.key_of M.Scheme.Signer.left_of M.Scheme.Signer.size_of M.Scheme.Signer.signs M.Scheme.fits M.Scheme.Checker.accepts (M.key_of seals.now) (M.left_of seals.now) (M.accepts seals.now) script.now made printed
        × Wrote (K.written sink.old) (K.written sink.new) printed) }
    // A failure of the sink shows in its count.
    ensures write { IsErrOf result WorldFault.Sink → Rose (K.fault_count sink.old) (K.fault_count sink.new) × ((printed : List (List ℕ))
        × PrintsFirst M.Scheme.Signer.key_of M.Scheme.Signer.left_of M.Scheme.Signer.size_of M.Scheme.Signer.signs M.Scheme.fits M.Scheme.Checker.accepts (M.key_of seals.now) (M.left_of seals.now) (M.accepts seals.now) script.now printed
        × WroteFront (K.written sink.old) (K.written sink.new) printed) }
    ensures no_memory { IsErrOf result WorldFault.NoMemory → (printed : List (List ℕ))
        × PrintsFirst M.Scheme.Signer.key_of M.Scheme.Signer.left_of M.Scheme.Signer.size_of M.Scheme.Signer.signs M.Scheme.fits M.Scheme.Checker.accepts (M.key_of seals.now) (M.left_of seals.now) (M.accepts seals.now) script.now printed
        × Wrote (K.written sink.old) (K.written sink.new) printed }
{
    let start = ClockStart::new(alloc)?;
    run_all::<M, Brand, K>(alloc, seals, start, script, sink)
}

/// Runs a script with the stand-ins for attested keys, as [`replay_with`] does with [`MacSeals`].
pub fn replay<K: Sink>(alloc: Global, script: &Script, sink: &mut K) -> Result<Record, WorldFault>
    requires { NoCollision (set_up_texts mac_texts script.now) }
    ensures record { IfOk result (λ made. IsRecord (book_accepts all_ids) made) }
    ensures ran { IfOk result (λ made. (printed : List (List ℕ)) × MacPrints script.now made printed × Appends (K.written sink.old) (K.written sink.new) (concat printed)) }
    ensures write { IsErrOf result WorldFault.Sink → Rose (K.fault_count sink.old) (K.fault_count sink.new)
        × ((printed : List (List ℕ)) × (n : ℕ) × MacPrintsFront script.now printed × Appends (K.written sink.old) (K.written sink.new) (take n (concat printed))) }
    ensures no_memory { IsErrOf result WorldFault.NoMemory → (printed : List (List ℕ)) × MacPrintsFront script.now printed × Appends (K.written sink.old) (K.written sink.new) (concat printed) }
{
    prove!(script.lines().len() <= 65536);
    replay_with(alloc, &MacSeals, script, sink)
}
