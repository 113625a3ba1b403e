// A run from its beginning to its record.
ghost use Rattle.std.specs.Prelude.{◌≡◌, ◌≢◌, ◌∷◌, [], ℕ, List, AllPairs, IfOk, IsErrOf, map, slice_index_or};
ghost use Rattle.statement.specs.declared.member.Member.{Member as GenuineMember};
ghost use Rattle.statement.specs.Config.{ids};
ghost use Rattle.client_pass.specs.ClientList.{stamps_of};
ghost use Rattle.client_pass.specs.Record.{IsRecord, call_stamps};
ghost use Rattle.least_collision.specs.Collision.{NoCollision};
ghost use Rattle.nim_outside.specs.Causes.{Rose};
ghost use Rattle.roster_bank.specs.Roster.{lists_of};
ghost use Rattle.run_record.specs.Events.{is_client, is_endorser, places};
ghost use Rattle.run_record.specs.Stamping.{acts_of, calls_of};
ghost use Rattle.view_ledger.specs.Extension.{AreGenuine};
ghost use Rattle.world_run.specs.Printing.{Wrote, WroteFront};
ghost use Rattle.script_runs.specs.Begins.{Begins, first_ids};
ghost use Rattle.world_run.specs.Replayed.{Prints, PrintsFirst};
ghost use Rattle.script_runs.specs.Stamps.{events_of};
ghost use Rattle.script_runs.specs.Roster.{KeysAreApart, all_members, members_by};
ghost use Rattle.world_run.specs.SetUp.{set_up_texts};

use crate::beginning::Begun;
use crate::plain_scripts::plain_scripts_get_plain_replies;
use crate::running::run_lines;
use crate::seals::Seals;
use crate::world_fault::WorldFault;
use client_pass::Record;
use fault_script::Script;
use nim_base::NoMemory;
use nim_outside::Sink;
use roster_bank::RunName;
use run_order::record_of_run;
use script_runs::runs_belong_to_scripts;
use script_world::World;
use seal::{Checker, Scheme, Signer};
use statement::{Config, Member};
use std::alloc::Global;

/// The record of a run that came so far.
fn recorded<G: Scheme, N: RunName>(
    alloc: Global,
    world: World<'_, G, N>,
    roster: Vec<Member>,
    genesis: Config,
) -> Result<Record, NoMemory>
    ensures cells { IfOk result (λ made. map calls_of made.cells ≡ map calls_of (lists_of world.entry.state.link.cells)) }
    ensures passes { IfOk result (λ made. map acts_of made.passes ≡ map (λ client. acts_of client.lines) world.entry.clients) }
    ensures call_stamps { IfOk result (λ made. (place : ℕ) → slice_index_or (map call_stamps made.cells) place [] ≡ places (is_endorser place) (events_of (ids N.members) world.entry)) }
    ensures act_stamps { IfOk result (λ made. (place : ℕ) → slice_index_or (map stamps_of made.passes) place [] ≡ places (is_client place) (events_of (ids N.members) world.entry)) }
    ensures roster { IfOk result (λ made. made.roster ≡ roster.items) }
    ensures genesis { IfOk result (λ made. made.genesis ≡ genesis) }
    ensures record { IfOk result (λ made. roster.items ≡ N.members → world.entry.first ≡ record { roster = N.members; configs = genesis ∷ [] }
        → AllPairs (λ (one other : GenuineMember). one.key ≢ other.key) N.members → AreGenuine N.members genesis → IsRecord N.accepts made) }
{
    let (acts, coordinator) = world.into_parts();
    let (_, _, bank, _) = coordinator.into_parts();
    record_of_run(alloc, genesis, roster, acts, bank)
}

/// Runs the lines of the script and makes the record of what was done.
pub(crate) fn run_begun<M: Seals, N: RunName, K: Sink>(
    alloc: Global,
    seals: &M,
    begun: Begun<'_, M::Scheme, N>,
    script: &Script,
    sink: &mut K,
) -> Result<Record, WorldFault>
    requires members { N.members ≡ all_members (M.key_of seals.now) }
    requires accepts { N.accepts ≡ M.accepts seals.now }
    requires no_collision { NoCollision (set_up_texts (M.texts_of seals.now) script.now) }
    requires keys { KeysAreApart (M.key_of seals.now) }
    requires begins { Begins M.Scheme.Signer.key_of M.Scheme.Signer.left_of M.Scheme.Checker.accepts (M.key_of seals.now) (M.left_of seals.now) (M.accepts seals.now)
        (first_ids script.now) begun.world }
    requires roster { begun.roster.items ≡ all_members (M.key_of seals.now) }
    requires genesis { begun.genesis ≡ members_by (M.key_of seals.now) (first_ids script.now) }
    requires genuine { AreGenuine begun.roster.items begun.genesis }
    ensures record { IfOk result (λ made. IsRecord (M.accepts seals.now) made) }
    ensures roster { IfOk result (λ made. made.roster ≡ all_members (M.key_of seals.now)) }
    ensures genesis { IfOk result (λ made. made.genesis ≡ members_by (M.key_of seals.now) (first_ids script.now)) }
    ensures ran { IfOk result (λ made. (printed : List (List ℕ))
        × Prints M.Scheme.Signer.key_of M.Scheme.Signer.left_of M.Scheme.Signer.size_of M.Scheme.Signer.signs M.Scheme.fits M.Scheme.Checker.accepts (M.key_of seals.now) (M.left_of seals.now) (M.accepts seals.now) script.now made printed
        × Wrote (K.written sink.old) (K.written sink.new) printed) }
    ensures write { IsErrOf result WorldFault.Sink → Rose (K.fault_count sink.old) (K.fault_count sink.new) × ((printed : List (List ℕ))
        × PrintsFirst M.Scheme.Signer.key_of M.Scheme.Signer.left_of M.Scheme.Signer.size_of M.Scheme.Signer.signs M.Scheme.fits M.Scheme.Checker.accepts (M.key_of seals.now) (M.left_of seals.now) (M.accepts seals.now) script.now printed
        × WroteFront (K.written sink.old) (K.written sink.new) printed) }
    ensures no_memory { IsErrOf result WorldFault.NoMemory → (printed : List (List ℕ))
        × PrintsFirst M.Scheme.Signer.key_of M.Scheme.Signer.left_of M.Scheme.Signer.size_of M.Scheme.Signer.signs M.Scheme.fits M.Scheme.Checker.accepts (M.key_of seals.now) (M.left_of seals.now) (M.accepts seals.now) script.now printed
        × Wrote (K.written sink.old) (K.written sink.new) printed }
{
    plain_scripts_get_plain_replies::<M::Scheme, N>();
    runs_belong_to_scripts::<M::Scheme>();
    let Begun {
        mut world,
        roster,
        genesis,
    } = begun;
    run_lines(alloc, seals, &mut world, script.lines(), sink)?;
    world.calls_are_kept();
    Ok(recorded(alloc, world, roster, genesis)?)
}
