// A run before its first line.
ghost use Rattle.std.specs.Prelude.{◌≡◌, ◌≤◌, ◌*◌, IfOk};
ghost use Rattle.fault_script.specs.Seen.{commands_of};
ghost use Rattle.fault_script.specs.Within.{AreIds};
ghost use Rattle.view_ledger.specs.Extension.{AreGenuine};
ghost use Rattle.script_runs.specs.Begins.{Begins, first_ids};
ghost use Rattle.script_runs.specs.Roster.{all_members, members_by, share};

use crate::roster::{RunEndorsers, config_of, endorsers_of, first_chain};
use crate::seals::Seals;
use blob_store::LyingStore;
use coordinator::Coordinator;
use fault_script::{Line, Script};
use nim_base::NoMemory;
use roster_bank::RunName;
use script_world::World;
use seal::{Checker, Scheme, Signer};
use stamp_clock::{Clock, Pass};
use statement::{Config, Member};
use std::alloc::Global;

/// A run of which no line was done, and what its record has of its members.
#[derive(Drop)]
pub(crate) struct Begun<'w, G: Scheme, N: RunName> {
    pub world: World<'w, G, N>,
    pub roster: Vec<Member>,
    pub genesis: Config,
}

/// The ids of the first line.
fn ids_of(lines: &[Line]) -> &[u32]
    ensures { result.now ≡ first_ids (commands_of lines.now) }
{
    match lines.first() {
        Some(Line::Genesis { ids }) => ids,
        _ => &[],
    }
}

/// The run of a script before its first line: no client, nothing in the store, and 64 endorsers that were asked nothing.
pub(crate) fn begin<'w, M: Seals, N: RunName>(
    alloc: Global,
    seals: &M,
    clock: &'w Clock<N>,
    mut rest: Pass<N>,
    script: &Script,
) -> Result<Begun<'w, M::Scheme, N>, NoMemory>
    requires members { N.members ≡ all_members (M.key_of seals.now) }
    requires accepts { N.accepts ≡ M.accepts seals.now }
    requires left { 64 * share ≤ rest.left }
    ensures begins { IfOk result (λ begun. Begins M.Scheme.Signer.key_of M.Scheme.Signer.left_of M.Scheme.Checker.accepts (M.key_of seals.now) (M.left_of seals.now) (M.accepts seals.now)
        (first_ids script.now) begun.world) }
    ensures roster { IfOk result (λ begun. begun.roster.items ≡ all_members (M.key_of seals.now)) }
    ensures genesis { IfOk result (λ begun. begun.genesis ≡ members_by (M.key_of seals.now) (first_ids script.now)) }
    ensures genuine { IfOk result (λ begun. AreGenuine begun.roster.items begun.genesis) }
{
    let RunEndorsers { members, bank } = endorsers_of(alloc, seals, clock, &mut rest)?;
    let genesis = config_of(alloc, &members, ids_of(script.lines()))?;
    let chain = first_chain(alloc, &genesis, &members)?;
    let first = chain.copy(alloc)?;
    let checker = seals.checker(alloc)?;
    let coordinator = Coordinator::new(alloc, chain, LyingStore::new(alloc), bank, checker);
    Ok(Begun {
        world: World::new(alloc, clock, rest, first, coordinator),
        roster: members,
        genesis,
    })
}
