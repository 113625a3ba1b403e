ghost use Rattle.std.specs.Prelude.{◌≡◌, ◌≤◌, ◌+◌, ◌*◌, ◌++◌, ◌∷◌, [], ℕ, List, IfOk, OnOk};
ghost use Rattle.fault_script.specs.Within.{AreIds};
ghost use Rattle.stamp_clock.specs.Stamps.{stamps};
ghost use Rattle.view_ledger.specs.Extension.{AreGenuine};
ghost use Rattle.endorser_cell.specs.EndorserCell.{EndorserCell as Cell};
ghost use Rattle.script_runs.specs.Ids.{IsId};
ghost use Rattle.script_runs.specs.Roster.{IsNewBank, IsNewCell, all_members, member_by, members_by, share};

use crate::mac_seals::IDS;
use crate::seals::Seals;
use endorser_cell::EndorserCell;
use endorser_core::Endorser;
use nim_base::NoMemory;
use roster_bank::{RosterBank, RunName};
use seal::{Scheme, Signer};
use stamp_clock::{Clock, Pass};
use statement::{Config, ConfigFault, Member};
use std::alloc::Global;
use view_ledger::ViewChain;

/// How many stamps an endorser gets.
const SHARE: u64 = 1 << 40;

/// The endorsers of a run, as members in rising ids, and the bank of them.
#[derive(Drop)]
pub(crate) struct RunEndorsers<'w, G: Scheme, K: RunName> {
    pub members: Vec<Member>,
    pub bank: RosterBank<'w, G, K>,
}

/// Adds the endorser of this id, as a member and as a cell.
fn push_endorser<M: Seals, K: RunName>(
    alloc: Global,
    seals: &M,
    clock: &Clock<K>,
    rest: &mut Pass<K>,
    id: u32,
    members: &mut Vec<Member>,
    cells: &mut Vec<EndorserCell<M::Scheme, K>>,
) -> Result<(), NoMemory>
    requires id { IsId id }
    requires left { share ≤ rest.old.left }
    ensures members { OnOk result (members.new.items ≡ members.old.items ++ member_by (M.key_of seals.now) id ∷ []) }
    ensures cells { OnOk result ((cell : Cell M.Scheme.Signer M.Scheme.Checker) × (cells.new.items ≡ cells.old.items ++ cell ∷ [])
        × IsNewCell M.Scheme.Signer.key_of M.Scheme.Signer.left_of M.Scheme.Checker.accepts (M.key_of seals.now) (M.left_of seals.now) (M.accepts seals.now) id cell) }
    ensures drawn { OnOk result (rest.new.drawn ≡ rest.old.drawn) }
    ensures left { OnOk result (rest.new.left + share ≡ rest.old.left) }
{
    let signer = seals.signer(alloc, id)?;
    let key = signer.key();
    let checker = seals.checker(alloc)?;
    let pass = clock.split(rest, SHARE)?;
    members.push(Member { id, key })?;
    let cell = EndorserCell::new(alloc, Endorser::new(id, signer, checker), pass);
    cells.push(cell)?;
    Ok(())
}

/// The endorsers of the ids 1 to 64. Each gets 2^40 stamps of the pass.
pub(crate) fn endorsers_of<'w, M: Seals, K: RunName>(
    alloc: Global,
    seals: &M,
    clock: &'w Clock<K>,
    rest: &mut Pass<K>,
) -> Result<RunEndorsers<'w, M::Scheme, K>, NoMemory>
    requires members { K.members ≡ all_members (M.key_of seals.now) }
    requires accepts { K.accepts ≡ M.accepts seals.now }
    requires left { 64 * share ≤ rest.old.left }
    ensures members { IfOk result (λ made. made.members.items ≡ all_members (M.key_of seals.now)) }
    ensures bank { IfOk result (λ made.
        IsNewBank M.Scheme.Signer.key_of M.Scheme.Signer.left_of M.Scheme.Checker.accepts (M.key_of seals.now) (M.left_of seals.now) (M.accepts seals.now) made.bank) }
    ensures drawn { OnOk result (rest.new.drawn ≡ rest.old.drawn) }
    ensures left { OnOk result (rest.new.left + 64 * share ≡ rest.old.left) }
{
    let mut members = Vec::with_capacity(alloc, IDS as usize)?;
    let mut cells = Vec::with_capacity(alloc, IDS as usize)?;
    for below in 0..IDS {
        push_endorser(
            alloc,
            seals,
            clock,
            rest,
            below + 1,
            &mut members,
            &mut cells,
        )?;
    }
    Ok(RunEndorsers {
        members,
        bank: RosterBank::new(alloc, clock, cells),
    })
}

/// The members of these ids.
fn picked(alloc: Global, members: &[Member], ids: &[u32]) -> Result<Vec<Member>, NoMemory>
    requires ids { AreIds ids.now }
    requires members { (key_of : ℕ → List ℕ) × (members.now ≡ all_members key_of) }
    ensures { IfOk result (λ picked. (key_of : ℕ → List ℕ) → members.now ≡ all_members key_of → picked.items ≡ members_by key_of ids.now) }
{
    let mut picked = Vec::with_capacity(alloc, ids.len())?;
    for id in ids {
        picked.push(members[*id as usize - 1])?;
    }
    Ok(picked)
}

/// The config of the members of these ids.
pub(crate) fn config_of(alloc: Global, members: &[Member], ids: &[u32]) -> Result<Config, NoMemory>
    requires ids { AreIds ids.now }
    requires members { (key_of : ℕ → List ℕ) × (members.now ≡ all_members key_of) }
    ensures config { IfOk result (λ config. (key_of : ℕ → List ℕ) → members.now ≡ all_members key_of → config ≡ members_by key_of ids.now) }
    ensures genuine { IfOk result (λ config. AreGenuine members.now config) }
{
    match Config::of(alloc, &picked(alloc, members, ids)?) {
        Ok(config) => Ok(config),
        Err(ConfigFault::NoMemory) => Err(NoMemory),
        Err(ConfigFault::Empty) => unreachable!(),
        Err(ConfigFault::Many) => unreachable!(),
        Err(ConfigFault::Order { .. }) => unreachable!(),
    }
}

/// The chain that has the view of this config alone, whose members are all of the roster.
pub(crate) fn first_chain(
    alloc: Global,
    config: &Config,
    roster: &[Member],
) -> Result<ViewChain, NoMemory>
    requires { AreGenuine roster.now config.now }
    ensures { IfOk result (λ chain. chain ≡ record { roster = roster.now; configs = config.now ∷ [] }) }
{
    match ViewChain::start(alloc, config, roster) {
        Ok(chain) => Ok(chain),
        Err(_) => Err(NoMemory),
    }
}
