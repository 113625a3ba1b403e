// What is known of the lists of calls that a run's endorsers keep, and of the turns of its clients.
ghost use Rattle.std.specs.List.{AllByRecursion};
ghost use Rattle.endorser_cell.specs.CellBank.{AreServed};
ghost use Rattle.roster_bank.specs.Roster.{IsRoster};
ghost use Rattle.script_world.specs.Running.{AreTurnsCounted};
ghost use Rattle.script_world.specs.Served.{HasLawfulList};

use crate::world::World;
use roster_bank::{RosterBank, RunName};
use seal::{Checker, Scheme, Signer};

fn see_list<G: Scheme, K: RunName>(bank: &RosterBank<'_, G, K>, id: u32)
    ensures { HasLawfulList G.Signer.key_of G.Checker.accepts bank.now id }
{
    if let Some(cell) = bank.cell(id) {
        let _ = cell.lines();
    }
}

impl<'w, G: Scheme, K: RunName> World<'w, G, K> {
    /// The lines of each endorser are the calls that it served, and the endorsers are the run's roster. It does nothing.
    pub fn calls_are_kept(&self)
        ensures served { AreServed self.now.state.link }
        ensures roster { IsRoster G.Signer.key_of G.Checker.accepts K.members K.accepts self.now.state.link }
    {
        let _ = self.coordinator.link().log();
    }

    /// The turns of the clients have all lines that they wrote, and no more. It does nothing.
    pub fn turns_are_counted(&self)
        ensures { AreTurnsCounted self.now }
    {
        let _ = self.acts.turns();
    }

    /// The lines of each of these endorsers are a lawful call list. It does nothing.
    pub fn lists_are_lawful(&self, ids: &[u32])
        ensures { AllByRecursion (HasLawfulList G.Signer.key_of G.Checker.accepts self.now.state.link) ids.now }
    {
        for id in ids {
            see_list(self.coordinator.link(), *id);
        }
    }
}
