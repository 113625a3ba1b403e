// What the setting up of view 0 answers over an empty store.
ghost use Rattle.std.specs.Prelude.{◌≡◌, ◌∷◌, [], List, Result};
ghost use Rattle.port.specs.Cause.{Cause};
ghost use Rattle.port.specs.Contents.{Contents};
ghost use Rattle.port.specs.Link.{Bank};
ghost use Rattle.port.specs.Trace.{Event, AreHonest, AreFaithful};
ghost use Rattle.port.specs.View.{ViewRow};
ghost use Rattle.view_ledger.specs.Views.{ViewChain};
ghost use Rattle.op_reconf.specs.Sound.{Sound};
ghost use Rattle.op_reconf.specs.State.{State, AtEnd};
ghost use Rattle.calm_first.specs.First.{BeforeFirst, CalmFirst};

use calm::{first_members_begin, new_services_are_calm};
use op_parts::quorums_are_parted;

/// The setting up of view 0 over a store that is honest and empty and a link that loses nothing, with members that weren't
/// initialized, ends with the view or for want of memory, and then the service is calm. Each member needs two stamps for it.
pub fn first_views_begin_calm()
    ensures { (first : BeforeFirst) (from : ViewChain) (state : State) (past : List Event) (answer : Result ViewRow Cause) (contents : Contents) (bank : Bank)
        → from.configs ≡ first.config ∷ [] → Sound first.accepts from state past → state.stage ≡ AtEnd answer
        → AreHonest first.contents past contents → AreFaithful first.signs first.bank past bank
        → CalmFirst first from.roster answer (record { contents = contents; bank = bank; left = first.left }) }
{
    first_members_begin();
    new_services_are_calm();
    quorums_are_parted();
}
