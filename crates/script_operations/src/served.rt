ghost use Rattle.std.specs.Prelude.{◌≡◌};
ghost use Rattle.endorser_cell.specs.CellBank.{bank_view};
ghost use Rattle.roster_bank.specs.Counting.{served_count};

use coordinator::Coordinator;
use port::Store;
use roster_bank::{RosterBank, RunName};
use seal::{Checker, Scheme, Signer};

/// How many calls the endorsers of a run served so far, by its coordinator.
pub fn served_so_far<S: Store, G: Scheme, K: RunName>(
    coordinator: &Coordinator<S, RosterBank<'_, G, K>, G::Checker>,
) -> usize
    ensures { result ≡ served_count (bank_view G.Signer.key_of G.Signer.left_of G.Checker.accepts coordinator.now.link) }
{
    coordinator.link().served()
}
