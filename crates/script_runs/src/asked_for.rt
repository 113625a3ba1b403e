// Which losses and failures a run tells of.
ghost use Rattle.std.specs.Prelude.{ℕ, List};
ghost use Rattle.endorser_cell.specs.CellBank.{CellBank};
ghost use Rattle.fault_script.specs.Command.{Command};
ghost use Rattle.script_runs.specs.AskedFor.{LossesWereAskedFor, StoreFaultsWereAskedFor};
ghost use Rattle.script_runs.specs.Begins.{Begins};
ghost use Rattle.script_runs.specs.Runs.{Runs};
ghost use Rattle.script_world.specs.Running.{Running};
ghost use Rattle.view_ledger.specs.Receipts.{Accepts};

use op_entry::entry_refusals_are_shown;
use op_latest::latest_refusals_are_shown;
use seal::{Checker, Scheme, Signer};

/// Up to each line, a run blames no endorser as lost more often than the `lose` lines for it add up to.
pub fn losses_were_asked_for<G: Scheme>()
    ensures { (key_of : ℕ → List ℕ) (left_of : ℕ → ℕ) (checks : Accepts) (ids : List ℕ) (script : List Command) (first last : Running (CellBank G.Signer G.Checker) G.Checker) (printed : List (List ℕ))
        → Begins G.Signer.key_of G.Signer.left_of G.Checker.accepts key_of left_of checks ids first
        → (ran : Runs G.Signer.key_of G.Signer.left_of G.Signer.size_of G.Signer.signs G.fits G.Checker.accepts key_of left_of checks script first last printed)
        → LossesWereAskedFor G.Signer.key_of G.Signer.left_of G.Signer.size_of G.Signer.signs G.fits G.Checker.accepts key_of left_of checks script first last printed ran }
{}

/// Up to each line, a run tells no more faults of its store than the `store fail` lines add up to.
pub fn store_faults_were_asked_for<G: Scheme>()
    ensures { (key_of : ℕ → List ℕ) (left_of : ℕ → ℕ) (checks : Accepts) (ids : List ℕ) (script : List Command) (first last : Running (CellBank G.Signer G.Checker) G.Checker) (printed : List (List ℕ))
        → Begins G.Signer.key_of G.Signer.left_of G.Checker.accepts key_of left_of checks ids first
        → (ran : Runs G.Signer.key_of G.Signer.left_of G.Signer.size_of G.Signer.signs G.fits G.Checker.accepts key_of left_of checks script first last printed)
        → StoreFaultsWereAskedFor G.Signer.key_of G.Signer.left_of G.Signer.size_of G.Signer.signs G.fits G.Checker.accepts key_of left_of checks script first last printed ran }
{
    entry_refusals_are_shown();
    latest_refusals_are_shown();
}
