// Which marks of the replies that clients took were signed by endorsers of the run.
ghost use Rattle.std.specs.Prelude.{ℕ, List};
ghost use Rattle.endorser_cell.specs.CellBank.{CellBank};
ghost use Rattle.fault_script.specs.Command.{Command};
ghost use Rattle.script_runs.specs.Begins.{Begins};
ghost use Rattle.script_runs.specs.Runs.{AllCanRun, Runs};
ghost use Rattle.script_runs.specs.SignedMarks.{AllSigned, HaveFourBytes};
ghost use Rattle.script_world.specs.Running.{Running};
ghost use Rattle.view_ledger.specs.Receipts.{Accepts};

use op_entry::entry_calls_are_own;
use seal::{Checker, Scheme, Signer};
use verifier::outcomes_mean;

/// Outside `offer` and `forge` lines each mark of a reply that a client checked, accepted or looked at, is over a statement that the
/// mark's endorser had signed by then, with that signature.
pub fn marks_were_signed<G: Scheme>()
    ensures { (key_of : ℕ → List ℕ) (left_of : ℕ → ℕ) (checks : Accepts) (ids : List ℕ) (script : List Command) (first last : Running (CellBank G.Signer G.Checker) G.Checker) (printed : List (List ℕ))
        → HaveFourBytes ids → AllCanRun script → Begins G.Signer.key_of G.Signer.left_of G.Checker.accepts key_of left_of checks ids first
        → (runs : Runs G.Signer.key_of G.Signer.left_of G.Signer.size_of G.Signer.signs G.fits G.Checker.accepts key_of left_of checks script first last printed)
        → AllSigned G.Signer.key_of G.Signer.left_of G.Signer.size_of G.Signer.signs G.fits G.Checker.accepts key_of left_of checks script first last printed runs }
{
    outcomes_mean();
    entry_calls_are_own();
}
