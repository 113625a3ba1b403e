// Which replies are accepted along the lines of a script.
ghost use Rattle.std.specs.Prelude.{◌∷◌, ℕ, List, []};
ghost use Rattle.endorser_cell.specs.CellBank.{CellBank};
ghost use Rattle.fault_script.specs.Command.{Command};
ghost use Rattle.script_runs.specs.Accepted.{AllAccepted};
ghost use Rattle.script_runs.specs.BadReplies.{NoneRefusedElse};
ghost use Rattle.script_runs.specs.Begins.{Begins};
ghost use Rattle.script_runs.specs.OneView.{AllKnowAlone};
ghost use Rattle.script_runs.specs.Roster.{all_members, members_by};
ghost use Rattle.script_runs.specs.Runs.{Runs};
ghost use Rattle.script_world.specs.Running.{Running};
ghost use Rattle.view_ledger.specs.Receipts.{Accepts};

use op_entry::entry_calls_are_own;
use seal::{Checker, Scheme, Signer};
use verifier::outcomes_mean;

/// Whatever lines a script has, its clients accept each reply of the coordinator, and judge each other reply by view 0, which all know
/// alone.
pub fn replies_are_accepted<G: Scheme>()
    ensures accepted { (key_of : ℕ → List ℕ) (left_of : ℕ → ℕ) (checks : Accepts) (ids : List ℕ) (script : List Command) (first last : Running (CellBank G.Signer G.Checker) G.Checker) (printed : List (List ℕ))
        → Begins G.Signer.key_of G.Signer.left_of G.Checker.accepts key_of left_of checks ids first
        → (runs : Runs G.Signer.key_of G.Signer.left_of G.Signer.size_of G.Signer.signs G.fits G.Checker.accepts key_of left_of checks script first last printed)
        → AllAccepted G.Signer.key_of G.Signer.left_of G.Signer.size_of G.Signer.signs G.fits G.Checker.accepts key_of left_of checks (members_by key_of ids ∷ []) script first last printed runs }
    // No line but an offer or a forged reply prints that a reply was refused.
    ensures elsewhere { (key_of : ℕ → List ℕ) (left_of : ℕ → ℕ) (checks : Accepts) (ids : List ℕ) (script : List Command) (first last : Running (CellBank G.Signer G.Checker) G.Checker) (printed : List (List ℕ))
        → Begins G.Signer.key_of G.Signer.left_of G.Checker.accepts key_of left_of checks ids first
        → (runs : Runs G.Signer.key_of G.Signer.left_of G.Signer.size_of G.Signer.signs G.fits G.Checker.accepts key_of left_of checks script first last printed)
        → NoneRefusedElse G.Signer.key_of G.Signer.left_of G.Signer.size_of G.Signer.signs G.fits G.Checker.accepts key_of left_of checks script first last printed runs }
    ensures view_0 { (key_of : ℕ → List ℕ) (left_of : ℕ → ℕ) (checks : Accepts) (ids : List ℕ) (script : List Command) (first last : Running (CellBank G.Signer G.Checker) G.Checker) (printed : List (List ℕ))
        → Begins G.Signer.key_of G.Signer.left_of G.Checker.accepts key_of left_of checks ids first
        → (runs : Runs G.Signer.key_of G.Signer.left_of G.Signer.size_of G.Signer.signs G.fits G.Checker.accepts key_of left_of checks script first last printed)
        → AllKnowAlone G.Signer.key_of G.Signer.left_of G.Signer.size_of G.Signer.signs G.fits G.Checker.accepts key_of left_of checks
        (record { roster = all_members key_of; configs = members_by key_of ids ∷ [] }) script first last printed runs }
{
    outcomes_mean();
    entry_calls_are_own();
}
