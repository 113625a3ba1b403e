// In which order the events of a run come.
ghost use Rattle.std.specs.Prelude.{◌≡◌, ℕ, List, []};
ghost use Rattle.endorser_cell.specs.CellBank.{CellBank};
ghost use Rattle.fault_script.specs.Command.{Command};
ghost use Rattle.script_runs.specs.Begins.{Begins};
ghost use Rattle.script_runs.specs.Runs.{AllCanRun, Runs};
ghost use Rattle.script_runs.specs.Stamps.{AllInOrder, events_of};
ghost use Rattle.script_world.specs.Running.{Running};
ghost use Rattle.view_ledger.specs.Receipts.{Accepts};

use op_entry::entry_calls_are_own;
use op_latest::latest_calls_are_own;
use port::rows_have_own_bytes;
use seal::{Checker, Scheme, Signer};

/// The events of each line of a script come after those of the lines before it: a draw first, then the calls that endorsers served, then
/// what the line's client wrote.
pub fn events_are_in_order<G: Scheme>()
    ensures lines { (key_of : ℕ → List ℕ) (left_of : ℕ → ℕ) (checks : Accepts) (ids : List ℕ) (script : List Command) (first last : Running (CellBank G.Signer G.Checker) G.Checker) (printed : List (List ℕ))
        → AllCanRun script → Begins G.Signer.key_of G.Signer.left_of G.Checker.accepts key_of left_of checks ids first
        → (ran : Runs G.Signer.key_of G.Signer.left_of G.Signer.size_of G.Signer.signs G.fits G.Checker.accepts key_of left_of checks script first last printed)
        → AllInOrder G.Signer.key_of G.Signer.left_of G.Signer.size_of G.Signer.signs G.fits G.Checker.accepts key_of left_of checks script first last printed ran }
    // A run has none when it begins.
    ensures none { (key_of : ℕ → List ℕ) (left_of : ℕ → ℕ) (checks : Accepts) (ids roster : List ℕ) (first : Running (CellBank G.Signer G.Checker) G.Checker)
        → Begins G.Signer.key_of G.Signer.left_of G.Checker.accepts key_of left_of checks ids first → events_of roster first ≡ [] }
{
    rows_have_own_bytes();
    entry_calls_are_own();
    latest_calls_are_own();
}
