// Which calls the endorsers of a run are asked.
ghost use Rattle.std.specs.Prelude.{ℕ, List, []};
ghost use Rattle.endorser_cell.specs.CellBank.{CellBank};
ghost use Rattle.fault_script.specs.Command.{Command};
ghost use Rattle.view_ledger.specs.Receipts.{Accepts};
ghost use Rattle.script_world.specs.Running.{Running};
ghost use Rattle.script_runs.specs.Begins.{Begins};
ghost use Rattle.script_runs.specs.CallRules.{AppendedOnce, EntriesWereDrawn, OthersAreOwn};
ghost use Rattle.script_runs.specs.Runs.{AllCanRun, Runs};

use op_entry::entry_calls_are_own;
use op_latest::latest_calls_are_own;
use port::rows_have_own_bytes;
use seal::{Checker, Scheme, Signer};

/// Outside `raw` lines each append that an endorser served is of an entry that a client drew a nonce for by then: of the entry's ledger
/// and height, with its digest.
pub fn entries_were_drawn<G: Scheme>()
    ensures { (key_of : ℕ → List ℕ) (left_of : ℕ → ℕ) (checks : Accepts) (ids : List ℕ) (script : List Command) (first last : Running (CellBank G.Signer G.Checker) G.Checker) (printed : List (List ℕ))
        → AllCanRun script → Begins G.Signer.key_of G.Signer.left_of G.Checker.accepts key_of left_of checks ids first
        → (ran : Runs G.Signer.key_of G.Signer.left_of G.Signer.size_of G.Signer.signs G.fits G.Checker.accepts key_of left_of checks script first last printed)
        → EntriesWereDrawn G.Signer.key_of G.Signer.left_of G.Signer.size_of G.Signer.signs G.fits G.Checker.accepts key_of left_of checks script first last printed ran }
{
    rows_have_own_bytes();
    entry_calls_are_own();
    latest_calls_are_own();
}

/// Outside `raw` lines any two appends of one ledger and height that endorsers served are of one entry on one tail, unless a `store fork`
/// line for that row stands before the line of the later one.
pub fn appends_are_one<G: Scheme>()
    ensures { (key_of : ℕ → List ℕ) (left_of : ℕ → ℕ) (checks : Accepts) (ids : List ℕ) (script : List Command) (first last : Running (CellBank G.Signer G.Checker) G.Checker) (printed : List (List ℕ))
        → AllCanRun script → Begins G.Signer.key_of G.Signer.left_of G.Checker.accepts key_of left_of checks ids first
        → (ran : Runs G.Signer.key_of G.Signer.left_of G.Signer.size_of G.Signer.signs G.fits G.Checker.accepts key_of left_of checks script first last printed)
        → AppendedOnce G.Signer.key_of G.Signer.left_of G.Signer.size_of G.Signer.signs G.fits G.Checker.accepts key_of left_of checks [] [] script first last printed ran }
{
    rows_have_own_bytes();
    entry_calls_are_own();
    latest_calls_are_own();
}

/// `genesis` sets up view 0 and asks nothing else, requests and operations append and read for what they are, a `raw` line asks its own
/// call, and no other line has an endorser serve a call.
pub fn other_calls_are_own<G: Scheme>()
    ensures { (key_of : ℕ → List ℕ) (left_of : ℕ → ℕ) (checks : Accepts) (ids : List ℕ) (script : List Command) (first last : Running (CellBank G.Signer G.Checker) G.Checker) (printed : List (List ℕ))
        → AllCanRun script → Begins G.Signer.key_of G.Signer.left_of G.Checker.accepts key_of left_of checks ids first
        → (ran : Runs G.Signer.key_of G.Signer.left_of G.Signer.size_of G.Signer.signs G.fits G.Checker.accepts key_of left_of checks script first last printed)
        → OthersAreOwn G.Signer.key_of G.Signer.left_of G.Signer.size_of G.Signer.signs G.fits G.Checker.accepts key_of left_of checks script first last printed ran }
{
    rows_have_own_bytes();
    entry_calls_are_own();
    latest_calls_are_own();
}
