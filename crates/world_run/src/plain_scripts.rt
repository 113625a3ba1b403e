// What a run of a plain script prints.
ghost use Rattle.std.specs.Prelude.{◌≡◌, ◌++◌, ℕ, List, true};
ghost use Rattle.client_pass.specs.Record.{Record as Made};
ghost use Rattle.fault_script.specs.Command.{Command};
ghost use Rattle.fault_script.specs.Script.{is_plain};
ghost use Rattle.view_ledger.specs.Receipts.{Accepts};
ghost use Rattle.world_run.specs.Plain.{nothing, replies};
ghost use Rattle.world_run.specs.PlainRun.{IsRunnable};
ghost use Rattle.world_run.specs.Replayed.{HaveLeftFor, PrintsFront, Replayed};

use crate::plain_laws::{plain_lines_get_plain_replies, plain_runs_begin};
use roster_bank::{RosterBank, RunName};
use seal::{Checker, Scheme, Signer};

/// A run of a plain script prints its plain replies, and some first lines of it print theirs.
pub(crate) fn plain_scripts_get_plain_replies<G: Scheme, N: RunName>()
    ensures whole { (key_of : ℕ → List ℕ) (left_of : ℕ → ℕ) (checks : Accepts) (texts_of : ℕ → List (List ℕ)) (script : List Command) (made : Made) (printed : List (List ℕ))
        → IsRunnable texts_of script → Replayed G.Signer.key_of G.Signer.left_of G.Signer.size_of G.Signer.signs G.fits G.Checker.accepts key_of left_of checks script made printed
        → is_plain script ≡ true → HaveLeftFor left_of script → printed ≡ replies nothing script }
    ensures front { (key_of : ℕ → List ℕ) (left_of : ℕ → ℕ) (checks : Accepts) (texts_of : ℕ → List (List ℕ)) (script : List Command) (printed : List (List ℕ))
        → IsRunnable texts_of script → PrintsFront G.Signer.key_of G.Signer.left_of G.Signer.size_of G.Signer.signs G.fits G.Checker.accepts key_of left_of checks script printed
        → is_plain script ≡ true → HaveLeftFor left_of script → (more : List (List ℕ)) × (replies nothing script ≡ printed ++ more) }
{
    plain_lines_get_plain_replies::<RosterBank<'_, G, N>, G::Checker>();
    plain_runs_begin::<RosterBank<'_, G, N>, G::Checker>();
}
