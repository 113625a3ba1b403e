// What the runs of scripts owe to their scripts, in one.
ghost use Rattle.std.specs.Prelude.{ℕ, List};
ghost use Rattle.script_runs.specs.Belongs.{RunsBelong};
ghost use Rattle.view_ledger.specs.Receipts.{Accepts};

use crate::accepted_replies::replies_are_accepted;
use crate::asked_for::{losses_were_asked_for, store_faults_were_asked_for};
use crate::event_order::events_are_in_order;
use crate::own_calls::{appends_are_one, entries_were_drawn, other_calls_are_own};
use crate::signed_marks::marks_were_signed;
use seal::{Checker, Scheme, Signer};

/// Each run of a script whose lines keep their limits, or of its first lines, belongs to it.
pub fn runs_belong_to_scripts<G: Scheme>()
    ensures { (key_of : ℕ → List ℕ) (left_of : ℕ → ℕ) (checks : Accepts)
        → RunsBelong G.Signer.key_of G.Signer.left_of G.Signer.size_of G.Signer.signs G.fits G.Checker.accepts key_of left_of checks }
{
    replies_are_accepted::<G>();
    entries_were_drawn::<G>();
    appends_are_one::<G>();
    other_calls_are_own::<G>();
    events_are_in_order::<G>();
    marks_were_signed::<G>();
    losses_were_asked_for::<G>();
    store_faults_were_asked_for::<G>();
}
