// What the calls of a settling show.
ghost use Rattle.std.specs.Prelude.{ℕ, List};
ghost use Rattle.std.specs.List.{AllByRecursion};
ghost use Rattle.port.specs.Cause.{Cause, IsShown, MemberCause, NoQuorum};
ghost use Rattle.port.specs.Trace.{Event, Had};
ghost use Rattle.view_ledger.specs.Receipts.{Accepts};
ghost use Rattle.op_parts.specs.RoundLaws.{IsToldBehind};
ghost use Rattle.settle.specs.Settling.{Settling};
ghost use Rattle.settle.specs.State.{State};
ghost use Rattle.settle.specs.Sound.{Sound};
ghost use Rattle.settle.specs.Says.{IsRefused};
ghost use Rattle.settle.specs.Laws.{IsOwnCall};

use catch_up::counts_are_told_on;
use op_parts::{members_are_shown, members_tell_counts, round_calls_are_own, walks_link};

/// A settling makes no call but gets of rows of its ledger, appends to members of the newest view, and attaches of receipts whose
/// marks were answered in these calls. What it appends, and to what it attaches, is its row or a good row that the store gave.
pub fn settling_calls_are_own()
    ensures { (accepts : Accepts) (settling : Settling) (state : State) (past : List Event) → Sound accepts settling state past
        → (event : Event) → Had past event → IsOwnCall accepts settling past event }
{
    round_calls_are_own();
    members_are_shown();
    walks_link();
}

/// The calls show the cause of each refusal.
pub fn refusals_are_shown()
    ensures cause { (accepts : Accepts) (settling : Settling) (past : List Event) (cause : Cause) → IsRefused accepts settling past cause → IsShown past cause }
    // Where members are too few, one has the reason that it is behind only where it said so to an append at the count that it
    // had told last.
    ensures behind { (accepts : Accepts) (settling : Settling) (past : List Event) (need : ℕ) (reasons : List (ℕ × MemberCause))
        → IsRefused accepts settling past (NoQuorum need reasons) → AllByRecursion (λ r. IsToldBehind past r.0 r.1) reasons }
{
    members_tell_counts();
    counts_are_told_on();
}
