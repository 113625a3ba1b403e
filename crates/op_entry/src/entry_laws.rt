// What the calls of an operation show.
ghost use Rattle.std.specs.Prelude.{ℕ, List, Err};
ghost use Rattle.std.specs.List.{AllByRecursion};
ghost use Rattle.port.specs.Cause.{Cause, IsShown, MemberCause, NoQuorum};
ghost use Rattle.port.specs.Trace.{Event};
ghost use Rattle.view_ledger.specs.Receipts.{Accepts};
ghost use Rattle.view_ledger.specs.Views.{ViewChain};
ghost use Rattle.op_parts.specs.RoundLaws.{IsToldBehind};
ghost use Rattle.op_entry.specs.Ask.{Ask};
ghost use Rattle.op_entry.specs.Laws.{OwnCalls};
ghost use Rattle.op_entry.specs.Says.{Says};
ghost use Rattle.op_entry.specs.Sound.{Sound};
ghost use Rattle.op_entry.specs.State.{State};

use catch_up::counts_are_told_on;
use settle::{refusals_are_shown, settling_calls_are_own};

/// A new ledger, an append and a read at a height make no call but gets of views and of what ended them, the get of the row below
/// the one that is appended, the put and the get of the own row, and those of the settling of their row, which the store took or gave.
pub fn entry_calls_are_own()
    ensures { (accepts : Accepts) (ask : Ask) (from : ViewChain) (state : State) (past : List Event) → Sound accepts ask from state past
        → OwnCalls accepts ask state.chain.configs past }
{
    settling_calls_are_own();
}

/// The calls show the cause of each refusal.
pub fn entry_refusals_are_shown()
    ensures cause { (accepts : Accepts) (ask : Ask) (from chain : ViewChain) (past : List Event) (cause : Cause)
        → Says accepts ask from chain past (Err cause) → IsShown past cause }
    // Where members are too few, one has the reason that it is behind only where it said so to an append at the count that it
    // had told last.
    ensures behind { (accepts : Accepts) (ask : Ask) (from chain : ViewChain) (past : List Event) (need : ℕ) (reasons : List (ℕ × MemberCause))
        → Says accepts ask from chain past (Err (NoQuorum need reasons)) → AllByRecursion (λ r. IsToldBehind past r.0 r.1) reasons }
{
    refusals_are_shown();
    counts_are_told_on();
}
