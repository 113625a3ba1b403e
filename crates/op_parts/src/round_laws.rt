// Laws of the calls of a round.
ghost use Rattle.std.specs.Prelude.{◌≡◌, ◌+◌, ◌<◌, ◌≤◌, ℕ, Bool, List, length, map, take};
ghost use Rattle.std.specs.List.{AllByRecursion};
ghost use Rattle.statement.specs.Config.{ids, quorum, weight_together, IsConfig};
ghost use Rattle.statement.specs.Mark.{id_of};
ghost use Rattle.port.specs.Cause.{IsMemberShown};
ghost use Rattle.port.specs.Trace.{Event, Had};
ghost use Rattle.view_ledger.specs.Receipts.{Accepts, IsAccepted};
ghost use Rattle.op_parts.specs.RoundAsking.{Asking, claim};
ghost use Rattle.op_parts.specs.RoundLaws.{IsOwnCall, IsMarkShown, AreParted, IsToldBehind};
ghost use Rattle.op_parts.specs.RoundOutcome.{held};
ghost use Rattle.op_parts.specs.RoundSound.{Sound};
ghost use Rattle.op_parts.specs.RoundState.{State};

use catch_up::{answers_are_shown, calls_are_own, counts_are_told_on};

/// A round makes no call but gets of rows below its own and appends to members of the view, each of its row or of a good
/// row below it that the store gave.
pub fn round_calls_are_own()
    ensures { (accepts : Accepts) (ask : Asking) (state : State) (past : List Event) → Sound accepts ask state past
        → (event : Event) → Had past event → IsOwnCall ask past event }
{
    calls_are_own();
}

/// What the calls of a round show of the members that were asked.
pub fn members_are_shown()
    ensures marks { (accepts : Accepts) (ask : Asking) (state : State) (past : List Event) → Sound accepts ask state past
        → AllByRecursion (IsMarkShown accepts ask past) state.marks }
    ensures reasons { (accepts : Accepts) (ask : Asking) (state : State) (past : List Event) → Sound accepts ask state past
        → AllByRecursion (λ r. IsMemberShown past r.0 r.1) state.reasons }
    // Each has a mark or a reason, in the order of the members.
    ensures each { (accepts : Accepts) (ask : Asking) (state : State) (past : List Event) → Sound accepts ask state past
        → AreParted (take state.asked (ids ask.members)) (map id_of state.marks) (map (λ r. r.0) state.reasons) }
    // Where all were asked and the marks are no quorum, those without a reason can be none.
    ensures few { (accepts : Accepts) (ask : Asking) (state : State) (past : List Event) → Sound accepts ask state past
        → state.asked ≡ length ask.members → weight_together ask.members (map id_of state.marks) < quorum ask.members
        → length ask.members < length state.reasons + quorum ask.members }
    // Where all were asked and the marks are a quorum, they make a receipt of the row that the view accepts.
    ensures accepted { (accepts : Accepts) (ask : Asking) (state : State) (past : List Event) → Sound accepts ask state past
        → IsConfig ask.members → state.asked ≡ length ask.members → quorum ask.members ≤ weight_together ask.members (map id_of state.marks)
        → IsAccepted accepts ask.members ask.view (record { statement = held (claim ask); marks = state.marks }) }
{
    answers_are_shown();
}

/// A member has the reason that it is behind only where it said so to an append at the count that it had told last.
pub fn members_tell_counts()
    ensures { (accepts : Accepts) (ask : Asking) (state : State) (past : List Event) → Sound accepts ask state past
        → AllByRecursion (λ r. IsToldBehind past r.0 r.1) state.reasons }
{
    counts_are_told_on();
}
