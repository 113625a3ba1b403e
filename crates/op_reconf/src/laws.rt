// Laws of the calls that set up view 0.
ghost use Rattle.std.specs.Prelude.{◌≡◌, List, Err};
ghost use Rattle.port.specs.Cause.{Cause, IsShown};
ghost use Rattle.port.specs.Trace.{Event};
ghost use Rattle.view_ledger.specs.Views.{ViewChain};
ghost use Rattle.view_ledger.specs.Receipts.{Accepts};
ghost use Rattle.op_reconf.specs.OwnCalls.{OwnCalls};
ghost use Rattle.op_reconf.specs.Sound.{Sound};
ghost use Rattle.op_reconf.specs.State.{AtEnd, State};

use op_parts::quorums_are_parted;

/// The setting up of view 0 makes no call but the put of the view, then to each of its members the call to belong to it and,
/// once it was done with that, the call to begin in it, and the attaching of the mark once a quorum was done with both.
pub fn first_calls_are_own()
    ensures { (accepts : Accepts) (from : ViewChain) (state : State) (past : List Event) → Sound accepts from state past → OwnCalls from past }
{
    quorums_are_parted();
}

/// What was refused is shown by the calls that were made.
pub fn first_refusals_are_shown()
    ensures { (accepts : Accepts) (from : ViewChain) (state : State) (past : List Event) (cause : Cause) → Sound accepts from state past
        → state.stage ≡ AtEnd (Err cause) → IsShown past cause }
{
    quorums_are_parted();
}
